//! Readers that fail, that don't end, and that are asked for much.

use crate::files::text_of;
use crate::sample::file_of;
use gu_ref::Reference;
use gu_streams::CountedReads;
use std::alloc::Global;
use std::io;
use std::io::Read;
use std::process::Abort;

/// Returns why the rows of a reader are refused, or `OK`.
fn told<R: Read + Drop>(rt: &impl Abort, alloc: Global, reader: R) -> String {
    text_of(
        rt,
        alloc,
        Reference::read(alloc, &mut CountedReads::new(reader)),
    )
}

/// A reader that gives a byte at a time, then fails.
#[derive(Drop)]
struct Failing<'a> {
    file: &'a [u8],
}

impl<'a> Read for Failing<'a> {
    fn read(&mut self, buf: &mut [u8]) -> io::Result<usize> {
        let Some((first, others)) = self.file.split_first() else {
            return Err(io::Error::from(io::ErrorKind::BrokenPipe));
        };
        let Some(place) = buf.first_mut() else {
            return Ok(0);
        };
        *place = *first;
        self.file = others;
        Ok(1)
    }
}

/// A reader of line ends without end.
#[derive(Drop)]
struct Endless;

impl Read for Endless {
    fn read(&mut self, buf: &mut [u8]) -> io::Result<usize> {
        let Some(place) = buf.first_mut() else {
            return Ok(0);
        };
        *place = b'\n';
        Ok(1)
    }
}

/// A reader that keeps the greatest length that it was asked for, and how often it was asked.
#[derive(Drop)]
struct Recording<'a> {
    file: &'a [u8],
    greatest: usize,
    reads: usize,
}

impl<'a> Read for Recording<'a> {
    fn read(&mut self, buf: &mut [u8]) -> io::Result<usize> {
        self.greatest = self.greatest.max(buf.len());
        self.reads = self.reads.saturating_add(1);
        self.file.read(buf)
    }
}

/// Files of readers that fail after them, unless a row before that is refused.
const FAILING: [(&str, &str); 3] = [
    ("", "ReadFault"),
    ("FIRM,E1\nFIRM,E", "ReadFault"),
    ("FIRM,E1\nFIRM,E1\n", "Twice 2"),
];

/// Reads a file from a reader that fails after it, and compares the outcome.
fn check_failing(rt: &impl Abort, alloc: Global, file: &str, want: &str) {
    let file = file.as_bytes();
    let text = told(rt, alloc, Failing { file });
    assert_eq!(rt; text.as_str(), want, "{file:?}");
}

/// Reads a file, and sees how it is asked for.
fn check_reads(rt: &impl Abort, alloc: Global, file: &[u8]) {
    let mut reader = Recording {
        file,
        greatest: 0,
        reads: 0,
    };
    let text = told(rt, alloc, &mut reader);
    assert_eq!(rt; text.as_str(), "OK");
    assert_eq!(rt; reader.greatest, 4_096);
    // The end may be asked for twice.
    assert!(rt; reader.reads <= file.len().div_ceil(4_096) + 2);
}

#[test]
fn a_reader_fails_has_no_end_or_is_asked_for_4096_bytes(rt: HostRuntime) {
    for (file, want) in FAILING {
        check_failing(&rt, rt.alloc(), file, want);
    }
    let text = told(&rt, rt.alloc(), Endless);
    assert_eq!(rt; text.as_str(), "ReadFault");
    let largest = file_of(rt.alloc(), "the largest", "")
        .ok()
        .expect(&rt, "the largest file");
    check_reads(&rt, rt.alloc(), largest.as_bytes());
}
