//! Readers whose reads are counted: what is a wait, and what is a failure.

use gu_streams::{CountedReads, Turn};
use std::io::{self, ErrorKind, Read};

/// What a line does when it is read.
#[derive(Clone, Copy)]
enum Next {
    Text(&'static [u8]),
    Error(ErrorKind),
}

/// A line that does these, one after another, and then is at its end.
#[derive(Drop)]
struct Line<'a> {
    next: &'a [Next],
}

impl Read for Line<'_> {
    fn read(&mut self, buf: &mut [u8]) -> io::Result<usize> {
        let [next, later @ ..] = self.next else {
            return Ok(0);
        };
        self.next = later;
        match next {
            Next::Text(text) => {
                let mut text = *text;
                text.read(buf)
            }
            Next::Error(kind) => Err(io::Error::from(*kind)),
        }
    }
}

/// A line that has nothing for now so often, and then is at its end.
#[derive(Drop)]
struct Silence {
    waits: u32,
}

impl Read for Silence {
    fn read(&mut self, _buf: &mut [u8]) -> io::Result<usize> {
        if self.waits == 0 {
            return Ok(0);
        }
        self.waits -= 1;
        Err(io::Error::from(ErrorKind::WouldBlock))
    }
}

/// A line that may be silent is asked by turns.
const SILENT: [Next; 4] = [
    Next::Error(ErrorKind::WouldBlock),
    Next::Text(b"ab"),
    Next::Error(ErrorKind::TimedOut),
    Next::Text(b"c"),
];

#[test]
fn a_line_that_would_block_or_timed_out_has_nothing_for_now(rt: HostRuntime) {
    let mut reads = CountedReads::patient(Line { next: &SILENT });
    let mut buffer = [0; 8];
    assert_eq!(rt; reads.turn(&mut buffer), Turn::Nothing);
    assert_eq!(rt; reads.turn(&mut buffer), Turn::Bytes(2));
    assert_eq!(rt; reads.turn(&mut buffer), Turn::Nothing);
    assert_eq!(rt; reads.turn(&mut buffer), Turn::Bytes(1));
    assert_eq!(rt; reads.turn(&mut buffer), Turn::Bytes(0));
    assert!(rt; !reads.has_failed());
}

#[test]
fn for_another_reader_it_is_a_failure(rt: HostRuntime) {
    let mut reads = CountedReads::new(Line { next: &SILENT });
    let mut buffer = [0; 8];
    assert_eq!(rt; reads.turn(&mut buffer), Turn::Stopped);
    assert!(rt; reads.has_failed());
}

#[test]
fn every_other_error_is_a_failure(rt: HostRuntime) {
    for kind in [
        ErrorKind::ConnectionReset,
        ErrorKind::BrokenPipe,
        ErrorKind::Interrupted,
    ] {
        let line = [Next::Error(kind), Next::Text(b"ab")];
        let mut reads = CountedReads::patient(Line { next: &line });
        let mut buffer = [0; 8];
        assert_eq!(rt; reads.turn(&mut buffer), Turn::Stopped);
        assert!(rt; reads.has_failed());
    }
}

#[test]
fn a_million_waits_are_no_reads(rt: HostRuntime) {
    let mut reads = CountedReads::patient(Silence { waits: 1_000_001 });
    let mut buffer = [0; 8];
    for _ in 0..1_000_001 {
        assert_eq!(rt; reads.turn(&mut buffer), Turn::Nothing);
    }
    assert!(rt; !reads.is_spent());
    assert_eq!(rt; reads.turn(&mut buffer), Turn::Bytes(0));
}
