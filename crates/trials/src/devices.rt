//! Readers and writers that give and take in pieces, and fail in the end. In a text `|` is SOH, and `/` the end of a line.

ghost use Rattle.std.specs.Prelude.{◌≡◌, Some};

use std::alloc::{AllocError, Global};
use std::io::{self, Read, Write};

/// Returns what a text is on the wire.
pub fn wire(alloc: Global, text: &str) -> Result<String, AllocError> {
    text.replace(alloc, "|", "\x01")?.replace(alloc, "/", "\n")
}

/// Returns what bytes on the wire are as a text.
pub fn shown(alloc: Global, bytes: &[u8]) -> Result<String, AllocError> {
    let text = str::from_utf8(bytes).unwrap_or("?");
    text.replace(alloc, "\x01", "|")?.replace(alloc, "\n", "/")
}

/// Gives its bytes in pieces of these lengths, each of at least a byte, since none is the end, and the rest in pieces of one length; it
/// fails once it has no read left. If a length is None it has nothing for now, once, which is no read.
#[derive(Drop)]
pub struct Source<'a> {
    pub bytes: &'a [u8],
    pub lengths: &'a [Option<usize>],
    pub later: usize,
    pub reads: usize,
}

impl Source<'_> {
    /// Returns how many bytes the next read gives at most, if it gives any.
    fn next_length(&mut self) -> Option<usize>
        ensures { self.new.bytes ≡ self.old.bytes }
    {
        match self.lengths {
            [length, later @ ..] => {
                self.lengths = later;
                *length
            }
            [] => Some(self.later),
        }
    }
}

impl Read for Source<'_> {
    ghost remaining = { λ source. Some source.bytes.now };

    fn read(&mut self, buf: &mut [u8]) -> io::Result<usize> {
        if self.reads == 0 {
            return Err(io::Error::from(io::ErrorKind::BrokenPipe));
        }
        let Some(length) = self.next_length() else {
            return Err(io::Error::from(io::ErrorKind::TimedOut));
        };
        self.reads = self.reads.saturating_sub(1);
        let most = length.max(1).min(buf.len());
        self.bytes.read(&mut buf[..most])
    }
}

/// Takes at most this many bytes a write, and fails once it has no write left.
#[derive(Drop)]
pub struct Sink {
    pub held: Vec<u8>,
    pub most: usize,
    pub writes: usize,
    /// The longest text that it was asked to write at once.
    pub longest: usize,
}

impl Sink {
    /// Returns a writer that has taken nothing.
    pub fn new(alloc: Global, most: usize, writes: usize) -> Self {
        Sink {
            held: Vec::new(alloc),
            most,
            writes,
            longest: 0,
        }
    }
}

impl Write for Sink {
    ghost contents = { λ sink. Some sink.held.items };

    fn write(&mut self, buf: &[u8]) -> io::Result<usize> {
        if self.writes == 0 {
            return Err(io::Error::from(io::ErrorKind::BrokenPipe));
        }
        self.writes -= 1;
        self.longest = self.longest.max(buf.len());
        let count = self.most.min(buf.len());
        self.held.extend_from_slice(&buf[..count])?;
        Ok(count)
    }

    fn flush(&mut self) -> io::Result<()> {
        Ok(())
    }
}
