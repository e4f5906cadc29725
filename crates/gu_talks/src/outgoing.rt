//! The half of a connection that is written to, and what is known about it.

ghost use Rattle.std.specs.Prelude.{◌≡◌};
ghost use Rattle.std.specs.Io.{WritesAtMost};
ghost use Rattle.std.specs.Io.KnownBytes.{WriteAppends};

use crate::incoming::MOST_INTERRUPTS;
use crate::poller::EndsWriting;
use std::io;
use std::io::{ErrorKind, Write};

/// The half of a connection that is written to. It isn't written to while it is known that it takes nothing.
#[derive(Drop)]
pub struct Outgoing<T> {
    stream: T,
    is_writable: bool,
    /// How many bytes were written.
    bytes: u64,
}

/// Writes to a stream, and repeats a write that a signal interrupts.
fn write_past_signals<T: Write>(stream: &mut T, buf: &[u8]) -> io::Result<usize>
    ensures appended { WriteAppends (T.contents stream.old) (T.contents stream.new) result buf.now }
    ensures bound { WritesAtMost result buf.now }
{
    for _signal in 0..MOST_INTERRUPTS {
        match stream.write(buf) {
            Err(error) if error.kind() == ErrorKind::Interrupted => {}
            written => return written,
        }
    }
    Err(io::Error::from(ErrorKind::Interrupted))
}

impl<T> Outgoing<T> {
    /// Creates it for a stream that nothing was written to yet.
    pub fn new(stream: T) -> Self
        ensures { result.stream ≡ stream }
    {
        Outgoing {
            stream,
            is_writable: true,
            bytes: 0,
        }
    }

    /// Notes that it takes bytes again.
    pub fn note(&mut self)
        ensures { self.new.stream ≡ self.old.stream }
    {
        self.is_writable = true;
    }

    /// Returns whether a write may take bytes.
    pub fn is_writable(&self) -> bool {
        self.is_writable
    }

    /// Returns how many bytes were written.
    pub fn bytes(&self) -> u64 {
        self.bytes
    }

    /// Notes what a write took.
    fn note_written(&mut self, written: &io::Result<usize>)
        ensures { self.new.stream ≡ self.old.stream }
    {
        match written {
            Ok(count) => self.bytes = self.bytes.saturating_add(*count as u64),
            Err(error) if error.kind() == ErrorKind::WouldBlock => self.is_writable = false,
            Err(_) => {}
        }
    }
}

impl<T: EndsWriting> Outgoing<T> {
    /// Ends this half of the stream: the peer sees that nothing more comes.
    pub fn end_writing(&mut self) {
        self.stream.end_writing();
    }
}

impl<T: Write> Write for Outgoing<T> {
    ghost contents = { λ outgoing. T.contents outgoing.stream };

    fn write(&mut self, buf: &[u8]) -> io::Result<usize> {
        if !self.is_writable {
            return Err(io::Error::from(ErrorKind::WouldBlock));
        }
        let written = write_past_signals(&mut self.stream, buf);
        self.note_written(&written);
        written
    }

    fn flush(&mut self) -> io::Result<()> {
        self.stream.flush()
    }
}
