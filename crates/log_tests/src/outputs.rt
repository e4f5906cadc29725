//! Writers that a test watches.

ghost use Rattle.std.specs.Prelude.{◌≡◌, length, IfOk};

use std::alloc::Global;
use std::io;
use std::io::{Error, ErrorKind, Write};

/// How a writer answers when it is asked.
#[derive(Clone, Copy)]
pub enum Mood {
    /// It takes this many bytes at most.
    Takes(usize),
    /// It fails so.
    Fails(ErrorKind),
}

/// A writer that answers in this way for this many writes, and takes all after them.
#[derive(Drop)]
pub struct Output {
    pub text: Vec<u8>,
    /// How often it was asked.
    pub writes: u64,
    /// How often it was flushed.
    pub flushes: u64,
    mood: Mood,
    lasts: u64,
}

impl Output {
    /// Returns a writer that has taken nothing yet.
    pub fn new(alloc: Global, mood: Mood, lasts: u64) -> Self {
        Output {
            text: Vec::new(alloc),
            writes: 0,
            flushes: 0,
            mood,
            lasts,
        }
    }

    /// Takes bytes.
    fn put(&mut self, bytes: &[u8]) -> io::Result<usize>
        ensures { IfOk result (λ count. count ≡ length bytes.now) }
    {
        self.text.extend_from_slice(bytes)?;
        Ok(bytes.len())
    }
}

impl Write for Output {
    fn write(&mut self, buf: &[u8]) -> io::Result<usize> {
        self.writes = self.writes.saturating_add(1);
        if self.writes > self.lasts {
            return self.put(buf);
        }
        match self.mood {
            Mood::Takes(most) => self.put(&buf[..most.min(buf.len())]),
            Mood::Fails(kind) => Err(Error::from(kind)),
        }
    }

    fn flush(&mut self) -> io::Result<()> {
        self.flushes = self.flushes.saturating_add(1);
        Ok(())
    }
}
