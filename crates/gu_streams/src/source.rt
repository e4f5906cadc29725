//! The sources of counted reads.

ghost use Rattle.std.specs.Prelude.{◌≡◌, ◌↔◌, IsTrue};
ghost use Rattle.std.specs.Io.{ReadsAtMost};
ghost use Rattle.std.specs.Io.KnownBytes.{ReadConsumes};
ghost use Rattle.gu_streams.specs.Reads.{HasAhead, left_in, reader_in};

use std::io;
use std::io::{BufReader, Read};

/// A source of counted reads.
#[derive(Drop)]
pub enum Source<R> {
    /// A reader that is called for each read.
    Direct(R),
    /// A reader that reads ahead, if more has arrived than is requested.
    Ahead(BufReader<R>),
}

impl<R: Read> Source<R> {
    /// Returns the reader. Bytes read ahead are lost.
    pub fn into_reader(self) -> R
        ensures { result ≡ reader_in self }
    {
        match self {
            Source::Direct(reader) => reader,
            Source::Ahead(reader) => reader.into_inner(),
        }
    }

    /// Reads the next bytes.
    pub fn read(&mut self, buf: &mut [u8]) -> io::Result<usize>
        ensures bound { ReadsAtMost result buf.new }
        ensures bytes { ReadConsumes (left_in R.remaining self.old) (left_in R.remaining self.new) result buf.new }
    {
        match self {
            Source::Direct(reader) => reader.read(buf),
            Source::Ahead(reader) => reader.read(buf),
        }
    }

    /// Returns whether the next read finds bytes that were read ahead.
    pub fn is_ahead(&self) -> bool
        ensures { IsTrue result ↔ HasAhead self.now }
    {
        match self {
            Source::Direct(_) => false,
            Source::Ahead(reader) => !reader.buffer().is_empty(),
        }
    }
}
