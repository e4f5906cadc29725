//! A reader that computes a digest of what it reads.

ghost use Rattle.std.specs.Prelude.{◌≡◌};
ghost use Rattle.std.specs.Io.{ReadsAtMost};
ghost use Rattle.std.specs.Io.KnownBytes.{ReadConsumes};

use sha2::{Digest, Sha256};
use std::io;
use std::io::Read;

/// A reader, and the SHA-256 digest of what was read from it.
#[derive(Drop)]
pub struct Digesting<R> {
    reader: R,
    hasher: Sha256,
}

impl<R> Digesting<R> {
    /// Creates it; nothing is read yet.
    pub fn new(reader: R) -> Self
        ensures { result.reader ≡ reader }
    {
        Digesting {
            reader,
            hasher: Sha256::new(),
        }
    }
}

impl<R: Drop> Digesting<R> {
    /// Returns the digest of what was read.
    pub fn digest(self) -> [u8; 32] {
        let Digesting { reader, hasher } = self;
        drop(reader);
        hasher.finalize()
    }
}

impl<R: Read> Read for Digesting<R> {
    ghost remaining = { λ digesting. R.remaining digesting.reader };

    fn read(&mut self, buf: &mut [u8]) -> io::Result<usize>
        ensures bound { ReadsAtMost result buf.new }
        ensures bytes { ReadConsumes (R.remaining self.old.reader) (R.remaining self.new.reader) result buf.new }
    {
        let count = self.reader.read(buf)?;
        self.hasher.update(&buf[..count]);
        Ok(count)
    }
}
