//! A writer that takes nothing.

use std::io;
use std::io::{ErrorKind, Write};

/// A writer that takes nothing for now: what is answered over it is held.
#[derive(Drop)]
pub struct ClosedWriter;

impl Write for ClosedWriter {
    ghost use Rattle.std.specs.Prelude.{Some, []};

    ghost contents = { λ writer. Some [] };

    fn write(&mut self, _buf: &[u8]) -> io::Result<usize> {
        Err(io::Error::from(ErrorKind::WouldBlock))
    }

    fn flush(&mut self) -> io::Result<()> {
        Ok(())
    }
}
