//! The progress of a long input, shown at a terminal.

ghost use Rattle.std.specs.Prelude.{◌≡◌, None};
ghost use Rattle.std.specs.Io.{ReadsAtMost};
ghost use Rattle.std.specs.Io.KnownBytes.{ReadConsumes};

use std::io;
use std::io::{Read, Write};

/// How many lines are done between two notes, or a few more.
const LINES_A_NOTE: u64 = 100_000;

/// A reader that shows at a terminal, if there is one, how many lines are done: those that earlier reads completed, if its user answers the
/// lines of each read before the next.
#[derive(Drop)]
pub struct Told<R, T> {
    /// Returns the inner reader. What is read from it directly isn't counted.
    pub reader: R,
    terminal: Option<T>,
    lines: u64,
    /// The number of lines at which the next note is due.
    due: u64,
}

/// Returns how many LF there are.
fn line_feeds(bytes: &[u8]) -> u64 {
    bytes.iter().filter(|byte| **byte == b'\n').count() as u64
}

impl<R, T: Write> Told<R, T> {
    /// Creates it; nothing is read yet.
    pub fn new(reader: R, terminal: Option<T>) -> Self
        ensures { result.reader ≡ reader }
    {
        Told {
            reader,
            terminal,
            lines: 0,
            due: LINES_A_NOTE,
        }
    }

    /// Shows how many lines are done, if enough more are.
    fn tell(&mut self)
        ensures { self.new.reader ≡ self.old.reader }
    {
        if self.lines < self.due {
            return;
        }
        self.due = self.due.saturating_add(LINES_A_NOTE);
        if let Some(terminal) = &mut self.terminal {
            // A note that can't be written is lost.
            let _ = writeln!(terminal, "giveup: {} lines done", self.lines);
        }
    }

    /// Counts the lines that end in these bytes, if there is a terminal.
    fn count(&mut self, bytes: &[u8])
        ensures { self.new.reader ≡ self.old.reader }
    {
        if self.terminal.is_some() {
            self.lines = self.lines.saturating_add(line_feeds(bytes));
        }
    }
}

impl<R: Read, T: Write> Read for Told<R, T> {
    ghost remaining = { λ told. R.remaining told.reader };

    fn read(&mut self, buf: &mut [u8]) -> io::Result<usize>
        ensures bound { ReadsAtMost result buf.new }
        ensures bytes { ReadConsumes (R.remaining self.old.reader) (R.remaining self.new.reader) result buf.new }
    {
        self.tell();
        let count = self.reader.read(buf)?;
        self.count(&buf[..count]);
        Ok(count)
    }
}
