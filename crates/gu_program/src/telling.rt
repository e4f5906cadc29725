//! Sends lines to a desk, from the command line or from standard input.

use crate::error::{ConsoleFault, RunError};
use gu_console::{TellError, Told, is_line, tell};
use gu_script::ScriptError;
use gu_streams::{CountedReads, LONGEST_READ, MOST_READS, StreamError};
use gu_text::split_at_line_feed;
use gu_words::Status;
use std::alloc::{AllocError, Global};
use std::io::{Read, Write};

/// The longest line that may be sent, with a CR at its end.
const LONGEST_LINE: usize = 1_025;

/// A client of a desk: the stream to its socket, and the writer that shows its answers.
#[derive(Drop)]
pub struct Telling<C, W> {
    stream: C,
    output: W,
    /// How many lines were sent.
    count: u64,
    /// Whether any of them was refused.
    is_refused: bool,
}

/// Returns whether each of these words is a line that may be sent.
pub fn are_lines(alloc: Global, words: &[&str]) -> Result<bool, AllocError> {
    for word in words {
        if !is_line(alloc, word.as_bytes())? {
            return Ok(false);
        }
    }
    Ok(true)
}

impl<C: Read + Write, W: Write> Telling<C, W> {
    /// Creates a client that has sent nothing.
    pub fn new(stream: C, output: W) -> Self {
        Telling {
            stream,
            output,
            count: 0,
            is_refused: false,
        }
    }

    /// Sends a line, and shows its answer.
    fn tell_line(&mut self, line: &[u8]) -> Result<(), RunError> {
        self.count = self.count.saturating_add(1);
        match tell(line, &mut self.stream, &mut self.output) {
            Ok(Told::Answered) => Ok(()),
            Ok(Told::Refused) => {
                self.is_refused = true;
                Ok(())
            }
            Err(TellError::Show) => Err(RunError::from(StreamError::Write)),
            Ok(Told::Ended) | Err(_) => Err(RunError::Console(ConsoleFault::Ended)),
        }
    }

    /// Returns the status for the answers so far.
    fn status(&self) -> Status {
        if self.is_refused {
            Status::Fault
        } else {
            Status::Done
        }
    }

    /// Sends these lines.
    pub fn tell_words(&mut self, lines: &[&str]) -> Result<Status, RunError> {
        for line in lines {
            self.tell_line(line.as_bytes())?;
        }
        Ok(self.status())
    }

    /// Sends the lines that end in a piece, and keeps what follows the last LF.
    fn take(&mut self, rest: &mut Vec<u8>, piece: &[u8]) -> Result<(), RunError> {
        let mut left = piece;
        for _line in 0..piece.len() {
            let Some((part, after)) = split_at_line_feed(left) else {
                break;
            };
            rest.extend_from_slice(part).map_err(StreamError::from)?;
            self.tell_line(rest)?;
            rest.clear();
            left = after;
        }
        rest.extend_from_slice(left).map_err(StreamError::from)?;
        if rest.len() > LONGEST_LINE {
            return Err(RunError::from(ScriptError::BadLine(self.count.saturating_add(1))));
        }
        Ok(())
    }

    /// Sends the last line, if it lacks its LF.
    fn take_end(&mut self, rest: &[u8]) -> Result<Status, RunError> {
        if !rest.is_empty() {
            self.tell_line(rest)?;
        }
        Ok(self.status())
    }

    /// Sends the lines of a reader, each after the answer to the one before it.
    pub fn tell_input<R: Read>(
        &mut self,
        alloc: Global,
        reads: &mut CountedReads<R>,
    ) -> Result<Status, RunError> {
        let mut rest = Vec::new(alloc);
        let mut buffer = [0; LONGEST_READ];
        for _read in 0..MOST_READS {
            match reads.read(&mut buffer) {
                Ok(0) => return self.take_end(&rest),
                Ok(count) => self.take(&mut rest, &buffer[..count])?,
                Err(_) => return Err(RunError::from(StreamError::Read)),
            }
        }
        Err(RunError::from(StreamError::Read))
    }
}
