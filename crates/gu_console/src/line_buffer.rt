//! Lines of an operator, as their bytes come.

ghost use Rattle.std.specs.Prelude.{◌≡◌, ◌++◌, [], ℕ, List, take, IfOk};
ghost use Rattle.std.specs.Str.Lines.{strip_carriage_return};
ghost use Rattle.gu_text.specs.LineFeeds.{HasNoLineFeed};
ghost use Rattle.gu_console.specs.Served.{ServesBytes};

use crate::office::Office;
use crate::operator::Operator;
use crate::said::Said;
use arrayvec::ArrayVec;
use gu_desk::{EntryLedger, LotLedger};
use gu_houses::Informs;
use gu_text::{split_at_line_feed, without_return};
use std::alloc::AllocError;
use std::marker::Model;
use std::sync::Wait;

/// How many bytes of a line are kept: those of the longest line, a CR, and one that shows that the line is longer.
const MOST_KEPT: usize = 1_026;

/// The bytes of a line that have come. A line that is too long is bad, so only its first bytes are kept, which are too long as well.
#[derive(Drop)]
pub struct LineBuffer {
    kept: ArrayVec<u8, MOST_KEPT>,
}

impl Model for LineBuffer {
    ghost use Rattle.std.specs.Prelude.{ℕ, List};
    ghost use Rattle.gu_text.specs.LineFeeds.{HasNoLineFeed};

    ghost Value = { List ℕ };

    ghost view = { λ b. b.kept.items };

    ghost invariant = { λ b. HasNoLineFeed b.kept.items };
}

impl LineBuffer {
    /// Creates a buffer without bytes.
    pub fn new() -> Self
        ensures { result ≡ [] }
    {
        LineBuffer {
            kept: ArrayVec::new(),
        }
    }

    /// Keeps what has come of a line.
    pub fn keep(&mut self, part: &[u8])
        requires { HasNoLineFeed part.now }
        ensures kept { self.new ≡ take 1026 (self.old ++ part.now) }
        ensures none { HasNoLineFeed (self.old ++ part.now) }
    {
        let count = self.kept.remaining_capacity().min(part.len());
        let _ = self.kept.try_extend_from_slice(&part[..count]);
    }

    /// Returns the line, without a CR at its end.
    pub fn line(&self) -> &[u8]
        ensures { result.now ≡ strip_carriage_return self.now }
    {
        without_return(self.kept.as_slice())
    }

    /// Begins the next line.
    pub fn begin(&mut self)
        ensures { self.new ≡ [] }
    {
        self.kept.clear();
    }
}

/// Answers the lines that a piece of an operator's bytes ends, one after another, and keeps what comes after the last LF. The line that
/// closes the day is the last that is answered.
pub fn serve_lines<E: EntryLedger, S: LotLedger, R: Wait, O: Office, I: Informs>(
    operator: &mut Operator<'_, E, S, R, O, I>,
    buffer: &mut LineBuffer,
    piece: &[u8],
    output: &mut Vec<u8>,
) -> Result<Said, AllocError>
    ensures { IfOk result (λ said. (text : List ℕ) × ServesBytes said E.reference operator.old (buffer.old ++ piece.now) text operator.new buffer.new
        × (output.new.items ≡ output.old.items ++ text)) }
{
    let mut left = piece;
    'lines: while let Some((part, after)) = split_at_line_feed(left) {
        buffer.keep(part);
        if let Said::Closes = operator.answer(buffer.line(), output)? {
            return Ok(Said::Closes);
        }
        buffer.begin();
        left = after;
    }
    buffer.keep(left);
    Ok(Said::GoesOn)
}
