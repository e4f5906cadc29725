//! Reading a sheet piece by piece.

ghost use Rattle.std.specs.Prelude.{◌≡◌, ◌+◌, ◌^◌, ◌<◌, ◌≤◌, ◌++◌, ◌∷◌, [], ℕ, List, length, IfOk, IfErr, IsErrOf, OnOk};
ghost use Rattle.std.specs.Str.Lines.{strip_carriage_return};
ghost use Rattle.gu_text.specs.LineFeeds.{HasNoLineFeed};
ghost use Rattle.gu_text.specs.Lines.{longest_line};
ghost use Rattle.gu_text.specs.Reading.{IsReadTo};
ghost use Rattle.gu_text.specs.SheetPieces.{IsBadHowever, IsReadSoFar, IsReadWhole};
ghost use Rattle.gu_text.specs.Sheets.{said_in, IsRightAfter, IsSheet, Refuses};

use crate::error::TextError;
use crate::line_feed::{goes_past_a_line, split_at_line_feed};
use crate::lines::without_return;
use crate::sheet::Sheet;
use crate::sheet_so_far::SheetSoFar;
use gu_terms::Seed;
use std::alloc::Global;
use std::marker::Model;

/// A sheet being read: the content of its lines so far, and an unfinished line of at most the longest line and a CR. To a contract it is a
/// place in a sheet.
pub struct SheetReading {
    alloc: Global,
    so_far: SheetSoFar,
    /// The number of lines read, including silent ones.
    count: u64,
    /// The bytes after the last LF.
    rest: Vec<u8>,
}

impl Model for SheetReading {
    ghost use Rattle.std.specs.Prelude.{◌≤◌, length};
    ghost use Rattle.gu_text.specs.LineFeeds.{HasNoLineFeed};
    ghost use Rattle.gu_text.specs.SheetPieces.{SheetPlace};

    ghost Value = { SheetPlace };

    ghost view = { λ r. record { so_far = r.so_far; count = r.count; rest = r.rest.items } };

    ghost invariant = { λ r. HasNoLineFeed r.rest.items × (length r.rest.items ≤ 1025) };
}

// By hand, so that a reading is dropped with one call.
impl Drop for SheetReading {
    fn drop(self) {
        let SheetReading {
            alloc: _,
            so_far,
            count: _,
            rest,
        } = self;
        drop(so_far);
        drop(rest);
    }
}

impl SheetReading {
    /// Returns a reading before the first piece. The seed is for the hashes of what a sheet names, and doesn't affect what is read.
    pub fn seeded(alloc: Global, seed: Seed) -> Self
        ensures fresh { result.count ≡ 0 }
        ensures read { IsReadSoFar [] result }
    {
        SheetReading {
            alloc,
            so_far: SheetSoFar::new(alloc, seed),
            count: 0,
            rest: Vec::new(alloc),
        }
    }

    /// Reads a line ended by an LF: the rest so far, followed by the bytes before the LF. A line that is too long isn't copied.
    fn end_line(&mut self, part: &[u8]) -> Result<(), TextError>
        requires room { self.old.count + 1 < 2 ^ 64 }
        requires none { HasNoLineFeed part.now }
        ensures read { OnOk result ((before : List (List ℕ)) → IsReadTo before self.old.so_far
            → IsReadTo (before ++ strip_carriage_return (self.old.rest ++ part.now) ∷ []) self.new.so_far) }
        ensures counted { OnOk result (self.new.count ≡ self.old.count + 1) }
        ensures done { OnOk result (self.new.rest ≡ []) }
        ensures number { (n : ℕ) → IsErrOf result (TextError.BadLine n) → n ≡ self.old.count + 1 }
        ensures bad { (n : ℕ) → IsErrOf result (TextError.BadLine n) → (before : List (List ℕ)) → IsReadTo before self.old.so_far
            → ¬ IsRightAfter (said_in before) (strip_carriage_return (self.old.rest ++ part.now)) }
    {
        if goes_past_a_line(&self.rest, part) {
            return Err(TextError::BadLine(self.count + 1));
        }
        self.rest.extend_from_slice(part)?;
        let line = without_return(&self.rest);
        self.so_far.take(self.alloc, line, self.count + 1)?;
        self.rest.clear();
        self.count += 1;
        Ok(())
    }

    /// Keeps the bytes after the last LF, unless they are longer than any valid line.
    fn keep(&mut self, bytes: &[u8]) -> Result<(), TextError>
        requires room { self.old.count + 1 < 2 ^ 64 }
        requires none { HasNoLineFeed bytes.now }
        ensures kept { OnOk result (self.new ≡ record self.old { rest = self.old.rest ++ bytes.now }) }
        ensures number { (n : ℕ) → IsErrOf result (TextError.BadLine n) → n ≡ self.old.count + 1 }
        ensures long { (n : ℕ) → IsErrOf result (TextError.BadLine n) → longest_line + 1 < length (self.old.rest ++ bytes.now) }
    {
        if goes_past_a_line(&self.rest, bytes) {
            return Err(TextError::BadLine(self.count + 1));
        }
        self.rest.extend_from_slice(bytes)?;
        Ok(())
    }

    /// Reads the lines that a piece ends, and keeps the bytes after the last LF. After an error nothing is known about the reading.
    pub fn take(&mut self, piece: &[u8]) -> Result<(), TextError>
        requires { self.old.count + length piece.now + 1 < 2 ^ 64 }
        ensures read { OnOk result ((text : List ℕ) → IsReadSoFar text self.old → IsReadSoFar (text ++ piece.now) self.new) }
        ensures counted { OnOk result (self.new.count ≤ self.old.count + length piece.now) }

        // A bad line is bad whatever follows the piece.
        ensures bad { (n : ℕ) → IsErrOf result (TextError.BadLine n)
            → (text : List ℕ) → IsReadSoFar text self.old → IsBadHowever (text ++ piece.now) n }
    {
        // Shows the prover: the unfinished line has no LF.
        let _waiting = self.rest.len();
        let mut left = piece;
        'lines: while let Some((part, after)) = split_at_line_feed(left) {
            self.end_line(part)?;
            left = after;
        }
        self.keep(left)
    }

    /// Reads the bytes after the last LF, given that nothing more follows, and returns the number of lines.
    fn end_last(&mut self) -> Result<u64, TextError>
        requires { self.old.count + 1 < 2 ^ 64 }
        ensures read { IfOk result (λ count. (text : List ℕ) → IsReadSoFar text self.old → IsReadWhole text self.new.so_far count) }
        ensures counted { IfOk result (λ count. count ≤ self.old.count + 1) }
        ensures refused { IfErr result (λ error. (text : List ℕ) → IsReadSoFar text self.old → Refuses text error) }
    {
        if self.rest.is_empty() {
            return Ok(self.count);
        }
        self.so_far.take(self.alloc, &self.rest, self.count + 1)?;
        Ok(self.count + 1)
    }

    /// Returns the content of the lines so far.
    fn into_so_far(self) -> SheetSoFar
        ensures { result ≡ self.so_far }
    {
        let SheetReading {
            alloc: _,
            so_far,
            count: _,
            rest,
        } = self;
        drop(rest);
        so_far
    }

    /// Returns the sheet, given that nothing more follows.
    pub fn end(self) -> Result<Sheet, TextError>
        requires { self.count + 2 < 2 ^ 64 }
        ensures sheet { IfOk result (λ sheet. (text : List ℕ) → IsReadSoFar text self → IsSheet text sheet) }
        ensures refused { IfErr result (λ error. (text : List ℕ) → IsReadSoFar text self → Refuses text error) }
    {
        let mut reading = self;
        let count = reading.end_last()?;
        reading.into_so_far().into_sheet(count + 1)
    }
}
