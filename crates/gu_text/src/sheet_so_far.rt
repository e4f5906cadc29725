//! A sheet, from the lines so far.

ghost use Rattle.std.specs.Prelude.{◌≡◌, ◌++◌, ◌∷◌, [], false, ℕ, List, IfOk, IfErr, IsErrOf, IsSome, IsTrue, OnOk};
ghost use Rattle.std.specs.Option.{option_map_or};
ghost use Rattle.gu_text.specs.Lines.{is_silent};
ghost use Rattle.gu_text.specs.Reading.{is_ended, line_fits, no_parts, with_kept, with_kept_line, AreOpen, IsMadeOf, IsReadTo, MakesNone};
ghost use Rattle.gu_text.specs.SheetLines.{spoken};
ghost use Rattle.gu_text.specs.SheetParts.{SheetParts};
ghost use Rattle.gu_text.specs.Sheets.{fits_after, said_in, IsRightAfter};

use crate::error::TextError;
use crate::lines::is_silent;
use crate::sheet::Sheet;
use crate::sheet_line::spoken;
use crate::sheet_parts::Parts;
use gu_terms::Seed;
use std::alloc::{AllocError, Global};
use std::mem;

/// A sheet, from the lines so far.
pub(crate) enum SheetSoFar {
    /// The end is yet to come.
    Open(Parts),
    /// The end was read, and offers and rooms make a view.
    Ended(Sheet),
}

// By hand, so that its owner drops it with one call.
impl Drop for SheetSoFar {
    fn drop(self) {
        match self {
            SheetSoFar::Open(parts) => drop(parts),
            SheetSoFar::Ended(sheet) => drop(sheet),
        }
    }
}

/// Adds the content of a line of words, and returns whether the line is allowed here.
fn add_spoken(parts: &mut Parts, line: &[u8]) -> Result<bool, AllocError>
    ensures fits { IfOk result (λ fits. fits ≡ option_map_or (fits_after parts.old) (spoken line.now) false) }
    ensures parts { IfOk result (λ fits. IsTrue fits → parts.new ≡ option_map_or (with_kept parts.old) (spoken line.now) parts.old) }
{
    match spoken(line) {
        Some(said) => parts.add(said),
        None => Ok(false),
    }
}

/// Adds the content of a line, and returns whether the line is allowed here.
fn add_line(parts: &mut Parts, line: &[u8]) -> Result<bool, AllocError>
    ensures fits { IfOk result (λ fits. fits ≡ line_fits parts.old line.now) }
    ensures parts { IfOk result (λ fits. IsTrue fits → parts.new ≡ with_kept_line parts.old line.now) }
{
    if is_silent(line) {
        return Ok(true);
    }
    add_spoken(parts, line)
}

/// Adds the content of the line with this number, and returns whether it is the end.
fn take_open(parts: &mut Parts, line: &[u8], number: u64) -> Result<bool, TextError>
    ensures fits { OnOk result (IsTrue (line_fits parts.old line.now)) }
    ensures parts { OnOk result (parts.new ≡ with_kept_line parts.old line.now) }
    ensures ended { IfOk result (λ ended. ended ≡ is_ended parts.new) }
    ensures number { (n : ℕ) → IsErrOf result (TextError.BadLine n) → n ≡ number }
    ensures bad { (n : ℕ) → IsErrOf result (TextError.BadLine n)
        → (before : List (List ℕ)) → AreOpen before parts.old → ¬ IsRightAfter (said_in before) line.now }
{
    if !add_line(parts, line)? {
        return Err(TextError::BadLine(number));
    }
    Ok(parts.are_ended())
}

/// Accepts the line with this number after the end if it is silent.
fn take_ended(line: &[u8], number: u64) -> Result<(), TextError>
    ensures silent { OnOk result (IsTrue (is_silent line.now)) }
    ensures number { (n : ℕ) → IsErrOf result (TextError.BadLine n) → n ≡ number }
    ensures bad { (n : ℕ) → IsErrOf result (TextError.BadLine n) → is_silent line.now ≡ false }
{
    if is_silent(line) {
        Ok(())
    } else {
        Err(TextError::BadLine(number))
    }
}

impl SheetSoFar {
    /// Returns a sheet before its first line.
    pub(crate) fn new(alloc: Global, seed: Seed) -> Self
        ensures { IsReadTo [] result }
    {
        SheetSoFar::Open(Parts::new(alloc, seed))
    }

    /// Returns the sheet that the parts make, given that the last line was the end and has this number.
    fn closed(self, alloc: Global, number: u64) -> Result<Self, TextError>
        requires { (parts : SheetParts) → self ≡ SheetSoFar.Open parts → IsSome parts.last }
        ensures made { IfOk result (λ new. (parts : SheetParts) → self ≡ SheetSoFar.Open parts
            → (sheet : Sheet) × (new ≡ SheetSoFar.Ended sheet) × IsMadeOf parts sheet) }
        ensures refused { IfErr result (λ error. (parts : SheetParts) → self ≡ SheetSoFar.Open parts → MakesNone parts number error) }
    {
        match self {
            SheetSoFar::Open(parts) => {
                let sheet = parts.into_sheet(alloc, number)?;
                Ok(SheetSoFar::Ended(sheet))
            }
            SheetSoFar::Ended(sheet) => Ok(SheetSoFar::Ended(sheet)),
        }
    }

    /// Makes the sheet of the parts, given that the last line was the end and has this number. It is a separate function because each call
    /// clears room for the sheet, which only the end needs.
    fn close(&mut self, alloc: Global, number: u64) -> Result<(), TextError>
        requires { (parts : SheetParts) → self.old ≡ SheetSoFar.Open parts → IsSome parts.last }
        ensures made { OnOk result ((parts : SheetParts) → self.old ≡ SheetSoFar.Open parts
            → (sheet : Sheet) × (self.new ≡ SheetSoFar.Ended sheet) × IsMadeOf parts sheet) }
        ensures refused { IfErr result (λ error. (parts : SheetParts) → self.old ≡ SheetSoFar.Open parts → MakesNone parts number error) }
    {
        let open = mem::replace(self, SheetSoFar::new(alloc, Seed::new(0)));
        *self = open.closed(alloc, number)?;
        Ok(())
    }

    /// Takes the next line, which has this number. After an error nothing is known about the sheet.
    pub(crate) fn take(&mut self, alloc: Global, line: &[u8], number: u64) -> Result<(), TextError>
        ensures read { OnOk result ((before : List (List ℕ)) → IsReadTo before self.old → IsReadTo (before ++ line.now ∷ []) self.new) }
        ensures number { (n : ℕ) → IsErrOf result (TextError.BadLine n) → n ≡ number }
        ensures bad { (n : ℕ) → IsErrOf result (TextError.BadLine n)
            → (before : List (List ℕ)) → IsReadTo before self.old → ¬ IsRightAfter (said_in before) line.now }
    {
        match self {
            SheetSoFar::Open(parts) => {
                if !take_open(parts, line, number)? {
                    return Ok(());
                }
            }
            SheetSoFar::Ended(_) => return take_ended(line, number),
        }
        self.close(alloc, number)
    }

    /// Returns the sheet if its end was read; if not, `number` is the number of the missing line.
    pub(crate) fn into_sheet(self, number: u64) -> Result<Sheet, TextError>
        ensures sheet { IfOk result (λ sheet. self ≡ SheetSoFar.Ended sheet) }
        ensures missing { IfErr result (λ error. (error ≡ TextError.BadLine number) × ((parts : SheetParts) × (self ≡ SheetSoFar.Open parts))) }
    {
        match self {
            SheetSoFar::Open(parts) => {
                drop(parts);
                Err(TextError::BadLine(number))
            }
            SheetSoFar::Ended(sheet) => Ok(sheet),
        }
    }
}
