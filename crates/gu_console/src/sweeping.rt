//! Answers to what asks for a sweep.

ghost use Rattle.std.specs.Prelude.{◌≡◌, ◌⊎◌, ◌++◌, ◌∷◌, [], codes, IfSome, OnOk};
ghost use Rattle.std.specs.Fmt.{decimal};
ghost use Rattle.gu_terms.specs.Histories.{entry_at};
ghost use Rattle.gu_terms.specs.declared.entry.SweepEntry.{SweepEntry as SweepOf};
ghost use Rattle.gu_view.specs.Boards.{Shows};
ghost use Rattle.gu_text.specs.SheetText.{sheet_text};
ghost use Rattle.gu_text.specs.Texts.{line_of};
ghost use Rattle.gu_console.specs.Answers.{AnswersSweep, GoesOnFrom, IsSweptText, unswept_text};

use crate::answering::say_memory;
use crate::console::Console;
use crate::office::Office;
use gu_desk::{Desk, Direct, EntryLedger, LotLedger, SweepError};
use gu_houses::{Informs, SeatReceipts, SeatSweep};
use gu_terms::{Entry, Group, SweepEntry};
use gu_text::texts::{append_last_number, append_number, append_word};
use gu_text::{append_outcome, append_sheet};
use gu_view::View;
use gu_world::Outcome;
use std::alloc::{AllocError, Global};
use std::sync::Wait;

/// Says why no sweep was made, in a text without bytes.
fn say_unswept(text: &mut Vec<u8>, why: SweepError) -> Result<(), AllocError>
    requires { text.old.items ≡ [] }
    ensures { OnOk result (text.new.items ≡ unswept_text why) }
{
    match why {
        SweepError::Memory => say_memory(text),
        SweepError::UnknownGroup => append_outcome(text, None, None, &Outcome::NoGroup),
        SweepError::Full => append_outcome(text, None, None, &Outcome::Full),
        SweepError::Stale { seen, now } => {
            append_outcome(text, None, None, &Outcome::Stale { seen, now })
        }
    }
}

/// Says that a sweep of a group was made, in a text without bytes.
fn say_swept(text: &mut Vec<u8>, number: u64, group: &Group, lots: u64) -> Result<(), AllocError>
    requires { text.old.items ≡ [] }
    ensures { OnOk result (text.new.items ≡ line_of (decimal number ∷ codes "SWEPT" ∷ group.now.name ∷ decimal lots ∷ [])) }
{
    append_number(text, number)?;
    append_word(text, b"SWEPT")?;
    append_word(text, group.get())?;
    append_last_number(text, lots)
}

/// Appends the sheet of a sweep, or nothing where memory fails for it.
fn add_sheet(text: &mut Vec<u8>, view: &View, sweep: &SweepEntry)
    ensures { (text.new.items ≡ text.old.items ++ sheet_text view.now sweep.now.takes sweep.now.cut) ⊎ (text.new.items ≡ text.old.items) }
{
    let mut sheet = Vec::new(*text.allocator());
    if append_sheet(&mut sheet, view, &sweep.takes, &sweep.cut).is_ok() {
        let _ = text.extend_from_slice(&sheet);
    }
}

/// Returns the sweep of a number, if it is the last entry that was made from a seat.
fn last_sweep<E: EntryLedger, S: LotLedger>(
    seat: &SeatReceipts<E, S>,
    number: u64,
) -> Option<&SweepEntry>
    ensures { IfSome result (λ sweep. entry_at seat.now.front number ≡ Some (Entry.Swept sweep.now)) }
{
    let receipt = seat.last_of(number)?;
    match &receipt.entry {
        Entry::Swept(sweep) => Some(sweep),
        Entry::Asked { .. } => None,
    }
}

/// Says what a sweep of a group was, in a text without bytes: its line and its sheet, or its line alone where memory fails for the sheet.
fn say_sheet<E: EntryLedger, S: LotLedger>(
    desk: &Desk<E, S>,
    seat: &SeatReceipts<E, S>,
    group: &Group,
    swept: &SeatSweep,
    text: &mut Vec<u8>,
) -> Result<(), AllocError>
    requires here { Shows desk.now.board swept.now.view }
    requires text { text.old.items ≡ [] }
    ensures { (sweep : SweepOf) → entry_at seat.now.front swept.now.number ≡ Some (Entry.Swept sweep) → sweep.group ≡ group.now
        → sweep.lots ≡ swept.now.lots → OnOk result (IsSweptText swept.now.view.value swept.now.number sweep text.new.items) }
{
    say_swept(text, swept.number, group, swept.lots)?;
    let Some(sweep) = last_sweep(seat, swept.number) else {
        return Ok(());
    };
    add_sheet(text, desk.read(&swept.view), sweep);
    Ok(())
}

/// Counts a sweep that was made, and has others informed of it.
fn note_sweep<E: EntryLedger, S: LotLedger, R: Wait, O: Office, I: Informs>(
    console: &Console<'_, E, S, R, O, I>,
    swept: &SeatSweep,
) {
    console.tools.tally.add_sweep(swept.lots);
    let origin = console.origin();
    console
        .tools
        .informs
        .inform(swept.number, swept.informs, origin);
}

/// Sweeps a group from a seat, and writes what came of it to an empty text. Others are informed of the entry.
pub(crate) fn sweep<E: EntryLedger, S: LotLedger, R: Wait, O: Office, I: Informs>(
    console: &Console<'_, E, S, R, O, I>,
    seat: &mut SeatReceipts<E, S>,
    group: Group,
    text: &mut Vec<u8>,
) -> Result<(), AllocError>
    requires { text.old.items ≡ [] }
    ensures answered { OnOk result (AnswersSweep E.reference seat.old group text.new.items seat.new) }
    ensures goes_on { GoesOnFrom seat.old seat.new }
{
    let access = &console.tools.access;
    match seat.sweep(access, group, &Direct) {
        Ok(swept) => {
            note_sweep(console, &swept);
            say_sheet(access.desk, seat, &group, &swept, text)
        }
        Err(why) => say_unswept(text, why),
    }
}
