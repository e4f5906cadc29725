//! Outcomes of steps as lines.

ghost use Rattle.std.specs.Prelude.{◌≡◌, ◌++◌, ◌∷◌, [], codes, IfOk, OnOk};
ghost use Rattle.std.specs.Fmt.{decimal};
ghost use Rattle.std.specs.Option.{option_copied};
ghost use Rattle.gu_text.specs.Outcomes.{entry_text, group_words, outcome_text, swept_text};
ghost use Rattle.gu_text.specs.Texts.{line_of};

use crate::replies::append_reply;
use crate::sheet_writing::append_sheet;
use crate::texts::{append_last_number, append_last_word, append_number, append_word};
use gu_terms::{Entry, Group, SweepEntry};
use gu_view::View;
use gu_world::Outcome;
use std::alloc::{AllocError, Global};

/// Appends a sweep that was entered with this number, and its sheet if the view before it is known.
fn append_sweep(
    output: &mut Vec<u8>,
    before: Option<&View>,
    number: u64,
    sweep: &SweepEntry,
) -> Result<(), AllocError>
    ensures { OnOk result (output.new.items ≡ output.old.items ++ swept_text (option_copied before.entry) number sweep.now) }
{
    append_number(output, number)?;
    append_word(output, b"SWEPT")?;
    append_word(output, sweep.group.get())?;
    append_last_number(output, sweep.lots)?;
    match before {
        Some(view) => append_sheet(output, view, &sweep.takes, &sweep.cut),
        None => Ok(()),
    }
}

/// Appends the text of the entry with this number.
fn append_entry(
    output: &mut Vec<u8>,
    before: Option<&View>,
    number: u64,
    entry: &Entry,
) -> Result<(), AllocError>
    ensures { OnOk result (output.new.items ≡ output.old.items ++ entry_text (option_copied before.entry) number entry.now) }
{
    match entry {
        Entry::Asked { command: _, reply } => append_reply(output, number, reply),
        Entry::Swept(sweep) => append_sweep(output, before, number, sweep),
    }
}

/// Appends a worker's look: the group that it looked at, and the group's version.
fn append_seen(output: &mut Vec<u8>, looked: Option<Group>, version: u64) -> Result<(), AllocError>
    ensures { OnOk result (output.new.items
        ≡ output.old.items ++ line_of (codes "SEEN" ∷ group_words looked ++ decimal version ∷ [])) }
{
    append_word(output, b"SEEN")?;
    match looked {
        Some(group) => {
            append_word(output, group.get())?;
            append_last_number(output, version)
        }
        None => append_last_number(output, version),
    }
}

/// Appends the outcome of a step: for a look with the group, and for a sweep with its sheet if the group's view just before it is known.
pub fn append_outcome(
    output: &mut Vec<u8>,
    before: Option<&View>,
    looked: Option<Group>,
    outcome: &Outcome,
) -> Result<(), AllocError>
    ensures text { OnOk result (output.new.items
        ≡ output.old.items ++ outcome_text (option_copied before.entry) looked outcome.now) }
{
    match outcome {
        Outcome::Asked(receipt) | Outcome::Swept(receipt) => {
            append_entry(output, before, receipt.number, &receipt.entry)
        }
        Outcome::Full => append_last_word(output, b"FULL"),
        Outcome::Seen(version) => append_seen(output, looked, *version),
        Outcome::NoGroup => {
            append_word(output, b"UNKNOWN")?;
            append_last_word(output, b"GROUP")
        }
        Outcome::Proposed(lots) => {
            append_word(output, b"PROPOSED")?;
            append_last_number(output, *lots)
        }
        Outcome::Stale { seen, now } => {
            append_word(output, b"STALE")?;
            append_number(output, *seen)?;
            append_last_number(output, *now)
        }
        Outcome::Foreign => append_last_word(output, b"FOREIGN"),
        Outcome::Nothing => append_last_word(output, b"NOTHING"),
    }
}

/// Returns the text of a step's outcome.
pub fn outcome_text(
    alloc: Global,
    before: Option<&View>,
    looked: Option<Group>,
    outcome: &Outcome,
) -> Result<Vec<u8>, AllocError>
    ensures text { IfOk result (λ text. text.items ≡ outcome_text (option_copied before.entry) looked outcome.now) }
{
    let mut output = Vec::new(alloc);
    append_outcome(&mut output, before, looked, outcome)?;
    Ok(output)
}
