//! The text that a day's digest covers.

ghost use Rattle.std.specs.Prelude.{◌≡◌, ◌++◌, OnOk};
ghost use Rattle.gu_keeping.specs.Chains.{shown_text, swept_text};

use gu_terms::{Entry, SweepEntry};
use gu_text::texts::{append_last_number, append_number, append_word};
use gu_text::{append_reply, append_sweep};
use std::alloc::AllocError;

/// Appends the line of a sweep's receipt, and the sweep's lines.
fn append_swept(output: &mut Vec<u8>, number: u64, sweep: &SweepEntry) -> Result<(), AllocError>
    ensures { OnOk result (output.new.items ≡ output.old.items ++ swept_text number sweep.now) }
{
    append_number(output, number)?;
    append_word(output, b"SWEPT")?;
    append_word(output, sweep.group.get())?;
    append_last_number(output, sweep.lots)?;
    append_sweep(output, sweep)
}

/// Appends what is shown of the entry with a number: the reply to a command, or what a sweep took.
pub(crate) fn append_shown(
    output: &mut Vec<u8>,
    number: u64,
    entry: &Entry,
) -> Result<(), AllocError>
    ensures { OnOk result (output.new.items ≡ output.old.items ++ shown_text number entry.now) }
{
    match entry {
        Entry::Asked { command: _, reply } => append_reply(output, number, reply),
        Entry::Swept(sweep) => append_swept(output, number, sweep),
    }
}
