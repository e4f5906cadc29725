//! The rows of connections, and of the sweeps that are made for them.

ghost use Rattle.gu_log.specs.Lines.{Continues};

use crate::event::{CommittedSweep, EndCause, LogonFault, Refusal, SweepFault, Way};
use crate::fields::{append_firm_if, append_number, append_number_if, append_shown, append_text};
use gu_terms::{FirmId, Group};
use std::alloc::AllocError;

/// Appends what happened to the connection of a number.
fn append_connection(line: &mut Vec<u8>, name: &[u8], number: u64) -> Result<(), AllocError>
    ensures { Continues line.old.items line.new.items }
{
    append_shown(line, name)?;
    append_number(line, "n", number)
}

/// Appends that a connection was let in.
pub(crate) fn append_accepted(line: &mut Vec<u8>, number: u64, way: Way) -> Result<(), AllocError>
    ensures { Continues line.old.items line.new.items }
{
    append_connection(line, b"connection.accepted", number)?;
    match way {
        Way::Port(port) => {
            append_text(line, "at", b"port")?;
            append_number(line, "port", u64::from(port))
        }
        Way::Door(firm) => {
            append_text(line, "at", b"door")?;
            append_text(line, "firm", firm.get())
        }
    }
}

/// Appends that a connection was closed at once.
pub(crate) fn append_refused(
    line: &mut Vec<u8>,
    number: u64,
    reason: Refusal,
) -> Result<(), AllocError>
    ensures { Continues line.old.items line.new.items }
{
    append_connection(line, b"connection.refused", number)?;
    append_text(line, "reason", reason.word())
}

/// Appends that a firm has logged on.
pub(crate) fn append_logged_on(
    line: &mut Vec<u8>,
    number: u64,
    firm: FirmId,
) -> Result<(), AllocError>
    ensures { Continues line.old.items line.new.items }
{
    append_connection(line, b"logon.accepted", number)?;
    append_text(line, "firm", firm.get())
}

/// Appends that a firm couldn't log on.
pub(crate) fn append_logon_refused(
    line: &mut Vec<u8>,
    number: u64,
    firm: Option<FirmId>,
    fault: LogonFault,
) -> Result<(), AllocError>
    ensures { Continues line.old.items line.new.items }
{
    append_connection(line, b"logon.refused", number)?;
    append_firm_if(line, &firm)?;
    append_text(line, "reason", fault.word())?;
    append_number_if(line, "tag", fault.tag())
}

/// Appends that a connection has ended.
pub(crate) fn append_ended(
    line: &mut Vec<u8>,
    number: u64,
    firm: Option<FirmId>,
    cause: EndCause,
) -> Result<(), AllocError>
    ensures { Continues line.old.items line.new.items }
{
    append_connection(line, b"connection.ended", number)?;
    append_firm_if(line, &firm)?;
    append_text(line, "reason", cause.word())
}

/// Appends that a firm has made its share.
pub(crate) fn append_share_full(
    line: &mut Vec<u8>,
    number: u64,
    firm: FirmId,
    is_of_entries: bool,
) -> Result<(), AllocError>
    ensures { Continues line.old.items line.new.items }
{
    append_connection(line, b"share.full", number)?;
    append_text(line, "firm", firm.get())?;
    let of: &[u8] = if is_of_entries { b"entries" } else { b"offers" };
    append_text(line, "of", of)
}

/// Appends that nothing was entered for a firm, since an allocation failed.
pub(crate) fn append_memory_refused(
    line: &mut Vec<u8>,
    number: u64,
    firm: FirmId,
) -> Result<(), AllocError>
    ensures { Continues line.old.items line.new.items }
{
    append_connection(line, b"memory.refused", number)?;
    append_text(line, "firm", firm.get())
}

/// Appends that a sweep was committed.
pub(crate) fn append_swept(line: &mut Vec<u8>, sweep: &CommittedSweep) -> Result<(), AllocError>
    ensures { Continues line.old.items line.new.items }
{
    append_shown(line, b"sweep.made")?;
    append_text(line, "group", sweep.group.get())?;
    append_number(line, "entry", sweep.entry)?;
    append_number(line, "lots", sweep.lots)?;
    append_number(line, "tries", sweep.tries)
}

/// Appends that a sweep was left out.
pub(crate) fn append_sweep_left(
    line: &mut Vec<u8>,
    group: Group,
    reason: SweepFault,
) -> Result<(), AllocError>
    ensures { Continues line.old.items line.new.items }
{
    append_shown(line, b"sweep.left")?;
    append_text(line, "group", group.get())?;
    append_text(line, "reason", reason.word())
}
