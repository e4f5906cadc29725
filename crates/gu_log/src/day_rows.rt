//! The rows of the day, and of those who run it.

ghost use Rattle.gu_log.specs.Lines.{Continues};

use crate::event::{AcceptFault, Listener};
use crate::fields::{append_number, append_number_if, append_shown, append_text};
use gu_terms::{Day, MOST_ENTRIES};
use std::alloc::AllocError;

/// The warning that is logged if there are neither doors nor secrets.
const ANY_FIRM: &[u8] = b"whoever reaches the port is any firm";

/// Appends a day, if there is one.
fn append_day_if(line: &mut Vec<u8>, day: Option<Day>) -> Result<(), AllocError>
    ensures { Continues line.old.items line.new.items }
{
    match day {
        Some(day) => append_text(line, "day", &day.text()),
        None => Ok(()),
    }
}

/// Appends the path of a journal, if there is one.
fn append_journal_if(line: &mut Vec<u8>, journal: Option<&str>) -> Result<(), AllocError>
    ensures { Continues line.old.items line.new.items }
{
    match journal {
        Some(path) => append_text(line, "journal", path.as_bytes()),
        None => Ok(()),
    }
}

/// Appends that the day is open.
pub(crate) fn append_opened(
    line: &mut Vec<u8>,
    reference: &str,
    day: Option<Day>,
    entries: u64,
    journal: Option<&str>,
) -> Result<(), AllocError>
    ensures { Continues line.old.items line.new.items }
{
    append_shown(line, b"day.opened")?;
    append_text(line, "reference", reference.as_bytes())?;
    append_day_if(line, day)?;
    append_number(line, "entries", entries)?;
    append_journal_if(line, journal)
}

/// Appends the place of a listener.
fn append_place(line: &mut Vec<u8>, place: &[u8]) -> Result<(), AllocError>
    ensures { Continues line.old.items line.new.items }
{
    append_shown(line, b"listening")?;
    append_text(line, "at", place)
}

/// Appends a way in for connections.
pub(crate) fn append_listening(line: &mut Vec<u8>, listener: Listener<'_>) -> Result<(), AllocError>
    ensures { Continues line.old.items line.new.items }
{
    match listener {
        Listener::Port(port) => {
            append_place(line, b"port")?;
            append_number(line, "port", u64::from(port))
        }
        Listener::Doors { folder, doors } => {
            append_place(line, b"doors")?;
            append_text(line, "folder", folder.as_bytes())?;
            append_number(line, "doors", doors as u64)
        }
        Listener::Console(path) => {
            append_place(line, b"console")?;
            append_text(line, "path", path.as_bytes())
        }
        Listener::Watch(path) => {
            append_place(line, b"watch")?;
            append_text(line, "path", path.as_bytes())
        }
    }
}

/// Appends that whoever reaches the port is any firm.
pub(crate) fn append_any_firm(line: &mut Vec<u8>) -> Result<(), AllocError>
    ensures { Continues line.old.items line.new.items }
{
    append_shown(line, b"firms.unknown")?;
    append_text(line, "note", ANY_FIRM)
}

/// Returns a number of the system's, unless it is negative.
fn code_of(code: Option<i32>) -> Option<u64> {
    u64::try_from(code?).ok()
}

/// Appends that no connection is accepted for now.
pub(crate) fn append_paused(line: &mut Vec<u8>, reason: AcceptFault) -> Result<(), AllocError>
    ensures { Continues line.old.items line.new.items }
{
    append_shown(line, b"accepting.paused")?;
    match reason {
        AcceptFault::Memory => append_text(line, "reason", b"memory"),
        AcceptFault::Threads => append_text(line, "reason", b"threads"),
        AcceptFault::System(code) => {
            append_text(line, "reason", b"system")?;
            append_number_if(line, "code", code_of(code))
        }
    }
}

/// Appends that the book will be full before long.
pub(crate) fn append_filling(line: &mut Vec<u8>, entries: u64) -> Result<(), AllocError>
    ensures { Continues line.old.items line.new.items }
{
    append_shown(line, b"book.filling")?;
    append_number(line, "entries", entries)?;
    append_number(line, "of", MOST_ENTRIES as u64)
}

/// Appends that an operator entered an entry.
pub(crate) fn append_entered(line: &mut Vec<u8>, entry: u64) -> Result<(), AllocError>
    ensures { Continues line.old.items line.new.items }
{
    append_shown(line, b"operator.entered")?;
    append_number(line, "entry", entry)
}

/// Appends that an operator cut a connection.
pub(crate) fn append_cut(line: &mut Vec<u8>, number: u64) -> Result<(), AllocError>
    ensures { Continues line.old.items line.new.items }
{
    append_shown(line, b"operator.cut")?;
    append_number(line, "n", number)
}

/// Appends how far the journal is behind the book.
pub(crate) fn append_behind(line: &mut Vec<u8>, ms: u64, entries: u64) -> Result<(), AllocError>
    ensures { Continues line.old.items line.new.items }
{
    append_shown(line, b"journal.behind")?;
    append_number(line, "ms", ms)?;
    append_number(line, "entries", entries)
}

/// Appends that the journal failed.
pub(crate) fn append_journal_lost(line: &mut Vec<u8>, kept: u64) -> Result<(), AllocError>
    ensures { Continues line.old.items line.new.items }
{
    append_shown(line, b"journal.lost")?;
    append_number(line, "kept", kept)
}

/// Appends that the day is closed.
pub(crate) fn append_closed(
    line: &mut Vec<u8>,
    entries: u64,
    lots: u64,
    is_audited: bool,
) -> Result<(), AllocError>
    ensures { Continues line.old.items line.new.items }
{
    append_shown(line, b"day.closed")?;
    append_number(line, "entries", entries)?;
    append_number(line, "swept", lots)?;
    append_text(line, "audit", if is_audited { b"OK" } else { b"FAILED" })
}

/// Appends how many lines were lost.
pub(crate) fn append_lost(line: &mut Vec<u8>, lines: u64) -> Result<(), AllocError>
    ensures { Continues line.old.items line.new.items }
{
    append_shown(line, b"log.lost")?;
    append_number(line, "lines", lines)
}
