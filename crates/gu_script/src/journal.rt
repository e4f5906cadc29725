//! A day as a script: each entry as the line that makes it.

ghost use Rattle.std.specs.Prelude.{◌≡◌, ◌++◌, ℕ, List, OnErr, OnOk};
ghost use Rattle.std.specs.Io.KnownBytes.{Appends};
ghost use Rattle.std.specs.List.{flat_map};
ghost use Rattle.gu_rules.specs.Reports.{opened_day};
ghost use Rattle.gu_script.specs.Journals.{days_apart, entry_rows, journal_text, rows_apart};
ghost use Rattle.gu_streams.specs.Written.{WrotePart};
ghost use Rattle.gu_text.specs.Texts.{line_of};

use gu_streams::{StreamError, send};
use gu_terms::{Command, Day, Done, Entry, History, OpenDay, Reply};
use gu_text::{append_command, append_remark, append_sweep};
use std::alloc::{AllocError, Global};
use std::io::Write;

/// The most bytes buffered, apart from the lines of one entry.
const MOST_HELD: usize = 65_536;

/// Returns the day that an entry opened, if it opened one.
pub fn opened_day(entry: &Entry) -> Option<Day>
    ensures { result ≡ opened_day entry.now }
{
    match entry {
        Entry::Asked {
            command: Command::OpenDay(opening),
            reply: Reply::Accepted(Done::Opened),
        } => Some(opening.day),
        _ => None,
    }
}

/// Returns the day that a report names and the open day, if they differ.
fn days_apart(today: Option<Day>, command: &Command) -> Option<(Day, Day)>
    ensures { result ≡ days_apart today command.now }
{
    match (today, command) {
        (Some(today), Command::ReportSide(report)) => match report.day {
            Some(day) if !today.is_same(day) => Some((day, today)),
            _ => None,
        },
        _ => None,
    }
}

/// Appends the lines of a command, given its two days if they differ.
fn append_asked(
    output: &mut Vec<u8>,
    command: &Command,
    days: Option<(Day, Day)>,
) -> Result<(), AllocError>
    ensures { OnOk result (output.new.items ≡ output.old.items ++ flat_map line_of (rows_apart command.now days)) }
{
    match days {
        Some((day, today)) => {
            append_remark(output, command, day)?;
            append_command(output, &Command::OpenDay(OpenDay { day: today }))
        }
        None => append_command(output, command),
    }
}

/// Appends the lines of an entry in a journal, given the day that is open before it.
pub fn append_entry(
    output: &mut Vec<u8>,
    today: Option<Day>,
    entry: &Entry,
) -> Result<(), AllocError>
    ensures { OnOk result (output.new.items ≡ output.old.items ++ flat_map line_of (entry_rows today entry.now)) }
{
    match entry {
        Entry::Asked { command, .. } => append_asked(output, command, days_apart(today, command)),
        Entry::Swept(sweep) => append_sweep(output, sweep),
    }
}

/// Writes the buffer out if it is large. The bytes written and those left in it are the bytes that were in it.
fn send_much<W: Write>(output: &mut Vec<u8>, writer: &mut W) -> Result<(), StreamError>
    ensures ok { OnOk result ((sent : List ℕ) × Appends (W.contents writer.old) (W.contents writer.new) sent
        × (output.old.items ≡ sent ++ output.new.items)) }
    ensures err { OnErr result (WrotePart output.old.items (W.contents writer.old) (W.contents writer.new)) }
{
    if output.len() <= MOST_HELD {
        return Ok(());
    }
    send(writer, output)?;
    output.clear();
    Ok(())
}

/// Writes the journal of a history: a script that makes the same entries. After an error, some prefix of it was written.
pub fn write_journal<W: Write>(
    alloc: Global,
    history: &History,
    writer: &mut W,
) -> Result<(), StreamError>
    ensures ok { OnOk result (Appends (W.contents writer.old) (W.contents writer.new) (journal_text history.now)) }
    ensures err { OnErr result (WrotePart (journal_text history.now) (W.contents writer.old) (W.contents writer.new)) }
{
    let mut output = Vec::new(alloc);
    let mut today = None;
    for place in 0..history.len() {
        let entry = history.at(place)?;
        append_entry(&mut output, today, &entry)?;
        today = opened_day(&entry).or(today);
        drop(entry);
        send_much(&mut output, writer)?;
    }
    send(writer, &output)?;
    Ok(())
}
