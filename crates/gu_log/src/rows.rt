//! The line of each event.

ghost use Rattle.std.specs.Prelude.{◌≡◌, ◌≤◌, length, take, List, ℕ, OnErr, OnOk};
ghost use Rattle.gu_log.specs.Lines.{Continues, GoesOn, GoesOnByLine};

use crate::connection_rows::{
    append_accepted, append_ended, append_logged_on, append_logon_refused, append_memory_refused,
    append_refused, append_share_full, append_sweep_left, append_swept,
};
use crate::day_rows::{
    append_any_firm, append_behind, append_closed, append_cut, append_entered, append_filling,
    append_journal_lost, append_listening, append_lost, append_opened, append_paused,
};
use crate::event::{Beginning, Event};
use crate::fields::append_shown;
use gu_msgs::moment_text;
use gu_terms::Moment;
use std::alloc::AllocError;

/// How many bytes a line has at most, with its LF: a pipe takes this many at once.
pub const LONGEST_LINE: usize = 4_096;

/// Appends what happened.
fn append_event(line: &mut Vec<u8>, event: &Event) -> Result<(), AllocError>
    ensures { Continues line.old.items line.new.items }
{
    match *event {
        Event::Accepted { number, way } => append_accepted(line, number, way),
        Event::Refused { number, reason } => append_refused(line, number, reason),
        Event::LoggedOn { number, firm } => append_logged_on(line, number, firm),
        Event::LogonRefused {
            number,
            firm,
            fault,
        } => append_logon_refused(line, number, firm, fault),
        Event::Ended {
            number,
            firm,
            cause,
        } => append_ended(line, number, firm, cause),
        Event::AcceptingPaused { reason } => append_paused(line, reason),
        Event::AcceptingResumed => append_shown(line, b"accepting.resumed"),
        Event::Swept(sweep) => append_swept(line, &sweep),
        Event::SweepLeft { group, reason } => append_sweep_left(line, group, reason),
        Event::BookFilling { entries } => append_filling(line, entries),
        Event::OperatorEntered { entry } => append_entered(line, entry),
        Event::OperatorCut { number } => append_cut(line, number),
        Event::JournalBehind { ms, entries } => append_behind(line, ms, entries),
        Event::JournalLost { kept } => append_journal_lost(line, kept),
        Event::ShareFull {
            number,
            firm,
            is_of_entries,
        } => append_share_full(line, number, firm, is_of_entries),
        Event::MemoryRefused { number, firm } => append_memory_refused(line, number, firm),
        Event::DayClosing => append_shown(line, b"day.closing"),
        Event::DayClosed {
            entries,
            lots,
            is_audited,
        } => append_closed(line, entries, lots, is_audited),
    }
}

/// Appends the moment and a blank.
fn append_moment(line: &mut Vec<u8>, moment: Moment) -> Result<(), AllocError>
    ensures { Continues line.old.items line.new.items }
{
    let text = moment_text(moment);
    append_shown(line, text.as_slice())?;
    append_shown(line, b" ")
}

/// Appends what happened before the log's thread begins.
fn append_begun(line: &mut Vec<u8>, beginning: &Beginning<'_>) -> Result<(), AllocError>
    ensures { Continues line.old.items line.new.items }
{
    match *beginning {
        Beginning::DayOpened {
            reference,
            day,
            entries,
            journal,
        } => append_opened(line, reference, day, entries, journal),
        Beginning::Listening(listener) => append_listening(line, listener),
        Beginning::AnyFirm => append_any_firm(line),
    }
}

/// What a line reports: an event, a beginning, or lost lines.
#[derive(Clone, Copy)]
enum Told<'a> {
    Event(&'a Event),
    Beginning(&'a Beginning<'a>),
    /// This many lines were lost.
    Lost(u64),
}

/// Appends the moment, and what a line reports.
fn append_told(line: &mut Vec<u8>, moment: Moment, told: Told<'_>) -> Result<(), AllocError>
    ensures { Continues line.old.items line.new.items }
{
    append_moment(line, moment)?;
    match told {
        Told::Event(event) => append_event(line, event),
        Told::Beginning(beginning) => append_begun(line, beginning),
        Told::Lost(lines) => append_lost(line, lines),
    }
}

/// Ends a line that begins after this many bytes, cut if it is too long.
fn end_line(line: &mut Vec<u8>, begun: usize) -> Result<(), AllocError>
    requires { begun ≤ length line.old.items }
    ensures line { OnOk result ((start : List ℕ) → length start ≡ begun → GoesOn start line.old.items → GoesOnByLine start line.new.items) }
    ensures front { (start : List ℕ) → length start ≡ begun → GoesOn start line.old.items → take begun line.new.items ≡ start }
{
    line.truncate(begun + (LONGEST_LINE - 1));
    line.push(b'\n')?;
    Ok(())
}

/// Appends exactly one line, whatever bytes a path has. If an allocation fails, part of a line may have been appended.
fn append_whole(line: &mut Vec<u8>, moment: Moment, told: Told<'_>) -> Result<(), AllocError>
    ensures line { OnOk result (GoesOnByLine line.old.items line.new.items) }
    ensures front { take (length line.old.items) line.new.items ≡ line.old.items }
{
    let begun = line.len();
    append_told(line, moment, told)?;
    end_line(line, begun)
}

/// Appends a line, or nothing if an allocation fails.
fn append_row(line: &mut Vec<u8>, moment: Moment, told: Told<'_>) -> Result<(), AllocError>
    ensures line { OnOk result (GoesOnByLine line.old.items line.new.items) }
    ensures refused { OnErr result (line.new.items ≡ line.old.items) }
{
    let begun = line.len();
    match append_whole(line, moment, told) {
        Ok(()) => Ok(()),
        Err(error) => {
            line.truncate(begun);
            Err(error)
        }
    }
}

/// Appends the line of an event.
pub fn append_line(line: &mut Vec<u8>, moment: Moment, event: &Event) -> Result<(), AllocError>
    ensures line { OnOk result (GoesOnByLine line.old.items line.new.items) }
    ensures refused { OnErr result (line.new.items ≡ line.old.items) }
{
    append_row(line, moment, Told::Event(event))
}

/// Appends the line of what happened before the log's thread begins.
pub fn append_beginning(
    line: &mut Vec<u8>,
    moment: Moment,
    beginning: &Beginning<'_>,
) -> Result<(), AllocError>
    ensures line { OnOk result (GoesOnByLine line.old.items line.new.items) }
    ensures refused { OnErr result (line.new.items ≡ line.old.items) }
{
    append_row(line, moment, Told::Beginning(beginning))
}

/// Appends the line that says how many lines were lost.
pub(crate) fn append_lost_line(
    line: &mut Vec<u8>,
    moment: Moment,
    lines: u64,
) -> Result<(), AllocError>
    ensures line { OnOk result (GoesOnByLine line.old.items line.new.items) }
    ensures refused { OnErr result (line.new.items ≡ line.old.items) }
{
    append_row(line, moment, Told::Lost(lines))
}
