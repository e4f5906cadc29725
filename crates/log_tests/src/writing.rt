//! The log's thread: what it writes, and what becomes of lines if a writer takes nothing or fails.

use crate::machine::Machine;
use crate::outputs::{Mood, Output};
use gu_log::{Beginning, Event, EventLog, Listener, LogReader, write_all};
use std::alloc::Global;
use std::io::{ErrorKind, Write};
use std::process::Abort;
use std::rt::Clock;
use std::sync::Wait;

/// Three lines.
const THREE: &str = "\
20260105-09:00:02.001 journal.lost kept=1
20260105-09:00:02.001 journal.lost kept=2
20260105-09:00:02.001 journal.lost kept=3
";

/// Returns a log, and the reader of its notes.
pub fn opened(rt: &impl Abort, alloc: Global) -> (EventLog, LogReader) {
    EventLog::new(alloc).expect(rt, "memory")
}

/// Notes events with these numbers.
pub fn note_all<R: Wait + Clock>(rt: &R, log: &EventLog, first: u64, last: u64) {
    for kept in first..=last {
        log.note(rt, Event::JournalLost { kept });
    }
}

/// Notes events with numbers up to a last, ends the day, and writes what was noted.
pub fn write_notes<R: Abort + Wait, W: Write>(
    machine: &Machine<'_, R>,
    alloc: Global,
    last: u64,
    writer: &mut W,
) {
    let (log, mut reader) = opened(machine.under(), alloc);
    note_all(machine, &log, 1, last);
    log.end(machine);
    write_all(machine, alloc, &log, &mut reader, writer);
}

/// Asserts that what was written is this.
fn check_text(rt: &impl Abort, output: &Output, want: &str) {
    assert!(rt; output.text.as_slice() == want.as_bytes(), "{want}");
}

#[test]
fn each_line_is_written_and_flushed(rt: HostRuntime) {
    let machine = Machine::new(&rt);
    let mut output = Output::new(rt.alloc(), Mood::Takes(0), 0);
    write_notes(&machine, rt.alloc(), 3, &mut output);
    check_text(&rt, &output, THREE);
    assert_eq!(rt; output.writes, 3);
    assert_eq!(rt; output.flushes, 3);
    assert_eq!(rt; machine.slept(), 0);
}

#[test]
fn what_was_noted_before_its_thread_begins_comes_first(rt: HostRuntime) {
    let machine = Machine::new(&rt);
    let (log, mut reader) = opened(&rt, rt.alloc());
    note_all(&machine, &log, 1, 1);
    let console = Beginning::Listening(Listener::Console("/run/desk/console"));
    reader
        .begin(&machine, &Beginning::AnyFirm)
        .expect(&rt, "memory");
    reader.begin(&machine, &console).expect(&rt, "memory");
    log.end(&machine);
    let mut output = Output::new(rt.alloc(), Mood::Takes(0), 0);
    write_all(&machine, rt.alloc(), &log, &mut reader, &mut output);
    check_text(
        &rt,
        &output,
        "\
20260105-09:00:02.001 firms.unknown note=\"whoever reaches the port is any firm\"
20260105-09:00:02.001 listening at=console path=/run/desk/console
20260105-09:00:02.001 journal.lost kept=1
",
    );
}

#[test]
fn a_line_is_written_in_parts_where_a_write_takes_less(rt: HostRuntime) {
    let machine = Machine::new(&rt);
    let mut output = Output::new(rt.alloc(), Mood::Takes(5), u64::MAX);
    write_notes(&machine, rt.alloc(), 3, &mut output);
    check_text(&rt, &output, THREE);
    assert_eq!(rt; output.writes, 27);
    assert_eq!(rt; output.flushes, 3);
}

#[test]
fn a_write_that_takes_nothing_for_now_is_tried_again(rt: HostRuntime) {
    for kind in [ErrorKind::WouldBlock, ErrorKind::Interrupted] {
        let machine = Machine::new(&rt);
        let mut output = Output::new(rt.alloc(), Mood::Fails(kind), 50);
        write_notes(&machine, rt.alloc(), 3, &mut output);
        check_text(&rt, &output, THREE);
        assert_eq!(rt; machine.slept(), 1_000);
    }
}

#[test]
fn a_writer_that_is_full_until_the_end_is_given_up(rt: HostRuntime) {
    for kind in [ErrorKind::WouldBlock, ErrorKind::Interrupted] {
        let machine = Machine::new(&rt);
        let mut output = Output::new(rt.alloc(), Mood::Fails(kind), u64::MAX);
        write_notes(&machine, rt.alloc(), 1_024, &mut output);
        check_text(&rt, &output, "");
        assert_eq!(rt; output.writes, 51);
        assert_eq!(rt; machine.slept(), 1_000);
    }
}

#[test]
fn after_another_error_nothing_is_written_and_nobody_notices(rt: HostRuntime) {
    for mood in [Mood::Fails(ErrorKind::BrokenPipe), Mood::Takes(0)] {
        let machine = Machine::new(&rt);
        let (log, mut reader) = opened(&rt, rt.alloc());
        note_all(&machine, &log, 1, 1_100);
        log.end(&machine);
        let mut output = Output::new(rt.alloc(), mood, 1);
        write_all(&machine, rt.alloc(), &log, &mut reader, &mut output);
        check_text(&rt, &output, "");
        assert_eq!(rt; output.writes, 1);
        assert_eq!(rt; machine.slept(), 0);
        note_all(&machine, &log, 1, 2_000);
    }
}

#[test]
fn lines_that_find_no_room_are_counted_and_said(rt: HostRuntime) {
    let machine = Machine::new(&rt);
    let mut output = Output::new(rt.alloc(), Mood::Takes(0), 0);
    write_notes(&machine, rt.alloc(), 1_030, &mut output);
    let text = &output.text;
    assert!(rt;
        text.starts_with(
            b"20260105-09:00:02.001 log.lost lines=6\n20260105-09:00:02.001 journal.lost kept=1\n"
        )
    );
    assert!(rt; text.ends_with(b"20260105-09:00:02.001 journal.lost kept=1024\n"));
    assert_eq!(rt; text.iter().filter(|byte| **byte == b'\n').count(), 1_025);
}

#[test]
fn a_log_whose_notes_come_no_more_ends(rt: HostRuntime) {
    let machine = Machine::new(&rt);
    let (log, mut reader) = opened(&rt, rt.alloc());
    note_all(&machine, &log, 1, 3);
    drop(log);
    let mut output = Output::new(rt.alloc(), Mood::Takes(0), 0);
    write_all(
        &machine,
        rt.alloc(),
        &EventLog::silent(),
        &mut reader,
        &mut output,
    );
    check_text(&rt, &output, THREE);
}

#[test]
fn notes_to_nobody_are_dropped(rt: HostRuntime) {
    let machine = Machine::new(&rt);
    let (log, mut reader) = opened(&rt, rt.alloc());
    drop(reader);
    note_all(&machine, &log, 1, 3);
    log.end(&machine);
    assert_eq!(rt; machine.slept(), 0);
}
