//! A log that threads share.

use crate::logfmt::read;
use crate::machine::Machine;
use crate::outputs::{Mood, Output};
use crate::writing::{note_all, opened};
use gu_log::{Event, EventLog, LogOutput, LogReader, Logged, run_logged, write_all};
use std::alloc::Global;
use std::io::{Error, ErrorKind, Write};
use std::process::Abort;
use std::rt::Clock;
use std::sync::Wait;
use std::thread::Threads;
use std::{io, thread};

/// A writer that is full for this many writes of a day that goes on, in each of which something more is noted; after them it takes all, and
/// the day ends.
#[derive(Drop)]
struct Crowded<'m, 'v, R> {
    rt: &'m R,
    log: &'v EventLog,
    full: u64,
    text: Vec<u8>,
}

impl<R: Wait + Clock> Write for Crowded<'_, '_, R> {
    fn write(&mut self, buf: &[u8]) -> io::Result<usize> {
        if self.full > 0 {
            self.full -= 1;
            self.log.note(self.rt, Event::DayClosing);
            return Err(Error::from(ErrorKind::WouldBlock));
        }
        self.log.end(self.rt);
        self.text.extend_from_slice(buf)?;
        Ok(buf.len())
    }

    fn flush(&mut self) -> io::Result<()> {
        Ok(())
    }
}

#[test]
fn a_writer_that_is_full_for_a_while_loses_lines_that_are_counted(rt: HostRuntime) {
    let machine = Machine::new(&rt);
    let (log, mut reader) = opened(&rt, rt.alloc());
    note_all(&machine, &log, 1, 1);
    let mut output = Crowded {
        rt: &machine,
        log: &log,
        full: 1_100,
        text: Vec::new(rt.alloc()),
    };
    write_all(&machine, rt.alloc(), &log, &mut reader, &mut output);
    let first = "\
20260105-09:00:02.001 journal.lost kept=1
20260105-09:00:02.001 log.lost lines=76
20260105-09:00:02.001 day.closing
";
    let text = &output.text;
    assert!(rt; text.starts_with(first.as_bytes()));
    assert_eq!(rt; text.iter().filter(|byte| **byte == b'\n').count(), 1_026);
    assert_eq!(rt; machine.slept(), 22_000);
}

/// Returns what is written while two threads note, if a thread could be started to write it.
fn written_beside<R: Threads + Wait + Clock + Sync>(
    rt: &R,
    alloc: Global,
    log: &EventLog,
    reader: LogReader,
) -> Option<Vec<u8>> {
    let output = LogOutput {
        reader,
        writer: Output::new(alloc, Mood::Takes(9), u64::MAX),
    };
    let Logged { done: (), output } = run_logged(rt, alloc, log, output, || {
        let ((), ()) = thread::join(
            rt,
            || note_all(rt, log, 1, 200),
            || note_all(rt, log, 201, 400),
        );
    });
    let LogOutput { reader, writer } = output?;
    drop(reader);
    Some(writer.text)
}

/// Returns how often each number from 1 to 400 was noted, or None if a line isn't one of the log.
fn counts(rt: &impl Abort, alloc: Global, text: &[u8]) -> Vec<u32> {
    let mut counts = vec![in alloc; 0_u32; 401].expect(rt, "memory");
    for line in text.split_inclusive(|byte| *byte == b'\n') {
        let row = read(alloc, line).expect(rt, "memory").expect(rt, "a line");
        let kept = row.fields.first().expect(rt, "a field");
        let kept = str::from_utf8(&kept.value).ok().expect(rt, "a number");
        let kept = kept.parse::<usize>().ok().expect(rt, "a number");
        if let Some(count) = counts.get_mut(kept) {
            *count = count.saturating_add(1);
        }
    }
    counts
}

#[test]
fn each_line_of_each_thread_is_written_once(rt: HostRuntime) {
    let (log, reader) = opened(&rt, rt.alloc());
    let text = written_beside(&rt, rt.alloc(), &log, reader).expect(&rt, "a thread");
    let counts = counts(&rt, rt.alloc(), &text);
    assert!(rt; counts.iter().skip(1).all(|count| *count == 1));
}
