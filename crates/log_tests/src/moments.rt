//! Moments of notes, and a day without a log.

use crate::machine::Machine;
use crate::outputs::{Mood, Output};
use crate::writing::{note_all, opened};
use gu_log::{EventLog, write_all};
use std::sync::atomic::Ordering;

#[test]
fn a_silent_log_looks_at_no_clock(rt: HostRuntime) {
    let machine = Machine::new(&rt);
    let log = EventLog::silent();
    note_all(&machine, &log, 1, 2_000);
    log.end(&machine);
    assert_eq!(rt; machine.looks.load(Ordering::SeqCst), 0);
}

#[test]
fn without_a_clock_the_moment_is_the_last_one(rt: HostRuntime) {
    let machine = Machine::new(&rt);
    let (log, mut reader) = opened(&rt, rt.alloc());
    machine.fails.store(true, Ordering::SeqCst);
    note_all(&machine, &log, 1, 1);
    machine.fails.store(false, Ordering::SeqCst);
    note_all(&machine, &log, 2, 2);
    machine.fails.store(true, Ordering::SeqCst);
    note_all(&machine, &log, 3, 3);
    machine.fails.store(false, Ordering::SeqCst);
    machine.now.store(u64::MAX, Ordering::SeqCst);
    note_all(&machine, &log, 4, 4);
    machine.now.store(1_767_603_603_000, Ordering::SeqCst);
    note_all(&machine, &log, 5, 5);
    log.end(&machine);
    let mut output = Output::new(rt.alloc(), Mood::Takes(0), 0);
    write_all(&machine, rt.alloc(), &log, &mut reader, &mut output);
    let want = "\
19700101-00:00:00.000 journal.lost kept=1
20260105-09:00:02.001 journal.lost kept=2
20260105-09:00:02.001 journal.lost kept=3
20260105-09:00:02.001 journal.lost kept=4
20260105-09:00:03.000 journal.lost kept=5
";
    assert!(rt; output.text.as_slice() == want.as_bytes());
}
