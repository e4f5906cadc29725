//! A log in which each allocation fails in turn (tools/each-growth). The tests pass whichever fail.

use crate::logfmt::read;
use crate::machine::Machine;
use crate::outputs::{Mood, Output};
use crate::writing::note_all;
use gu_log::{Beginning, EventLog, Listener, append_beginning, write_all};
use gu_terms::Moment;
use std::alloc::{AllocError, Global};
use std::process::Abort;
use std::sync::Wait;

/// What was there before a line.
const BEFORE: &[u8] = b"before";

/// What has a path that is written between quotes.
const CONSOLE: Beginning<'static> = Beginning::Listening(Listener::Console(
    "/run/the desk/console",
));

/// Its line after what was there.
const WHOLE: &[u8] =
    b"before20260105-09:00:02.001 listening at=console path=\"/run/the desk/console\"\n";

#[test]
fn a_line_that_is_refused_memory_leaves_what_was_there(rt: HostRuntime) {
    let Ok(mut line) = Vec::from_slice(rt.alloc(), BEFORE) else {
        return;
    };
    let moment = Moment::new(1_767_603_602_001).expect(&rt, "a moment");
    match append_beginning(&mut line, moment, &CONSOLE) {
        Ok(()) => assert!(rt; line.as_slice() == WHOLE),
        Err(AllocError) => {
            assert!(rt; line.as_slice() == BEFORE);
            if append_beginning(&mut line, moment, &CONSOLE).is_ok() {
                assert!(rt; line.as_slice() == WHOLE);
            }
        }
    }
}

/// Returns what a log of five notes writes, if there is memory for it.
fn written<R: Wait>(rt: &R, alloc: Global) -> Result<Output, AllocError> {
    let machine = Machine::new(rt);
    let (log, mut reader) = EventLog::new(alloc)?;
    note_all(&machine, &log, 1, 5);
    log.end(&machine);
    let mut output = Output::new(alloc, Mood::Takes(0), 0);
    output.text.reserve(10_000)?;
    write_all(&machine, alloc, &log, &mut reader, &mut output);
    Ok(output)
}

/// Returns how many lines there are, and how many are reported lost.
fn counted(rt: &impl Abort, alloc: Global, text: &[u8]) -> Result<(u64, u64), AllocError> {
    let (mut lines, mut lost) = (0_u64, 0_u64);
    for line in text.split_inclusive(|byte| *byte == b'\n') {
        let row = read(alloc, line)?.expect(rt, "a line");
        let field = row.fields.first().expect(rt, "a field");
        if row.name.as_slice() == b"log.lost".as_slice() {
            let count = str::from_utf8(&field.value).ok().expect(rt, "a number");
            lost = lost.saturating_add(count.parse::<u64>().ok().expect(rt, "a number"));
        } else {
            lines = lines.saturating_add(1);
        }
    }
    Ok((lines, lost))
}

#[test]
fn a_line_without_memory_is_lost_and_counted(rt: HostRuntime) {
    let Ok(output) = written(&rt, rt.alloc()) else {
        return;
    };
    if let Ok((lines, lost)) = counted(&rt, rt.alloc(), &output.text) {
        assert!(rt; lines.saturating_add(lost) == 5 || output.text.is_empty());
    }
}
