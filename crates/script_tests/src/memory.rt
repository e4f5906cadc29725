//! A script, and a journal, in which each allocation fails in turn, or all of them from one on (tools/each-growth). A failure outside of
//! them shows nothing of them.

use crate::journals::world_after;
use crate::plays::told;
use gu_script::{ScriptError, write_journal};
use gu_streams::StreamError;
use std::alloc::{AllocError, Global};

/// A short script.
const SHORT: &str =
    "DAY 20260105/LIMIT G1 EXEC E1 100/LIMIT G1 AGR P1 100/LIMIT G1 ACCT A1 100/LIMIT G1 CARRY C1 100/REPORT E1 R1 M1 B XF6 7 101.5 H1/REPORT E2 R2 M1 S XF6 7 101.5 H2/GIVEUP E1 L1 R1 A1 7/SWEEP G1/";

/// And what answers it.
const SHORT_TEXT: &str =
    "1 OK/2 OK/3 OK/4 OK/5 OK/6 OK OPEN/7 OK MATCHED/8 OK OFFERS 1 1/9 SWEPT G1 7/SHEET G1 6/OFFER 1 7 P1 E1 A1 C1/ROOM EXEC E1 100/ROOM AGR P1 100/ROOM ACCT A1 100/ROOM CARRY C1 100/TAKE 1 7/CUT OFFER 1/END/";

/// Returns whether the short script, a line or two at a time, is answered, or ends after a prefix of the text. (The output grows too, so
/// that its writer may fail.)
fn is_played_or_stops(alloc: Global) -> Result<bool, AllocError> {
    let told = told(alloc, "", SHORT, 32)?;
    let (end, text) = told.split_once(": ").unwrap_or((told.as_str(), ""));
    Ok(match end {
        "done" => text == SHORT_TEXT,
        "out of memory" | "write fault" => SHORT_TEXT.starts_with(text),
        _ => false,
    })
}

#[test]
fn a_failed_allocation_ends_a_script_after_a_prefix_of_the_text(rt: HostRuntime) {
    for _ in 0..2 {
        assert!(rt; is_played_or_stops(rt.alloc()).unwrap_or(true));
    }
}

/// The comments of its sweep in its journal: what it takes, and its cut.
const SHORT_REMARKS: &str = "# TAKE 1 7\n# CUT OFFER 1\n";

/// Returns whether the journal of the short script's day has its lines and the comments of its sweep, or ends after a prefix of them. (What
/// is written grows too, so that it may end as a writer does that fails.)
fn is_written_or_stops(alloc: Global) -> Result<bool, ScriptError> {
    let mut lines = SHORT.replace(alloc, "/", "\n")?;
    lines.push_str(SHORT_REMARKS)?;
    let world = world_after(alloc, SHORT)?;
    let mut written = Vec::new(alloc);
    Ok(
        match write_journal(alloc, world.book().history(), &mut written) {
            Ok(()) => written.as_slice() == lines.as_bytes(),
            Err(StreamError::Memory | StreamError::Write) => {
                lines.as_bytes().starts_with(&written)
            }
            Err(StreamError::Read) => false,
        },
    )
}

#[test]
fn a_failed_allocation_ends_a_journal_after_a_prefix_of_it(rt: HostRuntime) {
    for _ in 0..2 {
        assert!(rt; is_written_or_stops(rt.alloc()).unwrap_or(true));
    }
}
