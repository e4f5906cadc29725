//! A connection in which each allocation fails in turn, or all of them from one on (tools/each-growth). A failure outside the engine shows
//! nothing of it.

use crate::exchanges::told_after;
use std::alloc::{AllocError, Global};
use trials::{AMPLE, Talk};

/// Returns whether a run did all and reported all, or stopped after a prefix of it. (The output grows too, so that its writer may fail.)
fn is_all_or_prefix(told: &str, done: &str, all: &str) -> bool {
    let (end, text) = told.split_once(": ").unwrap_or((told, ""));
    if end == done {
        return text == all;
    }
    let is_stop = end.ends_with("out of memory") || end.ends_with("write fault");
    is_stop && all.starts_with(text)
}

/// A report twice, under two numbers.
const COMES_TWICE: &str = "\
in A 1 98=0|108=0|1137=9|
out A 1 98=0|108=0|1137=9|
in AE 2 571=R1|880=M1|55=XF6|32=10|31=101.5|552=1|54=1|1=H1|
out AR 2 571=R1|880=M1|939=0|
in AE 3 571=R1|880=M1|55=XF6|32=10|31=101.5|552=1|54=1|1=H1|
out AR 3 571=R1|880=M1|939=1|751=99|58=DuplicateId|";

/// The messages sent if the first one isn't entered.
const IS_LEFT_OUT: &str = "\
out A 1 98=0|108=0|1137=9|
out AR 2 571=R1|880=M1|939=1|751=99|58=Memory|
out AR 3 571=R1|880=M1|939=0|";

/// The messages sent if the second one isn't entered.
const IS_LEFT_OUT_THEN: &str = "\
out A 1 98=0|108=0|1137=9|
out AR 2 571=R1|880=M1|939=0|
out AR 3 571=R1|880=M1|939=1|751=99|58=Memory|";

/// Returns whether a run reports that one report was entered, and this.
fn is_told_of_one(told: &str, output: &str) -> bool {
    told.strip_prefix("2 entries, done: ") == Some(output)
}

/// Returns whether sending a report twice ends in one of the right ways, if one allocation at most failed: it is entered and refused, or
/// left out and entered, or entered and left out, or the engine stops with a prefix of what it would send.
fn is_answered_or_stops(alloc: Global) -> Result<bool, AllocError> {
    let twice = Talk::of(alloc, "E1", COMES_TWICE)?;
    let first_out = Talk::of(alloc, "E1", IS_LEFT_OUT)?;
    let second_out = Talk::of(alloc, "E1", IS_LEFT_OUT_THEN)?;
    let told = told_after(alloc, "DAY 20260105/", &twice, AMPLE)?;
    let is_first_out = is_told_of_one(&told, &first_out.output);
    let is_second_out = is_told_of_one(&told, &second_out.output);
    Ok(is_first_out || is_second_out || is_all_or_prefix(&told, "3 entries, done", &twice.output))
}

#[test]
fn a_failed_allocation_ends_a_connection_or_is_answered(rt: HostRuntime) {
    assert!(rt; is_answered_or_stops(rt.alloc()).unwrap_or(true));
}
