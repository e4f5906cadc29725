//! The progress that is printed for a long input.

use crate::rows::check_told;
use gu_program::Told;
use std::alloc::{AllocError, Global};
use std::io::Read;
use trials::shown;

/// Reads all in pieces of 4,096 bytes, and reports how many bytes came.
fn read_through<R: Read>(reader: &mut R) -> usize {
    let mut buffer = [0; 4_096];
    let mut sum: usize = 0;
    for _ in 0..10_000 {
        let count = reader.read(&mut buffer).unwrap_or(0);
        if count == 0 {
            break;
        }
        sum = sum.saturating_add(count);
    }
    sum
}

/// Returns how many bytes come of this many lines of four bytes, and what is printed at a terminal, if there is one.
fn told(alloc: Global, lines: usize, is_terminal: bool) -> Result<String, AllocError> {
    let lines = "DAY\n".repeat(alloc, lines)?;
    let mut notes = Vec::new(alloc);
    let terminal = if is_terminal { Some(&mut notes) } else { None };
    let sum = read_through(&mut Told::new(lines.as_bytes(), terminal));
    let notes = shown(alloc, &notes)?;
    format!(in alloc; "{sum}: {notes}")
}

#[test]
fn a_terminal_is_told_each_hundred_thousand_lines(rt: HostRuntime) {
    // A read ends 1,024 lines: the 98th ends the 100,000th, and the 196th the 200,000th.
    check_told(
        &rt,
        "250,000 lines",
        told(rt.alloc(), 250_000, true),
        "1000000: giveup: 100352 lines done/giveup: 200704 lines done/",
    );
}

#[test]
fn a_short_input_is_not_told_of(rt: HostRuntime) {
    let told = told(rt.alloc(), 99_999, true);
    check_told(&rt, "99,999 lines", told, "399996: ");
}

#[test]
fn what_is_read_is_the_same_without_a_terminal(rt: HostRuntime) {
    let told = told(rt.alloc(), 250_000, false);
    check_told(&rt, "no terminal", told, "1000000: ");
}
