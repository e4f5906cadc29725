//! Tables of tests: texts whose lines are rows. A row is what a run is given and, after ` -> `, what it must report. In a text
//! `(x*9)` is nine times x, and `(x% *2..9)` is `x2 x3 ..` up to `x9 `.

use std::alloc::{AllocError, Global};

/// Returns what comes before the ` -> ` of a row, and what comes after it.
pub fn columns(row: &str) -> (&str, &str) {
    row.split_once(" -> ").unwrap_or((row, ""))
}

/// Parts of a text, one after another.
pub fn joined(alloc: Global, parts: &[&str]) -> Result<String, AllocError> {
    let mut text = String::new(alloc);
    for part in parts {
        text.push_str(part)?;
    }
    Ok(text)
}

/// Returns a text with a number in the place of each `%`.
fn with_number(alloc: Global, text: &str, number: u64) -> Result<String, AllocError> {
    let digits = format!(in alloc; "{number}")?;
    text.replace(alloc, "%", &digits)
}

/// Appends a text once for each number from a first to a last.
fn push_each(
    alloc: Global,
    meant: &mut String,
    text: &str,
    first: u64,
    last: u64,
) -> Result<(), AllocError> {
    for number in first..=last {
        let one = with_number(alloc, text, number)?;
        meant.push_str(&one)?;
    }
    Ok(())
}

/// Returns the number that a word writes.
fn number(word: &str) -> u64 {
    word.parse().unwrap_or(0)
}

/// Returns a text with its signs replaced.
pub fn meant(alloc: Global, text: &str) -> Result<String, AllocError> {
    let mut meant = String::new(alloc);
    for part in text.split('(') {
        let (repeated, rest) = part.split_once(')').unwrap_or(("", part));
        let (unit, range) = repeated.rsplit_once('*').unwrap_or(("", "0"));
        let (first, last) = range.split_once("..").unwrap_or(("1", range));
        push_each(alloc, &mut meant, unit, number(first), number(last))?;
        meant.push_str(rest)?;
    }
    Ok(meant)
}

/// Returns the expected output if a row says `end: count`: this many bytes of it, or all.
pub fn front_told(alloc: Global, expected: &str, output: &str) -> Result<String, AllocError> {
    let (end, count) = expected.split_once(": ").unwrap_or((expected, ""));
    let count = count.parse().unwrap_or(output.len());
    match output.split_at_checked(count) {
        Some((front, _)) => joined(alloc, &[end, ": ", front]),
        None => joined(alloc, &[end, ": more than ", output]),
    }
}
