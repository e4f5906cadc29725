//! Rows of tables over the engines of the program.

use crate::engines::{Engine, told};
use std::alloc::{AllocError, Global};
use std::process::Abort;
use trials::{AMPLE, Terms, columns, front_told, meant, wire};

/// Asserts that a text is as a row says.
pub fn check_text(rt: &impl Abort, row: &str, text: &str, expected: &str) {
    assert_eq!(rt; text, expected, "{row}");
}

/// Asserts that the report of a run is the one in a row.
pub fn check_told(rt: &impl Abort, row: &str, told: Result<String, AllocError>, expected: &str) {
    let told = told.expect(rt, "memory");
    check_text(rt, row, &told, expected);
}

/// Asserts that a run reports this, with a number in the place of a row.
pub fn check_numbered(
    rt: &impl Abort,
    alloc: Global,
    number: usize,
    told: Result<String, AllocError>,
    expected: &str,
) {
    let row = format!(in alloc; "{number}").expect(rt, "memory");
    check_told(rt, &row, told, expected);
}

/// Returns the report of a run on a text, with its signs replaced.
pub fn told_of_text(
    alloc: Global,
    engine: Engine,
    text: &str,
    terms: Terms,
) -> Result<String, AllocError> {
    let input = wire(alloc, &meant(alloc, text)?)?;
    told(alloc, engine, input.as_bytes(), terms)
}

/// Asserts that the run on the text of each row, on these terms, reports what the row says.
pub fn check(rt: &impl Abort, alloc: Global, engine: Engine, terms: &str, table: &str) {
    for row in table.lines() {
        let (text, expected) = columns(row);
        let expected = meant(alloc, expected).expect(rt, "memory");
        let told = told_of_text(alloc, engine, text, Terms::of(terms));
        check_told(rt, row, told, &expected);
    }
}

/// Asserts that runs on an input, on the terms of each row, end and write as the row says.
pub fn check_terms(
    rt: &impl Abort,
    alloc: Global,
    engine: Engine,
    input: &str,
    output: &str,
    table: &str,
) {
    for row in table.lines() {
        let (terms, expected) = columns(row);
        let expected = front_told(alloc, expected, output).expect(rt, "memory");
        let told = told_of_text(alloc, engine, input, Terms::of(terms));
        check_told(rt, row, told, &expected);
    }
}

/// Asserts that a run prints the same wherever its input is cut.
pub fn check_cuts(rt: &impl Abort, alloc: Global, engine: Engine, input: &str, output: &str) {
    let expected = front_told(alloc, "done: all", output).expect(rt, "memory");
    for first in 1..input.len() {
        let terms = Terms { first, ..AMPLE };
        let told = told_of_text(alloc, engine, input, terms);
        check_numbered(rt, alloc, first, told, &expected);
    }
}
