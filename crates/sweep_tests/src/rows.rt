//! Tables of tests: texts whose lines are rows. A row is what is asked and, after ` -> `, the answer; a row with no
//! ` -> ` has an empty answer. `|` ends a line, and `(x*9)` is nine times x.
use crate::{script_lines, sheets, texts, view};
use std::alloc::{AllocError, Global};
use std::process::Abort;

/// What the rows of a table ask.
#[derive(Clone, Copy)]
pub enum Subject {
    /// The verdict on this sheet, or its first bad line.
    Sheets(sheets::Question),
    /// Whether these offers and rooms make a view, and whether that is nested.
    Views,
    /// What this line of a script says.
    Lines,
    /// The reply to a command.
    Replies,
    /// The outcome of a step.
    Outcomes,
    /// A position, an interest, a limit, lots that are right, or what isn't known.
    Answers,
}

/// Returns what the public calls answer to a question.
pub fn told(alloc: Global, subject: Subject, asked: &str) -> Result<String, AllocError> {
    match subject {
        Subject::Sheets(question) => sheets::told(alloc, question, asked),
        Subject::Views => view::told(alloc, asked),
        Subject::Lines => script_lines::told(alloc, asked),
        Subject::Replies => texts::reply_told(alloc, asked),
        Subject::Outcomes => texts::outcome_told(alloc, asked),
        Subject::Answers => texts::answer_told(alloc, asked),
    }
}

/// Returns the same, retrying once if memory is refused.
fn told_again(alloc: Global, subject: Subject, asked: &str) -> Result<String, AllocError> {
    match told(alloc, subject, asked) {
        Ok(text) => Ok(text),
        Err(_) => told(alloc, subject, asked),
    }
}

/// Returns what comes before the ` -> ` of a row, and what comes after it.
fn columns(row: &str) -> (&str, &str) {
    row.split_once(" -> ").unwrap_or((row, ""))
}

/// Asserts that this was the answer to what a row asks.
fn check_told(rt: &impl Abort, asked: &str, told: Result<String, AllocError>, expected: &str) {
    let told = told.expect(rt, "memory");
    assert_eq!(rt; told.as_str(), expected, "{asked}");
}

/// Asserts that this is the answer to what a row asks.
pub fn check_row(rt: &impl Abort, alloc: Global, subject: Subject, asked: &str, expected: &str) {
    check_told(rt, asked, told(alloc, subject, asked), expected);
}

/// Asserts that each row of a table has the answer that the row says.
pub fn check(rt: &impl Abort, alloc: Global, subject: Subject, table: &str) {
    for row in table.lines() {
        let (asked, expected) = columns(row);
        check_told(rt, asked, told(alloc, subject, asked), expected);
    }
}

/// Returns whether there is memory.
fn has_memory(alloc: Global) -> bool {
    Vec::<u8>::with_capacity(alloc, 1).is_ok()
}

/// Asserts the same, trying a row once more if it is refused memory. Nothing is asserted once there is no memory any more.
pub fn check_again(rt: &impl Abort, alloc: Global, subject: Subject, table: &str) {
    for row in table.lines() {
        let (asked, expected) = columns(row);
        match told_again(alloc, subject, asked) {
            Ok(told) => assert_eq!(rt; told.as_str(), expected, "{asked}"),
            Err(_) => assert!(rt; !has_memory(alloc), "no memory for {asked}"),
        }
    }
}

/// Returns the first word of a text, and the rest after the space.
pub fn first_word(text: &str) -> (&str, &str) {
    text.split_once(' ').unwrap_or((text, ""))
}

/// Returns the number that a word writes.
pub fn number(word: &str) -> u64 {
    word.parse().unwrap_or(0)
}

/// Returns a row's text with its signs replaced: with ends of lines, and with what is to be repeated this many times.
pub fn meant(alloc: Global, text: &str) -> Result<String, AllocError> {
    let (front, rest) = text.split_once('(').unwrap_or((text, ""));
    let (unit, rest) = rest.split_once('*').unwrap_or(("", ""));
    let (times, end) = rest.split_once(')').unwrap_or(("", ""));
    let middle = unit.repeat(alloc, times.parse().unwrap_or(0))?;
    let text = format!(in alloc; "{front}{middle}{end}")?;
    text.replace(alloc, "|", "\n")
}

/// Returns what was written, as a row has it.
pub fn shown(alloc: Global, written: Result<Vec<u8>, AllocError>) -> Result<String, AllocError> {
    let bytes = written?;
    let text = str::from_utf8(&bytes).unwrap_or("?");
    text.replace(alloc, "\n", "|")
}
