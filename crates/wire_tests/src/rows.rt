//! Tables of tests: texts whose lines are rows. A row is what is asked and, after ` -> `, the answer; a row with no
//! ` -> ` has an empty answer. In both, `{x*9}` is nine times x.
use crate::messages::meant;
use crate::words::{Values, sample};
use crate::{
    answering, cut, encoding, feed, fields, header, history, intake, names, numbers, reading,
    receipts, reports, takes, writing,
};
use std::alloc::{AllocError, Global};
use std::process::Abort;

/// What the rows of a table ask.
#[derive(Clone, Copy)]
pub enum Subject {
    /// A name and an id with this text.
    Names,
    /// The lots, the price, or the day and its first moment of this text.
    Lots,
    Price,
    Day,
    /// Lots, an offer and a moment with this number.
    Ranges,
    /// This many takes, and this many members of a cut.
    Takes,
    Cut,
    /// How many takes a receipt has, and how many copies are that receipt.
    Receipts,
    /// How many entries a history has.
    History,
    /// The messages that a feed gives after this front.
    Fronts,
    /// How many messages a feed gives of a stream in pieces.
    Pieces,
    /// How many messages a feed gives for each cut of a stream, or which ones if one of its bytes is changed.
    Places(feed::Change),
    /// The messages that an intake gives after this front, and how many it gives of a stream in pieces.
    TakenAfter,
    TakenIn,
    /// The sizes of pieces in which an intake gives other messages of this stream than a feed.
    Unlike,
    /// The fields of this message, and its first malformed one.
    Fields(fields::Holder),
    /// The message of these fields.
    Encoding,
    /// The header of these fields.
    Header,
    /// What the fields of a message say after this front, or with a part of this message in another form.
    Reading(&'static str),
    /// The same, and who sent it.
    Sent(&'static str),
    /// The answer to what a message asks.
    Answers,
    /// How many messages answer a question for positions.
    Positions,
    /// What a notice is sent as.
    Notices,
    /// What a message of the session is written as.
    Written,
    /// The answer to a report, on the wire.
    Acknowledged,
}

/// Returns what the public calls answer to a question.
fn told(alloc: Global, w: &Values, subject: Subject, asked: &str) -> Result<String, AllocError> {
    match subject {
        Subject::Names => names::told(alloc, asked),
        Subject::Lots => numbers::lots_told(alloc, asked),
        Subject::Price => numbers::price_told(alloc, asked),
        Subject::Day => numbers::day_told(alloc, asked),
        Subject::Ranges => numbers::ranges_told(alloc, asked),
        Subject::Takes => takes::told(alloc, asked),
        Subject::Cut => cut::told(alloc, asked),
        Subject::Receipts => receipts::told(alloc, w, asked),
        Subject::History => history::told(alloc, w, asked),
        Subject::Fronts => feed::told(alloc, asked),
        Subject::Pieces => feed::pieces_told(alloc, asked),
        Subject::Places(change) => feed::places_told(alloc, change),
        Subject::TakenAfter => intake::told(alloc, asked),
        Subject::TakenIn => intake::pieces_told(alloc, asked),
        Subject::Unlike => intake::unlike_told(alloc, asked),
        Subject::Fields(holder) => fields::told(alloc, holder, asked),
        Subject::Encoding => encoding::told(alloc, asked),
        Subject::Header => header::told(alloc, asked),
        Subject::Reading(front) => reading::told(alloc, front, asked),
        Subject::Sent(front) => reports::told(alloc, front, asked),
        Subject::Answers => answering::told(alloc, w, asked),
        Subject::Positions => answering::positions_told(alloc, w, asked),
        Subject::Notices => answering::notice_told(alloc, w, asked),
        Subject::Written => writing::told(alloc, w, asked),
        Subject::Acknowledged => reports::acknowledged(alloc, w, asked),
    }
}

/// Returns what is wrong with a row: an empty text if it is right.
fn fault(alloc: Global, w: &Values, subject: Subject, row: &str) -> Result<String, AllocError> {
    let (asked, expected) = parts_at(row, " -> ");
    let expected = meant(alloc, expected)?;
    let found = told(alloc, w, subject, asked)?;
    if found.as_str() == expected.as_str() {
        Ok(String::new(alloc))
    } else {
        format!(in alloc; "told {found} of {row}")
    }
}

/// Returns the same, retrying once if memory is refused.
fn fault_again(
    alloc: Global,
    w: &Values,
    subject: Subject,
    row: &str,
) -> Result<String, AllocError> {
    match fault(alloc, w, subject, row) {
        Ok(text) => Ok(text),
        Err(_) => fault(alloc, w, subject, row),
    }
}

/// Returns whether there is memory.
pub fn has_memory(alloc: Global) -> bool {
    Vec::<u8>::with_capacity(alloc, 1).is_ok()
}

/// Asserts that each row of a table has the answer that the row says. Nothing is asserted once there is no memory any more.
pub fn check(rt: &impl Abort, alloc: Global, subject: Subject, table: &str) {
    let w = sample().expect(rt, "a sample");
    for row in table.lines() {
        match fault_again(alloc, &w, subject, row) {
            Ok(fault) => assert!(rt; fault.is_empty(), "{fault}"),
            Err(_) => assert!(rt; !has_memory(alloc), "no memory for {row}"),
        }
    }
}

/// Returns what comes before a mark in a text, and what comes after it: the whole text, and nothing, if the mark isn't in it.
pub fn parts_at<'a>(text: &'a str, mark: &str) -> (&'a str, &'a str) {
    text.split_once(mark).unwrap_or((text, ""))
}

/// Returns the first word of a text, and the rest after the space.
pub fn first_word(text: &str) -> (&str, &str) {
    parts_at(text, " ")
}

/// Returns the number that a word writes.
pub fn number(word: &str) -> u64 {
    word.parse().unwrap_or(0)
}
