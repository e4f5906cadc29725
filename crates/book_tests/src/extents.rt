//! Questions with long answers: only their length is reported.

use crate::words::{number, word};
use gu_book::Book;
use gu_terms::{AccountId, FirmId, MOST_ENTRIES, PositionRows, Stretch};
use gu_text::texts::{append_last_number, append_last_word, append_number, append_word};
use std::alloc::AllocError;

/// Appends a stretch: whether it is the last one, the number from which to ask next, and how many notices it has.
fn tell_stretch(text: &mut Vec<u8>, stretch: &Stretch) -> Result<(), AllocError> {
    let word: &[u8] = if stretch.is_last { b"LAST" } else { b"MORE" };
    append_word(text, word)?;
    append_number(text, stretch.notices.next)?;
    append_last_number(text, stretch.notices.list.len() as u64)
}

/// Appends the stretch of a firm's notices from a number on.
fn tell_stretch_of(
    text: &mut Vec<u8>,
    book: &Book,
    firm: &FirmId,
    from: u64,
) -> Result<(), AllocError> {
    let stretch = book.stretch(*firm, from)?;
    tell_stretch(text, &stretch)
}

/// Adds the stretch that comes after one to it.
fn join_next(book: &Book, firm: &FirmId, joined: &mut Stretch) -> Result<(), AllocError> {
    let next = book.stretch(*firm, joined.notices.next)?;
    joined.notices.list.extend_from_slice(&next.notices.list)?;
    joined.notices.next = next.notices.next;
    joined.is_last = next.is_last;
    Ok(())
}

/// Adds all stretches that come after a first one to it, and counts it and them.
fn join_all(book: &Book, firm: &FirmId, joined: &mut Stretch) -> Result<u64, AllocError> {
    let mut count: u64 = 1;
    for _next in 0..MOST_ENTRIES {
        if joined.is_last {
            return Ok(count);
        }
        join_next(book, firm, joined)?;
        count = count.wrapping_add(1);
    }
    Ok(count)
}

/// Appends how many stretches there are from a number on and how many notices they have, if these are the same notices as at
/// once.
fn tell_stretches_of(
    text: &mut Vec<u8>,
    book: &Book,
    firm: &FirmId,
    from: u64,
) -> Result<(), AllocError> {
    let mut joined = book.stretch(*firm, from)?;
    let count = join_all(book, firm, &mut joined)?;
    let all = book.notices(*firm, from)?;
    if joined.notices.next != all.next.max(from) {
        return append_last_word(text, b"ANOTHER END");
    }
    if joined.notices.list.as_slice() != all.list.as_slice() {
        return append_last_word(text, b"OTHER NOTICES");
    }
    append_number(text, count)?;
    append_last_number(text, all.list.len() as u64)
}

/// Appends how many entries are found by the numbers up to one more than there are.
fn tell_entries(text: &mut Vec<u8>, book: &Book) -> Result<(), AllocError> {
    let history = book.history();
    let mut count: u64 = 0;
    for number in 0..history.len() as u64 + 2 {
        let entry = history.entry(number)?;
        if entry.is_some() {
            count = count.wrapping_add(1);
        }
    }
    append_last_number(text, count)
}

/// Appends how many instruments an account holds, and their lots, long and short.
fn tell_rows(text: &mut Vec<u8>, held: &PositionRows) -> Result<(), AllocError> {
    let mut long: u64 = 0;
    let mut short: u64 = 0;
    for row in &held.rows {
        long = long.wrapping_add(row.long);
        short = short.wrapping_add(row.short);
    }
    append_number(text, held.rows.len() as u64)?;
    append_number(text, long)?;
    append_last_number(text, short)
}

/// Appends the same for a firm's account.
fn tell_rows_of(
    text: &mut Vec<u8>,
    book: &Book,
    firm: &FirmId,
    account: &AccountId,
) -> Result<(), AllocError> {
    match book.positions(*firm, *account)? {
        Some(held) => tell_rows(text, &held),
        None => append_last_word(text, b"NONE"),
    }
}

/// Returns the book's answer to such a question; nothing if memory is refused.
pub fn tell_extent_of(text: &mut Vec<u8>, book: &Book, line: &str) -> Option<()> {
    if word(line, 0) == "ENTRIES" {
        return tell_entries(text, book).ok();
    }
    let firm = FirmId::new(word(line, 1).as_bytes())?;
    match word(line, 0) {
        "STRETCH" => tell_stretch_of(text, book, &firm, number(line, 2)?).ok(),
        "STRETCHES" => tell_stretches_of(text, book, &firm, number(line, 2)?).ok(),
        _ => {
            let account = AccountId::new(word(line, 2).as_bytes())?;
            tell_rows_of(text, book, &firm, &account).ok()
        }
    }
}
