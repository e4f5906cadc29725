//! Questions to a book, and what it reports: line by line.

use crate::extents::tell_extent_of;
use crate::words::{number, word};
use gu_book::{Answer, AskError, Book};
use gu_limits::path;
use gu_terms::{
    AccountId, AgreementId, AllocReject, FirmId, Group, LimitKey, LimitRow, Notice, OfferEvent,
    OfferNotice, PositionRows, Query, Report, Side,
};
use gu_text::texts::{append_last_number, append_last_word, append_number, append_word};
use gu_text::{Line, TextError};
use gu_view::{View, ViewOffer};
use std::alloc::{AllocError, Global};

/// Ends a line whose last word has a blank after it.
pub fn end_line(text: &mut Vec<u8>) -> Result<(), AllocError> {
    let _ = text.pop();
    text.push(b'\n')?;
    Ok(())
}

/// Reports the kind and the name of a key, and a number.
pub fn tell_key(text: &mut Vec<u8>, key: &LimitKey, lots: u64) -> Result<(), AllocError> {
    append_word(text, key.kind().as_bytes())?;
    append_word(text, key.name())?;
    append_last_number(text, lots)
}

/// Reports limits: the key of each, the limit, its use and its room.
pub fn tell_limits(text: &mut Vec<u8>, rows: &[LimitRow]) -> Result<(), AllocError> {
    for row in rows {
        append_word(text, row.key.kind().as_bytes())?;
        append_word(text, row.key.name())?;
        append_number(text, row.limit)?;
        append_number(text, row.used)?;
        append_last_number(text, row.room)?;
    }
    Ok(())
}

/// Appends how many limits there are, and the sums of them and of their rooms.
fn tell_count(text: &mut Vec<u8>, rows: &[LimitRow]) -> Result<(), AllocError> {
    let mut limits: u64 = 0;
    let mut rooms: u64 = 0;
    for row in rows {
        limits = limits.saturating_add(row.limit);
        rooms = rooms.saturating_add(row.room);
    }
    append_number(text, rows.len() as u64)?;
    append_number(text, limits)?;
    append_last_number(text, rooms)
}

/// Reports an open offer: its number, what is left of it, its agreement, and the other names on its path.
fn tell_offer(text: &mut Vec<u8>, offer: &ViewOffer) -> Result<(), AllocError> {
    append_word(text, b"OFFER")?;
    append_number(text, offer.number.get())?;
    append_number(text, offer.lots)?;
    append_word(text, offer.agreement.get())?;
    for key in offer.path.keys() {
        if !matches!(key, LimitKey::Agr(_)) {
            append_word(text, key.name())?;
        }
    }
    end_line(text)
}

/// Reports a view: its version, its open offers, and the rooms of their keys.
pub fn tell_view(text: &mut Vec<u8>, view: &View) -> Result<(), AllocError> {
    append_last_number(text, view.version())?;
    for offer in view.offers() {
        tell_offer(text, offer)?;
    }
    for room in view.rooms() {
        append_word(text, b"ROOM")?;
        tell_key(text, &room.key, room.lots)?;
    }
    Ok(())
}

/// Reports the first and the last offer of a view, how many there are, and how many rooms.
fn tell_extent(text: &mut Vec<u8>, view: &View) -> Result<(), AllocError> {
    if let ([first, ..], [.., last]) = (view.offers(), view.offers()) {
        append_number(text, first.number.get())?;
        append_number(text, last.number.get())?;
    }
    append_number(text, view.offers().len() as u64)?;
    append_last_number(text, view.rooms().len() as u64)
}

/// Returns a side as its word.
fn side_word(side: Side) -> &'static [u8] {
    match side {
        Side::Buy => b"B",
        Side::Sell => b"S",
    }
}

/// Returns what became of an offer.
fn event_word(event: OfferEvent) -> &'static [u8] {
    match event {
        OfferEvent::Offered => b"OFFERED",
        OfferEvent::Claimed => b"CLAIMED",
        OfferEvent::Refused(AllocReject::BlockLevel) => b"REFUSED 1",
        OfferEvent::Refused(AllocReject::AccountLevel) => b"REFUSED 2",
        OfferEvent::Refused(AllocReject::Intermediary) => b"REFUSED 5",
        OfferEvent::Reversed => b"REVERSED",
    }
}

/// Appends a report of a trade: the entry that made it, and the report.
fn tell_matched(text: &mut Vec<u8>, entry: u64, report: &Report) -> Result<(), AllocError> {
    append_number(text, entry)?;
    append_word(text, report.id.get())?;
    append_word(text, report.match_id.get())?;
    append_word(text, side_word(report.side))?;
    append_word(text, report.symbol.get())?;
    append_number(text, report.lots.get())?;
    append_last_word(text, report.account.get())
}

/// Reports an event of an offer: its number, the lots, the account, and the side and instrument of the trade.
fn tell_event(text: &mut Vec<u8>, notice: &OfferNotice) -> Result<(), AllocError> {
    append_number(text, notice.offer.get())?;
    append_word(text, event_word(notice.event))?;
    append_number(text, notice.lots.get())?;
    append_word(text, notice.account.get())?;
    append_word(text, side_word(notice.side))?;
    append_last_word(text, notice.symbol.get())
}

/// Reports the number from which to ask next, and each notice.
fn tell_notices(text: &mut Vec<u8>, next: u64, list: &[Notice]) -> Result<(), AllocError> {
    append_word(text, b"next")?;
    append_last_number(text, next)?;
    for notice in list {
        match notice {
            Notice::Matched { entry, report } => tell_matched(text, *entry, report)?,
            Notice::Offer(notice) => tell_event(text, notice)?,
        }
    }
    Ok(())
}

/// Reports the open day, and all that an account holds.
fn tell_held(text: &mut Vec<u8>, held: &PositionRows) -> Result<(), AllocError> {
    append_last_number(text, held.day.map_or(0, |day| u64::from(day.number())))?;
    for row in &held.rows {
        append_word(text, row.symbol.get())?;
        append_number(text, row.long)?;
        append_last_number(text, row.short)?;
    }
    Ok(())
}

/// Appends how many entries there are, and the open day.
fn tell_book(text: &mut Vec<u8>, book: &Book) -> Result<(), AllocError> {
    append_number(text, book.history().len() as u64)?;
    append_last_number(text, book.day().map_or(0, |day| u64::from(day.number())))
}

/// Reports the keys over an agreement.
fn tell_path(text: &mut Vec<u8>, keys: &[LimitKey]) -> Result<(), AllocError> {
    for key in keys {
        append_word(text, key.kind().as_bytes())?;
        append_last_word(text, key.name())?;
    }
    Ok(())
}

/// Reports the limits of a group, or how many there are.
fn tell_limits_of(
    text: &mut Vec<u8>,
    book: &Book,
    is_count: bool,
    group: &Group,
) -> Result<(), AllocError> {
    let rows = book.limits(group)?;
    let told = if is_count {
        tell_count(text, &rows)
    } else {
        tell_limits(text, &rows)
    };
    drop(rows);
    told
}

/// Appends an answer: for a position the lots long and the lots short, and for each other kind its own words.
fn tell_answer(text: &mut Vec<u8>, answer: &Answer) -> Result<(), AllocError> {
    match answer {
        Answer::Position { long, short } => {
            append_number(text, *long)?;
            append_last_number(text, *short)
        }
        Answer::Interest { lots } => append_last_number(text, *lots),
        Answer::Positions(Some(held)) => tell_held(text, held),
        Answer::Positions(None) => append_last_word(text, b"NONE"),
        Answer::Look(view) => tell_view(text, view),
        Answer::Notices(notices) => tell_notices(text, notices.next, &notices.list),
    }
}

/// Reports why there is no answer.
fn tell_no_answer(text: &mut Vec<u8>, why: AskError) -> Result<(), AllocError> {
    match why {
        AskError::UnknownGroup => append_last_word(text, b"UNKNOWN GROUP"),
        AskError::Memory => Err(AllocError),
    }
}

/// Appends the book's answer to a query.
fn tell_query(text: &mut Vec<u8>, book: &Book, query: Query) -> Result<(), AllocError> {
    match book.answer(query) {
        Ok(answer) => {
            let told = tell_answer(text, &answer);
            drop(answer);
            told
        }
        Err(why) => tell_no_answer(text, why),
    }
}

/// Reports the extent of the view of a group.
fn tell_extent_of_view(text: &mut Vec<u8>, book: &Book, group: &Group) -> Result<(), AllocError> {
    match book.view(group) {
        Ok(view) => {
            let told = tell_extent(text, &view);
            drop(view);
            told
        }
        Err(why) => tell_no_answer(text, why),
    }
}

/// Reports of the limits of a group, or of the view of a group.
fn tell_of_group(
    text: &mut Vec<u8>,
    book: &Book,
    kind: &str,
    group: &Group,
) -> Result<(), AllocError> {
    match kind {
        "COUNT" => tell_limits_of(text, book, true, group),
        "VIEW" => tell_query(text, book, Query::Look { group: *group }),
        _ => tell_extent_of_view(text, book, group),
    }
}

/// Appends the keys over an agreement, if it is known.
fn tell_path_of(text: &mut Vec<u8>, book: &Book, agreement: AgreementId) -> Result<(), AllocError> {
    match path(book.reference(), agreement) {
        Some(path) => tell_path(text, path.keys()),
        None => append_last_word(text, b"NONE"),
    }
}

/// Returns the book's answer to a question that no script has; nothing if memory is refused.
fn tell_more(text: &mut Vec<u8>, book: &Book, line: &str) -> Option<()> {
    let name = word(line, 1).as_bytes();
    match word(line, 0) {
        "BOOK" => tell_book(text, book).ok(),
        "PATH" => tell_path_of(text, book, AgreementId::new(name)?).ok(),
        "NOTICES" => {
            let firm = FirmId::new(name)?;
            let from = number(line, 2)?;
            tell_query(text, book, Query::Notices { firm, from }).ok()
        }
        "STRETCH" | "STRETCHES" | "ENTRIES" | "ROWS" => tell_extent_of(text, book, line),
        "HELD" => {
            let firm = FirmId::new(name)?;
            let account = AccountId::new(word(line, 2).as_bytes())?;
            tell_query(text, book, Query::Positions { firm, account }).ok()
        }
        kind => tell_of_group(text, book, kind, &Group::new(name)?).ok(),
    }
}

/// Adds the book's answer to what was read of a line.
fn tell_read(
    text: &mut Vec<u8>,
    book: &Book,
    line: &str,
    read: &Result<Option<Line>, TextError>,
) -> Option<()> {
    match read {
        Ok(Some(Line::Position(account, symbol))) => {
            let (account, symbol) = (*account, *symbol);
            tell_query(text, book, Query::Position { account, symbol }).ok()
        }
        Ok(Some(Line::Interest(symbol))) => {
            tell_query(text, book, Query::Interest { symbol: *symbol }).ok()
        }
        Ok(Some(Line::Limits(group))) => tell_limits_of(text, book, false, group).ok(),
        Ok(_) => None,
        Err(_) => tell_more(text, book, line),
    }
}

/// Adds the book's answer to a question; nothing if memory is refused.
pub fn tell_of_book(text: &mut Vec<u8>, alloc: Global, book: &Book, line: &str) -> Option<()> {
    let read = Line::read(alloc, line.as_bytes(), 0);
    let told = tell_read(text, book, line, &read);
    drop(read);
    told
}
