//! What STATUS shows.

ghost use Rattle.std.specs.Prelude.{◌≡◌, ◌++◌, ℕ, List, IfOk, OnOk};
ghost use Rattle.std.specs.Fmt.{decimal};
ghost use Rattle.gu_text.specs.Texts.{word};
ghost use Rattle.gu_desk.specs.Holds.{Looks};
ghost use Rattle.gu_console.specs.Answers.{GoesOnFrom};
ghost use Rattle.gu_console.specs.Status.{IsDeskState, IsStatus, day_words, desk_words};

use crate::console::Console;
use crate::office::{Office, Places, moment_of};
use gu_book::Book;
use gu_desk::{EntryLedger, LotLedger, Question};
use gu_houses::{Informs, SeatReceipts};
use gu_posts::ConnectionStatus;
use gu_terms::{Day, FirmId, MOST_ENTRIES};
use gu_text::texts::{append_last_number, append_number, append_word};
use std::alloc::{AllocError, Global};
use std::sync::Wait;

/// What STATUS shows of the book: how many entries it has, how many lots they swept, and the open day. Each entry is read once, since those
/// that were counted stay as they are.
#[derive(Drop)]
pub(crate) struct BookCounts {
    pub(crate) entries: usize,
    lots: u64,
    day: Option<Day>,
}

impl BookCounts {
    /// Creates the counts of a book without entries.
    pub(crate) fn new() -> Self
        ensures { result.entries ≡ 0 }
    {
        BookCounts {
            entries: 0,
            lots: 0,
            day: None,
        }
    }
}

impl Question for BookCounts {
    ghost use Rattle.std.specs.Prelude.{◌≡◌, length};
    ghost use Rattle.gu_rules.specs.Reports.{open_day};

    ghost tells = { λ old book new. (new.entries ≡ length book.history) × (new.day ≡ open_day book.history) };

    fn ask(&mut self, book: &Book) -> Result<(), AllocError> {
        let history = book.history();
        for place in self.entries..history.len() {
            self.lots = self.lots.saturating_add(history.lots_at(place));
        }
        self.entries = history.len();
        self.day = book.day();
        Ok(())
    }
}

/// Appends a name and a number.
fn append_named(text: &mut Vec<u8>, name: &[u8], number: u64) -> Result<(), AllocError>
    ensures { OnOk result (text.new.items ≡ text.old.items ++ (word name.now ++ word (decimal number))) }
{
    append_word(text, name)?;
    append_number(text, number)
}

/// Appends the open day, or `-` before the first.
fn append_day(text: &mut Vec<u8>, day: Option<Day>) -> Result<(), AllocError>
    ensures { OnOk result (text.new.items ≡ text.old.items ++ day_words day) }
{
    append_word(text, b"DAY")?;
    match day {
        Some(day) => append_word(text, &day.text()),
        None => append_word(text, b"-"),
    }
}

/// Returns the word for a day that is open, or is being closed.
fn state_word(is_closing: bool) -> &'static [u8]
    ensures { IsDeskState result.now }
{
    if is_closing { b"CLOSING" } else { b"OPEN" }
}

/// Appends the first words of the line of the desk: what is shown of its book.
fn append_desk(text: &mut Vec<u8>, state: &[u8], counts: &BookCounts) -> Result<(), AllocError>
    ensures { OnOk result (text.new.items ≡ text.old.items ++ desk_words state.now counts.now.day counts.now.entries) }
{
    append_word(text, b"DESK")?;
    append_word(text, state)?;
    append_day(text, counts.day)?;
    append_named(text, b"ENTRIES", counts.entries as u64)
}

/// Appends the last words of the line of the desk.
fn append_places(text: &mut Vec<u8>, lots: u64, places: Places) -> Result<(), AllocError> {
    append_named(text, b"OF", MOST_ENTRIES as u64)?;
    append_named(text, b"SWEPT", lots)?;
    append_named(text, b"CONNECTIONS", places.now)?;
    append_named(text, b"OF", places.most)?;
    append_word(text, b"ALL")?;
    append_last_number(text, places.all)
}

/// Returns the name of a firm by its place in the reference's list, from 1 on; `-` before the Logon.
fn firm_name(firms: &[FirmId], place: u64) -> &[u8] {
    if place == 0 {
        return b"-";
    }
    match firms.get(place as usize - 1) {
        Some(firm) => firm.get(),
        None => b"-",
    }
}

/// Appends the line of a connection. Its moments are shown in milliseconds before this one.
fn append_connection(
    text: &mut Vec<u8>,
    firms: &[FirmId],
    now: u64,
    row: &ConnectionStatus,
) -> Result<(), AllocError> {
    append_named(text, b"CONNECTION", row.number)?;
    append_word(text, firm_name(firms, row.firm))?;
    append_named(text, b"PORT", row.port)?;
    append_named(text, b"SINCE", now.saturating_sub(row.since))?;
    append_named(text, b"HEARD", now.saturating_sub(row.heard))?;
    append_named(text, b"IN", row.bytes_in)?;
    append_named(text, b"OUT", row.bytes_out)?;
    append_named(text, b"EXPECTS", row.expected)?;
    append_named(text, b"SENDS", row.next)?;
    append_word(text, b"HELD")?;
    append_last_number(text, row.held)
}

/// Returns the rest of what STATUS shows, after what is shown of the book: how many connections there are, and each of them.
fn rest_of<O: Office>(alloc: Global, office: &O, lots: u64) -> Result<Vec<u8>, AllocError> {
    let connections = office.connections(alloc)?;
    let now = moment_of(office).get();
    let mut rest = Vec::new(alloc);
    append_places(&mut rest, lots, office.places())?;
    for row in &connections {
        append_connection(&mut rest, office.firms(), now, row)?;
    }
    Ok(rest)
}

/// Returns what STATUS shows, where the book has these counts.
fn status_of<O: Office>(
    alloc: Global,
    office: &O,
    counts: &BookCounts,
) -> Result<Vec<u8>, AllocError>
    ensures { IfOk result (λ text. (state : List ℕ) × (rest : List ℕ) × IsDeskState state
        × (text.items ≡ desk_words state counts.now.day counts.now.entries ++ rest)) }
{
    let mut text = Vec::new(alloc);
    append_desk(&mut text, state_word(office.is_closing()), counts)?;
    let rest = rest_of(alloc, office, counts.lots)?;
    text.extend_from_slice(&rest)?;
    Ok(text)
}

/// Counts what the book has, as the seat sees it then, and returns what STATUS shows.
pub(crate) fn show_status<E: EntryLedger, S: LotLedger, R: Wait, O: Office, I: Informs>(
    console: &Console<'_, E, S, R, O, I>,
    seat: &mut SeatReceipts<E, S>,
    counts: &mut BookCounts,
) -> Result<Vec<u8>, AllocError>
    ensures status { IfOk result (λ text. IsStatus E.reference seat.old text.items seat.new) }
    ensures looks { Looks E.reference seat.old seat.new }
    ensures goes_on { GoesOnFrom seat.old seat.new }
{
    seat.put(&console.tools.access, counts)?;
    status_of(console.alloc, console.office, counts)
}
