//! The desk's one history: seats that see it grow, and its entries read in pieces.

use crate::opening::{DeskDay, closed, open_and_spend};
use crate::reader::Reader;
use crate::sample::{A_TRADE, book_of, command_of};
use gu_book::Book;
use gu_desk::{Answer, Desk, EntryLedger, LotLedger, Seat};
use gu_terms::{FirmId, Query};
use std::alloc::Global;
use std::process::Abort;
use std::sync::Wait;
use std::thread::Threads;

/// Returns the number after the last entry, as a seat sees it.
fn next_of<E: EntryLedger, S: LotLedger, R: Wait + Abort>(
    rt: &R,
    desk: &Desk<E, S>,
    seat: &mut Seat<E, S>,
) -> u64 {
    let firm = FirmId::new(b"C1").expect(rt, "a firm");
    match desk.ask(rt, seat, Query::Notices { firm, from: 1 }) {
        Ok(Answer::Notices(notices)) => notices.next,
        _ => panic!(rt; "no notices"),
    }
}

/// Enters a line from a seat, and returns the number after it.
fn after<E: EntryLedger, S: LotLedger, R: Wait + Abort>(
    rt: &R,
    alloc: Global,
    desk: &Desk<E, S>,
    seat: &mut Seat<E, S>,
    line: &str,
) -> u64 {
    let command = command_of(alloc, line).expect(rt, "a command");
    let receipt = desk.submit(rt, seat, command).ok().expect(rt, "a receipt");
    receipt.number.checked_add(1).expect(rt, "a number")
}

/// Enters a command, and returns a reader that goes on after it.
fn reader_after<E: EntryLedger, S: LotLedger, R: Wait + Abort>(
    rt: &R,
    alloc: Global,
    desk: &Desk<E, S>,
    seat: &mut Seat<E, S>,
    line: &str,
) -> Reader<E> {
    let command = command_of(alloc, line).expect(rt, "a command");
    let mut held = desk.hold(rt);
    assert!(rt; held.enter(seat, &command, None).is_ok());
    Reader::new(alloc, &mut *held, seat)
}

/// A line that is entered from another seat, at most how many entries are read then, and how many there are.
const PIECES: &[(&str, usize, usize)] = &[
    ("LIMIT G1 EXEC E1 1", 0, 0),
    ("LIMIT G1 EXEC E1 2", 1, 1),
    ("LIMIT G1 EXEC E1 3", 1, 1),
    ("GIVEUP E1 L1 R1 A1 3 A1 2 A1 1", 2, 2),
    ("CLAIM C1 1", 1_000, 1),
    ("DAY 20260105", 3, 1),
    ("DAY 20260106", usize::MAX, 1),
];

/// Reads at most this many entries and shows them to a seat. Returns how many they are.
fn read_and_show<E: EntryLedger, S: LotLedger, R: Wait + Abort>(
    rt: &R,
    desk: &Desk<E, S>,
    seat: &mut Seat<E, S>,
    reader: &mut Reader<E>,
    most: usize,
) -> Option<usize> {
    let before = reader.len();
    let mut held = desk.hold(rt);
    assert!(rt; reader.read(&mut *held, most).is_ok());
    reader.show_to(&mut *held, seat);
    reader.len().checked_sub(before)
}

/// Enters a line from the second seat, which both see, and reads what there is from the first.
fn read_piece<E: EntryLedger, S: LotLedger, R: Wait + Abort>(
    rt: &R,
    alloc: Global,
    desk: &Desk<E, S>,
    seat: &mut Seat<E, S>,
    other: &mut Seat<E, S>,
    reader: &mut Reader<E>,
    piece: (&str, usize, usize),
) {
    let (line, most, count) = piece;
    let next = after(rt, alloc, desk, other, line);
    assert_eq!(rt; next_of(rt, desk, seat), next, "{line}");
    assert_eq!(rt; next_of(rt, desk, other), next, "{line}");
    let read = read_and_show(rt, desk, seat, reader, most);
    assert_eq!(rt; read, Some(count), "{line}");
}

/// What two seats enter in turn, read in pieces.
#[derive(Drop)]
struct DayInPieces;

impl DeskDay for DayInPieces {
    fn spend<
        E: EntryLedger + Send + Sync,
        S: LotLedger + Send + Sync,
        R: Threads + Wait + Abort + Sync,
    >(self, rt: &R, alloc: Global, desk: Desk<E, S>, mut seats: Vec<Seat<E, S>>) {
        let mut seat = seats.pop().expect(rt, "a seat");
        let mut other = seats.pop().expect(rt, "another seat");
        let mut reader = reader_after(rt, alloc, &desk, &mut seat, "DAY 20260105");
        for &piece in PIECES {
            read_piece(rt, alloc, &desk, &mut seat, &mut other, &mut reader, piece);
        }
        assert!(rt; seats.push(other).is_ok());
        let book = closed(rt, desk, seats, seat);
        assert_eq!(rt; reader.len(), 7);
        reader.compare(rt, &book);
    }
}

/// Returns a book with a day, limits and a trade.
fn book_with_a_trade(rt: &impl Abort, alloc: Global) -> Book {
    let mut book = book_of(alloc).expect(rt, "a book");
    for line in A_TRADE.lines() {
        let command = command_of(alloc, line).expect(rt, "a command");
        assert!(rt; book.reply_to(&command).is_ok(), "{line}");
    }
    book
}

#[test]
fn what_seats_enter_in_turn_is_read_in_pieces(rt: HostRuntime) {
    let book = book_with_a_trade(&rt, rt.alloc());
    open_and_spend(&rt, rt.alloc(), book, 2, DayInPieces);
}

/// Enters the same day again and again, until the book is full.
fn fill<E: EntryLedger, S: LotLedger, R: Wait + Abort>(
    rt: &R,
    alloc: Global,
    desk: &Desk<E, S>,
    seat: &mut Seat<E, S>,
) {
    let day = command_of(alloc, "DAY 20260105").expect(rt, "a command");
    for _ in 0..999_999 {
        assert!(rt; desk.hold(rt).enter(seat, &day, None).is_ok());
    }
}

/// Reads a million entries in pieces of 65,536, of which only the last is kept.
fn read_million<E: EntryLedger, S: LotLedger, R: Wait + Abort>(
    rt: &R,
    desk: &Desk<E, S>,
    reader: &mut Reader<E>,
) {
    for _ in 0..15 {
        assert!(rt; reader.read(&mut *desk.hold(rt), 65_536).is_ok());
        assert_eq!(rt; reader.len(), 65_536);
        reader.forget();
    }
    assert!(rt; reader.read(&mut *desk.hold(rt), usize::MAX).is_ok());
    assert_eq!(rt; (reader.len(), reader.number()), (16_959, 1_000_000));
    assert!(rt; reader.read(&mut *desk.hold(rt), usize::MAX).is_ok());
}

/// A book that is filled from a seat, and read to its end.
#[derive(Drop)]
struct FullDay;

impl DeskDay for FullDay {
    fn spend<
        E: EntryLedger + Send + Sync,
        S: LotLedger + Send + Sync,
        R: Threads + Wait + Abort + Sync,
    >(self, rt: &R, alloc: Global, desk: Desk<E, S>, mut seats: Vec<Seat<E, S>>) {
        let mut seat = seats.pop().expect(rt, "a seat");
        let mut reader = reader_after(rt, alloc, &desk, &mut seat, "DAY 20260105");
        fill(rt, alloc, &desk, &mut seat);
        read_million(rt, &desk, &mut reader);
        let book = closed(rt, desk, seats, seat);
        reader.compare(rt, &book);
    }
}

#[test]
fn a_full_history_is_read_to_its_end(rt: HostRuntime) {
    let book = book_of(rt.alloc()).expect(&rt, "a book");
    open_and_spend(&rt, rt.alloc(), book, 1, FullDay);
}
