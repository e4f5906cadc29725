//! How many entries a seat has seen, after each kind of call.

use crate::opening::{DeskDay, closed, open_and_spend};
use crate::sample::{book_of, command_of};
use crate::transcript::answer_to;
use gu_book::Book;
use gu_desk::{Desk, EntryLedger, LotLedger, Question, Seat};
use std::alloc::{AllocError, Global};
use std::process::Abort;
use std::sync::Wait;
use std::thread::Threads;

/// Lines from a seat, their answers, and how many entries the seat has seen then. Entries from one seat, the other sees
/// with its next answer, and not before.
const FIRST: &[(&str, &str, u64)] = &[
    ("VIEW G9", "UnknownGroup", 2),
    ("SWEEP G9", "UnknownGroup", 2),
    ("SEE 0 G9", "UnknownGroup", 2),
    ("LIMIT G1 EXEC E1 100", "3 OK", 3),
];

/// Lines from the other seat after that, which has seen two entries until then.
const SECOND: &[(&str, &str, u64)] = &[
    ("SWEEP G9", "UnknownGroup", 2),
    ("POSITION A1 XF6", "LONG 0 SHORT 0", 3),
    ("SWEEP G1", "4 SWEPT 0", 4),
    ("DAY 20260105", "5 NO 2 WrongDay", 5),
    ("INTEREST XF6", "LOTS 0", 5),
];

/// Lines from the first seat then; after each of them the other enters a command.
const IN_TURN: &[(&str, &str, u64)] = &[
    ("VIEW G1", "VERSION 4", 5),
    ("SEE 0 G1", "VERSION 4", 6),
    ("HELD C1 A1", "ROWS 0", 7),
    ("NOTICES C1 1", "NOTICES 0 NEXT 9", 8),
    ("STRETCH C1 1", "NOTICES 0 NEXT 10 LAST", 9),
    ("SWEEP G1", "11 SWEPT 0", 11),
];

/// A question that asks nothing.
#[derive(Drop)]
struct Nothing;

impl Question for Nothing {
    ghost tells = { λ old book new. Unit {0} };

    fn ask(&mut self, _book: &Book) -> Result<(), AllocError> {
        Ok(())
    }
}

/// Says a line from a seat, and compares the answer and how many entries the seat has seen.
fn say<E: EntryLedger, S: LotLedger, R: Wait + Abort>(
    rt: &R,
    alloc: Global,
    desk: &Desk<E, S>,
    seat: &mut Seat<E, S>,
    row: (&str, &str, u64),
) {
    let (line, want, seen) = row;
    let answer = answer_to(rt, alloc, desk, seat, line)
        .ok()
        .expect(rt, "memory");
    assert_eq!(rt; answer.as_str(), want, "{line}");
    assert_eq!(rt; seat.seen(), seen, "{line}");
}

/// Enters a command from a seat that no answer is compared of.
fn enter<E: EntryLedger, S: LotLedger, R: Wait + Abort>(
    rt: &R,
    alloc: Global,
    desk: &Desk<E, S>,
    seat: &mut Seat<E, S>,
) {
    let command = command_of(alloc, "CLAIM C1 1").expect(rt, "a command");
    assert!(rt; desk.submit(rt, seat, command).is_ok());
}

/// Has a seat see what there is without an answer: by a question, and by a front that is shown to it.
fn see<E: EntryLedger, S: LotLedger, R: Wait + Abort>(
    rt: &R,
    alloc: Global,
    desk: &Desk<E, S>,
    seat: &mut Seat<E, S>,
    other: &mut Seat<E, S>,
) {
    enter(rt, alloc, desk, other);
    assert!(rt; desk.hold(rt).put(seat, &mut Nothing).is_ok());
    assert_eq!(rt; seat.seen(), 13);
    let mut front = desk.hold(rt).front(seat);
    enter(rt, alloc, desk, other);
    assert_eq!(rt; (seat.seen(), front.count()), (13, 13));
    desk.hold(rt).catch_up(seat, &mut front);
    assert_eq!(rt; (seat.seen(), front.count()), (14, 13));
}

/// Says each line from a seat.
fn say_each<E: EntryLedger, S: LotLedger, R: Wait + Abort>(
    rt: &R,
    alloc: Global,
    desk: &Desk<E, S>,
    seat: &mut Seat<E, S>,
    rows: &[(&str, &str, u64)],
) {
    for &row in rows {
        say(rt, alloc, desk, seat, row);
    }
}

/// Says each line from a seat, and enters a command from another after it.
fn say_in_turn<E: EntryLedger, S: LotLedger, R: Wait + Abort>(
    rt: &R,
    alloc: Global,
    desk: &Desk<E, S>,
    seat: &mut Seat<E, S>,
    other: &mut Seat<E, S>,
) {
    for &row in IN_TURN {
        say(rt, alloc, desk, seat, row);
        enter(rt, alloc, desk, other);
    }
}

/// Lines that are said from two seats in turn, over a book that has two entries.
#[derive(Drop)]
struct DayInTurn;

impl DeskDay for DayInTurn {
    fn spend<
        E: EntryLedger + Send + Sync,
        S: LotLedger + Send + Sync,
        R: Threads + Wait + Abort + Sync,
    >(self, rt: &R, alloc: Global, desk: Desk<E, S>, mut seats: Vec<Seat<E, S>>) {
        let mut seat = seats.pop().expect(rt, "a seat");
        let mut other = seats.pop().expect(rt, "another seat");
        assert_eq!(rt; (seat.seen(), other.seen()), (2, 2));
        say_each(rt, alloc, &desk, &mut seat, FIRST);
        say_each(rt, alloc, &desk, &mut other, SECOND);
        assert_eq!(rt; seat.seen(), 3);
        say_in_turn(rt, alloc, &desk, &mut seat, &mut other);
        see(rt, alloc, &desk, &mut seat, &mut other);
        assert!(rt; seats.push(other).is_ok());
        drop(closed(rt, desk, seats, seat));
    }
}

/// Returns a book with a day and a limit.
fn book_with_a_limit(rt: &impl Abort, alloc: Global) -> Book {
    let mut book = book_of(alloc).expect(rt, "a book");
    for line in ["DAY 20260105", "LIMIT G1 AGR P1 100"] {
        let command = command_of(alloc, line).expect(rt, "a command");
        assert!(rt; book.reply_to(&command).is_ok(), "{line}");
    }
    book
}

#[test]
fn a_seat_says_how_many_entries_it_has_seen(rt: HostRuntime) {
    let book = book_with_a_limit(&rt, rt.alloc());
    open_and_spend(&rt, rt.alloc(), book, 2, DayInTurn);
}
