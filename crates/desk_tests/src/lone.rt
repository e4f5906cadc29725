//! One seat after another: what a lone sweep takes, what is known after it, and how a desk is closed.

use crate::opening::{DeskDay, closed, open_and_spend};
use crate::sample::{book_of, command_of, group_of};
use crate::transcript::{follow, stretch_text, view_text};
use gu_book::Book;
use gu_desk::{CloseFault, Desk, Entered, EntryLedger, LotLedger, Seat, SweepOrder};
use gu_terms::{FirmId, Group};
use std::alloc::{AllocError, Global};
use std::process::Abort;
use std::sync::Wait;
use std::thread::Threads;

/// A trade of seven lots, all of which are given up.
const OFFERED: &str = "\
DAY 20260105 = 1 OK
LIMIT G1 EXEC E1 100 = 2 OK
LIMIT G1 AGR P1 100 = 3 OK
LIMIT G1 ACCT A1 100 = 4 OK
LIMIT G1 CARRY C1 100 = 5 OK
REPORT E1 R1 M1 B XF6 7 101.5 H1 = 6 OK OPEN
REPORT E2 R2 M1 S XF6 7 101.5 H2 = 7 OK MATCHED
GIVEUP E1 L1 R1 A1 7 = 8 OK OFFERS 1 1
VIEW G1 = VERSION 6, OFFER 1 7
SEE 0 G1 = VERSION 6, OFFER 1 7
POSITION A1 XF6 = LONG 0 SHORT 0
INTEREST XF6 = LOTS 7
";

/// The sweep, and what is answered after it.
const SWEPT: &str = "\
SWEEP G1 = 9 SWEPT 7
SWEEP G9 = UnknownGroup
SEE 0 G9 = UnknownGroup
VIEW G9 = UnknownGroup
POSITION A1 XF6 = LONG 7 SHORT 0
POSITION H1 XF6 = LONG 0 SHORT 0
POSITION H2 XF6 = LONG 0 SHORT 7
INTEREST XF6 = LOTS 7
HELD C1 A1 = ROWS 1
HELD E1 A1 = UNKNOWN
NOTICES C1 1 = NOTICES 2 NEXT 10
NOTICES C1 9 = NOTICES 1 NEXT 10
STRETCH C1 0 = NOTICES 2 NEXT 10 LAST
STRETCH C1 9 = NOTICES 1 NEXT 10 LAST
STRETCH C1 10 = NOTICES 0 NEXT 10 LAST
STRETCH C1 11 = NOTICES 0 NEXT 11 LAST
STRETCH C9 1 = NOTICES 0 NEXT 10 LAST
VIEW G1 = VERSION 7
SEE 0 G1 = VERSION 7
CLAIM C1 1 = 10 NO 14 OfferClosed
SWEEP G1 = 11 SWEPT 0
";

/// The answers to a seat from which nothing was entered yet.
const FROM_ANOTHER_SEAT: &str = "\
POSITION A1 XF6 = LONG 7 SHORT 0
SEE 0 G1 = VERSION 8
NOTICES C1 1 = NOTICES 2 NEXT 12
STRETCH C1 1 = NOTICES 2 NEXT 12 LAST
DAY 20260105 = 12 NO 2 WrongDay
REVERSE C1 1 = 13 OK LOTS 7
POSITION A1 XF6 = LONG 0 SHORT 0
GIVEUP E1 L2 R1 A1 7 = 14 OK OFFERS 2 2
REFUSE C1 2 1 = 15 OK LOTS 7
POSITION A1 XF6 = LONG 0 SHORT 0
POSITION H1 XF6 = LONG 7 SHORT 0
";

/// Sweeps between two reads of one token: what was published stays as it was.
fn sweep_seen<E: EntryLedger, S: LotLedger, R: Wait + Abort>(
    rt: &R,
    alloc: Global,
    desk: &Desk<E, S>,
    seat: &mut Seat<E, S>,
) {
    let group = group_of("G1").expect(rt, "a group");
    let token = desk.look(rt, seat, group).ok().expect(rt, "a view");
    follow(rt, alloc, desk, seat, SWEPT);
    let text = view_text(alloc, desk.read(&token))
        .ok()
        .expect(rt, "memory");
    assert_eq!(rt; text.as_str(), "VERSION 6, OFFER 1 7");
}

/// Gives the lots up once more, and asks in the same hold for the carrying firm's notices: they include this entry's offer.
fn offer_told<E: EntryLedger, S: LotLedger, R: Wait + Abort>(
    rt: &R,
    alloc: Global,
    desk: &Desk<E, S>,
    seat: &mut Seat<E, S>,
) {
    let command = command_of(alloc, "GIVEUP E1 L3 R1 A1 7").expect(rt, "a command");
    let firm = FirmId::new(b"C1").expect(rt, "a firm");
    let told = desk.hold(rt).enter(seat, &command, Some((firm, 16)));
    let Entered {
        number,
        stretch,
        ..
    } = told.ok().expect(rt, "memory");
    let stretch = stretch.expect(rt, "a stretch");
    let text = stretch_text(alloc, &stretch).ok().expect(rt, "memory");
    assert_eq!(rt; (number, text.as_str()), (16, "NOTICES 1 NEXT 17 LAST"));
}

/// Closes a desk, first without a seat.
fn close<E: EntryLedger, S: LotLedger, R: Abort>(
    rt: &R,
    desk: Desk<E, S>,
    seats: Vec<Seat<E, S>>,
    seat: Seat<E, S>,
) -> Book {
    let Err((fault, desk, seats)) = desk.close(seats) else {
        panic!(rt; "a seat is missing");
    };
    assert_eq!(rt; (fault, seats.len()), (CloseFault::SeatMissing, 1));
    closed(rt, desk, seats, seat)
}

/// A trade and its give-up from one of two seats, a sweep, and questions from the other.
#[derive(Drop)]
struct LoneDay;

impl DeskDay for LoneDay {
    fn spend<
        E: EntryLedger + Send + Sync,
        S: LotLedger + Send + Sync,
        R: Threads + Wait + Abort + Sync,
    >(self, rt: &R, alloc: Global, desk: Desk<E, S>, mut seats: Vec<Seat<E, S>>) {
        let mut seat = seats.pop().expect(rt, "a seat");
        let mut other = seats.pop().expect(rt, "another seat");
        follow(rt, alloc, &desk, &mut seat, OFFERED);
        sweep_seen(rt, alloc, &desk, &mut seat);
        follow(rt, alloc, &desk, &mut other, FROM_ANOTHER_SEAT);
        offer_told(rt, alloc, &desk, &mut other);
        assert!(rt; seats.push(other).is_ok());
        let book = close(rt, desk, seats, seat);
        assert_eq!(rt; (book.history().len(), book.lots_swept()), (16, 7));
    }
}

#[test]
fn a_lone_sweep_takes_what_is_there(rt: HostRuntime) {
    let book = book_of(rt.alloc()).expect(&rt, "a book");
    open_and_spend(&rt, rt.alloc(), book, 2, LoneDay);
}

/// Returns the group that is to be swept after a line, if any.
fn order_of(alloc: Global, book: &mut Book, line: &str) -> Result<Option<Group>, AllocError> {
    let Some(command) = command_of(alloc, line) else {
        return Ok(None);
    };
    let Ok(receipt) = book.enter(command) else {
        return Err(AllocError);
    };
    let order = SweepOrder::of(&receipt)?;
    Ok(order.map(|order| order.group()))
}

/// Lines, and the group that is to be swept after each: only an accepted give-up orders a sweep.
const ORDERS: &str = "\
DAY 20260105 = none
LIMIT G1 AGR P1 100 = none
REPORT E1 R1 M1 B XF6 10 101.5 H1 = none
REPORT E2 R2 M1 S XF6 10 101.5 H2 = none
GIVEUP E1 L1 R1 A1 7 = G1
GIVEUP E1 L1 R1 A1 1 = none
CLAIM C1 1 = none
REFUSE C1 1 1 = none
";

#[test]
fn an_accepted_give_up_orders_a_sweep(rt: HostRuntime) {
    let alloc = rt.alloc();
    let mut book = book_of(alloc).expect(&rt, "a book");
    for line in ORDERS.lines() {
        let (said, want) = line.split_once(" = ").unwrap_or((line, ""));
        let told = order_of(alloc, &mut book, said);
        assert_eq!(rt; told.ok(), Some(group_of(want)), "{said}");
    }
}
