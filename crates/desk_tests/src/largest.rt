//! A desk of 64 seats over a book with 4,096 open offers, looked at and swept thousands of times.

use crate::opening::{DeskDay, closed, open_and_spend};
use crate::sample::{A_TRADE, book_of, command_of, group_of};
use crate::transcript::follow;
use gu_book::Book;
use gu_desk::{Desk, Direct, EntryLedger, LotLedger, Seat};
use gu_terms::FirmId;
use std::alloc::{AllocError, Global};
use std::process::Abort;
use std::sync::Wait;
use std::thread::Threads;

/// Trades of more lots, in the place of that of ten.
const MORE_LOTS: &str = "\
REPORT E1 R3 M3 B XF6 5000 101.5 H1
REPORT E2 R4 M3 S XF6 5000 101.5 H2
";

/// What a sweep of the offers takes, and what is answered after it.
const SWEPT: &str = "\
SWEEP G1 = 266 SWEPT 100
SWEEP G1 = 267 SWEPT 0
POSITION A1 XF6 = LONG 100 SHORT 0
STRETCH C1 1 = NOTICES 1024 NEXT 74 MORE
STRETCH C1 202 = NOTICES 1024 NEXT 266 MORE
STRETCH C1 266 = NOTICES 100 NEXT 268 LAST
STRETCH E1 1 = NOTICES 102 NEXT 268 LAST
";

/// Enters a line. False if it isn't entered.
fn enter(alloc: Global, book: &mut Book, line: &str) -> bool {
    match command_of(alloc, line) {
        Some(command) => book.reply_to(&command).is_ok(),
        None => false,
    }
}

/// Returns the line of a give-up of sixteen lots, in as many offers.
fn give_up(alloc: Global, number: u64) -> Result<String, AllocError> {
    let mut line = format!(in alloc; "GIVEUP E1 L{number} R3")?;
    for _ in 0..16 {
        line.push_str(" A1 1")?;
    }
    Ok(line)
}

/// Returns a book with 265 entries and 4,096 open offers.
fn book_with_offers(rt: &impl Abort, alloc: Global) -> Book {
    let mut book = book_of(alloc).expect(rt, "a book");
    for line in A_TRADE.lines() {
        assert!(rt; enter(alloc, &mut book, line));
    }
    for line in MORE_LOTS.lines() {
        assert!(rt; enter(alloc, &mut book, line));
    }
    for number in 0..256 {
        let line = give_up(alloc, number).ok().expect(rt, "memory");
        assert!(rt; enter(alloc, &mut book, &line));
    }
    book
}

/// Looks at a group without offers, sweeps it, and asks for a stretch of notices, 1,500 times each.
fn look_and_sweep<E: EntryLedger, S: LotLedger, R: Wait + Abort>(
    rt: &R,
    desk: &Desk<E, S>,
    seat: &mut Seat<E, S>,
) {
    let group = &group_of("G2").expect(rt, "a group");
    let firm = &FirmId::new(b"C1").expect(rt, "a firm");
    for _ in 0..1_500 {
        assert!(rt; desk.look(rt, seat, *group).is_ok());
        assert!(rt; desk.sweep_once(rt, seat, *group, &Direct).is_ok());
        assert!(rt; desk.hold(rt).stretch(seat, *firm, 1).is_ok());
    }
}

/// Sweeps of the offers from one seat, and of a group without offers again and again.
#[derive(Drop)]
struct SweptDay;

impl DeskDay for SweptDay {
    fn spend<
        E: EntryLedger + Send + Sync,
        S: LotLedger + Send + Sync,
        R: Threads + Wait + Abort + Sync,
    >(self, rt: &R, alloc: Global, desk: Desk<E, S>, mut seats: Vec<Seat<E, S>>) {
        let mut seat = seats.pop().expect(rt, "a seat");
        follow(rt, alloc, &desk, &mut seat, SWEPT);
        look_and_sweep(rt, &desk, &mut seat);
        let book = closed(rt, desk, seats, seat);
        assert_eq!(rt; (book.history().len(), book.lots_swept()), (1_767, 100));
    }
}

#[test]
fn a_desk_of_64_seats_sweeps_4096_offers(rt: HostRuntime) {
    let book = book_with_offers(&rt, rt.alloc());
    open_and_spend(&rt, rt.alloc(), book, 64, SweptDay);
}
