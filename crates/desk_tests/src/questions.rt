//! Questions that borrow the book, and whom an entry informs.

use crate::opening::{DeskDay, closed, open_and_spend};
use crate::sample::{SEVEN_LOTS, book_of, command_of, group_of};
use gu_book::Book;
use gu_desk::{
    Committed, Desk, Direct, Entered, EntryLedger, FirmFilter, FirmPlace, LotLedger, Question,
    Seat, SweepError, SweepPlan,
};
use gu_terms::FirmId;
use std::alloc::{AllocError, Global};
use std::process::Abort;
use std::sync::Wait;
use std::thread::Threads;

/// How many entries the book has, and how often it was asked.
#[derive(Drop)]
struct Count {
    entries: usize,
    asked: u64,
    /// Whether it is refused memory.
    is_refused: bool,
}

impl Question for Count {
    ghost tells = { λ old book new. Unit {0} };

    fn ask(&mut self, book: &Book) -> Result<(), AllocError> {
        if self.is_refused {
            return Err(AllocError);
        }
        self.entries = book.history().len();
        self.asked = self.asked.saturating_add(1);
        Ok(())
    }
}

/// Returns whether a set may hold a firm of this name.
fn may_hold(rt: &impl Abort, firms: FirmFilter, name: &str) -> bool {
    let firm = FirmId::new(name.as_bytes()).expect(rt, "a firm");
    firms.has(FirmPlace::of(&firm))
}

/// Returns whether a set may hold the firm that carries the account, and the one that executes.
fn firms_in(rt: &impl Abort, firms: FirmFilter) -> (bool, bool) {
    (may_hold(rt, firms, "C1"), may_hold(rt, firms, "E1"))
}

/// Enters a line, and asks how many entries there are then. Returns whom the entry informs.
fn enter_and_ask<E: EntryLedger, S: LotLedger, R: Wait + Abort>(
    rt: &R,
    alloc: Global,
    desk: &Desk<E, S>,
    seat: &mut Seat<E, S>,
    count: &mut Count,
    line: &str,
) -> FirmFilter {
    let command = command_of(alloc, line).expect(rt, "a command");
    let entered = desk.hold(rt).enter(seat, &command, None);
    let Entered {
        number,
        informs,
        ..
    } = entered.ok().expect(rt, "memory");
    assert!(rt; desk.hold(rt).put(seat, count).is_ok());
    assert_eq!(rt; count.entries as u64, number, "{line}");
    informs
}

/// Sweeps the group, and compares whom the sweep informs and the view that it was proposed for.
fn sweep<E: EntryLedger, S: LotLedger, R: Wait + Abort>(
    rt: &R,
    desk: &Desk<E, S>,
    seat: &mut Seat<E, S>,
) {
    let group = group_of("G1").expect(rt, "a group");
    let plan = SweepPlan {
        group,
        tries: 3,
        gate: &Direct,
    };
    let swept = desk.sweep(rt, seat, &plan);
    let Committed {
        receipt,
        informs,
        view,
    } = swept.ok().expect(rt, "a sweep");
    assert_eq!(rt; (receipt.number, desk.read(&view).offers().len()), (9, 1));
    assert_eq!(rt; firms_in(rt, informs), (true, true));
    assert!(rt; desk.hold(rt).informs(9) == informs);
}

/// Asks for a sweep of an unknown group, and a question that is refused memory.
fn refuse<E: EntryLedger, S: LotLedger, R: Wait + Abort>(
    rt: &R,
    desk: &Desk<E, S>,
    seat: &mut Seat<E, S>,
    count: &mut Count,
) {
    let unknown = SweepPlan {
        group: group_of("G9").expect(rt, "a name"),
        tries: 3,
        gate: &Direct,
    };
    let refused = desk.sweep(rt, seat, &unknown);
    assert_eq!(rt; refused.err(), Some(SweepError::UnknownGroup));
    count.is_refused = true;
    assert!(rt; desk.hold(rt).put(seat, count).is_err());
    assert_eq!(rt; (count.entries, count.asked), (8, 8));
}

/// A trade, a give-up of it and a sweep; after each line the book is asked how many entries there are.
#[derive(Drop)]
struct AskedDay;

impl DeskDay for AskedDay {
    fn spend<
        E: EntryLedger + Send + Sync,
        S: LotLedger + Send + Sync,
        R: Threads + Wait + Abort + Sync,
    >(self, rt: &R, alloc: Global, desk: Desk<E, S>, mut seats: Vec<Seat<E, S>>) {
        let mut seat = seats.pop().expect(rt, "a seat");
        let mut count = Count {
            entries: 0,
            asked: 0,
            is_refused: false,
        };
        let mut last = FirmFilter::NONE;
        for line in SEVEN_LOTS.lines() {
            last = enter_and_ask(rt, alloc, &desk, &mut seat, &mut count, line);
        }
        // The give-up informs the firm that carries the account, and the sweep both.
        assert_eq!(rt; firms_in(rt, last), (true, false));
        sweep(rt, &desk, &mut seat);
        refuse(rt, &desk, &mut seat, &mut count);
        drop(closed(rt, desk, seats, seat));
    }
}

#[test]
fn a_question_has_the_book_as_it_is(rt: HostRuntime) {
    let book = book_of(rt.alloc()).expect(&rt, "a book");
    open_and_spend(&rt, rt.alloc(), book, 1, AskedDay);
}
