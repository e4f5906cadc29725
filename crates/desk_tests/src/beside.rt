//! Lines that are answered while a sweep is proposed.

ghost use Rattle.std.specs.Prelude.{◌≡◌, All};
ghost use Rattle.gu_desk.specs.Seats.{IsNew};
ghost use Rattle.gu_terms.specs.Histories.{lots_swept};

use crate::opening::{annals_of, opened};
use crate::sample::{A_TRADE, book_of, command_of, group_of};
use gu_book::Book;
use gu_desk::{BlankAnnals, Desk, EntryLedger, Gate, LotLedger, Seat, SweepError};
use gu_flow::{Proposal, propose};
use gu_houses::{DeskAccess, SeatReceipts};
use gu_terms::{Entry, Group};
use gu_view::View;
use std::alloc::{AllocError, Global};
use std::marker::Brand;
use std::process::Abort;
use std::sync::Wait;
use std::sync::atomic::{AtomicU64, Ordering};
use std::sync::ledger::Blank;
use std::thread;
use std::thread::Threads;

/// How often a thread looks at a count before it gives up, and the test fails.
const TURNS: u64 = 1_000_000;

/// How often the gate was asked to propose, how many lines were answered, and how often a wait ran out.
#[derive(Drop)]
struct Counts {
    asked: AtomicU64,
    answered: AtomicU64,
    run_out: AtomicU64,
}

impl Counts {
    /// Creates one in which nothing has happened yet.
    fn new() -> Counts {
        Counts {
            asked: AtomicU64::new(0),
            answered: AtomicU64::new(0),
            run_out: AtomicU64::new(0),
        }
    }

    /// Waits until a count has come to a number, for at most this many turns.
    fn wait_for(&self, count: &AtomicU64, number: u64) {
        for _ in 0..TURNS {
            if count.load(Ordering::SeqCst) >= number {
                return;
            }
            thread::yield_now();
        }
        self.run_out.store(1, Ordering::SeqCst);
    }
}

/// A gate that proposes only once as many of the lines are answered as it was asked to propose, or all of them.
#[derive(Drop)]
struct AfterLines<'a> {
    counts: &'a Counts,
    lines: u64,
}

impl Gate for AfterLines<'_> {
    fn propose(&self, alloc: Global, view: View) -> Result<Proposal, (AllocError, View)> {
        let asked = self.counts.asked.load(Ordering::SeqCst).saturating_add(1);
        self.counts.asked.store(asked, Ordering::SeqCst);
        self.counts
            .wait_for(&self.counts.answered, asked.min(self.lines));
        propose(alloc, view)
    }
}

/// By which call a sweep is made.
#[derive(Clone, Copy)]
enum Tries {
    Once,
    Until(u32),
    /// By that of a seat that keeps its receipts, which tries three times.
    WithReceipts,
}

/// Lines that are entered one after another while a sweep is proposed, and what comes of the sweep: its entry's number and its lots, or
/// why it is refused; and how many entries the sweep's seat has seen then.
#[derive(Clone, Copy)]
struct Row {
    lines: &'static str,
    tries: Tries,
    want: Result<(u64, u64), SweepError>,
    seen: u64,
}

/// Each after a trade of ten lots that are given up, which are eight entries, six of which touch the group.
const ROWS: &[Row] = &[
    Row {
        lines: "CLAIM C1 1",
        tries: Tries::Once,
        want: Err(SweepError::Stale { seen: 6, now: 7 }),
        seen: 9,
    },
    Row {
        lines: "CLAIM C1 1",
        tries: Tries::Until(1),
        want: Err(SweepError::Stale { seen: 6, now: 7 }),
        seen: 9,
    },
    Row {
        lines: "CLAIM C1 1",
        tries: Tries::Until(2),
        want: Ok((10, 0)),
        seen: 10,
    },
    Row {
        lines: "CLAIM C1 1\nLIMIT G1 AGR P1 101",
        tries: Tries::Until(2),
        want: Err(SweepError::Stale { seen: 7, now: 8 }),
        seen: 10,
    },
    Row {
        lines: "REPORT E1 R3 M2 B XF6 1 100 H1",
        tries: Tries::Once,
        want: Ok((10, 10)),
        seen: 10,
    },
    Row {
        lines: "LIMIT G2 EXEC E1 5",
        tries: Tries::Once,
        want: Ok((10, 10)),
        seen: 10,
    },
    Row {
        lines: "LIMIT G1 AGR P1 101\nLIMIT G1 AGR P1 102\nLIMIT G1 AGR P1 103",
        tries: Tries::Until(3),
        want: Err(SweepError::Stale { seen: 8, now: 9 }),
        seen: 11,
    },
    Row {
        lines: "LIMIT G1 AGR P1 101\nLIMIT G1 AGR P1 102",
        tries: Tries::Until(3),
        want: Ok((11, 10)),
        seen: 11,
    },
    Row {
        lines: "LIMIT G1 AGR P1 101\nLIMIT G1 AGR P1 102\nLIMIT G1 AGR P1 103\nLIMIT G1 AGR P1 104",
        tries: Tries::Until(4),
        want: Err(SweepError::Stale { seen: 9, now: 10 }),
        seen: 12,
    },
    Row {
        lines: "LIMIT G1 AGR P1 101\nLIMIT G1 AGR P1 102",
        tries: Tries::WithReceipts,
        want: Ok((11, 10)),
        seen: 11,
    },
    Row {
        lines: "LIMIT G1 AGR P1 101\nLIMIT G1 AGR P1 102\nLIMIT G1 AGR P1 103",
        tries: Tries::WithReceipts,
        want: Err(SweepError::Stale { seen: 8, now: 9 }),
        seen: 11,
    },
];

/// Returns the last seat as one that keeps its receipts.
fn kept_seat<E: EntryLedger, S: LotLedger>(
    alloc: Global,
    seats: &mut Vec<Seat<E, S>>,
) -> Option<SeatReceipts<E, S>>
    requires { All (IsNew E.opening) seats.old.items }
{
    let seat = seats.pop()?;
    Some(SeatReceipts::new(alloc, seat))
}

/// Returns what comes of a sweep from a seat that keeps its receipts, and how many entries it has seen then.
fn sweep_with_receipts<E: EntryLedger, S: LotLedger, R: Wait>(
    rt: &R,
    desk: &Desk<E, S>,
    mut seat: SeatReceipts<E, S>,
    group: Group,
    gate: &AfterLines<'_>,
) -> (Result<(u64, u64), SweepError>, u64) {
    let swept = match seat.sweep(&DeskAccess { rt, desk }, group, gate) {
        Ok(swept) => Ok((swept.number, swept.lots)),
        Err(error) => Err(error),
    };
    (swept, seat.seen())
}

/// Returns what comes of a sweep by the gate, and how many entries its seat has seen then.
fn sweep<E: EntryLedger, S: LotLedger, R: Wait>(
    rt: &R,
    desk: &Desk<E, S>,
    keeping: SeatReceipts<E, S>,
    group: Group,
    row: Row,
    counts: &Counts,
) -> (Result<(u64, u64), SweepError>, u64) {
    let lines = row.lines.lines().count() as u64;
    let gate = AfterLines { counts, lines };
    let most = match row.tries {
        Tries::Once => None,
        Tries::Until(most) => Some(most.clamp(1, 1000)),
        Tries::WithReceipts => return sweep_with_receipts(rt, desk, keeping, group, &gate),
    };
    let (mut seat, kept) = keeping.into_parts();
    drop(kept);
    let swept = match most {
        Some(most) => desk.sweep_until(rt, &mut seat, group, most, &gate),
        None => desk.sweep_once(rt, &mut seat, group, &gate),
    };
    let swept = match swept {
        Ok(receipt) => match &receipt.entry {
            Entry::Swept(sweep) => Ok((receipt.number, sweep.lots)),
            Entry::Asked { .. } => Ok((receipt.number, u64::MAX)),
        },
        Err(error) => Err(error),
    };
    (swept, seat.seen())
}

/// Enters a line from a seat. False if it isn't entered.
fn submit<E: EntryLedger, S: LotLedger, R: Wait>(
    rt: &R,
    alloc: Global,
    desk: &Desk<E, S>,
    seat: &mut Seat<E, S>,
    line: &str,
) -> bool {
    match command_of(alloc, line) {
        Some(command) => desk.submit(rt, seat, command).is_ok(),
        None => false,
    }
}

/// Enters each line once the gate was asked again. False if one isn't entered.
fn submit_in_turn<E: EntryLedger, S: LotLedger, R: Wait>(
    rt: &R,
    alloc: Global,
    desk: &Desk<E, S>,
    seat: &mut Seat<E, S>,
    row: Row,
    counts: &Counts,
) -> bool {
    let mut are_entered = true;
    let mut number: u64 = 0;
    for line in row.lines.lines() {
        number = number.saturating_add(1);
        counts.wait_for(&counts.asked, number);
        are_entered = submit(rt, alloc, desk, seat, line) && are_entered;
        counts.answered.store(number, Ordering::SeqCst);
    }
    are_entered
}

/// Enters the lines of a row while another thread sweeps, and returns the outcome of the sweep. None if a thread can't be started, or a
/// line isn't entered.
fn swept_beside<E: EntryLedger + Send + Sync, S: LotLedger + Send + Sync, R: Threads + Wait + Sync>(
    rt: &R,
    alloc: Global,
    desk: &Desk<E, S>,
    seats: (Seat<E, S>, SeatReceipts<E, S>),
    group: Group,
    row: Row,
    counts: &Counts,
) -> Option<(Result<(u64, u64), SweepError>, u64)> {
    let (mut seat, other) = seats;
    thread::scope(thread::scope_env(), rt, |scope| {
        let sweeper = scope
            .spawn(move || sweep(rt, desk, other, group, row, counts))
            .ok()?;
        let are_entered = submit_in_turn(rt, alloc, desk, &mut seat, row, counts);
        let swept = sweeper.join(rt);
        if are_entered { Some(swept) } else { None }
    })
}

/// Enters what comes before the sweep.
fn submit_all<E: EntryLedger, S: LotLedger, R: Wait + Abort>(
    rt: &R,
    alloc: Global,
    desk: &Desk<E, S>,
    seat: &mut Seat<E, S>,
) {
    for line in A_TRADE.lines() {
        assert!(rt; submit(rt, alloc, desk, seat, line), "{line}");
    }
    assert!(rt; submit(rt, alloc, desk, seat, "GIVEUP E1 L1 R1 A1 10"));
}

/// Tries a row.
fn try_row<
    E: EntryLedger + Send + Sync,
    S: LotLedger + Send + Sync,
    R: Threads + Wait + Abort + Sync,
>(rt: &R, alloc: Global, book: Book, annals: BlankAnnals, entries: Blank, swept: Blank, row: Row)
    requires reference { book.reference ≡ E.reference }
    requires opening { (book.history ≡ E.opening) × (lots_swept book.history ≡ S.opening) }
    requires history { (annals.name ≡ E.history) × (annals.entries ≡ E.opening) }
    requires entries { (entries.name ≡ E.name) × (entries.parts ≡ E.parts) × (entries.parts ≡ 3) }
    requires swept { (swept.name ≡ S.name) × (swept.parts ≡ S.parts) × (swept.parts ≡ 3) }
{
    let (desk, mut seats) = opened::<E, S, R>(rt, alloc, book, annals, 2, entries, swept);
    let other = kept_seat(alloc, &mut seats).expect(rt, "a seat");
    let mut seat = seats.pop().expect(rt, "another seat");
    submit_all(rt, alloc, &desk, &mut seat);
    let group = group_of("G1").expect(rt, "a group");
    let counts = Counts::new();
    let swept = swept_beside(rt, alloc, &desk, (seat, other), group, row, &counts);
    assert_eq!(rt; swept, Some((row.want, row.seen)), "{}", row.lines);
    assert_eq!(rt; counts.run_out.load(Ordering::SeqCst), 0, "{}", row.lines);
}

#[test]
fn lines_are_answered_while_a_sweep_is_proposed(rt: HostRuntime) {
    let alloc = rt.alloc();
    for &row in ROWS {
        let book = book_of(alloc).expect(&rt, "a book");
        let annals = annals_of(&rt, alloc, &book);
        try_row::<Brand, Brand, HostRuntime>(
            &rt,
            alloc,
            book,
            annals,
            Blank::new(3),
            Blank::new(3),
            row,
        );
    }
}
