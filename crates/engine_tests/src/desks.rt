//! Desks that tests open, with seats that keep their receipts.

ghost use Rattle.std.specs.Prelude.{◌≡◌, ◌+◌, ◌≤◌, All};
ghost use Rattle.gu_terms.specs.Histories.{lots_swept};
ghost use Rattle.gu_desk.specs.Seats.{IsNew};

use gu_book::Book;
use gu_desk::{BlankAnnals, Desk, EntryLedger, LotLedger, Seat};
use gu_houses::SeatReceipts;
use std::alloc::{AllocError, Global};
use std::marker::Brand;
use std::process::Abort;
use std::sync::Wait;
use std::sync::ledger::Blank;

/// What a test asks at a desk, from its seats.
pub trait Asking {
    /// Asks it.
    fn ask<E: EntryLedger, S: LotLedger, R: Wait + Abort>(
        self,
        rt: &R,
        alloc: Global,
        desk: &Desk<E, S>,
        seats: Vec<SeatReceipts<E, S>>,
    );
}

/// Returns seats that keep their receipts.
fn keeping<E: EntryLedger, S: LotLedger>(
    rt: &impl Abort,
    alloc: Global,
    seats: Vec<Seat<E, S>>,
) -> Vec<SeatReceipts<E, S>>
    requires { All (IsNew E.opening) seats.items }
{
    let mut keeping = Vec::new(alloc);
    for seat in seats {
        let pushed = keeping.push(SeatReceipts::new(alloc, seat));
        assert!(rt; pushed.is_ok(), "no memory for a seat");
    }
    keeping
}

/// Asks from the seats of a desk that is opened over a book.
fn ask_from<A: Asking, E: EntryLedger, S: LotLedger, R: Wait + Abort>(
    rt: &R,
    alloc: Global,
    book: Book,
    annals: BlankAnnals,
    seats: usize,
    entries: Blank,
    swept: Blank,
    asking: A,
)
    requires seats { (1 ≤ seats) × (seats ≤ 64) }
    requires reference { book.reference ≡ E.reference }
    requires opening { (book.history ≡ E.opening) × (lots_swept book.history ≡ S.opening) }
    requires history { (annals.name ≡ E.history) × (annals.entries ≡ E.opening) }
    requires entries { (entries.name ≡ E.name) × (entries.parts ≡ E.parts) × (entries.parts ≡ seats + 1) }
    requires swept { (swept.name ≡ S.name) × (swept.parts ≡ S.parts) × (swept.parts ≡ seats + 1) }
{
    let made: Result<(Desk<E, S>, Vec<Seat<E, S>>), (AllocError, Book)> = Desk::new(
        alloc, book, annals, seats, entries, swept,
    );
    let Ok((desk, seats)) = made else {
        panic!(rt; "no memory for a desk");
    };
    let seats = keeping(rt, alloc, seats);
    asking.ask(rt, alloc, &desk, seats);
}

/// Opens a desk of this many seats over a book, and asks from them.
pub fn open_and_ask<A: Asking, R: Wait + Abort>(
    rt: &R,
    alloc: Global,
    book: Book,
    seats: usize,
    asking: A,
)
    requires { (1 ≤ seats) × (seats ≤ 64) }
{
    let annals = BlankAnnals::of(alloc, &book).ok().expect(rt, "memory");
    let parts = seats as u64 + 1;
    ask_from::<A, Brand, Brand, R>(
        rt,
        alloc,
        book,
        annals,
        seats,
        Blank::new(parts),
        Blank::new(parts),
        asking,
    );
}
