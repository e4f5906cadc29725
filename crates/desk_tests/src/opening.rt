//! Desks that tests open, and the days that they spend at them.

ghost use Rattle.std.specs.Prelude.{◌≡◌, ◌+◌, ◌≤◌, All};
ghost use Rattle.gu_terms.specs.Histories.{lots_swept};
ghost use Rattle.gu_desk.specs.Seats.{IsNew};

use gu_book::Book;
use gu_desk::{BlankAnnals, Desk, EntryLedger, LotLedger, Seat};
use std::alloc::{AllocError, Global};
use std::marker::Brand;
use std::process::Abort;
use std::sync::Wait;
use std::sync::ledger::Blank;
use std::thread::Threads;

/// Returns the history of a book, for a desk over it.
pub fn annals_of(rt: &impl Abort, alloc: Global, book: &Book) -> BlankAnnals
    ensures { result.entries ≡ book.now.history }
{
    BlankAnnals::of(alloc, book).ok().expect(rt, "memory")
}

/// Returns a desk over a book, with its seats.
pub fn opened<E: EntryLedger, S: LotLedger, R: Abort>(
    rt: &R,
    alloc: Global,
    book: Book,
    annals: BlankAnnals,
    seats: usize,
    entries: Blank,
    swept: Blank,
) -> (Desk<E, S>, Vec<Seat<E, S>>)
    requires seats { (1 ≤ seats) × (seats ≤ 64) }
    requires reference { book.reference ≡ E.reference }
    requires opening { (book.history ≡ E.opening) × (lots_swept book.history ≡ S.opening) }
    requires history { (annals.name ≡ E.history) × (annals.entries ≡ E.opening) }
    requires entries { (entries.name ≡ E.name) × (entries.parts ≡ E.parts) × (entries.parts ≡ seats + 1) }
    requires swept { (swept.name ≡ S.name) × (swept.parts ≡ S.parts) × (swept.parts ≡ seats + 1) }
    ensures { All (IsNew E.opening) result.1.items }
{
    let made: Result<(Desk<E, S>, Vec<Seat<E, S>>), (AllocError, Book)> = Desk::new(
        alloc, book, annals, seats, entries, swept,
    );
    match made {
        Ok(made) => made,
        Err(_) => panic!(rt; "no memory for a desk"),
    }
}

/// What a test does at a desk, from its seats, until it is closed.
pub trait DeskDay {
    /// Spends the day at a desk.
    fn spend<
        E: EntryLedger + Send + Sync,
        S: LotLedger + Send + Sync,
        R: Threads + Wait + Abort + Sync,
    >(self, rt: &R, alloc: Global, desk: Desk<E, S>, seats: Vec<Seat<E, S>>)
        requires { All (IsNew E.opening) seats.items };
}

/// Opens a desk over a book, with its seats, and spends a day at it.
fn spend_from<
    D: DeskDay,
    E: EntryLedger + Send + Sync,
    S: LotLedger + Send + Sync,
    R: Threads + Wait + Abort + Sync,
>(
    rt: &R,
    alloc: Global,
    book: Book,
    annals: BlankAnnals,
    seats: usize,
    entries: Blank,
    swept: Blank,
    day: D,
)
    requires seats { (1 ≤ seats) × (seats ≤ 64) }
    requires reference { book.reference ≡ E.reference }
    requires opening { (book.history ≡ E.opening) × (lots_swept book.history ≡ S.opening) }
    requires history { (annals.name ≡ E.history) × (annals.entries ≡ E.opening) }
    requires entries { (entries.name ≡ E.name) × (entries.parts ≡ E.parts) × (entries.parts ≡ seats + 1) }
    requires swept { (swept.name ≡ S.name) × (swept.parts ≡ S.parts) × (swept.parts ≡ seats + 1) }
{
    let (desk, seats) = opened::<E, S, R>(rt, alloc, book, annals, seats, entries, swept);
    day.spend(rt, alloc, desk, seats);
}

/// Opens a desk of this many seats over a book, and spends a day at it.
pub fn open_and_spend<D: DeskDay, R: Threads + Wait + Abort + Sync>(
    rt: &R,
    alloc: Global,
    book: Book,
    seats: usize,
    day: D,
)
    requires { (1 ≤ seats) × (seats ≤ 64) }
{
    let annals = annals_of(rt, alloc, &book);
    let parts = seats as u64 + 1;
    spend_from::<D, Brand, Brand, R>(
        rt,
        alloc,
        book,
        annals,
        seats,
        Blank::new(parts),
        Blank::new(parts),
        day,
    );
}

/// Closes a desk with its last seat, and returns its book.
pub fn closed<E: EntryLedger, S: LotLedger, R: Abort>(
    rt: &R,
    desk: Desk<E, S>,
    mut seats: Vec<Seat<E, S>>,
    seat: Seat<E, S>,
) -> Book {
    assert!(rt; seats.push(seat).is_ok());
    desk.close(seats).ok().expect(rt, "all seats")
}
