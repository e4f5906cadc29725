//! Desks and keepers that tests open.

ghost use Rattle.std.specs.Prelude.{◌≡◌, ◌+◌, ◌≤◌, [], All, IfOk, IfSome, length};
ghost use Rattle.gu_terms.specs.Histories.{lots_swept};
ghost use Rattle.gu_desk.specs.Seats.{IsNew};
ghost use Rattle.gu_keeping.specs.Chains.{IsChainOf};

use gu_book::Book;
use gu_desk::{BlankAnnals, Desk, EntryLedger, LotLedger, Seat};
use gu_journal::Sink;
use gu_keeping::{Chain, Keeper};
use std::alloc::{AllocError, Global};
use std::process::Abort;
use std::sync::Wait;
use std::sync::ledger::Blank;

/// Returns the history of a book, for a desk over it.
pub fn annals_of(rt: &impl Abort, alloc: Global, book: &Book) -> BlankAnnals
    ensures { result.entries ≡ book.now.history }
{
    BlankAnnals::of(alloc, book).ok().expect(rt, "memory")
}

/// Takes the only seat of a new desk.
pub fn only_seat<E: EntryLedger, S: LotLedger>(mut seats: Vec<Seat<E, S>>) -> Option<Seat<E, S>>
    requires { All (IsNew E.opening) seats.items }
    ensures { IfSome result (IsNew E.opening) }
{
    seats.pop()
}

/// Opens a desk over a book, with one seat.
pub fn opened<E: EntryLedger, S: LotLedger, R: Abort>(
    rt: &R,
    alloc: Global,
    book: Book,
    annals: BlankAnnals,
    entries: Blank,
    swept: Blank,
) -> (Desk<E, S>, Seat<E, S>)
    requires reference { book.reference ≡ E.reference }
    requires opening { (book.history ≡ E.opening) × (lots_swept book.history ≡ S.opening) }
    requires history { (annals.name ≡ E.history) × (annals.entries ≡ E.opening) }
    requires entries { (entries.name ≡ E.name) × (entries.parts ≡ E.parts) × (entries.parts ≡ 2) }
    requires swept { (swept.name ≡ S.name) × (swept.parts ≡ S.parts) × (swept.parts ≡ 2) }
    ensures { IsNew E.opening result.1 }
{
    let made: Result<(Desk<E, S>, Vec<Seat<E, S>>), (AllocError, Book)> = Desk::new(
        alloc, book, annals, 1, entries, swept,
    );
    let Ok((desk, seats)) = made else {
        panic!(rt; "no memory for a desk");
    };
    (desk, only_seat(seats).expect(rt, "a seat"))
}

/// Creates a keeper for a desk, whose sink has the lines of what the seat has seen.
pub fn keeper_of<E: EntryLedger, S: LotLedger, K: Sink, R: Wait>(
    rt: &R,
    alloc: Global,
    desk: &Desk<E, S>,
    seat: &mut Seat<E, S>,
    sink: K,
    chain: Chain,
) -> Keeper<E, K>
    requires { IsNew E.opening seat.old × IsChainOf chain E.opening × (length E.opening ≤ 1000000) }
{
    let front = desk.hold(rt).front(seat);
    Keeper::new(alloc, sink, front, chain)
}
