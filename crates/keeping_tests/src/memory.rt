//! Calls that are refused memory. This test passes whichever of its allocations fails, and if all of them fail from one on
//! (tools/each-growth): what is refused changes nothing, and does at the second try what it would have done, if there is memory then.

ghost use Rattle.std.specs.Prelude.{◌≡◌, [], IfSome};
ghost use Rattle.gu_terms.specs.Histories.{lots_swept};
ghost use Rattle.gu_desk.specs.Seats.{IsNew};

use crate::days::empty_log;
use crate::opening::{keeper_of, only_seat};
use crate::sample::{book_of, command_of, origins};
use gu_book::Book;
use gu_desk::{BlankAnnals, Desk, EntryLedger, LotLedger, Origin, Seat};
use gu_journal::{Log, Memory};
use gu_keeping::{Chain, Keeper, Unkept};
use gu_terms::Command;
use std::alloc::{AllocError, Global};
use std::marker::Brand;
use std::process::Abort;
use std::sync::Wait;
use std::sync::ledger::Blank;

/// Returns whether there is memory.
fn has_memory(alloc: Global) -> bool {
    Vec::<u8>::with_capacity(alloc, 1).is_ok()
}

/// The text of two entries.
const TEXT: &str = "\
# 20260105-09:00:00.001 E1 3 1
DAY 20260105
# 20260105-09:00:00.002 E1 3 2
LIMIT G1 EXEC E1 100
# 2 d48901f842f4370289eedf797b95baa669d03dc847c5937ed69861c0a653369c
";

/// Returns the command of a line, retrying once if memory is refused.
fn command_again(alloc: Global, line: &str) -> Option<Command> {
    match command_of(alloc, line) {
        Some(command) => Some(command),
        None => command_of(alloc, line),
    }
}

/// Enters a line from a seat, retrying once if memory is refused.
fn entered<E: EntryLedger, S: LotLedger, R: Wait>(
    rt: &R,
    alloc: Global,
    desk: &Desk<E, S>,
    seat: &mut Seat<E, S>,
    line: &str,
) -> Option<u64> {
    match desk.submit(rt, seat, command_again(alloc, line)?) {
        Ok(receipt) => Some(receipt.number),
        Err(_) => {
            let receipt = desk.submit(rt, seat, command_again(alloc, line)?);
            Some(receipt.ok()?.number)
        }
    }
}

/// Returns the origins of two entries, retrying once if memory is refused.
fn two_origins(alloc: Global) -> Option<Vec<Origin>> {
    match origins(alloc, 1, 2) {
        Ok(origins) => Some(origins),
        Err(_) => origins(alloc, 1, 2).ok(),
    }
}

/// Keeps two entries, retrying once if memory is refused, which keeps nothing.
fn kept_again<E: EntryLedger, S: LotLedger, R: Wait + Abort>(
    rt: &R,
    alloc: Global,
    desk: &Desk<E, S>,
    keeper: Keeper<E, Log<Memory>>,
) -> Option<Keeper<E, Log<Memory>>> {
    let origins = two_origins(alloc)?;
    if origins.is_empty() {
        return None;
    }
    match keeper.keep(alloc, rt, desk, &origins) {
        Ok(keeper) => Some(keeper),
        Err(Unkept::Memory(keeper)) => {
            assert_eq!(rt; keeper.count(), 0);
            keeper.keep(alloc, rt, desk, &origins).ok()
        }
        Err(_) => None,
    }
}

/// Enters two lines, keeps them, and returns what is on the device.
fn kept_text<E: EntryLedger, S: LotLedger, R: Wait + Abort>(
    rt: &R,
    alloc: Global,
    desk: &Desk<E, S>,
    seat: &mut Seat<E, S>,
) -> Option<Memory>
    requires { IsNew E.opening seat.old × (E.opening ≡ []) }
{
    let keeper = keeper_of(rt, alloc, desk, seat, empty_log(alloc)?, Chain::new());
    entered(rt, alloc, desk, seat, "DAY 20260105")?;
    entered(rt, alloc, desk, seat, "LIMIT G1 EXEC E1 100")?;
    let keeper = kept_again(rt, alloc, desk, keeper)?;
    let (log, front) = keeper.into_parts();
    drop(front);
    log.finish().ok()
}

/// Keeps two entries of a desk over a book. It gives the book back if no desk is made.
fn open_and_keep<E: EntryLedger, S: LotLedger, R: Wait + Abort>(
    rt: &R,
    alloc: Global,
    book: Book,
    annals: BlankAnnals,
    entries: Blank,
    swept: Blank,
) -> Option<Book>
    requires reference { book.reference ≡ E.reference }
    requires opening { (book.history ≡ E.opening) × (lots_swept book.history ≡ S.opening) }
    requires none { E.opening ≡ [] }
    requires history { (annals.name ≡ E.history) × (annals.entries ≡ E.opening) }
    requires entries { (entries.name ≡ E.name) × (entries.parts ≡ E.parts) × (entries.parts ≡ 2) }
    requires swept { (swept.name ≡ S.name) × (swept.parts ≡ S.parts) × (swept.parts ≡ 2) }
{
    let made: Result<(Desk<E, S>, Vec<Seat<E, S>>), (AllocError, Book)> = Desk::new(
        alloc, book, annals, 1, entries, swept,
    );
    match made {
        Ok((desk, seats)) => {
            let mut seat = only_seat(seats).expect(rt, "a seat");
            match kept_text(rt, alloc, &desk, &mut seat) {
                Some(device) => assert!(rt; device.bytes() == TEXT.as_bytes()),
                None => assert!(rt; !has_memory(alloc), "no memory for a keeper"),
            }
            None
        }
        Err((_, book)) => Some(book),
    }
}

/// Returns a book without entries, retrying once if memory is refused.
fn book_again(alloc: Global) -> Option<Book>
    ensures { IfSome result (λ book. book.history ≡ []) }
{
    match book_of(alloc) {
        Some(book) => Some(book),
        None => book_of(alloc),
    }
}

/// Returns the history of a book, retrying once if memory is refused.
fn annals_again(alloc: Global, book: &Book) -> Option<BlankAnnals>
    ensures { IfSome result (λ annals. annals.entries ≡ book.now.history) }
{
    match BlankAnnals::of(alloc, book) {
        Ok(annals) => Some(annals),
        Err(_) => BlankAnnals::of(alloc, book).ok(),
    }
}

#[test]
fn refused_to_a_keeper_leaves_the_batch_to_be_kept_again(rt: HostRuntime) {
    let alloc = rt.alloc();
    for _ in 0..2 {
        let Some(book) = book_again(alloc) else {
            break;
        };
        let Some(annals) = annals_again(alloc, &book) else {
            break;
        };
        let given = open_and_keep::<Brand, Brand, HostRuntime>(
            &rt,
            alloc,
            book,
            annals,
            Blank::new(2),
            Blank::new(2),
        );
        if given.is_none() {
            return;
        }
    }
    assert!(rt; !has_memory(alloc), "no memory for a desk");
}
