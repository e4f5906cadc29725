//! Calls that are refused memory, with few allocations before them. Each of these tests passes whichever of its allocations fails, and
//! if all of them fail from one on (tools/each-growth): a call that is refused memory says so, leaves the desk as it was, hands back
//! what it was given, and does at the second try what it would have done, if there is memory then.

ghost use Rattle.std.specs.Prelude.{◌≡◌, IfSome};
ghost use Rattle.gu_terms.specs.Histories.{lots_swept};

use crate::reader::Reader;
use crate::sample::{book_of, command_of, group_of};
use crate::transcript::{answer_to, receipt_text, view_text};
use gu_book::{AskError, Book, EnterError};
use gu_desk::{
    AuditFault, BlankAnnals, Desk, Direct, Entered, EntryLedger, LotLedger, Seat, SweepError, audit,
};
use gu_terms::{Command, Entry, Receipt};
use gu_view::{Board, View};
use std::alloc::{AllocError, Global};
use std::marker::Brand;
use std::process::Abort;
use std::sync::Wait;
use std::sync::ledger::Blank;

/// Returns whether there is memory.
fn has_memory(alloc: Global) -> bool {
    Vec::<u8>::with_capacity(alloc, 1).is_ok()
}

/// What a desk shows.
const PICTURE: &str = "\
POSITION H1 XF6
POSITION H2 XF6
POSITION A1 XF6
INTEREST XF6
VIEW G1
VIEW G2
NOTICES E1 1
NOTICES E2 1
NOTICES C1 1
";

/// Adds what a desk shows.
fn show<E: EntryLedger, S: LotLedger, R: Wait>(
    rt: &R,
    alloc: Global,
    desk: &Desk<E, S>,
    seat: &mut Seat<E, S>,
    text: &mut String,
) -> Result<(), AllocError> {
    for line in PICTURE.lines() {
        let answer = answer_to(rt, alloc, desk, seat, line)?;
        if matches!(answer.as_str(), "Memory" | "NO LINE") {
            return Err(AllocError);
        }
        text.push_str(&answer)?;
        text.push('\n')?;
    }
    Ok(())
}

/// Returns what a desk shows, retrying once if memory is refused.
fn shown<E: EntryLedger, S: LotLedger, R: Wait>(
    rt: &R,
    alloc: Global,
    desk: &Desk<E, S>,
    seat: &mut Seat<E, S>,
) -> Option<String> {
    let mut text = String::new(alloc);
    if show(rt, alloc, desk, seat, &mut text).is_err() {
        text.clear();
        show(rt, alloc, desk, seat, &mut text).ok()?;
    }
    Some(text)
}

/// Returns the command of a line, retrying once if memory is refused.
fn command_again(alloc: Global, line: &str) -> Option<Command> {
    match command_of(alloc, line) {
        Some(command) => Some(command),
        None => command_of(alloc, line),
    }
}

/// Returns the receipt of a command, retrying once if memory is refused, which changes nothing.
fn entered<E: EntryLedger, S: LotLedger, R: Wait + Abort>(
    rt: &R,
    alloc: Global,
    desk: &Desk<E, S>,
    seat: &mut Seat<E, S>,
    line: &str,
) -> Option<Receipt> {
    let before = shown(rt, alloc, desk, seat)?;
    match desk.submit(rt, seat, command_again(alloc, line)?) {
        Ok(receipt) => Some(receipt),
        Err(why) => {
            assert_eq!(rt; why, EnterError::Memory, "{line}");
            let after = shown(rt, alloc, desk, seat)?;
            assert!(rt; after == before, "{line} is refused and changes something");
            desk.submit(rt, seat, command_again(alloc, line)?).ok()
        }
    }
}

/// Returns the receipt of a sweep of G1, retrying once if memory is refused, which changes nothing.
fn swept<E: EntryLedger, S: LotLedger, R: Wait + Abort>(
    rt: &R,
    alloc: Global,
    desk: &Desk<E, S>,
    seat: &mut Seat<E, S>,
) -> Option<Receipt> {
    let group = &group_of("G1")?;
    let before = shown(rt, alloc, desk, seat)?;
    match desk.sweep_once(rt, seat, *group, &Direct) {
        Ok(receipt) => Some(receipt),
        Err(why) => {
            assert_eq!(rt; why, SweepError::Memory, "a sweep");
            let after = shown(rt, alloc, desk, seat)?;
            assert!(rt; after == before, "a sweep is refused and changes something");
            desk.sweep_once(rt, seat, *group, &Direct).ok()
        }
    }
}

/// Returns the text of a receipt, retrying once if memory is refused.
fn receipt_text_again(alloc: Global, receipt: &Receipt) -> Option<String> {
    match receipt_text(alloc, receipt) {
        Ok(text) => Some(text),
        Err(_) => receipt_text(alloc, receipt).ok(),
    }
}

/// Returns the text of a view, retrying once if memory is refused.
fn view_text_again(alloc: Global, view: &View) -> Option<String> {
    match view_text(alloc, view) {
        Ok(text) => Some(text),
        Err(_) => view_text(alloc, view).ok(),
    }
}

/// Returns what is read after a look at G1, retrying once if memory is refused.
fn looked<E: EntryLedger, S: LotLedger, R: Wait + Abort>(
    rt: &R,
    alloc: Global,
    desk: &Desk<E, S>,
    seat: &mut Seat<E, S>,
) -> Option<String> {
    let group = &group_of("G1")?;
    match desk.look(rt, seat, *group) {
        Ok(token) => view_text_again(alloc, desk.read(&token)),
        Err(why) => {
            assert_eq!(rt; why, AskError::Memory, "a look");
            match desk.look(rt, seat, *group) {
                Ok(token) => view_text_again(alloc, desk.read(&token)),
                Err(_) => None,
            }
        }
    }
}

/// Lines, and what answers them.
const LINES: &str = "\
DAY 20260105 = 1 OK
LIMIT G1 EXEC E1 100 = 2 OK
LIMIT G1 AGR P1 100 = 3 OK
LIMIT G1 ACCT A1 100 = 4 OK
LIMIT G1 CARRY C1 100 = 5 OK
REPORT E1 R1 M1 B XF6 7 101.5 H1 = 6 OK OPEN
REPORT E2 R2 M1 S XF6 7 101.5 H2 = 7 OK MATCHED
GIVEUP E1 L1 R1 A1 7 = 8 OK OFFERS 1 1
CLAIM C1 2 = 9 NO 13 UnknownOffer
";

/// Keeps a receipt whose text is this.
fn keep(
    rt: &impl Abort,
    alloc: Global,
    receipts: &mut Vec<Receipt>,
    receipt: Receipt,
    want: &str,
) -> Option<()> {
    let text = receipt_text_again(alloc, &receipt)?;
    assert_eq!(rt; text.as_str(), want, "a receipt");
    receipts.push(receipt).ok()
}

/// Enters the lines, looks at G1 and sweeps it, and keeps the receipts, for which there is room.
fn follow<E: EntryLedger, S: LotLedger, R: Wait + Abort>(
    rt: &R,
    alloc: Global,
    desk: &Desk<E, S>,
    seat: &mut Seat<E, S>,
    receipts: &mut Vec<Receipt>,
) -> Option<()> {
    for line in LINES.lines() {
        let (said, want) = line.split_once(" = ").unwrap_or((line, ""));
        let receipt = entered(rt, alloc, desk, seat, said)?;
        keep(rt, alloc, receipts, receipt, want)?;
    }
    let text = looked(rt, alloc, desk, seat)?;
    assert_eq!(rt; text.as_str(), "VERSION 6, OFFER 1 7", "a look");
    let receipt = swept(rt, alloc, desk, seat)?;
    keep(rt, alloc, receipts, receipt, "10 SWEPT 7")
}

/// Returns the receipt of a command that is entered in a hold, retrying once if memory is refused, and a reader that goes on
/// after it.
fn reader_after<E: EntryLedger, S: LotLedger, R: Wait>(
    rt: &R,
    alloc: Global,
    desk: &Desk<E, S>,
    seat: &mut Seat<E, S>,
    line: &str,
) -> Option<(Receipt, Reader<E>)> {
    let command = command_again(alloc, line)?;
    let mut held = desk.hold(rt);
    let entered = match held.enter(seat, &command, None) {
        Ok(entered) => entered,
        Err(_) => held.enter(seat, &command, None).ok()?,
    };
    let Entered { number, reply, .. } = entered;
    let reader = Reader::new(alloc, &mut *held, seat);
    let entry = Entry::Asked { command, reply };
    Some((Receipt { number, entry }, reader))
}

/// Reads what there is, retrying once if memory is refused, which leaves what was read.
fn read_again<E: EntryLedger, S: LotLedger, R: Wait>(
    rt: &R,
    desk: &Desk<E, S>,
    reader: &mut Reader<E>,
) -> Option<()> {
    let mut held = desk.hold(rt);
    match reader.read(&mut *held, 100) {
        Ok(()) => Some(()),
        Err(AllocError) => reader.read(&mut *held, 100).ok(),
    }
}

/// Lines that are read, and what answers them.
const READ: &str = "\
CLAIM C1 1 = 12 NO 14 OfferClosed
GIVEUP E1 L2 R1 A1 1 A1 2 A1 3 = 13 NO 11 TooManyLots
REPORT E1 R3 M3 B XF6 7 101.5 H1 = 14 OK OPEN
";

/// Enters a line, and reads those that are entered after it. Keeps the receipts, for which there is room.
fn follow_and_read<E: EntryLedger, S: LotLedger, R: Wait + Abort>(
    rt: &R,
    alloc: Global,
    desk: &Desk<E, S>,
    seat: &mut Seat<E, S>,
    receipts: &mut Vec<Receipt>,
) -> Option<Reader<E>> {
    let (receipt, mut reader) = reader_after(rt, alloc, desk, seat, "CLAIM C1 1")?;
    keep(rt, alloc, receipts, receipt, "11 NO 14 OfferClosed")?;
    for line in READ.lines() {
        let (said, want) = line.split_once(" = ").unwrap_or((line, ""));
        let receipt = entered(rt, alloc, desk, seat, said)?;
        keep(rt, alloc, receipts, receipt, want)?;
    }
    read_again(rt, desk, &mut reader)?;
    assert_eq!(rt; reader.len(), 3, "entries that were read");
    Some(reader)
}

/// Audits receipts, retrying once if memory is refused.
fn check_audit(rt: &impl Abort, alloc: Global, book: &Book, receipts: &[Receipt]) {
    let told = match audit(alloc, book, receipts) {
        Err(AuditFault::Memory) => audit(alloc, book, receipts),
        told => told,
    };
    if told == Err(AuditFault::Memory) {
        assert!(rt; !has_memory(alloc), "no memory for an audit");
    } else {
        assert_eq!(rt; told, Ok(()), "an audit");
    }
}

/// Returns room for sixteen receipts.
fn room_for_receipts(alloc: Global) -> Option<Vec<Receipt>> {
    match Vec::with_capacity(alloc, 16) {
        Ok(room) => Some(room),
        Err(_) => Vec::with_capacity(alloc, 16).ok(),
    }
}

/// Makes each call of a desk, closes it, and audits the receipts.
fn use_desk<E: EntryLedger, S: LotLedger, R: Wait + Abort>(
    rt: &R,
    alloc: Global,
    desk: Desk<E, S>,
    mut seats: Vec<Seat<E, S>>,
) {
    let mut seat = seats.pop().expect(rt, "a seat");
    let Some(mut receipts) = room_for_receipts(alloc) else {
        assert!(rt; !has_memory(alloc), "no memory for receipts");
        return;
    };
    let read = match follow(rt, alloc, &desk, &mut seat, &mut receipts) {
        Some(()) => follow_and_read(rt, alloc, &desk, &mut seat, &mut receipts),
        None => None,
    };
    assert!(rt;
        read.is_some() || !has_memory(alloc),
        "no memory for a line"
    );
    assert!(rt; seats.push(seat).is_ok());
    let book = desk.close(seats).ok().expect(rt, "all seats");
    if let Some(reader) = read {
        reader.compare(rt, &book);
        check_audit(rt, alloc, &book, &receipts);
    }
}

/// Makes each call of a desk over a book. It gives the book back if no desk is made.
fn open_and_use<E: EntryLedger, S: LotLedger, R: Wait + Abort>(
    rt: &R,
    alloc: Global,
    book: Book,
    annals: BlankAnnals,
    entries: Blank,
    swept: Blank,
) -> Option<Book>
    requires reference { book.reference ≡ E.reference }
    requires opening { (book.history ≡ E.opening) × (lots_swept book.history ≡ S.opening) }
    requires history { (annals.name ≡ E.history) × (annals.entries ≡ E.opening) }
    requires entries { (entries.name ≡ E.name) × (entries.parts ≡ E.parts) × (entries.parts ≡ 2) }
    requires swept { (swept.name ≡ S.name) × (swept.parts ≡ S.parts) × (swept.parts ≡ 2) }
{
    let made: Result<(Desk<E, S>, Vec<Seat<E, S>>), (AllocError, Book)> = Desk::new(
        alloc, book, annals, 1, entries, swept,
    );
    match made {
        Ok((desk, seats)) => {
            use_desk(rt, alloc, desk, seats);
            None
        }
        Err((_, book)) => Some(book),
    }
}

/// Returns a book of the sample, retrying once if memory is refused.
fn book_again(rt: &impl Abort, alloc: Global) -> Option<Book> {
    let book = match book_of(alloc) {
        Some(book) => Some(book),
        None => book_of(alloc),
    };
    assert!(rt;
        book.is_some() || !has_memory(alloc),
        "no memory for a book"
    );
    book
}

/// Returns the history of a book, retrying once if memory is refused.
fn annals_again(alloc: Global, book: &Book) -> Option<BlankAnnals>
    ensures { IfSome result (λ annals. annals.entries ≡ book.now.history) }
{
    match BlankAnnals::of(alloc, book) {
        Ok(annals) => Some(annals),
        Err(_) => BlankAnnals::of(alloc, book).ok(),
    }
}

#[test]
fn refused_to_a_desk_leaves_each_call_to_be_made_again(rt: HostRuntime) {
    let alloc = rt.alloc();
    let Some(mut book) = book_again(&rt, alloc) else {
        return;
    };
    for _ in 0..2 {
        let Some(annals) = annals_again(alloc, &book) else {
            break;
        };
        let given = open_and_use::<Brand, Brand, HostRuntime>(
            &rt,
            alloc,
            book,
            annals,
            Blank::new(2),
            Blank::new(2),
        );
        match given {
            Some(given) => book = given,
            None => return,
        }
    }
    assert!(rt; !has_memory(alloc), "no memory for a desk");
}

/// Publishes a view, retrying once if memory is refused, which hands the view back, and reads it.
fn published<R: Wait + Abort>(
    rt: &R,
    alloc: Global,
    board: &Board,
    view: View,
    copy: &View,
) -> Option<String> {
    match board.publish(rt, view) {
        Ok(token) => view_text_again(alloc, board.read(&token)),
        Err((_, given)) => {
            assert!(rt; given.is_same(copy), "another view");
            match board.publish(rt, given) {
                Ok(token) => view_text_again(alloc, board.read(&token)),
                Err(_) => None,
            }
        }
    }
}

/// Returns a board, retrying once if memory is refused.
fn board_again(alloc: Global) -> Option<Board> {
    match Board::new(alloc) {
        Ok(board) => Some(board),
        Err(_) => Board::new(alloc).ok(),
    }
}

/// Returns the view of G1, retrying once if memory is refused.
fn view_of(book: &Book) -> Option<View> {
    let group = &group_of("G1")?;
    match book.view(group) {
        Ok(view) => Some(view),
        Err(_) => book.view(group).ok(),
    }
}

/// Returns what is read of the view of G1 once it is published.
fn published_text<R: Wait + Abort>(rt: &R, alloc: Global, book: &Book) -> Option<String> {
    let board = board_again(alloc)?;
    let view = view_of(book)?;
    let copy = view_of(book)?;
    published(rt, alloc, &board, view, &copy)
}

#[test]
fn refused_to_a_board_leaves_the_view_to_be_published_again(rt: HostRuntime) {
    let Some(book) = book_again(&rt, rt.alloc()) else {
        return;
    };
    match published_text(&rt, rt.alloc(), &book) {
        Some(text) => assert_eq!(rt; text.as_str(), "VERSION 0"),
        None => assert!(rt; !has_memory(rt.alloc()), "no memory for a board"),
    }
}
