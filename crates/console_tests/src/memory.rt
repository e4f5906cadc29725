//! Lines whose allocations fail. The test passes whichever of its allocations fails, and if all fail from one on (tools/each-growth): a
//! line that is answered by MEMORY, or by nothing, has done nothing, and at the second try does what it would have done.

ghost use Rattle.std.specs.Prelude.{◌≡◌};
ghost use Rattle.gu_terms.specs.Histories.{lots_swept};

use crate::house::{Heard, TestOffice, book_of};
use crate::transcript::{Room, operator_of};
use gu_book::Book;
use gu_console::Operator;
use gu_desk::{BlankAnnals, Desk, EntryLedger, LotLedger, Seat};
use gu_houses::{SeatReceipts, Tally};
use std::alloc::{AllocError, Global};
use std::marker::Brand;
use std::process::Abort;
use std::sync::Wait;
use std::sync::ledger::Blank;

/// Lines, and what answers them; `/` is LF.
const LINES: &str = "\
DAY 20260105 = 1 OK//
LIMIT G1 EXEC E1 4 = 2 OK//
LIMIT G1 AGR P1 100 = 3 OK//
LIMIT G1 ACCT A1 100 = 4 OK//
LIMIT G1 CARRY C1 100 = 5 OK//
REPORT E1 R1 M1 B XF6 10 101.5 H1 = 6 OK OPEN//
REPORT E2 R2 M1 S XF6 10 101.5 H2 = 7 OK MATCHED//
GIVEUP E1 L1 R1 A1 6 = 8 OK OFFERS 1 1//
LIMITS G1 = LIMIT G1 EXEC E1 4 0 4/LIMIT G1 AGR P1 100 0 100/LIMIT G1 ACCT A1 100 0 100/LIMIT G1 CARRY C1 100 0 100//
SWEEP G1 = 9 SWEPT G1 4/SHEET G1 6/OFFER 1 6 P1 E1 A1 C1/ROOM EXEC E1 4/ROOM AGR P1 100/ROOM ACCT A1 100/ROOM CARRY C1 100/TAKE 1 4/CUT EXEC E1/END//
POSITION A1 XF6 = POSITION A1 XF6 4 0//
INTEREST XF6 = INTEREST XF6 10//
CLAIM C1 1 = 10 NO 15 LimitReached EXEC E1//
JOURNAL = DAY 20260105/LIMIT G1 EXEC E1 4/LIMIT G1 AGR P1 100/LIMIT G1 ACCT A1 100/LIMIT G1 CARRY C1 100/REPORT E1 R1 M1 B XF6 10 101.5 H1/REPORT E2 R2 M1 S XF6 10 101.5 H2/GIVEUP E1 L1 R1 A1 6/SWEEP G1/# TAKE 1 4/# CUT EXEC E1/CLAIM C1 1//
JOURNAL = /
STATUS = DESK OPEN DAY 20260105 ENTRIES 10 OF 1000000 SWEPT 4 CONNECTIONS 2 OF 8 ALL 5/CONNECTION 4 E1 PORT 50514 SINCE 61034 HEARD 120 IN 1234 OUT 2345 EXPECTS 17 SENDS 20 HELD 0/CONNECTION 5 - PORT 50515 SINCE 7 HEARD 0 IN 0 OUT 0 EXPECTS 1 SENDS 1 HELD 18//
nonsense = BAD LINE//
CUT 4 = CUT//";

/// Returns whether bytes are a text, in which `/` is LF.
fn is_text(bytes: &[u8], text: &str) -> bool {
    let text = text.as_bytes();
    if bytes.len() != text.len() {
        return false;
    }
    bytes.iter().zip(text.iter()).all(|(byte, letter)| {
        byte == letter || (*byte == b'\n' && *letter == b'/')
    })
}

/// Returns the answer to a line, retrying once if memory is refused; none if the second try fails too.
fn answered<E: EntryLedger, S: LotLedger, R: Wait + Abort>(
    rt: &R,
    alloc: Global,
    operator: &mut Operator<'_, E, S, R, TestOffice, Heard>,
    line: &str,
) -> Option<Vec<u8>> {
    for _try in 0..2 {
        let mut output = Vec::new(alloc);
        match operator.answer(line.as_bytes(), &mut output) {
            Ok(_) if is_text(&output, "MEMORY//") => {}
            Ok(_) => return Some(output),
            // The next JOURNAL continues from the place where this one would have begun; the caller compares its answer.
            Err(AllocError) => assert!(rt; output.is_empty(), "{line}"),
        }
    }
    None
}

/// Sends the lines, and compares their answers. A sweep whose sheet has no memory is answered by its line alone.
fn tell_lines<E: EntryLedger, S: LotLedger, R: Wait + Abort>(
    rt: &R,
    alloc: Global,
    operator: &mut Operator<'_, E, S, R, TestOffice, Heard>,
) {
    for row in LINES.lines() {
        let (line, expected) = row.split_once(" = ").unwrap_or((row, ""));
        let Some(output) = answered(rt, alloc, operator, line) else {
            return;
        };
        let is_short = line == "SWEEP G1" && is_text(&output, "9 SWEPT G1 4//");
        assert!(rt; is_short || is_text(&output, expected), "{row}");
    }
}

/// Sends the lines to a desk that is opened over a book. If there is no memory to open it, nothing is sent.
fn tell_at<E: EntryLedger, S: LotLedger, R: Wait + Abort>(
    rt: &R,
    alloc: Global,
    book: Book,
    annals: BlankAnnals,
    entries: Blank,
    swept: Blank,
)
    requires reference { book.reference ≡ E.reference }
    requires opening { (book.history ≡ E.opening) × (lots_swept book.history ≡ S.opening) }
    requires history { (annals.name ≡ E.history) × (annals.entries ≡ E.opening) }
    requires entries { (entries.name ≡ E.name) × (entries.parts ≡ E.parts) × (entries.parts ≡ 2) }
    requires swept { (swept.name ≡ S.name) × (swept.parts ≡ S.parts) × (swept.parts ≡ 2) }
{
    let made: Result<(Desk<E, S>, Vec<Seat<E, S>>), (AllocError, Book)> = Desk::new(
        alloc, book, annals, 1, entries, swept,
    );
    let Ok((desk, seats)) = made else {
        return;
    };
    let office = TestOffice::new().expect(rt, "a firm");
    let tally = Tally::new();
    let heard = Heard::new();
    let room = Room {
        alloc,
        rt,
        desk: &desk,
        office: &office,
        tally: &tally,
        heard: &heard,
    };
    for seat in seats {
        let mut operator = operator_of(&room, SeatReceipts::new(alloc, seat), false);
        tell_lines(rt, alloc, &mut operator);
    }
}

#[test]
fn refused_to_a_line_leaves_it_to_be_told_again(rt: HostRuntime) {
    let alloc = rt.alloc();
    let Some(book) = book_of(alloc) else {
        return;
    };
    let Ok(annals) = BlankAnnals::of(alloc, &book) else {
        return;
    };
    tell_at::<Brand, Brand, HostRuntime>(&rt, alloc, book, annals, Blank::new(2), Blank::new(2));
}
