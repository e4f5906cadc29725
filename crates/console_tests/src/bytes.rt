//! Lines in whatever pieces their bytes come. In a row `/` is LF, `~` is CR, and `|` ends a piece.

ghost use Rattle.std.specs.Prelude.{◌≡◌};
ghost use Rattle.gu_terms.specs.Histories.{lots_swept};

use crate::house::{Heard, TestOffice, book_of};
use crate::opening::{annals_of, desk_of};
use crate::transcript::{Room, operator_of};
use gu_book::Book;
use gu_console::{LineBuffer, Operator, Said, serve_lines};
use gu_desk::{BlankAnnals, EntryLedger, LotLedger};
use gu_houses::Tally;
use std::alloc::{AllocError, Global};
use std::marker::Brand;
use std::process::Abort;
use std::sync::Wait;
use std::sync::ledger::Blank;
use trials::{columns, meant};

/// Bytes, and what answers them.
const PIECES: &str = "\
CUT 4/ -> CUT//
CUT 4~/ -> CUT//
CUT 4 -> 
CUT 4|/ -> CUT//
C|U|T| |4|~|/ -> CUT//
CUT 4/CUT 6/ -> CUT//UNKNOWN//
CUT 4/C|UT 6/CUT 5 -> CUT//UNKNOWN//
/~/#/ -> ///
CUT 4~~/ -> BAD LINE//
#(x*1023)/CUT 4/ -> /CUT//
#(x*1023)~/CUT 4/ -> /CUT//
#(x*500)|(x*523)~|/CUT 4/ -> /CUT//
#(x*1024)/CUT 4/ -> BAD LINE//CUT//
#(x*1024)~/CUT 4/ -> BAD LINE//CUT//
#(x*1024)~~/CUT 4/ -> BAD LINE//CUT//
#(x*1025)/CUT 4/ -> BAD LINE//CUT//
#(x*4000)|(x*4000)|(x*4000)/CUT 4/ -> BAD LINE//CUT//
(x*100000) -> 
CUT (0*1021)4/ -> BAD LINE//
CUT 4(0*2000)/ -> BAD LINE//
CUT 4/CLOSE/CUT 4/ -> CUT//CLOSING/
CLOSE/CUT 4/ -> CLOSING//CUT//";

/// Returns a text with LF and CR in the places of their signs.
fn bytes_of(alloc: Global, text: &str) -> Result<String, AllocError> {
    meant(alloc, text)?
        .replace(alloc, "/", "\n")?
        .replace(alloc, "~", "\r")
}

/// Returns what answers pieces that a new connection brings.
fn served<E: EntryLedger, S: LotLedger, R: Wait>(
    alloc: Global,
    operator: &mut Operator<'_, E, S, R, TestOffice, Heard>,
    pieces: &str,
) -> Result<String, AllocError> {
    let mut buffer = LineBuffer::new();
    let mut output = Vec::new(alloc);
    for piece in pieces.split('|') {
        let said = serve_lines(operator, &mut buffer, piece.as_bytes(), &mut output)?;
        if said == Said::Closes {
            break;
        }
    }
    str::from_utf8(&output)
        .unwrap_or("?")
        .replace(alloc, "\n", "/")
}

/// Serves the rows, one connection after another.
fn serve_rows<E: EntryLedger, S: LotLedger, R: Wait + Abort>(
    rt: &R,
    alloc: Global,
    book: Book,
    annals: BlankAnnals,
    entries: Blank,
    swept: Blank,
)
    requires reference { book.reference ≡ E.reference }
    requires opening { (book.history ≡ E.opening) × (lots_swept book.history ≡ S.opening) }
    requires history { (annals.name ≡ E.history) × (annals.entries ≡ E.opening) }
    requires entries { (entries.name ≡ E.name) × (entries.parts ≡ E.parts) × (entries.parts ≡ 4) }
    requires swept { (swept.name ≡ S.name) × (swept.parts ≡ S.parts) × (swept.parts ≡ 4) }
{
    let (desk, mut seats) = desk_of::<E, S, R>(rt, alloc, book, annals, entries, swept);
    let office = TestOffice::new().expect(rt, "a firm");
    let tally = Tally::new();
    let heard = Heard::new();
    let room = Room {
        alloc,
        rt,
        desk: &desk,
        office: &office,
        tally: &tally,
        heard: &heard,
    };
    let mut operator = operator_of(&room, seats.pop().expect(rt, "a seat"), false);
    for row in PIECES.lines() {
        let (pieces, expected) = columns(row);
        let pieces = bytes_of(alloc, pieces).expect(rt, "memory");
        let told = served(alloc, &mut operator, &pieces).expect(rt, "memory");
        assert_eq!(rt; told.as_str(), expected, "{row}");
    }
}

#[test]
fn lines_are_answered_however_their_bytes_come(rt: HostRuntime) {
    let alloc = rt.alloc();
    let book = book_of(alloc).expect(&rt, "a book");
    let annals = annals_of(&rt, alloc, &book);
    serve_rows::<Brand, Brand, HostRuntime>(&rt, alloc, book, annals, Blank::new(4), Blank::new(4));
}
