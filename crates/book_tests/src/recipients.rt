//! The firms that an entry may report something: those that it reports, and no firm of another place.

use crate::trades::{report_of, take};
use crate::transcript::{Patience, follow, world_of};
use gu_book::Book;
use gu_notices::{FirmFilter, FirmPlace, Register, note_recipients};
use gu_offers::Offers;
use gu_ref::Reference;
use gu_terms::{Command, Done, Entry, Group, Reply};
use gu_trades::Trades;
use std::alloc::{AllocError, Global};
use std::process::Abort;
use std::str;

/// Lines with what they are answered, and the firms of the sample that the line's entry may report something.
const ROWS: &str = "\
DAY 20260105                      = 1 OK                              |
LIMIT G1 EXEC E1 100              = 2 OK                              |
LIMIT G1 CARRY C1 100             = 3 OK                              |
LIMIT G1 ACCT A1 100              = 4 OK                              |
LIMIT G1 AGR P1 100               = 5 OK                              |
REPORT E1 R1 M1 B XF6 10 101.5 H1 = 6 OK OPEN                         |
REPORT E1 R1 M2 B XF6 10 101.5 H1 = 7 NO 6 DuplicateId                |
REPORT E2 R2 M1 S XF6 10 101.5 H2 = 8 OK MATCHED                      | E1 E2
GIVEUP E1 L1 R1 A1 4 A1 3 A1 2    = 9 OK OFFERS 1 3                   | C1
GIVEUP E2 L1 R2 A1 2 A3 3         = 10 OK OFFERS 4 5                  | C1 C2
CLAIM C1 1                        = 11 OK LOTS 4                      | E1 C1
REFUSE C2 5 2                     = 12 OK LOTS 3                      | E2 C2
REFUSE C1 4 2                     = 13 OK LOTS 2                      | E2 C1
REVERSE C1 1                      = 14 OK LOTS 4                      | E1 C1
LIMIT G1 AGR P1 3                 = 15 OK                             |
SWEEP G1                          = 16 SWEPT G1 3, TAKE 2 3, CUT AGR P1 | E1 C1
SWEEP G2                          = 17 SWEPT G2 0                     |
CLAIM C1 2                        = 18 NO 14 OfferClosed              |
";

/// What notices are written by, beside the reference.
#[derive(Drop)]
struct Kept {
    trades: Trades,
    offers: Offers,
}

/// Takes a give-up in, whose offers are of a group.
pub fn give_up(offers: &mut Offers, command: &Command, group: Group) -> Result<(), AllocError> {
    if let Command::GiveUp(it) = command {
        // The number of lines.
        let _ = it.lines.as_slice();
        if offers.count() < 10_000 {
            offers.give_up(it.firm, it.report, group, &it.lines)?;
        }
    }
    Ok(())
}

/// Takes an entry in, if it is of a report or a give-up that was accepted.
fn take_in(kept: &mut Kept, entry: &Entry) -> Result<(), AllocError> {
    match entry {
        Entry::Asked {
            command,
            reply: Reply::Accepted(done),
        } => {
            if let Some(report) = report_of(command) {
                take(&mut kept.trades, &report)?;
            }
            match done {
                Done::Offered { group, .. } => give_up(&mut kept.offers, command, *group),
                _ => Ok(()),
            }
        }
        _ => Ok(()),
    }
}

/// Takes the last entry of a book in.
fn take_last(kept: &mut Kept, book: &Book) -> Result<(), AllocError> {
    let history = book.history();
    match history.entry(history.len() as u64)? {
        Some(entry) => {
            let taken = take_in(kept, &entry);
            drop(entry);
            taken
        }
        None => Ok(()),
    }
}

/// Adds the names of the firms of a reference that a filter may hold, each after a blank.
fn append_names(
    text: &mut Vec<u8>,
    reference: &Reference,
    firms: FirmFilter,
) -> Result<(), AllocError> {
    for firm in reference.firms() {
        if firms.has(FirmPlace::of(firm)) {
            text.push(b' ')?;
            text.extend_from_slice(firm.get())?;
        }
    }
    Ok(())
}

/// Returns the firms of the sample that each entry of a book may report something, a line for each entry.
fn recipients(alloc: Global, book: &Book, kept: &Kept) -> Result<Vec<u8>, AllocError> {
    let register = Register {
        reference: book.reference(),
        trades: &kept.trades,
        offers: &kept.offers,
    };
    let mut noted = Vec::new(alloc);
    note_recipients(&register, book.history(), &mut noted)?;
    let mut text = Vec::new(alloc);
    for firms in &noted {
        append_names(&mut text, book.reference(), *firms)?;
        text.push(b'\n')?;
    }
    Ok(text)
}

/// Returns a row's line, and its firms.
fn columns(row: &str) -> (&str, &str) {
    let (line, firms) = row.split_once("|").unwrap_or((row, ""));
    (line, firms.trim_end())
}

/// Returns the firms of the rows, a line for each row.
fn firms_of_rows(alloc: Global) -> Result<Vec<u8>, AllocError> {
    let mut text = Vec::new(alloc);
    for row in ROWS.lines() {
        let (_, firms) = columns(row);
        text.extend_from_slice(firms.as_bytes())?;
        text.push(b'\n')?;
    }
    Ok(text)
}

#[test]
fn an_entry_may_tell_the_firms_that_it_tells_and_no_others(rt: HostRuntime) {
    let alloc = rt.alloc();
    let mut world = world_of(&rt, alloc, "", "", Patience::Never);
    let mut kept = Kept {
        trades: Trades::new(alloc),
        offers: Offers::new(alloc),
    };
    for row in ROWS.lines() {
        let (line, _) = columns(row);
        follow(&rt, alloc, &mut world, "recipients", line, Patience::Never);
        assert!(rt; take_last(&mut kept, world.book()).is_ok(), "{row}");
    }
    let told = recipients(alloc, world.book(), &kept)
        .ok()
        .expect(&rt, "memory");
    let want = firms_of_rows(alloc).ok().expect(&rt, "memory");
    assert!(rt; told == want, "{}", str::from_utf8(&told).unwrap_or("?"));
}

/// Returns the firms of the sample that the book says each of its entries informs, a line for each entry.
fn informed(alloc: Global, book: &Book) -> Result<Vec<u8>, AllocError> {
    let mut text = Vec::new(alloc);
    for place in 0..book.history().len() {
        let firms = book.informs((place as u64).saturating_add(1));
        append_names(&mut text, book.reference(), firms)?;
        text.push(b'\n')?;
    }
    Ok(text)
}

#[test]
fn a_book_says_whom_an_entry_informs_noted_or_not(rt: HostRuntime) {
    let alloc = rt.alloc();
    let mut world = world_of(&rt, alloc, "", "", Patience::Never);
    for row in ROWS.lines() {
        let (line, _) = columns(row);
        follow(&rt, alloc, &mut world, "informs", line, Patience::Never);
    }
    let want = firms_of_rows(alloc).ok().expect(&rt, "memory");
    let mut book = world.into_book();
    let looked_up = informed(alloc, &book).ok().expect(&rt, "memory");
    assert!(rt;
        looked_up == want,
        "{}",
        str::from_utf8(&looked_up).unwrap_or("?")
    );
    assert!(rt; book.note_recipients().is_ok());
    let noted = informed(alloc, &book).ok().expect(&rt, "memory");
    assert!(rt; noted == want, "{}", str::from_utf8(&noted).unwrap_or("?"));
    // No entry has these numbers.
    for number in [0, 19, u64::MAX] {
        assert!(rt; book.informs(number) == FirmFilter::NONE);
    }
}
