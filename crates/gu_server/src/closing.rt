//! The end of a day: the seats come back, the desk is closed, and there is one receipt for each entry.

ghost use Rattle.std.specs.Prelude.{◌≡◌, ◌++◌, ◌≤◌, [], length, IfOk, List, OnOk, Option, codes, decimal, is_none, string_bytes};
ghost use Rattle.gu_terms.specs.Histories.{lots_swept};
ghost use Rattle.gu_terms.specs.declared.receipt.Receipt.{Receipt};
ghost use Rattle.gu_desk.specs.declared.error.AuditFault.{AuditFault as FaultOf};
ghost use Rattle.gu_server.specs.DayEnds.{Finds, audit_text, day_text};
ghost use Rattle.gu_server.specs.Receipts.{AddsReceipts, EndsWith};

use crate::day_receipts::DayReceipts;
use gu_book::Book;
use gu_desk::{AuditFault, Desk, EntryLedger, LotLedger, Seat};
use gu_houses::SeatReceipts;
use gu_streams::StreamError;
use gu_terms::Receipt;
use std::alloc::{AllocError, Global};

/// The book of a day that has ended, its receipts, and the fault that kept connections from being accepted, if there was one.
#[derive(Drop)]
pub struct Closed {
    pub book: Book,
    pub receipts: DayReceipts,
    pub fault: Option<StreamError>,
}

/// The three lines printed at the end of a day, and whether the audit passed.
pub type DayEnd = Result<(String, bool), AllocError>;

/// Returns the finding of an audit in words.
fn audit_text(alloc: Global, found: Option<AuditFault>) -> Result<String, AllocError>
    ensures { IfOk result (λ text. string_bytes text ≡ audit_text found) }
{
    match found {
        None => String::from_str(alloc, "OK"),
        Some(AuditFault::Memory) => String::from_str(alloc, "0 Memory"),
        Some(AuditFault::Missing(number)) => format!(in alloc; "1 Missing {number}"),
        Some(AuditFault::Differs(number)) => format!(in alloc; "2 Differs {number}"),
        Some(AuditFault::Twice(number)) => format!(in alloc; "3 Twice {number}"),
        Some(AuditFault::Unclaimed(number)) => format!(in alloc; "4 Unclaimed {number}"),
    }
}

/// Returns what an audit of these receipts finds. Running out of memory is an error and no finding.
fn finding_of(
    alloc: Global,
    book: &Book,
    receipts: &DayReceipts,
) -> Result<Option<AuditFault>, AllocError>
    ensures { IfOk result (Finds book.now.history receipts.now) }
{
    match receipts.audit(alloc, book) {
        Ok(()) => Ok(None),
        Err(AuditFault::Memory) => Err(AllocError),
        Err(fault) => Ok(Some(fault)),
    }
}

/// Returns the three lines printed at the end of a day.
fn lines(alloc: Global, entries: usize, swept: u64, audit: &str) -> Result<String, AllocError>
    ensures { IfOk result (λ text. string_bytes text ≡ codes "ENTRIES " ++ (decimal entries
        ++ (codes "\nSWEPT " ++ (decimal swept ++ (codes "\nAUDIT " ++ (audit.now ++ codes "\n")))))) }
{
    format!(in alloc; "ENTRIES {entries}\nSWEPT {swept}\nAUDIT {audit}\n")
}

/// Returns the three lines printed at the end of a day with this book and these receipts, and whether the audit passed: each entry has
/// exactly one receipt, and there are no others.
fn end_of(alloc: Global, book: &Book, receipts: DayReceipts) -> DayEnd
    ensures { IfOk result (λ r. (found : Option FaultOf) × Finds book.now.history receipts found
        × (string_bytes r.0 ≡ day_text book.now.history found) × (r.1 ≡ is_none found)) }
{
    let found = finding_of(alloc, book, &receipts)?;
    drop(receipts);
    let entries = book.history().len();
    let swept = book.lots_swept();
    let audit = audit_text(alloc, found)?;
    let text = lines(alloc, entries, swept, &audit)?;
    Ok((text, found.is_none()))
}

impl Closed {
    /// Returns the end of the day, its book, and the fault that kept connections from being accepted, if there was one. If the audit runs
    /// out of memory, the book still comes back, but the receipts are gone.
    pub fn end(self, alloc: Global) -> (DayEnd, Book, Option<StreamError>)
        ensures text { IfOk result.0 (λ r. (found : Option FaultOf) × Finds self.book.history self.receipts found
            × (string_bytes r.0 ≡ day_text self.book.history found) × (r.1 ≡ is_none found)) }
        ensures book { result.1 ≡ self.book }
        ensures fault { result.2 ≡ self.fault }
    {
        let Closed {
            book,
            receipts,
            fault,
        } = self;
        let end = end_of(alloc, &book, receipts);
        (end, book, fault)
    }
}

/// Room for what the threads of a day hand back, made before they begin: the end of the day then allocates nothing before the audit, so the
/// day isn't lost if memory has run out.
#[derive(Drop)]
pub struct Ending<E: EntryLedger, S: LotLedger> {
    seats: Vec<Seat<E, S>>,
    receipts: DayReceipts,
    ghost none_yet: { seats.items ≡ [] },
}

impl<E: EntryLedger, S: LotLedger> Ending<E, S> {
    /// Creates room for this many seats, and for their receipts after the existing ones.
    pub fn new(alloc: Global, seats: usize, receipts: Vec<Receipt>) -> Result<Self, AllocError>
        ensures { IfOk result (λ ending. ending.receipts ≡ receipts.items) }
    {
        Ok(Ending {
            seats: Vec::with_capacity(alloc, seats)?,
            receipts: DayReceipts::new(alloc, receipts, seats)?,
        })
    }

    /// Returns the room for seats, and the receipts.
    fn into_parts(self) -> (Vec<Seat<E, S>>, DayReceipts)
        ensures seats { result.0.items ≡ [] }
        ensures receipts { result.1 ≡ self.receipts }
    {
        let Ending { seats, receipts } = self;
        (seats, receipts)
    }
}

/// Adds a seat to the seats, and its receipts after the others.
fn gather<E: EntryLedger, S: LotLedger>(
    seats: &mut Vec<Seat<E, S>>,
    receipts: &mut DayReceipts,
    one: SeatReceipts<E, S>,
) -> Result<(), AllocError>
    ensures { (before : List Receipt) → EndsWith (length E.opening) seats.old.items before receipts.old
        → OnOk result (EndsWith (length E.opening) seats.new.items before receipts.new) }
{
    let (seat, more) = one.into_parts();
    receipts.add(more)?;
    seats.push(seat)?;
    Ok(())
}

/// Returns the seats, and adds all their receipts after the existing ones.
fn apart<E: EntryLedger, S: LotLedger>(
    keeping: Vec<SeatReceipts<E, S>>,
    mut seats: Vec<Seat<E, S>>,
    receipts: &mut DayReceipts,
) -> Result<Vec<Seat<E, S>>, AllocError>
    requires { seats.items ≡ [] }
    ensures { IfOk result (λ seats. EndsWith (length E.opening) seats.items receipts.old receipts.new) }
{
    for one in keeping {
        gather(&mut seats, receipts, one)?;
    }
    Ok(seats)
}

/// Closes a desk, given the seats that its threads handed back. Their receipts come after those that the day began with.
pub fn close<E: EntryLedger, S: LotLedger>(
    desk: Desk<E, S>,
    keeping: Vec<SeatReceipts<E, S>>,
    fault: Option<StreamError>,
    ending: Ending<E, S>,
) -> Result<Closed, StreamError>
    ensures reference { IfOk result (λ closed. closed.book.reference ≡ E.reference) }
    ensures lots { IfOk result (λ closed. S.opening ≤ lots_swept closed.book.history) }
    ensures receipts { IfOk result (λ closed. AddsReceipts E.opening ending.receipts closed.book.history closed.receipts) }
    ensures count { length ending.receipts ≡ length E.opening → IfOk result (λ closed. length closed.receipts ≡ length closed.book.history) }
    ensures fault { IfOk result (λ closed. closed.fault ≡ fault) }
{
    let (seats, mut receipts) = ending.into_parts();
    let seats = apart(keeping, seats, &mut receipts)?;
    match desk.close(seats) {
        Ok(book) => Ok(Closed {
            book,
            receipts,
            fault,
        }),
        Err(_) => Err(StreamError::Memory),
    }
}
