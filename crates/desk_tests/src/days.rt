//! Days at a desk: four firms, two sweepers and two that ask, in threads of their own, and the audit of their receipts.

ghost use Rattle.std.specs.Prelude.{◌≡◌};
ghost use Rattle.gu_terms.specs.Histories.{lots_swept};

use crate::opening::{annals_of, opened};
use crate::sample::{book_of, command_of, group_of};
use crate::threads::{Shift, Work, shifts_of};
use gu_book::Book;
use gu_desk::{AuditFault, BlankAnnals, Desk, EntryLedger, LotLedger, Seat, audit};
use gu_terms::{Done, Entry, Receipt, Reply};
use std::alloc::{AllocError, Global};
use std::marker::Brand;
use std::process::Abort;
use std::sync::Wait;
use std::sync::ledger::Blank;
use std::thread::Threads;

/// The entries before the threads begin: with 47 commands of each of four firms that makes 200.
const MORNING: &str = "\
DAY 20260105
LIMIT G1 EXEC E1 1000
LIMIT G1 EXEC E2 1000
LIMIT G1 AGR P1 1000
LIMIT G1 AGR P4 1000
LIMIT G1 ACCT A1 1000
LIMIT G1 ACCT A3 1000
LIMIT G1 CARRY C1 1000
LIMIT G1 CARRY C2 1000
REPORT E1 R1 M1 B XF6 5000 101.5 H1
REPORT E2 R2 M1 S XF6 5000 101.5 H2
LIMIT G2 EXEC E1 1000
";

/// The place of the first report among the morning's receipts.
const FIRST_REPORT: usize = 9;

/// What the four firms enter: two executing firms give up lots of the two sides, and two carrying firms claim what may be theirs.
const FIRMS: [&str; 4] = [
    "GIVEUP E1 L# R1 A1 1",
    "GIVEUP E2 L# R2 A3 1",
    "CLAIM C1 #",
    "CLAIM C2 #",
];

/// Returns the work of eight threads.
fn works(alloc: Global) -> Result<Vec<Work>, AllocError> {
    let (to, from) = crossbeam_channel::unbounded(alloc)?;
    let mut works = Vec::with_capacity(alloc, 8)?;
    for line in FIRMS {
        works.push(Work::Enters(line, to.clone()?))?;
    }
    works.push(Work::Sweeps(from.clone()?))?;
    works.push(Work::Sweeps(from))?;
    works.push(Work::Asks)?;
    works.push(Work::Asks)?;
    Ok(works)
}

/// Adds a shift's receipts, and its seat, to the others. Returns false if not all went well.
fn gather<E: EntryLedger, S: LotLedger>(
    seats: &mut Vec<Seat<E, S>>,
    receipts: &mut Vec<Receipt>,
    shift: Shift<E, S>,
) -> bool {
    let (seat, more, is_well) = shift.into_parts();
    let mut is_kept = seats.push(seat).is_ok();
    for receipt in more {
        is_kept = receipts.push(receipt).is_ok() && is_kept;
    }
    is_well && is_kept
}

/// Returns how many receipts are of commands, and the lots of those of sweeps.
fn totals_of(receipts: &[Receipt]) -> (u64, u64) {
    let mut asked: u64 = 0;
    let mut swept: u64 = 0;
    for receipt in receipts {
        match &receipt.entry {
            Entry::Asked { .. } => asked = asked.saturating_add(1),
            Entry::Swept(sweep) => swept = swept.saturating_add(sweep.lots),
        }
    }
    (asked, swept)
}

/// Returns whether the last entry is a sweep.
fn is_swept_at_last(book: &Book) -> bool {
    let history = book.history();
    match history.entry(history.len() as u64) {
        Ok(Some(entry)) => matches!(&entry, Entry::Swept(_)),
        _ => false,
    }
}

/// Audits receipts to which a wrong one is added, and takes that one away again.
fn audit_with(
    rt: &impl Abort,
    alloc: Global,
    book: &Book,
    receipts: &mut Vec<Receipt>,
    wrong: Receipt,
    want: AuditFault,
) {
    assert!(rt; receipts.push(wrong).is_ok());
    assert_eq!(rt; audit(alloc, book, receipts), Err(want));
    assert!(rt; receipts.pop().is_some());
}

/// Returns a receipt with this number for the first report, which was matched.
fn changed(rt: &impl Abort, alloc: Global, number: u64) -> Receipt {
    let command = command_of(alloc, "REPORT E1 R1 M1 B XF6 5000 101.5 H1");
    Receipt {
        number,
        entry: Entry::Asked {
            command: command.expect(rt, "a command"),
            reply: Reply::Accepted(Done::Reported { matched: true }),
        },
    }
}

/// Audits receipts of which one is missing, and with a wrong one in its place.
fn audit_wrong_ones(
    rt: &impl Abort,
    alloc: Global,
    book: &Book,
    receipts: &mut Vec<Receipt>,
    missing: u64,
) {
    assert_eq!(rt;
        audit(alloc, book, receipts),
        Err(AuditFault::Unclaimed(missing))
    );
    let past = (book.history().len() as u64).saturating_add(1);
    for (number, want) in [
        (past, AuditFault::Missing(past)),
        (0, AuditFault::Missing(0)),
        (missing, AuditFault::Differs(missing)),
    ] {
        let wrong = changed(rt, alloc, number);
        audit_with(rt, alloc, book, receipts, wrong, want);
    }
    let first = receipts.first().expect(rt, "a receipt").copy();
    let wrong = first.ok().expect(rt, "memory");
    audit_with(rt, alloc, book, receipts, wrong, AuditFault::Twice(1));
}

/// Audits the receipts of a book, and receipts that aren't those.
fn audit_all(rt: &impl Abort, alloc: Global, book: &Book, mut receipts: Vec<Receipt>) {
    assert_eq!(rt; receipts.len(), book.history().len());
    assert_eq!(rt; totals_of(&receipts), (200, book.lots_swept()));
    assert_eq!(rt; audit(alloc, book, &receipts), Ok(()));
    assert!(rt; FIRST_REPORT < receipts.len());
    let report = receipts.remove(FIRST_REPORT);
    assert_eq!(rt; report.number, 10);
    audit_wrong_ones(rt, alloc, book, &mut receipts, 10);
    assert!(rt; receipts.push(report).is_ok());
    assert_eq!(rt; audit(alloc, book, &receipts), Ok(()));
}

/// Returns the shift of the morning.
fn morning_of<E: EntryLedger, S: LotLedger, R: Wait + Abort>(
    rt: &R,
    alloc: Global,
    desk: &Desk<E, S>,
    seats: &mut Vec<Seat<E, S>>,
) -> Shift<E, S> {
    let mut shift = Shift::new(alloc, seats.pop().expect(rt, "a seat"));
    for line in MORNING.lines() {
        drop(shift.submit(rt, alloc, desk, line));
    }
    shift
}

/// Gathers the seats and the receipts of all shifts, those of the morning first.
fn gather_all<E: EntryLedger, S: LotLedger, R: Abort>(
    rt: &R,
    alloc: Global,
    seats: &mut Vec<Seat<E, S>>,
    morning: Shift<E, S>,
    shifts: Vec<Shift<E, S>>,
) -> Vec<Receipt> {
    let mut receipts = Vec::new(alloc);
    assert!(rt; gather(seats, &mut receipts, morning));
    for shift in shifts {
        assert!(rt; gather(seats, &mut receipts, shift));
    }
    receipts
}

/// Runs a day at a desk of nine seats: a morning, then eight threads at the same time, then one more sweep.
fn whole_day<
    E: EntryLedger + Send + Sync,
    S: LotLedger + Send + Sync,
    R: Threads + Wait + Abort + Sync,
>(rt: &R, alloc: Global, book: Book, annals: BlankAnnals, entries: Blank, swept: Blank)
    requires reference { book.reference ≡ E.reference }
    requires opening { (book.history ≡ E.opening) × (lots_swept book.history ≡ S.opening) }
    requires history { (annals.name ≡ E.history) × (annals.entries ≡ E.opening) }
    requires entries { (entries.name ≡ E.name) × (entries.parts ≡ E.parts) × (entries.parts ≡ 10) }
    requires swept { (swept.name ≡ S.name) × (swept.parts ≡ S.parts) × (swept.parts ≡ 10) }
{
    let (desk, mut seats) = opened::<E, S, R>(rt, alloc, book, annals, 9, entries, swept);
    let mut morning = morning_of(rt, alloc, &desk, &mut seats);
    let works = works(alloc).ok().expect(rt, "memory");
    let run = shifts_of(rt, alloc, &desk, &mut seats, works);
    let shifts = run.ok().expect(rt, "memory");
    assert_eq!(rt; shifts.len(), 8);
    morning.sweep(rt, &desk, group_of("G1").expect(rt, "a group"), 1);
    let receipts = gather_all(rt, alloc, &mut seats, morning, shifts);
    let book = desk.close(seats).ok().expect(rt, "all seats");
    assert!(rt; is_swept_at_last(&book));
    audit_all(rt, alloc, &book, receipts);
}

#[test]
fn the_receipts_of_a_day_are_its_entries(rt: HostRuntime) {
    let alloc = rt.alloc();
    let book = book_of(alloc).expect(&rt, "a book");
    let annals = annals_of(&rt, alloc, &book);
    whole_day::<Brand, Brand, HostRuntime>(
        &rt,
        alloc,
        book,
        annals,
        Blank::new(10),
        Blank::new(10),
    );
}
