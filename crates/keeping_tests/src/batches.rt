//! A batch, byte by byte. The digests are those that sha256sum prints for the digest before it and the lines of the entries of a
//! batch: `1 OK` and so on, and for the sweep `10 SWEPT G1 7` and its lines.

ghost use Rattle.std.specs.Prelude.{◌≡◌, []};
ghost use Rattle.gu_terms.specs.Histories.{lots_swept};

use crate::days::{empty_log, enter, keep_all};
use crate::opening::{annals_of, keeper_of, opened};
use crate::sample::{book_of, origins, played};
use gu_book::Book;
use gu_desk::{BlankAnnals, EntryLedger, LotLedger};
use gu_journal::Memory;
use gu_keeping::{Chain, keep_opening};
use std::alloc::Global;
use std::marker::Brand;
use std::process::Abort;
use std::sync::Wait;
use std::sync::ledger::Blank;

/// The lines that are entered and kept in two batches.
const LINES: [&str; 2] = [
    "\
DAY 20260105
LIMIT G1 EXEC E1 100
LIMIT G1 AGR P1 100
LIMIT G1 ACCT A1 100
LIMIT G1 CARRY C1 100
REPORT E1 R1 M1 B XF6 10 101.5 H1
REPORT E2 R2 M1 S XF6 10 101.5 H2
GIVEUP E1 L1 R1 A1 7
",
    "\
@20260107 REPORT E1 R3 M3 B XF6 1 5 H1
SWEEP G1
CLAIM C1 1
",
];

/// The text of the two batches.
const TEXT: &str = "\
# 20260105-09:00:00.001 E1 3 1
DAY 20260105
# 20260105-09:00:00.002 E1 3 2
LIMIT G1 EXEC E1 100
# 20260105-09:00:00.003
LIMIT G1 AGR P1 100
# 20260105-09:00:00.004 E1 3 4
LIMIT G1 ACCT A1 100
# 20260105-09:00:00.005 E1 3 5
LIMIT G1 CARRY C1 100
# 20260105-09:00:00.006
REPORT E1 R1 M1 B XF6 10 101.5 H1
# 20260105-09:00:00.007 E1 3 7
REPORT E2 R2 M1 S XF6 10 101.5 H2
# 20260105-09:00:00.008 E1 3 8
GIVEUP E1 L1 R1 A1 7
# 8 931188fd9b862dc6c88969a30664b09dda8ea57fdcdf663427cb14ee20d7aec1
# 20260105-09:00:00.009
# REPORT E1 R3 M3 B XF6 1 5 H1 20260107
DAY 20260105
# 20260105-09:00:00.010 E1 3 10
SWEEP G1
# TAKE 1 7
# CUT OFFER 1
# 20260105-09:00:00.011 E1 3 11
CLAIM C1 1
# 11 4613dc6a6e88407426bc13203beb6b81f98a299363c53ad8b9c3a02e698780e5
";

/// Enters the lines of each part and keeps them in one batch. Returns the text.
fn kept_text<E: EntryLedger, S: LotLedger, R: Wait + Abort>(
    rt: &R,
    alloc: Global,
    book: Book,
    annals: BlankAnnals,
    entries: Blank,
    swept: Blank,
) -> Memory
    requires reference { book.reference ≡ E.reference }
    requires opening { (book.history ≡ E.opening) × (lots_swept book.history ≡ S.opening) }
    requires none { E.opening ≡ [] }
    requires history { (annals.name ≡ E.history) × (annals.entries ≡ E.opening) }
    requires entries { (entries.name ≡ E.name) × (entries.parts ≡ E.parts) × (entries.parts ≡ 2) }
    requires swept { (swept.name ≡ S.name) × (swept.parts ≡ S.parts) × (swept.parts ≡ 2) }
{
    let (desk, mut seat) = opened::<E, S, R>(rt, alloc, book, annals, entries, swept);
    let log = empty_log(alloc).expect(rt, "memory");
    let mut keeper = keeper_of(rt, alloc, &desk, &mut seat, log, Chain::new());
    for lines in LINES {
        let mut last = 0;
        for line in lines.lines() {
            let number = enter(rt, alloc, &desk, &mut seat, line);
            last = number.expect(rt, "an entry");
        }
        let first = (keeper.count() as u64).saturating_add(1);
        let origins = origins(alloc, first, last).ok().expect(rt, "memory");
        let kept = keep_all(rt, alloc, &desk, keeper, &origins);
        keeper = kept.ok().expect(rt, "a batch");
        assert_eq!(rt; keeper.count() as u64, last);
    }
    let (log, front) = keeper.into_parts();
    drop(front);
    let mut seats = Vec::new(alloc);
    assert!(rt; seats.push(seat).is_ok());
    drop(desk.close(seats).ok().expect(rt, "all seats"));
    log.finish().ok().expect(rt, "memory")
}

#[test]
fn a_batch_has_each_entry_after_its_origin_and_a_digest_at_its_end(rt: HostRuntime) {
    let alloc = rt.alloc();
    let book = book_of(alloc).expect(&rt, "a book");
    let annals = annals_of(&rt, alloc, &book);
    let device = kept_text::<Brand, Brand, HostRuntime>(
        &rt,
        alloc,
        book,
        annals,
        Blank::new(2),
        Blank::new(2),
    );
    assert!(rt; device.bytes() == TEXT.as_bytes());
}

/// The heading of a day, and its opening: no origins are known.
const OPENING: &str = "\
# giveup 1.0
# opened
DAY 20260105
LIMIT G1 EXEC E1 100
LIMIT G1 AGR P1 100
LIMIT G1 ACCT A1 100
LIMIT G1 CARRY C1 100
REPORT E1 R1 M1 B XF6 10 101.5 H1
REPORT E2 R2 M1 S XF6 10 101.5 H2
GIVEUP E1 L1 R1 A1 7
# 8 931188fd9b862dc6c88969a30664b09dda8ea57fdcdf663427cb14ee20d7aec1
";

#[test]
fn an_opening_is_a_heading_and_the_lines_of_its_entries(rt: HostRuntime) {
    let alloc = rt.alloc();
    let [lines, _] = LINES;
    let book = played(alloc, lines.as_bytes()).expect(&rt, "a book");
    let log = empty_log(alloc).expect(&rt, "memory");
    let made = keep_opening(alloc, log, b"# giveup 1.0\n# opened\n", book.history());
    let (log, chain) = made.ok().expect(&rt, "an opening");
    assert_eq!(rt; chain.count(), 8);
    let device = log.finish().ok().expect(&rt, "memory");
    assert!(rt; device.bytes() == OPENING.as_bytes());
}

#[test]
fn a_day_without_entries_has_its_heading_alone(rt: HostRuntime) {
    let alloc = rt.alloc();
    let book = book_of(alloc).expect(&rt, "a book");
    let log = empty_log(alloc).expect(&rt, "memory");
    let made = keep_opening(alloc, log, b"# giveup 1.0\n", book.history());
    let (log, chain) = made.ok().expect(&rt, "an opening");
    assert_eq!(rt; chain, Chain::new());
    let device = log.finish().ok().expect(&rt, "memory");
    assert!(rt; device.bytes() == b"# giveup 1.0\n".as_slice());
}
