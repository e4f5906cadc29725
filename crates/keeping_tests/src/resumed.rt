//! A day that goes on after a crash: the text that was found is played, its digests are compared, the digest of what the crash left of a
//! batch comes after it, and then the next batch.

ghost use Rattle.std.specs.Prelude.{◌≡◌};
ghost use Rattle.gu_terms.specs.Histories.{lots_swept};
ghost use Rattle.gu_keeping.specs.Chains.{IsChainOf};

use crate::days::{STEP, enter, keep_all};
use crate::opening::{annals_of, keeper_of, opened};
use crate::sample::{origins, played};
use gu_book::Book;
use gu_desk::{BlankAnnals, EntryLedger, LotLedger};
use gu_journal::{Log, Memory, Opened, Sink, is_batch};
use gu_keeping::{Chain, check_digests, resume_text};
use gu_terms::History;
use std::alloc::Global;
use std::marker::Brand;
use std::process::Abort;
use std::sync::Wait;
use std::sync::ledger::Blank;

/// What a crash left: a batch whose digest was cut off, in the middle of a line, and zeros.
const LEFT: &str = "\
# giveup 1.0
DAY 20260105
LIMIT G1 EXEC E1 100
# 2 d48901f842f4370289eedf797b95baa669d03dc847c5937ed69861c0a653369c
# 20260105-09:00:00.003
LIMIT G1 AGR P1 100
# 20260105-09:00:00.004 E1 3 4
LIMIT G1 ACCT A1 10\0\0\0\0\0\0";

/// The journal after two more lines.
const TEXT: &str = "\
# giveup 1.0
DAY 20260105
LIMIT G1 EXEC E1 100
# 2 d48901f842f4370289eedf797b95baa669d03dc847c5937ed69861c0a653369c
# 20260105-09:00:00.003
LIMIT G1 AGR P1 100
# 20260105-09:00:00.004 E1 3 4
# goes on
# 3 de0482ad4d7af2cf25264e7506082a8df0f779beff6a835c926f01bab8016477
# 20260105-09:00:00.004 E1 3 4
LIMIT G1 ACCT A1 100
# 20260105-09:00:00.005 E1 3 5
LIMIT G1 CARRY C1 100
# 5 df09734021e479d9b8f631076fb873a68aff63b8d21fc978a044a833d7db3e93
";

/// A log that goes on, and the chain of its text.
struct Resumed {
    log: Log<Memory>,
    chain: Chain,
}

/// Enters two lines more and keeps them. Returns the device.
fn gone_on<E: EntryLedger, S: LotLedger, R: Wait + Abort>(
    rt: &R,
    alloc: Global,
    book: Book,
    annals: BlankAnnals,
    entries: Blank,
    swept: Blank,
    resumed: Resumed,
) -> Memory
    requires reference { book.reference ≡ E.reference }
    requires opening { (book.history ≡ E.opening) × (lots_swept book.history ≡ S.opening) }
    requires chain { IsChainOf resumed.chain E.opening }
    requires history { (annals.name ≡ E.history) × (annals.entries ≡ E.opening) }
    requires entries { (entries.name ≡ E.name) × (entries.parts ≡ E.parts) × (entries.parts ≡ 2) }
    requires swept { (swept.name ≡ S.name) × (swept.parts ≡ S.parts) × (swept.parts ≡ 2) }
{
    let Resumed { log, chain } = resumed;
    let (desk, mut seat) = opened::<E, S, R>(rt, alloc, book, annals, entries, swept);
    let keeper = keeper_of(rt, alloc, &desk, &mut seat, log, chain);
    assert_eq!(rt; keeper.count(), 3);
    for line in ["LIMIT G1 ACCT A1 100", "LIMIT G1 CARRY C1 100"] {
        assert!(rt; enter(rt, alloc, &desk, &mut seat, line).is_some());
    }
    let origins = origins(alloc, 4, 5).ok().expect(rt, "memory");
    let keeper = keep_all(rt, alloc, &desk, keeper, &origins);
    let (log, front) = keeper.ok().expect(rt, "a batch").into_parts();
    drop(front);
    let mut seats = Vec::new(alloc);
    assert!(rt; seats.push(seat).is_ok());
    drop(desk.close(seats).ok().expect(rt, "all seats"));
    log.finish().ok().expect(rt, "memory")
}

/// Returns the chain of a history, whose digests a text has.
fn chain_in(rt: &impl Abort, alloc: Global, text: &[u8], history: &History) -> Chain
    ensures { IsChainOf result history.now }
{
    match check_digests(alloc, text, history) {
        Ok(chain) => chain,
        Err(_) => panic!(rt; "other digests"),
    }
}

/// Appends a batch to a log.
fn with_batch(rt: &impl Abort, log: Log<Memory>, batch: &[u8]) -> Log<Memory> {
    if !is_batch(batch) {
        panic!(rt; "no batch");
    }
    log.append(batch).ok().expect(rt, "a log")
}

#[test]
fn a_day_goes_on_after_the_last_whole_line(rt: HostRuntime) {
    let alloc = rt.alloc();
    let left = Vec::from_slice(alloc, LEFT.as_bytes()).ok();
    let left = left.expect(&rt, "memory");
    let device = Memory::new(alloc, left).ok().expect(&rt, "memory");
    let found = Log::open(alloc, device, STEP).ok().expect(&rt, "a log");
    let Opened { log, text, torn } = found;
    assert_eq!(rt; torn, 19);
    let book = played(alloc, &text).expect(&rt, "a book");
    let chain = chain_in(&rt, alloc, &text, book.history());
    let comments = resume_text(alloc, b"# goes on\n", &chain);
    let comments = comments.ok().expect(&rt, "memory");
    let log = with_batch(&rt, log, &comments);
    let annals = annals_of(&rt, alloc, &book);
    let device = gone_on::<Brand, Brand, HostRuntime>(
        &rt,
        alloc,
        book,
        annals,
        Blank::new(2),
        Blank::new(2),
        Resumed { log, chain },
    );
    assert!(rt; device.bytes() == TEXT.as_bytes());
}
