//! Days that are entered at a desk and kept line by line.

use crate::sample::{command_of, origins, swept_by};
use gu_desk::{Desk, Direct, EntryLedger, LotLedger, Origin, Seat};
use gu_journal::{Log, Memory, Sink};
use gu_keeping::{Keeper, Unkept};
use std::alloc::{AllocError, Global};
use std::process::Abort;
use std::sync::Wait;

/// How many zeros a log of a test adds at a time.
pub const STEP: usize = 700;

/// A day on the sample, in parts that come once for each number from a first to a last, which is put in the place of `%`: trades,
/// give-ups, sweeps with takes and a cut, claims, refusals, denied ones, a report of another day, a second day.
const DAY: &[(&str, u64, u64)] = &[
    (
        "\
DAY 20260105
LIMIT G1 EXEC E1 400
LIMIT G1 AGR P1 30
LIMIT G1 AGR P2 200
LIMIT G1 ACCT A1 100
LIMIT G1 ACCT A2 100
LIMIT G1 CARRY C1 300
",
        1,
        1,
    ),
    (
        "\
REPORT E1 R% M% B XF6 10 101.5 H1
REPORT E2 S% M% S XF6 10 101.5 H2
GIVEUP E1 L% R% A1 3 A2 2
",
        1,
        16,
    ),
    ("SWEEP G1\n", 1, 1),
    ("CLAIM C1 %\n", 1, 24),
    ("REFUSE C1 % 1\n", 25, 34),
    (
        "\
@20260107 REPORT E1 X1 Y1 B XF6 1 5 H1
DAY 20260106
LIMIT G1 EXEC E1 400
LIMIT G1 AGR P1 30
LIMIT G1 ACCT A1 100
LIMIT G1 CARRY C1 300
",
        1,
        1,
    ),
    (
        "\
REPORT E1 T% N% B XF6 10 99.25 H1
REPORT E2 U% N% S XF6 10 99.25 H2
GIVEUP E1 V% T% A1 7
",
        1,
        16,
    ),
    ("SWEEP G1\nSWEEP G2\n", 1, 1),
    ("REVERSE C1 %\n", 1, 32),
];

/// Returns the lines of the day.
pub fn lines_of_day(alloc: Global) -> Result<String, AllocError> {
    let mut lines = String::new(alloc);
    for &(part, first, last) in DAY {
        for number in first..=last {
            let digits = format!(in alloc; "{number}")?;
            lines.push_str(&part.replace(alloc, "%", &digits)?)?;
        }
    }
    Ok(lines)
}

/// Returns a log on an empty device in memory, retrying once if memory is refused.
pub fn empty_log(alloc: Global) -> Option<Log<Memory>> {
    for _ in 0..2 {
        if let Ok(device) = Memory::new(alloc, Vec::new(alloc)) {
            if let Ok(log) = Log::create(device, STEP) {
                return Some(log);
            }
        }
    }
    None
}

/// Enters what a line says from a seat: a command, or a sweep.
pub fn enter<E: EntryLedger, S: LotLedger, R: Wait>(
    rt: &R,
    alloc: Global,
    desk: &Desk<E, S>,
    seat: &mut Seat<E, S>,
    line: &str,
) -> Option<u64> {
    if let Some(group) = swept_by(alloc, line) {
        let swept = desk.sweep_once(rt, seat, group, &Direct);
        return Some(swept.ok()?.number);
    }
    let receipt = desk.submit(rt, seat, command_of(alloc, line)?);
    Some(receipt.ok()?.number)
}

/// Keeps the entries that have these origins, in as many batches as they need.
pub fn keep_all<E: EntryLedger, S: LotLedger, K: Sink, R: Wait>(
    rt: &R,
    alloc: Global,
    desk: &Desk<E, S>,
    keeper: Keeper<E, K>,
    origins: &[Origin],
) -> Result<Keeper<E, K>, Unkept<Keeper<E, K>, K::Place>> {
    let first = keeper.count();
    let mut keeper = keeper;
    for _ in 0..origins.len() {
        let done = keeper.count().saturating_sub(first);
        let Some(rest @ [_, ..]) = origins.get(done..) else {
            break;
        };
        keeper = keeper.keep(alloc, rt, desk, rest)?;
    }
    Ok(keeper)
}

/// The kept part of a day: a keeper, and how many entries were kept after each batch.
#[derive(Drop)]
pub struct Kept<E: EntryLedger> {
    pub keeper: Keeper<E, Log<Memory>>,
    pub counts: Vec<u64>,
}

/// Enters lines from a seat and keeps them: one, then two, up to a most at a time, and again from one. Returns nothing if a call fails.
pub fn keep_day<E: EntryLedger, S: LotLedger, R: Wait>(
    rt: &R,
    alloc: Global,
    desk: &Desk<E, S>,
    seat: &mut Seat<E, S>,
    keeper: Keeper<E, Log<Memory>>,
    (lines, most): (&str, u64),
) -> Option<Kept<E>> {
    let mut kept = Kept {
        keeper,
        counts: Vec::new(alloc),
    };
    let mut wanted: u64 = 1;
    let mut size: u64 = 1;
    for line in lines.lines() {
        let number = enter(rt, alloc, desk, seat, line)?;
        if number < wanted {
            continue;
        }
        let first = kept.keeper.count() as u64;
        let origins = origins(alloc, first.checked_add(1)?, number).ok()?;
        let Kept { keeper, mut counts } = kept;
        let keeper = keep_all(rt, alloc, desk, keeper, &origins).ok()?;
        counts.push(number).ok()?;
        kept = Kept { keeper, counts };
        size = if size == most {
            1
        } else {
            size.checked_add(1)?
        };
        wanted = number.checked_add(size)?;
    }
    Some(kept)
}
