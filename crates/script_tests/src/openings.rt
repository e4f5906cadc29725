//! Scripts that open a day: the lines of them that do nothing. The outcome of a script has the first 20 of them, and how many there are.

use crate::plays::{Pieces, reference_with};
use crate::rows::check_told;
use gu_script::{RefusedLines, ScriptError, play_opening};
use gu_streams::CountedReads;
use gu_terms::Seed;
use std::alloc::{AllocError, Global};
use trials::{columns, meant};

/// Returns the lines of a script on the sample that do nothing, which comes in pieces of at most this many bytes.
fn refused_of(alloc: Global, script: &str, most: usize) -> Result<RefusedLines, ScriptError> {
    let reference = reference_with(alloc, "")?;
    let script = script.replace(alloc, "/", "\n")?;
    let bytes = script.as_bytes();
    let mut reads = CountedReads::new(Pieces { bytes, most });
    let (world, refused) = play_opening(alloc, reference, Seed::new(0), &mut reads)?;
    drop(world);
    Ok(refused)
}

/// Returns the outcome of a script.
fn told(alloc: Global, script: &str, most: usize) -> Result<String, AllocError> {
    let refused = match refused_of(alloc, script, most) {
        Ok(refused) => refused,
        Err(error) => return format!(in alloc; "{error}"),
    };
    let mut told = String::new(alloc);
    for line in refused.first() {
        told.push_str(&format!(in alloc; "{}: {}/", line.number, line.why)?)?;
    }
    told.push_str(&format!(in alloc; "{}", refused.count())?)?;
    Ok(told)
}

/// Scripts, each with its outcome. Lines that say nothing are counted, a sweep of an unknown group is one line, and questions that
/// are answered by UNKNOWN do nothing wrong.
const ROWS: &str = "\
# nothing is said -> 0
# a day//DAY 20260105/LIMIT G1 EXEC E1 100/ -> 0
LIMIT G1 EXEC E9 5 -> 1: 16 UnknownKey/1
REPORT E1 R1 M1 B XF6 10 101.5 H1/DAY 20260105/#/DAY 20260105/LIMIT G1 ACCT A1 2000000000/LIMIT G1 EXEC E9 5/ -> 1: 1 NoDay/4: 2 WrongDay/5: 17 TooHigh/6: 16 UnknownKey/4
SWEEP G9/SEE 0 G9/POSITION H9 XF6/INTEREST XX/LIMITS G9/PROPOSE 0/COMMIT 0/SWEEP G1/ -> 1: UNKNOWN GROUP/2: UNKNOWN GROUP/2
DAY 20260105/LIMIT G1 EXEC E1 5/LIMIT G1 AGR P1 9/LIMIT G1 ACCT A1 9/LIMIT G1 CARRY C1 9/REPORT E1 R1 M1 B XF6 7 101.5 H1/REPORT E2 R2 M1 S XF6 7 101.5 H2/GIVEUP E1 L1 R1 A1 7/CLAIM C1 1/ -> 9: 15 LimitReached EXEC E1/1
DAY 20260105/(CLAIM C1 %/*1..25) -> (%: 13 UnknownOffer/*2..21)25
DAY 20260105/DAY/LIMIT G1 EXEC E9 5/ -> bad line 2
";

#[test]
fn the_lines_that_do_nothing_are_numbered(rt: HostRuntime) {
    for row in ROWS.lines() {
        let (script, expected) = columns(row);
        let script = meant(rt.alloc(), script).expect(&rt, "memory");
        let expected = meant(rt.alloc(), expected).expect(&rt, "memory");
        for most in [1, 7, 4_096] {
            check_told(&rt, row, told(rt.alloc(), &script, most), &expected);
        }
    }
}

#[test]
fn a_full_book_takes_no_more_lines(rt: HostRuntime) {
    let script = "DAY 20260105/"
        .repeat(rt.alloc(), 1_000_002)
        .expect(&rt, "memory");
    let refused = refused_of(rt.alloc(), &script, 4_096)
        .ok()
        .expect(&rt, "an opening");
    assert_eq!(rt; refused.count(), 1_000_001);
}
