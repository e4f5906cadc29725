//! How much a connection writes at once: at most 65,536 bytes and the answer to one message, or one stretch of notices.

use crate::books::book_after;
use crate::exchanges::longest_write;
use gu_houses::OverBook;
use std::alloc::Global;
use std::process::Abort;
use trials::{Talk, meant};

/// Asserts that what a firm's connection to a book after a script writes in all is at least so long, and what it writes at once at most so
/// long.
fn check(
    rt: &impl Abort,
    alloc: Global,
    script: &str,
    firm: &str,
    lines: &str,
    bounds: (usize, usize),
) {
    let (least, most) = bounds;
    let script = meant(alloc, script).expect(rt, "memory");
    let mut house = OverBook::new(book_after(alloc, &script).expect(rt, "a book"));
    let talk = Talk::of(alloc, firm, lines).expect(rt, "memory");
    let (longest, all) = longest_write(&mut house, alloc, firm, &talk).expect(rt, "memory");
    drop(house);
    assert!(rt; least <= all);
    assert!(rt; longest <= most);
}

/// 4,200 refused reports, and in one read three requests for all that was sent, each of which is answered by 620,028 bytes. The other
/// answers are 500,780 bytes.
const RESENDS: &str = "\
in A 1 98=0|108=0|1137=9|
(in AE % 571=R%|880=M%|55=XF6|32=10|31=101.5|552=1|54=1|1=H1|
*2..4201)in 2 4202 7=1|16=0|
and 2 4203 7=1|16=0|
and 2 4204 7=1|16=0|";

#[test]
fn three_resends_of_one_read_are_not_held_together(rt: HostRuntime) {
    check(&rt, rt.alloc(), "", "E1", RESENDS, (2_360_864, 685_564));
}

/// 200 give-ups of sixteen lots each and the claims of them report C1 6,400 notices of some 170 bytes.
const CLAIMS: &str = "\
DAY 20260105/LIMIT G1 EXEC E1 100000/LIMIT G1 AGR P1 100000/LIMIT G1 ACCT A1 100000/LIMIT G1 CARRY C1 100000/REPORT E1 R1 M1 B XF6 10000 101.5 H1/REPORT E2 R2 M1 S XF6 10000 101.5 H2/(GIVEUP E1 L% R1 A1 1 A1 1 A1 1 A1 1 A1 1 A1 1 A1 1 A1 1 A1 1 A1 1 A1 1 A1 1 A1 1 A1 1 A1 1 A1 1/*1..200)(CLAIM C1 %/*1..3200)";

#[test]
fn the_notices_after_a_logon_are_not_held_together(rt: HostRuntime) {
    check(
        &rt,
        rt.alloc(),
        CLAIMS,
        "C1",
        "in A 1 98=0|108=0|1137=9|",
        (1_000_000, 420_000),
    );
}
