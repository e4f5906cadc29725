//! How much of a journal is shown at once.

use crate::transcript::heard_of;
use trials::meant;

/// Six hundred entries.
const ENTRIES: &str = "\
(> CLAIM C1 %
% NO 1 NoDay
.
*1..600)> JOURNAL
(CLAIM C1 %
*1..256).
> JOURNAL
(CLAIM C1 %
*257..512).
? JOURNAL
(CLAIM C1 %
*1..256).
+ CLAIM C1 601
601 NO 1 NoDay
.
> JOURNAL
(CLAIM C1 %
*513..601).
> JOURNAL
.
! the next connection
> JOURNAL
(CLAIM C1 %
*1..256).
";

#[test]
fn at_most_256_entries_are_shown_at_once(rt: HostRuntime) {
    assert_eq!(rt; heard_of(&rt, rt.alloc(), ENTRIES), (601, 601));
}

/// Entries of 352 to 354 bytes, `@` for sixteen pairs of 21: the lines of the first 185 have 65,382 bytes, and a 186th doesn't fit.
const BYTES: &str = "\
(- GIVEUP E1 L% R1@
*1..400)> JOURNAL
(GIVEUP E1 L% R1@
*1..185).
> JOURNAL
(GIVEUP E1 L% R1@
*186..370).
> JOURNAL
(GIVEUP E1 L% R1@
*371..400).
> JOURNAL
.
";

#[test]
fn at_most_65536_bytes_are_shown_at_once(rt: HostRuntime) {
    let alloc = rt.alloc();
    let pairs = meant(alloc, "( AAAAAAAAAAAA 1000000*16)").expect(&rt, "memory");
    let transcript = BYTES.replace(alloc, "@", &pairs).expect(&rt, "memory");
    assert_eq!(rt; heard_of(&rt, rt.alloc(), &transcript), (400, 400));
}

/// A sweep of 4,096 offers, whose takes and cut have more than 65,536 bytes.
const SWEEP: &str = "\
- DAY 20260105
- LIMIT G1 EXEC E1 10000
- LIMIT G1 AGR P1 10000
- LIMIT G1 ACCT A1 10000
- LIMIT G1 CARRY C1 10000
- REPORT E1 R1 M1 B XF6 5000 101.5 H1
- REPORT E2 R2 M1 S XF6 5000 101.5 H2
(- GIVEUP E1 L% R1 A1 1 A1 1 A1 1 A1 1 A1 1 A1 1 A1 1 A1 1 A1 1 A1 1 A1 1 A1 1 A1 1 A1 1 A1 1 A1 1
*1..256)- SWEEP G1
- DAY 20260106
> JOURNAL
DAY 20260105
LIMIT G1 EXEC E1 10000
LIMIT G1 AGR P1 10000
LIMIT G1 ACCT A1 10000
LIMIT G1 CARRY C1 10000
REPORT E1 R1 M1 B XF6 5000 101.5 H1
REPORT E2 R2 M1 S XF6 5000 101.5 H2
(GIVEUP E1 L% R1 A1 1 A1 1 A1 1 A1 1 A1 1 A1 1 A1 1 A1 1 A1 1 A1 1 A1 1 A1 1 A1 1 A1 1 A1 1 A1 1
*1..249).
> JOURNAL
(GIVEUP E1 L% R1 A1 1 A1 1 A1 1 A1 1 A1 1 A1 1 A1 1 A1 1 A1 1 A1 1 A1 1 A1 1 A1 1 A1 1 A1 1 A1 1
*250..256).
> JOURNAL
SWEEP G1
(# TAKE % 1
*1..4096)(# CUT OFFER %
*1..4096).
> JOURNAL
DAY 20260106
.
> JOURNAL
.
";

#[test]
fn an_entry_that_is_longer_is_shown_alone(rt: HostRuntime) {
    assert_eq!(rt; heard_of(&rt, rt.alloc(), SWEEP), (265, 265));
}
