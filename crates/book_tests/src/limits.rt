//! Paths, limits that are set and shown, and lots that are charged and given back.

use crate::transcript::{Patience, follow_all};

const TRANSCRIPTS: &str = "\
== limits stand in the order of the reference
LIMIT G1 CARRY C1 100 = 1 OK
LIMIT G1 ACCT A1 100  = 2 OK
LIMIT G1 AGR P1 100   = 3 OK
LIMIT G1 EXEC E1 100  = 4 OK
LIMITS G1 = EXEC E1 100 0 100, AGR P1 100 0 100, ACCT A1 100 0 100, CARRY C1 100 0 100
LIMITS G2 =
LIMITS G9 =
LIMIT G2 EXEC E2 7    = 5 OK
LIMIT G2 EXEC E1 0    = 6 OK
LIMIT G1 EXEC E1 9    = 7 OK
LIMIT G2 EXEC E2 5    = 8 OK
LIMITS G2 = EXEC E1 0 0 0, EXEC E2 5 0 5
== guarantors are listed last and in the order of the firms
ROWS GUARANTOR,C2,E1; GUARANTOR,E2,C2; GUARANTOR,E2,C1
LIMIT G1 GUAR C2 5  = 1 OK
LIMIT G1 GUAR E2 4  = 2 OK
LIMIT G1 CARRY C2 3 = 3 OK
LIMIT G1 EXEC E2 2  = 4 OK
LIMIT G2 GUAR E2 9  = 5 OK
LIMITS G1 = EXEC E2 2 0 2, CARRY C2 3 0 3, GUAR E2 4 0 4, GUAR C2 5 0 5
LIMITS G2 = GUAR E2 9 0 9
== a path goes from the executing firm to the carrying one
PATH P1 = EXEC E1, AGR P1, ACCT A1, CARRY C1
PATH P2 = EXEC E1, AGR P2, ACCT A2, CARRY C1
PATH P3 = EXEC E2, AGR P3, ACCT A1, CARRY C1
PATH P4 = EXEC E2, AGR P4, ACCT A3, CARRY C2
PATH P9 = NONE
PATH A1 = NONE
== a path ends with the guarantor of the carrying firm
ROWS GUARANTOR,E2,C1
PATH P1 = EXEC E1, AGR P1, ACCT A1, CARRY C1, GUAR E2
PATH P2 = EXEC E1, AGR P2, ACCT A2, CARRY C1, GUAR E2
PATH P3 = EXEC E2, AGR P3, ACCT A1, CARRY C1, GUAR E2
PATH P4 = EXEC E2, AGR P4, ACCT A3, CARRY C2
PATH P9 = NONE
== a path goes no further than one guarantor
ROWS GUARANTOR,E2,C1; GUARANTOR,C1,E2; GUARANTOR,C2,E1
PATH P1 = EXEC E1, AGR P1, ACCT A1, CARRY C1, GUAR E2
PATH P4 = EXEC E2, AGR P4, ACCT A3, CARRY C2
== what is charged counts under each key until the next day
DAY 20260105                     = 1 OK
LIMIT G1 EXEC E1 10              = 2 OK
LIMIT G1 AGR P1 10               = 3 OK
LIMIT G1 ACCT A1 10              = 4 OK
LIMIT G1 CARRY C1 10             = 5 OK
LIMIT G2 EXEC E1 10              = 6 OK
REPORT E1 R1 M1 B XF6 8 101.5 H1 = 7 OK OPEN
REPORT E2 R2 M1 S XF6 8 101.5 H2 = 8 OK MATCHED
GIVEUP E1 L1 R1 A1 4 A1 1 A1 3   = 9 OK OFFERS 1 3
CLAIM C1 1                       = 10 OK LOTS 4
LIMITS G1 = EXEC E1 10 4 6, AGR P1 10 4 6, ACCT A1 10 4 6, CARRY C1 10 4 6
LIMIT G1 AGR P1 3                = 11 OK
LIMITS G1 = EXEC E1 10 4 6, AGR P1 3 4 0, ACCT A1 10 4 6, CARRY C1 10 4 6
CLAIM C1 2                       = 12 NO 15 LimitReached AGR P1
DAY 20260106                     = 13 OK
LIMITS G1 = EXEC E1 10 0 10, AGR P1 3 0 3, ACCT A1 10 0 10, CARRY C1 10 0 10
CLAIM C1 3                       = 14 OK LOTS 3
LIMITS G1 = EXEC E1 10 3 7, AGR P1 3 3 0, ACCT A1 10 3 7, CARRY C1 10 3 7
LIMITS G2                        = EXEC E1 10 0 10
== a limit holds in its group and up to its most
LIMIT G1 EXEC E1 1000000001 = 1 NO 17 TooHigh
LIMITS G1                   =
LIMIT G1 EXEC E1 1000000000 = 2 OK
LIMIT G2 CARRY E1 0         = 3 OK
LIMITS G1 = EXEC E1 1000000000 0 1000000000
LIMITS G2                   = CARRY E1 0 0 0
== lots are given back under all five keys
ROWS GUARANTOR,E2,C1
DAY 20260105                     = 1 OK
LIMIT G1 EXEC E1 9               = 2 OK
LIMIT G1 AGR P1 9                = 3 OK
LIMIT G1 ACCT A1 9               = 4 OK
LIMIT G1 CARRY C1 9              = 5 OK
REPORT E1 R1 M1 B XF6 9 101.5 H1 = 6 OK OPEN
REPORT E2 R2 M1 S XF6 9 101.5 H2 = 7 OK MATCHED
GIVEUP E1 L1 R1 A1 5 A1 3 A1 1   = 8 OK OFFERS 1 3
CLAIM C1 3                       = 9 NO 15 LimitReached GUAR E2
LIMIT G1 GUAR E2 8               = 10 OK
CLAIM C1 1                       = 11 OK LOTS 5
CLAIM C1 2                       = 12 OK LOTS 3
LIMITS G1 = EXEC E1 9 8 1, AGR P1 9 8 1, ACCT A1 9 8 1, CARRY C1 9 8 1, GUAR E2 8 8 0
REVERSE C1 1                     = 13 OK LOTS 5
LIMITS G1 = EXEC E1 9 3 6, AGR P1 9 3 6, ACCT A1 9 3 6, CARRY C1 9 3 6, GUAR E2 8 3 5
DAY 20260106                     = 14 OK
REVERSE C1 2                     = 15 NO 19 NothingToReverse
LIMITS G1 = EXEC E1 9 0 9, AGR P1 9 0 9, ACCT A1 9 0 9, CARRY C1 9 0 9, GUAR E2 8 0 8
";

#[test]
fn paths_and_limits_are_told_so(rt: HostRuntime) {
    follow_all(&rt, rt.alloc(), TRANSCRIPTS, Patience::Never);
}
