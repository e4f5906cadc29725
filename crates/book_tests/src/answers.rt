//! Replies of the book to openings, limits and reports, and the positions after them.

use crate::transcript::{Patience, follow_all};

const TRANSCRIPTS: &str = "\
== two sides that agree are a trade
DAY 20260105                               = 1 OK
REPORT E1 R1 M1 B XF6 10 101.5 H1          = 2 OK OPEN
POSITION H1 XF6                            = 0 0
REPORT E2 R2 M1 S XF6 10 101.6 H2          = 3 NO 7 MatchConflict
20260105 REPORT E2 R2 M1 S XF6 10 101.50 H2 = 4 OK MATCHED
REPORT E2 R3 M1 S XF6 10 101.5 H2          = 5 NO 7 MatchConflict
REPORT E1 R1 M2 B XF6 10 101.5 H1          = 6 NO 6 DuplicateId
REPORT E1 R4 M4 B XF6 3 101.5 H1           = 7 OK OPEN
POSITION H1 XF6                            = 10 0
POSITION H2 XF6                            = 0 10
POSITION H1 YF6                            = 0 0
== the first refusal that stands is given
REPORT E1 R1 M1 B ZF6 10 101.5 H9          = 1 NO 1 NoDay
DAY 20260105                               = 2 OK
REPORT E1 R1 M1 B XF6 10 101.5 H1          = 3 OK OPEN
20260106 REPORT E1 R1 M1 B ZF6 10 101.5 H9 = 4 NO 2 WrongDay
REPORT E1 R1 M1 B ZF6 10 101.5 H9          = 5 NO 3 UnknownInstrument
REPORT E1 R1 M1 B XF6 10 101.5 H9          = 6 NO 4 UnknownAccount
REPORT E1 R1 M1 B XF6 10 101.5 H2          = 7 NO 5 NotYours
REPORT E1 R1 M1 B XF6 10 101.5 H1          = 8 NO 6 DuplicateId
REPORT E1 R2 M1 B XF6 10 101.5 H1          = 9 NO 7 MatchConflict
REPORT E2 R1 M1 S XF6 11 101.5 H2          = 10 NO 7 MatchConflict
REPORT X1 R9 M9 B XF6 10 101.5 H1          = 11 NO 5 NotYours
REPORT E1 R2 M1 S XF6 10 101.5 H1          = 12 OK MATCHED
POSITION H1 XF6                            = 10 10
== a side waits for its other on its own day alone
20260105 REPORT E1 R1 M1 B XF6 10 101.5 H1 = 1 NO 1 NoDay
DAY 20260105                               = 2 OK
REPORT E1 R1 M1 B XF6 10 101.5 H1          = 3 OK OPEN
DAY 20260106                               = 4 OK
REPORT E2 R2 M1 S XF6 10 101.5 H2          = 5 NO 7 MatchConflict
20260105 REPORT E2 R2 M1 S XF6 10 101.5 H2 = 6 NO 2 WrongDay
REPORT E1 R1 M2 B XF6 10 101.5 H1          = 7 NO 6 DuplicateId
20260106 REPORT E2 R2 M2 S XF6 10 101.5 H2 = 8 OK OPEN
POSITION H1 XF6                            = 0 0
POSITION H2 XF6                            = 0 0
== a limit is refused for its key before its height
LIMIT G1 EXEC E9 5          = 1 NO 16 UnknownKey
LIMIT G1 AGR P9 5           = 2 NO 16 UnknownKey
LIMIT G1 ACCT A9 5          = 3 NO 16 UnknownKey
LIMIT G1 CARRY C9 5         = 4 NO 16 UnknownKey
LIMIT G9 EXEC E1 5          = 5 NO 16 UnknownKey
LIMIT G9 EXEC E1 1000000001 = 6 NO 16 UnknownKey
LIMIT G1 EXEC E9 1000000001 = 7 NO 16 UnknownKey
LIMIT G1 EXEC E1 1000000001 = 8 NO 17 TooHigh
LIMIT G1 EXEC E1 1000000000 = 9 OK
LIMIT G1 EXEC E1 0          = 10 OK
LIMIT G1 EXEC E1 0          = 11 OK
LIMIT G1 CARRY E1 5         = 12 OK
LIMIT G1 GUAR E2 4          = 13 NO 16 UnknownKey
LIMITS G1                   = EXEC E1 0 0 0, CARRY E1 5 0 5
LIMITS G9                   =
== a guarantor has a limit where it guarantees a firm
ROWS GUARANTOR,E2,C1
LIMIT G1 GUAR E2 4          = 1 OK
LIMIT G1 GUAR C2 5          = 2 NO 16 UnknownKey
LIMIT G1 GUAR C1 5          = 3 NO 16 UnknownKey
LIMIT G1 GUAR E9 5          = 4 NO 16 UnknownKey
LIMIT G9 GUAR E2 4          = 5 NO 16 UnknownKey
LIMIT G1 GUAR E2 1000000001 = 6 NO 17 TooHigh
LIMIT G2 GUAR E2 0          = 7 OK
== a day opens once and only later ones behind it
DAY 20260105 = 1 OK
DAY 20260105 = 2 NO 2 WrongDay
DAY 20251231 = 3 NO 2 WrongDay
DAY 20260201 = 4 OK
DAY 20260131 = 5 NO 2 WrongDay
== a report conflicts unless it is the other side
DAY 20260105                       = 1 OK
REPORT E1 R1 M1 B XF6 10 101.5 H1  = 2 OK OPEN
REPORT E2 R2 M1 S YF6 10 101.5 H2  = 3 NO 7 MatchConflict
REPORT E2 R2 M1 S XF6 11 101.5 H2  = 4 NO 7 MatchConflict
REPORT E2 R2 M1 S XF6 10 101.6 H2  = 5 NO 7 MatchConflict
REPORT E2 R2 M1 B XF6 10 101.5 H2  = 6 NO 7 MatchConflict
REPORT E2 R2 M1 S XF6 10 101.5 H2  = 7 OK MATCHED
REPORT E1 R3 M2 B XF6 10 101.5 H1  = 8 OK OPEN
REPORT E2 R4 M2 S XF6 10 101.50 H2 = 9 OK MATCHED
REPORT E1 R5 M3 B XF6 10 101.5 H1  = 10 OK OPEN
REPORT E1 R6 M3 S XF6 10 101.5 H1  = 11 OK MATCHED
REPORT E1 R7 M4 B XF6 10 101.5 H1  = 12 OK OPEN
DAY 20260106                       = 13 OK
REPORT E2 R8 M4 S XF6 10 101.5 H2  = 14 NO 7 MatchConflict
";

#[test]
fn openings_limits_and_reports_are_answered_so(rt: HostRuntime) {
    follow_all(&rt, rt.alloc(), TRANSCRIPTS, Patience::Never);
}
