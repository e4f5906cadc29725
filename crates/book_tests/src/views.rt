//! Views of groups: versions, what is left of open offers, and the rooms of their keys.

use crate::transcript::{Patience, follow_all};

const TRANSCRIPTS: &str = "\
== shows what is left and the rooms of today
BEHIND a trade
GIVEUP E1 L1 R1 A1 6 = 8 OK OFFERS 1 1
VIEW G1 = 6, OFFER 1 6 P1 E1 A1 C1, ROOM EXEC E1 100, ROOM AGR P1 100, ROOM ACCT A1 100, ROOM CARRY C1 100
CLAIM C1 1           = 9 OK LOTS 6
VIEW G1              = 7
GIVEUP E1 L2 R1 A1 4 = 10 OK OFFERS 2 2
VIEW G1 = 8, OFFER 2 4 P1 E1 A1 C1, ROOM EXEC E1 94, ROOM AGR P1 94, ROOM ACCT A1 94, ROOM CARRY C1 94
LIMIT G1 AGR P1 5    = 11 OK
VIEW G1 = 9, OFFER 2 4 P1 E1 A1 C1, ROOM EXEC E1 94, ROOM AGR P1 0, ROOM ACCT A1 94, ROOM CARRY C1 94
DAY 20260106         = 12 OK
VIEW G1 = 10, OFFER 2 4 P1 E1 A1 C1, ROOM EXEC E1 100, ROOM AGR P1 5, ROOM ACCT A1 100, ROOM CARRY C1 100
REVERSE C1 1         = 13 NO 19 NothingToReverse
REFUSE C1 2 1        = 14 OK LOTS 4
VIEW G1              = 11
== rooms stand in the order of first mention
DAY 20260105                      = 1 OK
LIMIT G1 EXEC E1 10               = 2 OK
LIMIT G1 EXEC E2 20               = 3 OK
LIMIT G1 AGR P1 100               = 4 OK
LIMIT G1 AGR P2 100               = 5 OK
LIMIT G1 AGR P3 100               = 6 OK
LIMIT G1 ACCT A1 10               = 7 OK
LIMIT G1 ACCT A2 20               = 8 OK
LIMIT G1 CARRY C1 100             = 9 OK
REPORT E1 R1 M1 B XF6 22 101.5 H1 = 10 OK OPEN
REPORT E2 R2 M1 S XF6 22 101.5 H2 = 11 OK MATCHED
GIVEUP E1 L1 R1 A1 10 A2 12       = 12 OK OFFERS 1 2
GIVEUP E2 L2 R2 A1 15             = 13 OK OFFERS 3 3
VIEW G1 = 11, OFFER 1 10 P1 E1 A1 C1, OFFER 2 12 P2 E1 A2 C1, OFFER 3 15 P3 E2 A1 C1, ROOM EXEC E1 10, ROOM AGR P1 100, ROOM ACCT A1 10, ROOM CARRY C1 100, ROOM AGR P2 100, ROOM ACCT A2 20, ROOM EXEC E2 20, ROOM AGR P3 100
== a version counts what touches its group
VIEW G1                           = 0
VIEW G9                           = UNKNOWN GROUP
DAY 20260105                      = 1 OK
VIEW G1                           = 1
VIEW G2                           = 1
VIEW G9                           = UNKNOWN GROUP
DAY 20260105                      = 2 NO 2 WrongDay
VIEW G1                           = 1
LIMIT G1 EXEC E1 100              = 3 OK
LIMIT G1 EXEC E1 100              = 4 OK
LIMIT G9 EXEC E1 100              = 5 NO 16 UnknownKey
LIMIT G1 EXEC E9 100              = 6 NO 16 UnknownKey
LIMIT G2 EXEC E1 0                = 7 OK
VIEW G1                           = 3
VIEW G2                           = 2
REPORT E1 R1 M1 B XF6 10 101.5 H1 = 8 OK OPEN
REPORT E2 R2 M1 S XF6 10 101.5 H2 = 9 OK MATCHED
VIEW G1                           = 3
GIVEUP E1 L1 R1 A1 20             = 10 NO 11 TooManyLots
GIVEUP E1 L1 R1 A1 6 A1 4         = 11 OK OFFERS 1 2
VIEW G1 = 4, OFFER 1 6 P1 E1 A1 C1, OFFER 2 4 P1 E1 A1 C1, ROOM EXEC E1 100, ROOM AGR P1 0, ROOM ACCT A1 0, ROOM CARRY C1 0
CLAIM C1 1                        = 12 NO 15 LimitReached AGR P1
REFUSE C2 1 1                     = 13 NO 5 NotYours
VIEW G1 = 4, OFFER 1 6 P1 E1 A1 C1, OFFER 2 4 P1 E1 A1 C1, ROOM EXEC E1 100, ROOM AGR P1 0, ROOM ACCT A1 0, ROOM CARRY C1 0
LIMIT G1 AGR P1 10                = 14 OK
LIMIT G1 ACCT A1 10               = 15 OK
LIMIT G1 CARRY C1 10              = 16 OK
CLAIM C1 1                        = 17 OK LOTS 6
VIEW G1 = 8, OFFER 2 4 P1 E1 A1 C1, ROOM EXEC E1 94, ROOM AGR P1 4, ROOM ACCT A1 4, ROOM CARRY C1 4
REVERSE C1 1                      = 18 OK LOTS 6
VIEW G1 = 9, OFFER 2 4 P1 E1 A1 C1, ROOM EXEC E1 100, ROOM AGR P1 10, ROOM ACCT A1 10, ROOM CARRY C1 10
REFUSE C1 2 1                     = 19 OK LOTS 4
VIEW G1                           = 10
VIEW G2                           = 2
DAY 20260107                      = 20 OK
VIEW G1                           = 11
VIEW G2                           = 3
== a guarantor is the last of a path
ROWS GUARANTOR,E2,C1
BEHIND a trade
LIMIT G1 GUAR E2 7      = 8 OK
GIVEUP E2 L1 R2 A3 5    = 9 OK OFFERS 1 1
GIVEUP E1 L1 R1 A1 6    = 10 OK OFFERS 2 2
VIEW G1 = 8, OFFER 1 5 P4 E2 A3 C2, OFFER 2 6 P1 E1 A1 C1 E2, ROOM EXEC E2 0, ROOM AGR P4 0, ROOM ACCT A3 0, ROOM CARRY C2 0, ROOM EXEC E1 100, ROOM AGR P1 100, ROOM ACCT A1 100, ROOM CARRY C1 100, ROOM GUAR E2 7
== three groups have views of their own
ROWS GROUP,G3; INSTRUMENT,ZF6,G3
DAY 20260105                      = 1 OK
REPORT E1 R1 M1 B XF6 10 101.5 H1 = 2 OK OPEN
REPORT E2 R2 M1 S XF6 10 101.5 H2 = 3 OK MATCHED
REPORT E1 R3 M2 B YF6 10 101.5 H1 = 4 OK OPEN
REPORT E2 R4 M2 S YF6 10 101.5 H2 = 5 OK MATCHED
REPORT E1 R5 M3 B ZF6 10 101.5 H1 = 6 OK OPEN
REPORT E2 R6 M3 S ZF6 10 101.5 H2 = 7 OK MATCHED
GIVEUP E1 L1 R1 A1 1              = 8 OK OFFERS 1 1
GIVEUP E1 L2 R3 A1 2              = 9 OK OFFERS 2 2
GIVEUP E1 L3 R5 A1 3              = 10 OK OFFERS 3 3
LIMIT G3 AGR P1 7                 = 11 OK
VIEW G1 = 2, OFFER 1 1 P1 E1 A1 C1, ROOM EXEC E1 0, ROOM AGR P1 0, ROOM ACCT A1 0, ROOM CARRY C1 0
VIEW G2 = 2, OFFER 2 2 P1 E1 A1 C1, ROOM EXEC E1 0, ROOM AGR P1 0, ROOM ACCT A1 0, ROOM CARRY C1 0
VIEW G3 = 3, OFFER 3 3 P1 E1 A1 C1, ROOM EXEC E1 0, ROOM AGR P1 7, ROOM ACCT A1 0, ROOM CARRY C1 0
EACH 0 3000 1: VIEW G1; VIEW G2; VIEW G3 = P1 E1 A1 C1
";

#[test]
fn views_are_told_so(rt: HostRuntime) {
    follow_all(&rt, rt.alloc(), TRANSCRIPTS, Patience::Never);
}
