//! Lines that are repeated if memory is refused: in long transcripts, whichever of their allocations fails. What is refused memory
//! says so, leaves all as it was, and succeeds at the second try.

use crate::transcript::{Patience, follow_all};

/// Each allocation fails when a vector or a map is full: after 4, 8, 16, 32, 64 and 128 entries.
const TRANSCRIPTS: &str = "\
== reports and limits
ROWS GUARANTOR,E2,C1; GUARANTOR,E2,C2; GUARANTOR,C1,E1
DAY 20260105                      = 1 OK
DAY 20260105                      = 2 NO 2 WrongDay
REPORT E1 R1 M1 B XF6 10 101.5 H1 = 3 OK OPEN
REPORT E2 R2 M1 S XF6 10 101.5 H2 = 4 OK MATCHED
REPORT E1 R1 M2 B XF6 10 101.5 H1 = 5 NO 6 DuplicateId
REPORT E1 R3 M2 B XF6 5 101.5 H1  = 6 OK OPEN
REPORT E2 R4 M2 S XF6 5 101.5 H2  = 7 OK MATCHED
REPORT E1 R5 M3 B YF6 1 101.5 H1  = 8 OK OPEN
REPORT E2 R6 M3 S YF6 1 101.5 H2  = 9 OK MATCHED
REPORT E1 R7 M4 B YF6 1 101.5 H1  = 10 OK OPEN
LIMIT G1 EXEC E1 100              = 11 OK
LIMIT G1 AGR P1 100               = 12 OK
LIMIT G1 ACCT A1 100              = 13 OK
LIMIT G1 CARRY C1 100             = 14 OK
LIMIT G1 GUAR E2 100              = 15 OK
EACH 16 17 1: DAY 20250101        = # NO 2 WrongDay
LIMIT G1 GUAR E2 90               = 17 OK
EACH 18 33 1: DAY 20250101        = # NO 2 WrongDay
REPORT E1 R8 M5 B YF6 1 101.5 H1  = 33 OK OPEN
EACH 34 65 1: DAY 20250101        = # NO 2 WrongDay
DAY 20260106                      = 65 OK
POSITION H1 XF6                   = 15 0
POSITION H2 YF6                   = 0 1
LIMITS G1 = EXEC E1 100 0 100, AGR P1 100 0 100, ACCT A1 100 0 100, CARRY C1 100 0 100, GUAR E2 90 0 90
== give-ups and what follows
ROWS GUARANTOR,E2,C1; GUARANTOR,E2,C2; GUARANTOR,C1,E1
DAY 20260105                      = 1 OK
REPORT E1 R1 M1 B XF6 30 101.5 H1 = 2 OK OPEN
REPORT E2 R2 M1 S XF6 30 101.5 H2 = 3 OK MATCHED
EACH 4 5 1: DAY 20250101          = # NO 2 WrongDay
GIVEUP E1 L1 R1 A1 6 A2 4         = 5 OK OFFERS 1 2
GIVEUP E2 L1 R2 A3 5              = 6 OK OFFERS 3 3
GIVEUP E1 L2 R1 A1 21             = 7 NO 11 TooManyLots
LIMIT G1 EXEC E1 100              = 8 OK
GIVEUP E1 L2 R1 A1 1 A1 2 A1 3    = 9 OK OFFERS 4 6
LIMIT G1 AGR P1 100               = 10 OK
LIMIT G1 ACCT A1 100              = 11 OK
LIMIT G1 CARRY C1 100             = 12 OK
LIMIT G1 GUAR E2 100              = 13 OK
GIVEUP E1 L3 R1 A2 1              = 14 OK OFFERS 7 7
GIVEUP E1 L4 R1 A2 1              = 15 OK OFFERS 8 8
EACH 16 17 1: DAY 20250101        = # NO 2 WrongDay
GIVEUP E1 L5 R1 A2 1              = 17 OK OFFERS 9 9
VIEW G9                           = UNKNOWN GROUP
CLAIM C1 1                        = 18 OK LOTS 6
POSITION A1 XF6                   = 6 0
EACH 19 33 1: DAY 20250101        = # NO 2 WrongDay
CLAIM C1 4                        = 33 OK LOTS 1
REFUSE C1 5 1                     = 34 OK LOTS 2
EACH 35 65 1: DAY 20250101        = # NO 2 WrongDay
REFUSE C1 6 2                     = 65 OK LOTS 3
REVERSE C1 4                      = 66 OK LOTS 1
EACH 67 129 1: DAY 20250101       = # NO 2 WrongDay
REVERSE C1 1                      = 129 OK LOTS 6
GIVEUP E1 L6 R1 A1 19             = 130 OK OFFERS 10 10
GIVEUP E1 L7 R1 A1 4              = 131 OK OFFERS 11 11
GIVEUP E1 L7 R1 A1 1              = 132 NO 6 DuplicateId
GIVEUP E1 L8 R1 A1 1              = 133 NO 11 TooManyLots
CLAIM C1 10                       = 134 OK LOTS 19
CLAIM C1 3                        = 135 NO 5 NotYours
CLAIM C2 3                        = 136 NO 15 LimitReached EXEC E2
LIMIT G1 AGR P2 100               = 137 OK
LIMIT G1 ACCT A2 100              = 138 OK
LIMIT G1 EXEC E2 100              = 139 OK
LIMIT G1 AGR P4 100               = 140 OK
LIMIT G1 ACCT A3 100              = 141 OK
LIMIT G1 CARRY C2 100             = 142 OK
CLAIM C1 2                        = 143 OK LOTS 4
CLAIM C2 3                        = 144 OK LOTS 5
POSITION H1 XF6                   = 7 0
POSITION H2 XF6                   = 0 25
POSITION A1 XF6                   = 19 0
POSITION A2 XF6                   = 4 0
POSITION A3 XF6                   = 0 5
VIEW G1 = 29, OFFER 7 1 P2 E1 A2 C1 E2, OFFER 8 1 P2 E1 A2 C1 E2, OFFER 9 1 P2 E1 A2 C1 E2, OFFER 11 4 P1 E1 A1 C1 E2, ROOM EXEC E1 77, ROOM AGR P2 96, ROOM ACCT A2 96, ROOM CARRY C1 77, ROOM GUAR E2 72, ROOM AGR P1 81, ROOM ACCT A1 81
LIMITS G1 = EXEC E1 100 23 77, EXEC E2 100 5 95, AGR P1 100 19 81, AGR P2 100 4 96, AGR P4 100 5 95, ACCT A1 100 19 81, ACCT A2 100 4 96, ACCT A3 100 5 95, CARRY C1 100 23 77, CARRY C2 100 5 95, GUAR E2 100 28 72
== nine trades
DAY 20260105   = 1 OK
EACH 1 10 1: REPORT E1 T# T# B XF6 10 101.5 H1 = OK OPEN
EACH 1 10 1: REPORT E2 T# T# S XF6 10 101.5 H2 = OK MATCHED
EACH 1 10 1: REPORT E1 T# V# B XF6 10 101.5 H1 = NO 6 DuplicateId
BOOK            = 28 20260105
POSITION H1 XF6 = 90 0
== eleven limits
ROWS GUARANTOR,E2,C1; GUARANTOR,E2,C2; GUARANTOR,C1,E1
LIMIT G1 EXEC E1 9  = 1 OK
LIMIT G1 EXEC E2 9  = 2 OK
LIMIT G1 AGR P1 9   = 3 OK
LIMIT G1 AGR P2 9   = 4 OK
LIMIT G1 ACCT A1 9  = 5 OK
LIMIT G1 ACCT A2 9  = 6 OK
LIMIT G1 CARRY C1 9 = 7 OK
LIMIT G1 CARRY C2 9 = 8 OK
LIMIT G1 GUAR E2 9  = 9 OK
LIMIT G2 GUAR E2 9  = 10 OK
LIMIT G1 EXEC E1 9  = 11 OK
LIMITS G1 = EXEC E1 9 0 9, EXEC E2 9 0 9, AGR P1 9 0 9, AGR P2 9 0 9, ACCT A1 9 0 9, ACCT A2 9 0 9, CARRY C1 9 0 9, CARRY C2 9 0 9, GUAR E2 9 0 9
LIMITS G2           = GUAR E2 9 0 9
== sixteen lines, and what is taken of them
DAY 20260105                      = 1 OK
REPORT E1 R1 M1 B XF6 40 101.5 H1 = 2 OK OPEN
REPORT E2 R2 M1 S XF6 40 101.5 H2 = 3 OK MATCHED
LIMIT G1 EXEC E1 100              = 4 OK
LIMIT G1 AGR P1 3                 = 5 OK
LIMIT G1 ACCT A1 100              = 6 OK
LIMIT G1 CARRY C1 100             = 7 OK
GIVEUP E1 L1 R1 A1 2 A1 2 A1 2 A1 2 A1 2 A1 2 A1 2 A1 2 A1 2 A1 2 A1 2 A1 2 A1 2 A1 2 A1 2 A1 2 = 8 OK OFFERS 1 16
EXTENT G1                         = 1 16 16 4
SEE 0 G1                          = SEEN 6
PROPOSE 0                         = PROPOSED 3
COMMIT 0                          = 9 SWEPT G1 3, TAKE 1 2, TAKE 2 1, CUT AGR P1
EXTENT G1                         = 2 16 15 4
REFUSE C1 2 1                     = 10 OK LOTS 1
REVERSE C1 2                      = 11 OK LOTS 1
DAY 20260106                      = 12 OK
REVERSE C1 1                      = 13 NO 19 NothingToReverse
GIVEUP E1 L2 R1 A1 11             = 14 NO 11 TooManyLots
GIVEUP E1 L2 R1 A1 10             = 15 OK OFFERS 17 17
== a sweep, and one that it overtakes
DAY 20260105                      = 1 OK
LIMIT G1 EXEC E1 10               = 2 OK
LIMIT G1 EXEC E2 20               = 3 OK
LIMIT G1 AGR P1 100               = 4 OK
LIMIT G1 AGR P2 100               = 5 OK
LIMIT G1 AGR P3 100               = 6 OK
LIMIT G1 ACCT A1 10               = 7 OK
LIMIT G1 ACCT A2 20               = 8 OK
LIMIT G1 CARRY C1 100             = 9 OK
REPORT E1 R1 M1 B XF6 22 101.5 H1 = 10 OK OPEN
REPORT E2 R2 M1 S XF6 22 101.5 H2 = 11 OK MATCHED
GIVEUP E1 L1 R1 A1 10 A2 12       = 12 OK OFFERS 1 2
GIVEUP E2 L2 R2 A1 15             = 13 OK OFFERS 3 3
SEE 0 G1                          = SEEN 11
SEE 1 G1                          = SEEN 11
PROPOSE 0                         = PROPOSED 20
PROPOSE 1                         = PROPOSED 20
COMMIT 0                          = 14 SWEPT G1 20, TAKE 2 10, TAKE 3 10, CUT EXEC E1, CUT ACCT A1
COMMIT 1                          = STALE 11 12
BOOK                              = 14 20260105
NOTICES C1 1 = next 15, 1 OFFERED 10 A1 B XF6, 2 OFFERED 12 A2 B XF6, 3 OFFERED 15 A1 S XF6, 2 CLAIMED 10 A2 B XF6, 3 CLAIMED 10 A1 S XF6
";

#[test]
fn what_is_refused_memory_is_said_again(rt: HostRuntime) {
    follow_all(&rt, rt.alloc(), TRANSCRIPTS, Patience::Once);
}
