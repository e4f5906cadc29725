//! Looks, proposals and commits of workers, in every order that the rules name, and sweeps in one go.

use crate::transcript::{Patience, follow_all};

const TRANSCRIPTS: &str = "\
== a lone sweep takes all that is offered
BEHIND an offer
SEE 62 G1        = SEEN 6
LOOK 62          = 6, OFFER 1 7 P1 E1 A1 C1, ROOM EXEC E1 100, ROOM AGR P1 100, ROOM ACCT A1 100, ROOM CARRY C1 100
PROPOSE 62       = PROPOSED 7
COMMIT 62        = 9 SWEPT G1 7, TAKE 1 7, CUT OFFER 1
POSITION H1 XF6  = 0 0
POSITION A1 XF6  = 7 0
LOOK 62          = NONE
SEE 62 G1        = SEEN 7
LOOK 62          = 7
PROPOSE 62       = PROPOSED 0
COMMIT 62        = 10 SWEPT G1 0
== an unknown group and a commit of nothing leave the look
BEHIND an offer
SEE 3 G9                   = UNKNOWN GROUP
COMMIT 3                   = NOTHING
LIMIT G1 EXEC E9 5         = 9 NO 16 UnknownKey
LIMIT G1 EXEC E1 1000000001 = 10 NO 17 TooHigh
SEE 3 G1                   = SEEN 6
SEE 3 G9                   = UNKNOWN GROUP
COMMIT 3                   = NOTHING
PROPOSE 3                  = PROPOSED 7
PROPOSE 3                  = PROPOSED 7
SEE 3 G9                   = UNKNOWN GROUP
SEE 3 G1                   = SEEN 6
COMMIT 3                   = NOTHING
PROPOSE 3                  = PROPOSED 7
COMMIT 3                   = 11 SWEPT G1 7, TAKE 1 7, CUT OFFER 1
== a guarantor bounds a sweep
ROWS GUARANTOR,E2,C1
BEHIND a trade
LIMIT G1 GUAR E2 4    = 8 OK
GIVEUP E1 L1 R1 A1 10 = 9 OK OFFERS 1 1
SEE 62 G1             = SEEN 7
LOOK 62               = 7, OFFER 1 10 P1 E1 A1 C1 E2, ROOM EXEC E1 100, ROOM AGR P1 100, ROOM ACCT A1 100, ROOM CARRY C1 100, ROOM GUAR E2 4
PROPOSE 62            = PROPOSED 4
COMMIT 62             = 10 SWEPT G1 4, TAKE 1 4, CUT GUAR E2
CLAIM C1 1            = 11 NO 15 LimitReached GUAR E2
LIMIT G1 GUAR C2 5    = 12 NO 16 UnknownKey
== takes what oldest first misses, in three steps
BEHIND three offers
SEE 62 G1  = SEEN 11
PROPOSE 62 = PROPOSED 20
COMMIT 62  = 14 SWEPT G1 20, TAKE 2 10, TAKE 3 10, CUT EXEC E1, CUT ACCT A1
== takes what oldest first misses
BEHIND three offers
SWEEP G1             = 14 SWEPT G1 20, TAKE 2 10, TAKE 3 10, CUT EXEC E1, CUT ACCT A1
POSITION H1 XF6      = 12 0
POSITION A1 XF6      = 0 10
POSITION A2 XF6      = 10 0
POSITION H2 XF6      = 0 12
CLAIM C1 1           = 15 NO 15 LimitReached EXEC E1
LIMIT G1 EXEC E1 100 = 16 OK
CLAIM C1 2           = 17 OK LOTS 2
CLAIM C1 3           = 18 NO 15 LimitReached ACCT A1
REFUSE C1 3 1        = 19 OK LOTS 5
REVERSE C1 3         = 20 OK LOTS 10
POSITION H2 XF6      = 0 22
LIMITS G1 = EXEC E1 100 12 88, EXEC E2 20 0 20, AGR P1 100 0 100, AGR P2 100 12 88, AGR P3 100 0 100, ACCT A1 10 0 10, ACCT A2 20 12 8, CARRY C1 100 12 88
== what two offers share is taken once
DAY 20260105                      = 1 OK
LIMIT G1 EXEC E1 100              = 2 OK
LIMIT G1 AGR P1 100               = 3 OK
LIMIT G1 AGR P2 100               = 4 OK
LIMIT G1 ACCT A1 10               = 5 OK
LIMIT G1 ACCT A2 10               = 6 OK
LIMIT G1 CARRY C1 13              = 7 OK
REPORT E1 R1 M1 B XF6 20 101.5 H1 = 8 OK OPEN
REPORT E2 R2 M1 S XF6 20 101.5 H2 = 9 OK MATCHED
GIVEUP E1 L1 R1 A1 10 A2 10       = 10 OK OFFERS 1 2
SEE 62 G1                         = SEEN 8
PROPOSE 62                        = PROPOSED 13
EACH 11 12 1: COMMIT 62           = # SWEPT G1 13
== the oldest offers of an agreement come first
DAY 20260105                      = 1 OK
LIMIT G1 EXEC E1 100              = 2 OK
LIMIT G1 AGR P1 7                 = 3 OK
LIMIT G1 ACCT A1 100              = 4 OK
LIMIT G1 CARRY C1 100             = 5 OK
REPORT E1 R1 M1 B XF6 10 101.5 H1 = 6 OK OPEN
REPORT E2 R2 M1 S XF6 10 101.5 H2 = 7 OK MATCHED
GIVEUP E1 L1 R1 A1 5 A1 5         = 8 OK OFFERS 1 2
SEE 62 G1                         = SEEN 6
PROPOSE 62                        = PROPOSED 7
COMMIT 62                         = 9 SWEPT G1 7, TAKE 1 5, TAKE 2 2, CUT AGR P1
REFUSE C1 2 1                     = 10 OK LOTS 3
REVERSE C1 2                      = 11 OK LOTS 2
== the oldest of an agreement are taken first, and lots that came back are free
BEHIND a trade
LIMIT G1 AGR P1 7         = 8 OK
GIVEUP E1 L1 R1 A1 5 A1 5 = 9 OK OFFERS 1 2
SWEEP G1                  = 10 SWEPT G1 7, TAKE 1 5, TAKE 2 2, CUT AGR P1
REFUSE C1 2 1             = 11 OK LOTS 3
REVERSE C1 2              = 12 OK LOTS 2
GIVEUP E1 L2 R1 A1 6      = 13 NO 11 TooManyLots
GIVEUP E1 L2 R1 A1 5      = 14 OK OFFERS 3 3
== an empty group is swept too
BEHIND a trade
SWEEP G1  = 8 SWEPT G1 0
SWEEP G1  = 9 SWEPT G1 0
SEE 0 G1  = SEEN 7
PROPOSE 0 = PROPOSED 0
SWEEP G1  = 10 SWEPT G1 0
COMMIT 0  = STALE 7 8
== a claim overtakes a proposal
BEHIND a trade
GIVEUP E1 L1 R1 A1 10 = 8 OK OFFERS 1 1
SEE 0 G1              = SEEN 6
PROPOSE 0             = PROPOSED 10
CLAIM C1 1            = 9 OK LOTS 10
LOOK 0                = 6, OFFER 1 10 P1 E1 A1 C1, ROOM EXEC E1 100, ROOM AGR P1 100, ROOM ACCT A1 100, ROOM CARRY C1 100
COMMIT 0              = STALE 6 7
COMMIT 0              = NOTHING
PROPOSE 0             = NOTHING
SEE 62 G1             = SEEN 7
PROPOSE 62            = PROPOSED 0
COMMIT 62             = 10 SWEPT G1 0
== a report does not overtake a proposal
BEHIND a trade
GIVEUP E1 L1 R1 A1 10          = 8 OK OFFERS 1 1
SEE 0 G1                       = SEEN 6
PROPOSE 0                      = PROPOSED 10
REPORT E1 R3 M2 B XF6 1 100 H1 = 9 OK OPEN
COMMIT 0                       = 10 SWEPT G1 10, TAKE 1 10, CUT OFFER 1
== a limit overtakes a proposal
BEHIND a trade
GIVEUP E1 L1 R1 A1 6 = 8 OK OFFERS 1 1
CLAIM C1 1           = 9 OK LOTS 6
GIVEUP E1 L2 R1 A1 4 = 10 OK OFFERS 2 2
SEE 0 G1             = SEEN 8
PROPOSE 0            = PROPOSED 4
LIMIT G1 AGR P1 5    = 11 OK
COMMIT 0             = STALE 8 9
SEE 62 G1            = SEEN 9
LOOK 62              = 9, OFFER 2 4 P1 E1 A1 C1, ROOM EXEC E1 94, ROOM AGR P1 0, ROOM ACCT A1 94, ROOM CARRY C1 94
PROPOSE 62           = PROPOSED 0
COMMIT 62            = 12 SWEPT G1 0, CUT AGR P1
== a day overtakes a proposal
BEHIND a trade
GIVEUP E1 L1 R1 A1 6 = 8 OK OFFERS 1 1
CLAIM C1 1           = 9 OK LOTS 6
GIVEUP E1 L2 R1 A1 4 = 10 OK OFFERS 2 2
SEE 0 G1             = SEEN 8
PROPOSE 0            = PROPOSED 4
DAY 20260106         = 11 OK
COMMIT 0             = STALE 8 9
SEE 62 G1            = SEEN 9
LOOK 62              = 9, OFFER 2 4 P1 E1 A1 C1, ROOM EXEC E1 100, ROOM AGR P1 100, ROOM ACCT A1 100, ROOM CARRY C1 100
PROPOSE 62           = PROPOSED 4
COMMIT 62            = 12 SWEPT G1 4, TAKE 2 4, CUT OFFER 2
DAY 20260106         = 13 NO 2 WrongDay
== a reversal overtakes a proposal
BEHIND a trade
GIVEUP E1 L1 R1 A1 6 = 8 OK OFFERS 1 1
CLAIM C1 1           = 9 OK LOTS 6
GIVEUP E1 L2 R1 A1 4 = 10 OK OFFERS 2 2
SEE 0 G1             = SEEN 8
PROPOSE 0            = PROPOSED 4
REVERSE C1 1         = 11 OK LOTS 6
COMMIT 0             = STALE 8 9
== of two workers at one group the second is stale
BEHIND an offer
SEE 0 G1  = SEEN 6
SEE 1 G1  = SEEN 6
PROPOSE 0 = PROPOSED 7
PROPOSE 1 = PROPOSED 7
COMMIT 0  = 9 SWEPT G1 7, TAKE 1 7, CUT OFFER 1
COMMIT 1  = STALE 6 7
== of two workers at two groups none is stale
BEHIND a trade
GIVEUP E1 L1 R1 A1 10 = 8 OK OFFERS 1 1
SEE 0 G1              = SEEN 6
SEE 1 G2              = SEEN 1
PROPOSE 0             = PROPOSED 10
PROPOSE 1             = PROPOSED 0
COMMIT 0              = 9 SWEPT G1 10, TAKE 1 10, CUT OFFER 1
COMMIT 1              = 10 SWEPT G2 0
== a thousand sweeps are committed
BEHIND three offers
SWEEP G1                 = 14 SWEPT G1 20, TAKE 2 10, TAKE 3 10, CUT EXEC E1, CUT ACCT A1
EACH 15 1014 1: SWEEP G1 = # SWEPT G1 0
POSITION A2 XF6          = 10 0
BOOK                     = 1013 20260105
";

#[test]
fn sweeps_are_told_so(rt: HostRuntime) {
    follow_all(&rt, rt.alloc(), TRANSCRIPTS, Patience::Never);
}
