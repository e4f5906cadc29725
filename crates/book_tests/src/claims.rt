//! Claims and refusals: which offers are taken up, under which limits.

use crate::transcript::{Patience, follow_all};

const TRANSCRIPTS: &str = "\
== lots move when they are claimed
BEHIND a trade
GIVEUP E1 L1 R1 A1 10 = 8 OK OFFERS 1 1
POSITION H1 XF6       = 10 0
POSITION A1 XF6       = 0 0
LIMITS G1             = EXEC E1 100 0 100, AGR P1 100 0 100, ACCT A1 100 0 100, CARRY C1 100 0 100
CLAIM C1 1            = 9 OK LOTS 10
POSITION H1 XF6       = 0 0
POSITION A1 XF6       = 10 0
POSITION H2 XF6       = 0 10
LIMITS G1             = EXEC E1 100 10 90, AGR P1 100 10 90, ACCT A1 100 10 90, CARRY C1 100 10 90
LIMITS G2             =
== the first key without room is named
CLAIM C1 1                        = 1 NO 1 NoDay
DAY 20260105                      = 2 OK
LIMIT G1 EXEC E1 100              = 3 OK
LIMIT G1 AGR P1 100               = 4 OK
LIMIT G1 ACCT A1 7                = 5 OK
LIMIT G1 CARRY C1 3               = 6 OK
REPORT E1 R1 M1 B XF6 10 101.5 H1 = 7 OK OPEN
REPORT E2 R2 M1 S XF6 10 101.5 H2 = 8 OK MATCHED
GIVEUP E1 L1 R1 A1 8              = 9 OK OFFERS 1 1
CLAIM C1 1                        = 10 NO 15 LimitReached ACCT A1
LIMIT G1 ACCT A1 100              = 11 OK
CLAIM C1 1                        = 12 NO 15 LimitReached CARRY C1
LIMIT G1 CARRY C1 100             = 13 OK
CLAIM C1 1                        = 14 OK LOTS 8
CLAIM C1 1                        = 15 NO 14 OfferClosed
CLAIM C2 1                        = 16 NO 5 NotYours
CLAIM C1 9                        = 17 NO 13 UnknownOffer
== a limit that was never set has no room and equal room is enough
ROWS GUARANTOR,E2,C1
DAY 20260105                      = 1 OK
REPORT E1 R1 M1 B XF6 10 101.5 H1 = 2 OK OPEN
REPORT E2 R2 M1 S XF6 10 101.5 H2 = 3 OK MATCHED
GIVEUP E1 L1 R1 A1 8              = 4 OK OFFERS 1 1
CLAIM C1 1                        = 5 NO 15 LimitReached EXEC E1
LIMIT G1 EXEC E1 7                = 6 OK
CLAIM C1 1                        = 7 NO 15 LimitReached EXEC E1
LIMIT G1 EXEC E1 8                = 8 OK
CLAIM C1 1                        = 9 NO 15 LimitReached AGR P1
LIMIT G2 AGR P1 100               = 10 OK
CLAIM C1 1                        = 11 NO 15 LimitReached AGR P1
LIMIT G1 AGR P1 8                 = 12 OK
CLAIM C1 1                        = 13 NO 15 LimitReached ACCT A1
LIMIT G1 ACCT A1 8                = 14 OK
CLAIM C1 1                        = 15 NO 15 LimitReached CARRY C1
LIMIT G1 CARRY C1 8               = 16 OK
CLAIM C1 1                        = 17 NO 15 LimitReached GUAR E2
LIMIT G1 GUAR E2 8                = 18 OK
CLAIM C1 1                        = 19 OK LOTS 8
LIMITS G1 = EXEC E1 8 8 0, AGR P1 8 8 0, ACCT A1 8 8 0, CARRY C1 8 8 0, GUAR E2 8 8 0
LIMITS G2 = AGR P1 100 0 100
== claims use up the rooms of the day
DAY 20260105                      = 1 OK
LIMIT G1 EXEC E1 100              = 2 OK
LIMIT G1 AGR P1 10                = 3 OK
LIMIT G1 AGR P2 100               = 4 OK
LIMIT G1 ACCT A1 100              = 5 OK
LIMIT G1 ACCT A2 100              = 6 OK
LIMIT G1 CARRY C1 12              = 7 OK
REPORT E1 R1 M1 B XF6 20 101.5 H1 = 8 OK OPEN
REPORT E2 R2 M1 S XF6 20 101.5 H2 = 9 OK MATCHED
GIVEUP E1 L1 R1 A1 6 A1 5 A2 6 A2 1 = 10 OK OFFERS 1 4
CLAIM C1 1                        = 11 OK LOTS 6
CLAIM C1 2                        = 12 NO 15 LimitReached AGR P1
CLAIM C1 3                        = 13 OK LOTS 6
CLAIM C1 4                        = 14 NO 15 LimitReached CARRY C1
LIMITS G1 = EXEC E1 100 12 88, AGR P1 10 6 4, AGR P2 100 6 94, ACCT A1 100 6 94, ACCT A2 100 6 94, CARRY C1 12 12 0
LIMIT G1 CARRY C1 5               = 15 OK
LIMITS G1 = EXEC E1 100 12 88, AGR P1 10 6 4, AGR P2 100 6 94, ACCT A1 100 6 94, ACCT A2 100 6 94, CARRY C1 5 12 0
DAY 20260106                      = 16 OK
LIMITS G1 = EXEC E1 100 0 100, AGR P1 10 0 10, AGR P2 100 0 100, ACCT A1 100 0 100, ACCT A2 100 0 100, CARRY C1 5 0 5
CLAIM C1 4                        = 17 OK LOTS 1
LIMITS G1 = EXEC E1 100 1 99, AGR P1 10 0 10, AGR P2 100 1 99, ACCT A1 100 0 100, ACCT A2 100 1 99, CARRY C1 5 1 4
CLAIM C1 2                        = 18 NO 15 LimitReached CARRY C1
DAY 20260107                      = 19 OK
CLAIM C1 2                        = 20 OK LOTS 5
POSITION H1 XF6                   = 2 0
POSITION A1 XF6                   = 11 0
POSITION A2 XF6                   = 7 0
== a limit holds in its own group
BEHIND a trade
REPORT E1 R3 M3 B YF6 10 99 H1 = 8 OK OPEN
REPORT E2 R4 M3 S YF6 10 99 H2 = 9 OK MATCHED
GIVEUP E1 L1 R3 A1 10          = 10 OK OFFERS 1 1
GIVEUP E1 L2 R1 A1 10          = 11 OK OFFERS 2 2
CLAIM C1 1                     = 12 NO 15 LimitReached EXEC E1
LIMIT G2 EXEC E1 10            = 13 OK
LIMIT G2 AGR P1 10             = 14 OK
LIMIT G2 ACCT A1 10            = 15 OK
LIMIT G2 CARRY C1 10           = 16 OK
CLAIM C1 1                     = 17 OK LOTS 10
CLAIM C1 2                     = 18 OK LOTS 10
LIMITS G1 = EXEC E1 100 10 90, AGR P1 100 10 90, ACCT A1 100 10 90, CARRY C1 100 10 90
LIMITS G2 = EXEC E1 10 10 0, AGR P1 10 10 0, ACCT A1 10 10 0, CARRY C1 10 10 0
POSITION A1 XF6                = 10 0
POSITION A1 YF6                = 10 0
== the first refusal of a claim or a refusal is given
CLAIM C2 9                        = 1 NO 1 NoDay
REFUSE C2 9 1                     = 2 NO 1 NoDay
DAY 20260105                      = 3 OK
CLAIM C2 9                        = 4 NO 13 UnknownOffer
REFUSE X1 9 1                     = 5 NO 13 UnknownOffer
REPORT E1 R1 M1 B XF6 10 101.5 H1 = 6 OK OPEN
REPORT E2 R2 M1 S XF6 10 101.5 H2 = 7 OK MATCHED
GIVEUP E1 L1 R1 A1 6 A2 4         = 8 OK OFFERS 1 2
CLAIM C2 1                        = 9 NO 5 NotYours
CLAIM E1 1                        = 10 NO 5 NotYours
REFUSE X1 1 1                     = 11 NO 5 NotYours
REFUSE C1 3 1                     = 12 NO 13 UnknownOffer
REFUSE C1 1 5                     = 13 OK LOTS 6
REFUSE C1 1 5                     = 14 NO 14 OfferClosed
REFUSE C2 1 5                     = 15 NO 5 NotYours
CLAIM C1 1                        = 16 NO 14 OfferClosed
CLAIM C1 2                        = 17 NO 15 LimitReached EXEC E1
REFUSE C1 2 2                     = 18 OK LOTS 4
POSITION H1 XF6                   = 10 0
POSITION A1 XF6                   = 0 0
== offers outlive the day
BEHIND a trade
LIMIT G1 EXEC E2 100      = 8 OK
LIMIT G1 AGR P3 100       = 9 OK
GIVEUP E1 L1 R1 A1 6 A1 4 = 10 OK OFFERS 1 2
GIVEUP E2 L1 R2 A1 7      = 11 OK OFFERS 3 3
DAY 20260106              = 12 OK
REFUSE C1 2 1             = 13 OK LOTS 4
CLAIM C1 3                = 14 OK LOTS 7
DAY 20260107              = 15 OK
CLAIM C1 1                = 16 OK LOTS 6
CLAIM C1 2                = 17 NO 14 OfferClosed
POSITION H1 XF6           = 4 0
POSITION H2 XF6           = 0 3
POSITION A1 XF6           = 6 7
LIMITS G1 = EXEC E1 100 6 94, EXEC E2 100 0 100, AGR P1 100 6 94, AGR P3 100 0 100, ACCT A1 100 6 94, CARRY C1 100 6 94
== a guarantors limit stands last
ROWS GUARANTOR,E2,C1
BEHIND a trade
GIVEUP E1 L1 R1 A1 10 = 8 OK OFFERS 1 1
CLAIM C1 1            = 9 NO 15 LimitReached GUAR E2
LIMIT G1 GUAR E2 4    = 10 OK
CLAIM C1 1            = 11 NO 15 LimitReached GUAR E2
LIMIT G1 GUAR C2 5    = 12 NO 16 UnknownKey
LIMIT G1 GUAR E2 10   = 13 OK
CLAIM C1 1            = 14 OK LOTS 10
LIMITS G1 = EXEC E1 100 10 90, AGR P1 100 10 90, ACCT A1 100 10 90, CARRY C1 100 10 90, GUAR E2 10 10 0
== a firm that executes carries and guarantees has three limits
ROWS AGREEMENT,P5,E1,H2; GUARANTOR,E2,C1; GUARANTOR,C2,E2
BEHIND a trade
LIMIT G1 EXEC E2 4    = 8 OK
LIMIT G1 CARRY E2 5   = 9 OK
LIMIT G1 GUAR E2 6    = 10 OK
LIMIT G1 GUAR C2 7    = 11 OK
LIMIT G1 AGR P3 9     = 12 OK
LIMIT G1 AGR P5 9     = 13 OK
LIMIT G1 ACCT H2 9    = 14 OK
GIVEUP E2 L1 R2 A1 3  = 15 OK OFFERS 1 1
GIVEUP E1 L1 R1 H2 5  = 16 OK OFFERS 2 2
GIVEUP E1 L2 R1 A1 4  = 17 OK OFFERS 3 3
CLAIM C1 1            = 18 OK LOTS 3
CLAIM E2 2            = 19 OK LOTS 5
CLAIM C1 3            = 20 NO 15 LimitReached GUAR E2
LIMITS G1 = EXEC E1 100 5 95, EXEC E2 4 3 1, AGR P1 100 0 100, AGR P3 9 3 6, AGR P5 9 5 4, ACCT H2 9 5 4, ACCT A1 100 3 97, CARRY E2 5 5 0, CARRY C1 100 3 97, GUAR E2 6 3 3, GUAR C2 7 5 2
POSITION H1 XF6       = 5 0
POSITION H2 XF6       = 5 7
POSITION A1 XF6       = 0 3
== two carrying firms share their guarantors limit
ROWS GUARANTOR,E2,C1; GUARANTOR,E2,C2
BEHIND a trade
LIMIT G1 EXEC E2 100  = 8 OK
LIMIT G1 AGR P4 100   = 9 OK
LIMIT G1 ACCT A3 100  = 10 OK
LIMIT G1 CARRY C2 100 = 11 OK
LIMIT G1 GUAR E2 10   = 12 OK
GIVEUP E1 L1 R1 A1 6  = 13 OK OFFERS 1 1
GIVEUP E2 L1 R2 A3 5  = 14 OK OFFERS 2 2
CLAIM C1 1            = 15 OK LOTS 6
CLAIM C2 2            = 16 NO 15 LimitReached GUAR E2
REVERSE C1 1          = 17 OK LOTS 6
CLAIM C2 2            = 18 OK LOTS 5
POSITION A3 XF6       = 0 5
";

#[test]
fn claims_and_refusals_are_answered_so(rt: HostRuntime) {
    follow_all(&rt, rt.alloc(), TRANSCRIPTS, Patience::Never);
}
