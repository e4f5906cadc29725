//! Reversals: what was moved today goes back, and the offer stays closed.

use crate::transcript::{Patience, follow_all};

const TRANSCRIPTS: &str = "\
== what was claimed today goes back
BEHIND a trade
GIVEUP E1 L1 R1 A1 10 = 8 OK OFFERS 1 1
CLAIM C1 1            = 9 OK LOTS 10
REVERSE C1 1          = 10 OK LOTS 10
POSITION H1 XF6       = 10 0
POSITION A1 XF6       = 0 0
LIMITS G1             = EXEC E1 100 0 100, AGR P1 100 0 100, ACCT A1 100 0 100, CARRY C1 100 0 100
REVERSE C1 1          = 11 NO 19 NothingToReverse
CLAIM C1 1            = 12 NO 14 OfferClosed
GIVEUP E1 L2 R1 A1 10 = 13 OK OFFERS 2 2
REVERSE C1 2          = 14 NO 18 OfferOpen
REVERSE C2 2          = 15 NO 5 NotYours
REVERSE C1 9          = 16 NO 13 UnknownOffer
REFUSE C1 1 1         = 17 NO 14 OfferClosed
== what was claimed on an earlier day stays
BEHIND a trade
GIVEUP E1 L1 R1 A1 10 = 8 OK OFFERS 1 1
CLAIM C1 1            = 9 OK LOTS 10
DAY 20260106          = 10 OK
REVERSE C1 1          = 11 NO 19 NothingToReverse
DAY 20260106          = 12 NO 2 WrongDay
POSITION A1 XF6       = 10 0
== the first refusal of a reversal is given
REVERSE C2 9                      = 1 NO 1 NoDay
DAY 20260105                      = 2 OK
REVERSE C2 9                      = 3 NO 13 UnknownOffer
REPORT E1 R1 M1 B XF6 10 101.5 H1 = 4 OK OPEN
REPORT E2 R2 M1 S XF6 10 101.5 H2 = 5 OK MATCHED
GIVEUP E1 L1 R1 A1 10             = 6 OK OFFERS 1 1
REVERSE E1 1                      = 7 NO 5 NotYours
REVERSE X1 1                      = 8 NO 5 NotYours
REVERSE C1 1                      = 9 NO 18 OfferOpen
REFUSE C1 1 1                     = 10 OK LOTS 10
REVERSE C2 1                      = 11 NO 5 NotYours
REVERSE C1 1                      = 12 NO 19 NothingToReverse
== no room is needed to reverse
BEHIND a trade
GIVEUP E1 L1 R1 A1 6 A1 4 = 8 OK OFFERS 1 2
CLAIM C1 1                = 9 OK LOTS 6
CLAIM C1 2                = 10 OK LOTS 4
LIMIT G1 ACCT A1 0        = 11 OK
LIMIT G1 CARRY C1 5       = 12 OK
REVERSE C1 1              = 13 OK LOTS 6
LIMITS G1 = EXEC E1 100 4 96, AGR P1 100 4 96, ACCT A1 0 4 0, CARRY C1 5 4 1
GIVEUP E1 L2 R1 A1 7      = 14 NO 11 TooManyLots
GIVEUP E1 L2 R1 A1 6      = 15 OK OFFERS 3 3
CLAIM C1 3                = 16 NO 15 LimitReached ACCT A1
POSITION H1 XF6           = 6 0
POSITION A1 XF6           = 4 0
== both sides of a trade move over two days
BEHIND a trade
LIMIT G1 EXEC E2 100      = 8 OK
LIMIT G1 AGR P3 100       = 9 OK
LIMIT G1 AGR P4 100       = 10 OK
LIMIT G1 ACCT A3 100      = 11 OK
LIMIT G1 CARRY C2 100     = 12 OK
GIVEUP E1 L1 R1 A1 6      = 13 OK OFFERS 1 1
GIVEUP E2 L1 R2 A3 3 A1 2 = 14 OK OFFERS 2 3
POSITION H1 XF6           = 10 0
POSITION H2 XF6           = 0 10
CLAIM C1 1                = 15 OK LOTS 6
POSITION H1 XF6           = 4 0
POSITION A1 XF6           = 6 0
CLAIM C2 2                = 16 OK LOTS 3
POSITION H2 XF6           = 0 7
POSITION A3 XF6           = 0 3
CLAIM C1 3                = 17 OK LOTS 2
POSITION H1 XF6           = 4 0
POSITION H2 XF6           = 0 5
POSITION A1 XF6           = 6 2
POSITION A3 XF6           = 0 3
REVERSE C1 3              = 18 OK LOTS 2
POSITION H2 XF6           = 0 7
POSITION A1 XF6           = 6 0
DAY 20260106              = 19 OK
REVERSE C1 1              = 20 NO 19 NothingToReverse
REVERSE C2 2              = 21 NO 19 NothingToReverse
GIVEUP E2 L2 R2 A1 7      = 22 OK OFFERS 4 4
CLAIM C1 4                = 23 OK LOTS 7
POSITION H2 XF6           = 0 0
POSITION A1 XF6           = 6 7
REVERSE C1 4              = 24 OK LOTS 7
POSITION H2 XF6           = 0 7
POSITION A1 XF6           = 6 0
POSITION A3 XF6           = 0 3
POSITION H1 XF6           = 4 0
";

#[test]
fn reversals_are_answered_so(rt: HostRuntime) {
    follow_all(&rt, rt.alloc(), TRANSCRIPTS, Patience::Never);
}
