//! Give-ups: what is offered, and why a give-up is refused.

use crate::transcript::{Patience, follow_all};

const TRANSCRIPTS: &str = "\
== no more is given up than is free
BEHIND a trade
GIVEUP E1 L1 R1 A1 6      = 8 OK OFFERS 1 1
GIVEUP E1 L2 R1 A1 5      = 9 NO 11 TooManyLots
GIVEUP E1 L3 R1 A1 2 A3 2 = 10 NO 10 NoAgreement
GIVEUP E1 L3 R1 A1 4      = 11 OK OFFERS 2 2
== a trade is given up claimed refused and reversed
BEHIND a trade
GIVEUP E1 L1 R1 A1 6 A2 3 = 8 OK OFFERS 1 2
POSITION H1 XF6           = 10 0
GIVEUP E1 L2 R1 A1 2      = 9 NO 11 TooManyLots
CLAIM C2 1                = 10 NO 5 NotYours
CLAIM C1 1                = 11 OK LOTS 6
POSITION H1 XF6           = 4 0
POSITION A1 XF6           = 6 0
CLAIM C1 2                = 12 NO 15 LimitReached AGR P2
REFUSE C1 2 1             = 13 OK LOTS 3
LIMITS G1 = EXEC E1 100 6 94, AGR P1 100 6 94, ACCT A1 100 6 94, CARRY C1 100 6 94
CLAIM C1 2                = 14 NO 14 OfferClosed
REVERSE C1 1              = 15 OK LOTS 6
POSITION H1 XF6           = 10 0
POSITION A1 XF6           = 0 0
REVERSE C1 1              = 16 NO 19 NothingToReverse
CLAIM C1 1                = 17 NO 14 OfferClosed
GIVEUP E1 L2 R1 A1 10     = 18 OK OFFERS 3 3
REVERSE C1 3              = 19 NO 18 OfferOpen
LIMITS G1 = EXEC E1 100 0 100, AGR P1 100 0 100, ACCT A1 100 0 100, CARRY C1 100 0 100
== lots are free again once an offer is refused
BEHIND a trade
GIVEUP E1 L1 R1 A1 6 A1 4 = 8 OK OFFERS 1 2
GIVEUP E1 L2 R1 A1 1      = 9 NO 11 TooManyLots
REFUSE C1 1 1             = 10 OK LOTS 6
GIVEUP E1 L2 R1 A1 7      = 11 NO 11 TooManyLots
GIVEUP E1 L2 R1 A1 6      = 12 OK OFFERS 3 3
CLAIM C1 2                = 13 OK LOTS 4
GIVEUP E1 L3 R1 A1 1      = 14 NO 11 TooManyLots
== the first refusal of all lines is given
GIVEUP E1 L1 R9 A3 99 A9 1        = 1 NO 1 NoDay
DAY 20260105                      = 2 OK
REPORT E1 R1 M1 B XF6 10 101.5 H1 = 3 OK OPEN
REPORT E1 R2 M2 B XF6 10 101.5 H1 = 4 OK OPEN
REPORT E2 R2 M2 S XF6 10 101.5 H2 = 5 OK MATCHED
GIVEUP E1 L1 R2 A1 1              = 6 OK OFFERS 1 1
GIVEUP E1 L1 R9 A3 99 A9 1        = 7 NO 4 UnknownAccount
GIVEUP E1 L1 R9 A3 99             = 8 NO 6 DuplicateId
GIVEUP E1 L2 R9 A3 99             = 9 NO 8 UnknownTrade
GIVEUP E1 L2 R1 A3 99             = 10 NO 9 NotMatched
GIVEUP E1 L2 R2 A1 1 A3 99        = 11 NO 10 NoAgreement
GIVEUP E1 L2 R2 A1 1 A2 9         = 12 NO 11 TooManyLots
GIVEUP E1 L2 R2 A1 1 H1 1         = 13 NO 10 NoAgreement
GIVEUP X1 L2 R2 A1 1              = 14 NO 8 UnknownTrade
GIVEUP X1 L2 R2 A9 1              = 15 NO 4 UnknownAccount
GIVEUP C1 L2 R2 A1 1              = 16 NO 8 UnknownTrade
GIVEUP E1 L2 R2 A1 1 A2 8         = 17 OK OFFERS 2 3
== reports and give ups have ids apart
BEHIND a trade
GIVEUP E1 R1 R1 A1 2             = 8 OK OFFERS 1 1
REPORT E1 L1 M2 B XF6 1 100 H1   = 9 OK OPEN
GIVEUP E1 L1 R1 A1 2             = 10 OK OFFERS 2 2
GIVEUP E2 L1 R2 A1 2             = 11 OK OFFERS 3 3
GIVEUP E1 L1 R1 A1 2             = 12 NO 6 DuplicateId
GIVEUP E1 L2 R1 A1 7             = 13 NO 11 TooManyLots
GIVEUP E1 L2 R1 A1 6             = 14 OK OFFERS 4 4
REPORT E1 L1 M3 S XF6 1 100 H1   = 15 NO 6 DuplicateId
REPORT E2 L1 M2 S XF6 1 100.0 H2 = 16 OK MATCHED
== a trade of an earlier day is given up
BEHIND a trade
REPORT E1 R3 M2 B XF6 5 101.5 H1 = 8 OK OPEN
DAY 20260107                     = 9 OK
REPORT E2 R4 M2 S XF6 5 101.5 H2 = 10 NO 7 MatchConflict
GIVEUP E1 L1 R1 A1 10            = 11 OK OFFERS 1 1
GIVEUP E1 L2 R3 A1 5             = 12 NO 9 NotMatched
DAY 20260108                     = 13 OK
CLAIM C1 1                       = 14 OK LOTS 10
POSITION A1 XF6                  = 10 0
== a group has 4096 open offers and no more
BEHIND a large trade
EACH 0 256 1: GIVEUP E1 L# R1 A1 1 A1 1 A1 1 A1 1 A1 1 A1 1 A1 1 A1 1 A1 1 A1 1 A1 1 A1 1 A1 1 A1 1 A1 1 A1 1         = OK OFFERS
BOOK                          = 263 20260105
EXTENT G1                     = 1 4096 4096 4
GIVEUP E1 X1 R1 A1 1          = 264 NO 12 TooManyOffers
GIVEUP E1 X1 R1 A1 905        = 265 NO 11 TooManyLots
CLAIM C1 4096                 = 266 OK LOTS 1
GIVEUP E1 X1 R1 A1 1 A1 1     = 267 NO 12 TooManyOffers
GIVEUP E1 X1 R1 A1 1          = 268 OK OFFERS 4097 4097
GIVEUP E2 X1 R2 A1 1          = 269 NO 12 TooManyOffers
REFUSE C1 1 5                 = 270 OK LOTS 1
REVERSE C1 4096               = 271 OK LOTS 1
GIVEUP E1 X2 R1 A1 1 A1 1     = 272 NO 12 TooManyOffers
GIVEUP E1 X2 R1 A1 900        = 273 OK OFFERS 4098 4098
GIVEUP E1 X3 R1 A1 1          = 274 NO 12 TooManyOffers
REPORT E1 R3 M3 B YF6 5 99 H1 = 275 OK OPEN
REPORT E2 R4 M3 S YF6 5 99 H2 = 276 OK MATCHED
GIVEUP E1 X3 R3 A1 1          = 277 OK OFFERS 4099 4099
CLAIM C1 4099                 = 278 NO 15 LimitReached EXEC E1
DAY 20260106                  = 279 OK
GIVEUP E1 X4 R1 A1 1          = 280 NO 12 TooManyOffers
== four thousand offers are shown
BEHIND a large trade
EACH 0 256 1: GIVEUP E1 L# R1 A1 1 A1 1 A1 1 A1 1 A1 1 A1 1 A1 1 A1 1 A1 1 A1 1 A1 1 A1 1 A1 1 A1 1 A1 1 A1 1 = OK OFFERS
EXTENT G1             = 1 4096 4096 4
CLAIM C1 1            = 264 OK LOTS 1
GIVEUP E1 X1 R1 A1 1  = 265 OK OFFERS 4097 4097
EXTENT G1             = 2 4097 4096 4
";

#[test]
fn give_ups_are_answered_so(rt: HostRuntime) {
    follow_all(&rt, rt.alloc(), TRANSCRIPTS, Patience::Never);
}
