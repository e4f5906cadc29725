//! What the house reports firms of its own accord.

use crate::transcript::{Patience, follow_all};

const TRANSCRIPTS: &str = "\
== a trade is told to both its firms
BEHIND a trade
NOTICES E1 1                    = next 8, 7 R1 M1 B XF6 10 H1
NOTICES E2 1                    = next 8, 7 R2 M1 S XF6 10 H2
NOTICES C1 1                    = next 8
NOTICES E1 7                    = next 8, 7 R1 M1 B XF6 10 H1
NOTICES E1 8                    = next 8
NOTICES E1 0                    = next 8, 7 R1 M1 B XF6 10 H1
NOTICES E1 18446744073709551615 = next 8
NOTICES E9 1                    = next 8
== a firm on both sides is told of both the buyer first
DAY 20260105                      = 1 OK
REPORT E1 R1 M1 S XF6 10 101.5 H1 = 2 OK OPEN
REPORT E1 R2 M1 B XF6 10 101.5 H1 = 3 OK MATCHED
NOTICES E1 1                      = next 4, 3 R2 M1 B XF6 10 H1, 3 R1 M1 S XF6 10 H1
== a give up is told to those who carry its lines
BEHIND a trade
GIVEUP E2 L1 R2 A1 2 A3 3 A1 1 = 8 OK OFFERS 1 3
GIVEUP E1 L1 R1 A1 11          = 9 NO 11 TooManyLots
REFUSE C1 3 5                  = 10 OK LOTS 1
NOTICES C1 8                   = next 11, 1 OFFERED 2 A1 S XF6, 3 OFFERED 1 A1 S XF6, 3 REFUSED 5 1 A1 S XF6
NOTICES C2 8                   = next 11, 2 OFFERED 3 A3 S XF6
NOTICES E2 8                   = next 11, 3 REFUSED 5 1 A1 S XF6
NOTICES E1 8                   = next 11
== claims sweeps and reversals are told to both firms
BEHIND a trade
GIVEUP E1 L1 R1 A1 4 A1 3 A1 2 = 8 OK OFFERS 1 3
CLAIM C1 1                     = 9 OK LOTS 4
LIMIT G1 AGR P1 7              = 10 OK
SWEEP G1                       = 11 SWEPT G1 3, TAKE 2 3, CUT AGR P1
REVERSE C1 1                   = 12 OK LOTS 4
REVERSE C1 1                   = 13 NO 19 NothingToReverse
NOTICES E1 9                   = next 14, 1 CLAIMED 4 A1 B XF6, 2 CLAIMED 3 A1 B XF6, 1 REVERSED 4 A1 B XF6
NOTICES C1 9                   = next 14, 1 CLAIMED 4 A1 B XF6, 2 CLAIMED 3 A1 B XF6, 1 REVERSED 4 A1 B XF6
NOTICES E2 9                   = next 14
NOTICES C1 11                  = next 14, 2 CLAIMED 3 A1 B XF6, 1 REVERSED 4 A1 B XF6
";

#[test]
fn firms_are_told_so(rt: HostRuntime) {
    follow_all(&rt, rt.alloc(), TRANSCRIPTS, Patience::Never);
}
