//! Positions: lots that come and move, both sides gross, and the open interest.

use crate::transcript::{Patience, follow_all};

const TRANSCRIPTS: &str = "\
== lots move between accounts
BEHIND a trade
GIVEUP E1 L1 R1 A1 4 = 8 OK OFFERS 1 1
CLAIM C1 1           = 9 OK LOTS 4
POSITION H1 XF6      = 6 0
POSITION A1 XF6      = 4 0
INTEREST XF6         = 10
== both sides are gross and the open interest is their difference
DAY 20260105                     = 1 OK
REPORT E1 R1 M1 B XF6 7 101.5 H1 = 2 OK OPEN
REPORT E2 R1 M1 S XF6 7 101.5 H2 = 3 OK MATCHED
REPORT E1 R2 M2 B XF6 3 101.5 H1 = 4 OK OPEN
REPORT E1 R3 M2 S XF6 3 101.5 H1 = 5 OK MATCHED
POSITION H1 XF6                  = 10 3
POSITION H2 XF6                  = 0 7
POSITION H2 YF6                  = 0 0
INTEREST XF6                     = 7
INTEREST YF6                     = 0
== lots that moved still count as open
BEHIND a trade
INTEREST XF6                   = 10
GIVEUP E1 L1 R1 A1 4           = 8 OK OFFERS 1 1
CLAIM C1 1                     = 9 OK LOTS 4
INTEREST XF6                   = 10
REPORT E2 R3 M2 B XF6 5 100 H2 = 10 OK OPEN
REPORT E1 R4 M2 S XF6 5 100 H1 = 11 OK MATCHED
POSITION H1 XF6                = 6 5
POSITION A1 XF6                = 4 0
POSITION H2 XF6                = 5 10
INTEREST XF6                   = 5
== a row that is made changes no answer
DAY 20260105                      = 1 OK
POSITION H1 XF6                   = 0 0
INTEREST XF6                      = 0
REPORT E1 R1 M1 B XF6 10 101.5 H1 = 2 OK OPEN
POSITION H1 XF6                   = 0 0
INTEREST XF6                      = 0
REPORT E2 R2 M1 S XF6 10 101.5 H2 = 3 OK MATCHED
GIVEUP E1 L1 R1 A1 4              = 4 OK OFFERS 1 1
GIVEUP E1 L2 R1 A1 1              = 5 OK OFFERS 2 2
POSITION H1 XF6                   = 10 0
POSITION A1 XF6                   = 0 0
INTEREST XF6                      = 10
";

#[test]
fn positions_are_told_so(rt: HostRuntime) {
    follow_all(&rt, rt.alloc(), TRANSCRIPTS, Patience::Never);
}
