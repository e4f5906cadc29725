//! Thousands of calls in a row, and each call at its largest.

use crate::transcript::{Patience, follow_all};

const TRANSCRIPTS: &str = "\
== each offer of a view has keys of its own, and each of 4,096 accounts takes a lot
FILE the wide
DAY 20260105                        = 1 OK
REPORT E1 R1 M1 B XF6 5000 101.5 H1 = 2 OK OPEN
REPORT E1 R2 M1 S XF6 5000 101.5 H1 = 3 OK MATCHED
EACH 0 4096 2: GIVEUP E1 L# R1 N# 1 N#+1 1 = OK OFFERS
EXTENT G1                           = 1 4096 4096 8194
LIMIT G1 EXEC E1 5000               = 2052 OK
LIMIT G1 CARRY C1 5000              = 2053 OK
EACH 0 4096 1: LIMIT G1 AGR N# 1; LIMIT G1 ACCT N# 1; CLAIM C1 #+1 = OK
EXTENT G1                           = 0 0
EACH 0 4096 1: POSITION N# XF6      = 1 0
POSITION H1 XF6                     = 904 5000
INTEREST XF6                        = 4096
COUNT G1                            = 8194 18192 1808
== a limit is set on each key of the largest reference, and on 10,000 of them twice, in two groups
FILE the largest
EACH 0 1000 1: LIMIT N99 EXEC N# 7; LIMIT N99 CARRY N# 7; LIMIT N99 GUAR N# 7 = OK
EACH 0 10000 1: LIMIT N99 AGR N# 7; LIMIT N99 ACCT N# 5; LIMIT N99 ACCT N# # = OK
COUNT N99 = 23000 50086000 50086000
EACH 0 10000 1: LIMIT N98 ACCT N# 5; LIMIT N98 ACCT N# # = OK
COUNT N98 = 10000 49995000 49995000
== ten thousand days are opened
EACH 2000 7040 1: DAY #0105; DAY #0228 = OK
BOOK                                   = 10080 70390228
== ten thousand sides are reported
DAY 20260105 = 1 OK
EACH 0 5000 1: REPORT E1 N# N# B XF6 2 101.5 H1; REPORT E2 N# N# S XF6 2 101.5 H2 = OK
BOOK            = 10001 20260105
POSITION H1 XF6 = 10000 0
POSITION H2 XF6 = 0 10000
== of 48,000 offers a third is claimed, a third claimed and reversed, and a third refused
DAY 20260105                           = 1 OK
LIMIT G1 EXEC E1 1000000000            = 2 OK
LIMIT G1 AGR P1 1000000000             = 3 OK
LIMIT G1 ACCT A1 1000000000            = 4 OK
LIMIT G1 CARRY C1 1000000000           = 5 OK
REPORT E1 R1 M1 B XF6 1000000 101.5 H1 = 6 OK OPEN
REPORT E2 R2 M1 S XF6 1000000 101.5 H2 = 7 OK MATCHED
EACH 1 48001 3: GIVEUP E1 N# R1 A1 1 A1 1 A1 1; CLAIM C1 #; CLAIM C1 #+1; REVERSE C1 #+1; REFUSE C1 #+2 2 = OK
POSITION A1 XF6           = 16000 0
POSITION H1 XF6           = 984000 0
LIMITS G1 = EXEC E1 1000000000 16000 999984000, AGR P1 1000000000 16000 999984000, ACCT A1 1000000000 16000 999984000, CARRY C1 1000000000 16000 999984000
GIVEUP E1 X1 R1 A1 984001 = 80008 NO 11 TooManyLots
GIVEUP E1 X1 R1 A1 984000 = 80009 OK OFFERS 48001 48001
CLAIM C1 48001            = 80010 OK LOTS 984000
POSITION A1 XF6           = 1000000 0
STRETCHES C1 1            = 110 112002
STRETCHES E1 1            = 79 64002
STRETCHES C2 1            = 79 0
== an account holds a thousand instruments, and each of a hundred groups has a view
FILE the largest
DAY 20260105              = 1 OK
EACH 0 1000 1: REPORT N0 B# M# B N# 3 101.5 N5; REPORT N0 S# M# S N# 3 101.5 N6 = OK
ROWS N0 N5                = 1000 3000 0
ROWS N0 N6                = 1000 0 3000
ROWS N0 N7                = 0 0 0
ROWS N1 N5                = NONE
STRETCHES N0 1            = 2 2000
EACH 0 100 1: LIMIT N# EXEC N0 7 = OK
EACH 0 100 1: COUNT N#    = 1 7 7
EACH 0 100 1: VIEW N#     = 2
";

#[test]
fn thousands_of_entries_are_made_in_a_row(rt: HostRuntime) {
    follow_all(&rt, rt.alloc(), TRANSCRIPTS, Patience::Never);
}

/// A book that is filled: 1,000,000 entries.
const FILLED: &str = "\
== a million commands are entered and no more, and then no sweep
BEHIND a trade
GIVEUP E1 L1 R1 A1 6 A1 3         = 8 OK OFFERS 1 2
CLAIM C1 1                        = 9 OK LOTS 6
SEE 0 G1                          = SEEN 7
PROPOSE 0                         = PROPOSED 3
EACH 10 1000001 1: DAY 20260105   = # NO 2 WrongDay
BOOK                              = 1000000 20260105
DAY 20260106                      = FULL
LIMIT G1 EXEC E1 7                = FULL
REPORT E1 R9 M9 B XF6 10 101.5 H1 = FULL
GIVEUP E1 L9 R1 A1 1              = FULL
CLAIM C1 2                        = FULL
REFUSE C1 2 1                     = FULL
REVERSE C1 1                      = FULL
DAY 20260105                      = FULL
COMMIT 0                          = FULL
COMMIT 0                          = NOTHING
BOOK                              = 1000000 20260105
POSITION H1 XF6                   = 4 0
POSITION H2 XF6                   = 0 10
POSITION A1 XF6                   = 6 0
INTEREST XF6                      = 10
LIMITS G1 = EXEC E1 100 6 94, AGR P1 100 6 94, ACCT A1 100 6 94, CARRY C1 100 6 94
LIMITS G2                         =
VIEW G1 = 7, OFFER 2 3 P1 E1 A1 C1, ROOM EXEC E1 94, ROOM AGR P1 94, ROOM ACCT A1 94, ROOM CARRY C1 94
VIEW G2                           = 1
";

#[test]
fn a_million_commands_are_entered_and_no_more(rt: HostRuntime) {
    follow_all(&rt, rt.alloc(), FILLED, Patience::Never);
}
