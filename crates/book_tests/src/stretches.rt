//! Notices by stretches, and answers that are as long as they get.

use crate::transcript::{Patience, follow_all};

const TRANSCRIPTS: &str = "\
== a book without entries has one stretch
STRETCH E1 0                    = LAST 1 0
STRETCH E1 1                    = LAST 1 0
STRETCH E1 2                    = LAST 2 0
STRETCHES E1 0                  = 1 0
ENTRIES                         = 0
== a stretch looks at 1,024 entries and no more
DAY 20260105                    = 1 OK
EACH 2 1025 1: DAY 20260105     = # NO 2 WrongDay
STRETCH E1 0                    = LAST 1025 0
EACH 1025 3001 1: DAY 20260105  = # NO 2 WrongDay
STRETCH E1 0                    = MORE 1025 0
STRETCH E1 1                    = MORE 1025 0
STRETCH E1 2                    = MORE 1026 0
STRETCH E1 1025                 = MORE 2049 0
STRETCH E1 1976                 = MORE 3000 0
STRETCH E1 1977                 = LAST 3001 0
STRETCH E1 3000                 = LAST 3001 0
STRETCH E1 3001                 = LAST 3001 0
STRETCH E1 3002                 = LAST 3002 0
STRETCH E1 18446744073709551615 = LAST 18446744073709551615 0
STRETCH E9 1                    = MORE 1025 0
STRETCHES E1 0                  = 3 0
STRETCHES E1 1976               = 2 0
STRETCHES E1 3001               = 1 0
STRETCHES E1 4000               = 1 0
ENTRIES                         = 3000
== it ends with the entry that brings the notices to 1,024
BEHIND a large trade
EACH 0 256 1: GIVEUP E1 N# R1 A1 1 A1 1 A1 1 A1 1 A1 1 A1 1 A1 1 A1 1 A1 1 A1 1 A1 1 A1 1 A1 1 A1 1 A1 1 A1 1 = OK OFFERS
STRETCH C1 0                    = MORE 72 1024
STRETCH C1 8                    = MORE 72 1024
STRETCH C1 9                    = MORE 73 1024
STRETCH C1 200                  = LAST 264 1024
STRETCH E1 1                    = LAST 264 1
STRETCHES C1 1                  = 4 4096
== 1,023 notices are one too few
BEHIND a large trade
GIVEUP E1 X R1 A1 1 A1 1 A1 1 A1 1 A1 1 A1 1 A1 1 A1 1 A1 1 A1 1 A1 1 A1 1 A1 1 A1 1 A1 1 = 8 OK OFFERS 1 15
EACH 0 255 1: GIVEUP E1 N# R1 A1 1 A1 1 A1 1 A1 1 A1 1 A1 1 A1 1 A1 1 A1 1 A1 1 A1 1 A1 1 A1 1 A1 1 A1 1 A1 1 = OK OFFERS
STRETCH C1 1                    = MORE 73 1039
STRETCH C1 9                    = MORE 73 1024
STRETCHES C1 1                  = 4 4095
== a sweep that takes 4,096 offers tells of all in one stretch
BEHIND a large trade
EACH 0 256 1: GIVEUP E1 N# R1 A1 1 A1 1 A1 1 A1 1 A1 1 A1 1 A1 1 A1 1 A1 1 A1 1 A1 1 A1 1 A1 1 A1 1 A1 1 A1 1 = OK OFFERS
LIMIT G1 EXEC E1 5000           = 264 OK
LIMIT G1 AGR P1 5000            = 265 OK
LIMIT G1 ACCT A1 5000           = 266 OK
LIMIT G1 CARRY C1 5000          = 267 OK
EACH 268 269 1: SWEEP G1        = # SWEPT G1 4096
STRETCH E1 1                    = LAST 269 4097
STRETCH E1 268                  = LAST 269 4096
STRETCH E2 1                    = LAST 269 1
STRETCH C1 200                  = MORE 264 1024
STRETCH C1 264                  = LAST 269 4096
STRETCHES C1 1                  = 5 8192
DAY 20260105                    = 269 NO 2 WrongDay
STRETCH E1 1                    = MORE 269 4097
STRETCH C1 264                  = MORE 269 4096
STRETCH C1 269                  = LAST 270 0
STRETCHES C1 1                  = 6 8192
POSITION A1 XF6                 = 4096 0
== each firm's stretches join to its notices
DAY 20260105                    = 1 OK
LIMIT G1 EXEC E1 1000000        = 2 OK
LIMIT G1 AGR P1 1000000         = 3 OK
LIMIT G1 ACCT A1 1000000        = 4 OK
LIMIT G1 CARRY C1 1000000       = 5 OK
REPORT E1 R1 M1 B XF6 7 101.5 H1 = 6 OK OPEN
REPORT E2 R2 M1 S XF6 7 101.5 H2 = 7 OK MATCHED
EACH 1 1601 16: REPORT E1 N# N# B XF6 16 101.5 H1; REPORT E2 N# N# S XF6 16 101.5 H2; GIVEUP E1 N# N# A1 1 A1 1 A1 1 A1 1 A1 1 A1 1 A1 1 A1 1 A1 1 A1 1 A1 1 A1 1 A1 1 A1 1 A1 1 A1 1; CLAIM C1 #; CLAIM C1 #+1; REFUSE C1 #+2 2; REVERSE C1 #+1 = OK
EACH 708 1308 1: DAY 20260105   = # NO 2 WrongDay
EACH 1601 4001 16: REPORT E1 N# N# B XF6 16 101.5 H1; REPORT E2 N# N# S XF6 16 101.5 H2; GIVEUP E1 N# N# A1 1 A1 1 A1 1 A1 1 A1 1 A1 1 A1 1 A1 1 A1 1 A1 1 A1 1 A1 1 A1 1 A1 1 A1 1 A1 1; CLAIM C1 #; CLAIM C1 #+1; REFUSE C1 #+2 2; REVERSE C1 #+1 = OK
EACH 2358 3008 1: DAY 20260105  = # NO 2 WrongDay
STRETCH C1 1                    = MORE 368 1036
STRETCH C1 368                  = MORE 1329 1024
STRETCH C1 1329                 = MORE 1689 1036
STRETCH C1 1689                 = MORE 2050 1024
STRETCH C1 2050                 = LAST 3008 880
STRETCHES C1 0                  = 5 5000
STRETCHES E1 1                  = 3 1251
STRETCH E1 1025                 = MORE 2049 529
STRETCHES E2 1                  = 3 251
STRETCHES C2 1                  = 3 0
EACH 1 3008 1: STRETCH C2 #     = 0
ENTRIES                         = 3007
";

#[test]
fn notices_come_by_stretches(rt: HostRuntime) {
    follow_all(&rt, rt.alloc(), TRANSCRIPTS, Patience::Never);
}
