//! Offers: what is taken of them, closed and reversed, and how much more of a report may be given up.

use crate::recipients::give_up;
use crate::steps::command_of;
use crate::transcript::{Patience, follow_all};
use gu_offers::Offers;
use gu_terms::{Command, Group};
use std::alloc::Global;
use std::process::Abort;

const TRANSCRIPTS: &str = "\
== an offer is taken and closed
BEHIND a trade
LIMIT G1 AGR P1 3    = 8 OK
GIVEUP E1 L1 R1 A1 7 = 9 OK OFFERS 1 1
SWEEP G1             = 10 SWEPT G1 3, TAKE 1 3, CUT AGR P1
VIEW G1 = 8, OFFER 1 4 P1 E1 A1 C1, ROOM EXEC E1 97, ROOM AGR P1 0, ROOM ACCT A1 97, ROOM CARRY C1 97
GIVEUP E1 L2 R1 A1 4 = 11 NO 11 TooManyLots
REFUSE C1 1 1        = 12 OK LOTS 4
VIEW G1              = 9
GIVEUP E1 L2 R1 A1 8 = 13 NO 11 TooManyLots
GIVEUP E1 L2 R1 A1 7 = 14 OK OFFERS 2 2
REVERSE C1 1         = 15 OK LOTS 3
== a reversal gives back what was moved today
BEHIND a trade
LIMIT G1 AGR P1 5    = 8 OK
GIVEUP E1 L1 R1 A1 8 = 9 OK OFFERS 1 1
SWEEP G1             = 10 SWEPT G1 5, TAKE 1 5, CUT AGR P1
DAY 20260106         = 11 OK
SWEEP G1             = 12 SWEPT G1 3, TAKE 1 3, CUT OFFER 1
REVERSE C1 1         = 13 OK LOTS 3
REVERSE C1 1         = 14 NO 19 NothingToReverse
VIEW G1              = 11
GIVEUP E1 L2 R1 A1 6 = 15 NO 11 TooManyLots
DAY 20260107         = 16 OK
GIVEUP E1 L2 R1 A1 6 = 17 NO 11 TooManyLots
GIVEUP E1 L2 R1 A1 5 = 18 OK OFFERS 2 2
== a refused offer is reversed
BEHIND a trade
LIMIT G1 AGR P1 3     = 8 OK
GIVEUP E1 L1 R1 A1 8  = 9 OK OFFERS 1 1
SWEEP G1              = 10 SWEPT G1 3, TAKE 1 3, CUT AGR P1
REFUSE C1 1 2         = 11 OK LOTS 5
REVERSE C1 1          = 12 OK LOTS 3
CLAIM C1 1            = 13 NO 14 OfferClosed
VIEW G1               = 10
DAY 20260106          = 14 OK
GIVEUP E1 L2 R1 A1 10 = 15 OK OFFERS 2 2
== sixteen lines are sixteen offers
DAY 20260105                      = 1 OK
REPORT E1 R1 M1 B XF6 40 101.5 H1 = 2 OK OPEN
REPORT E2 R2 M1 S XF6 40 101.5 H2 = 3 OK MATCHED
REPORT E1 R3 M2 B YF6 6 99 H1     = 4 OK OPEN
REPORT E2 R4 M2 S YF6 6 99 H2     = 5 OK MATCHED
GIVEUP E1 L1 R1 A1 2 A1 2 A1 2 A1 2 A1 2 A1 2 A1 2 A1 2 A1 2 A1 2 A1 2 A1 2 A1 2 A1 2 A1 2 A1 2 = 6 OK OFFERS 1 16
GIVEUP E1 L2 R3 A1 5              = 7 OK OFFERS 17 17
VIEW G1 = 2, OFFER 1 2 P1 E1 A1 C1, OFFER 2 2 P1 E1 A1 C1, OFFER 3 2 P1 E1 A1 C1, OFFER 4 2 P1 E1 A1 C1, OFFER 5 2 P1 E1 A1 C1, OFFER 6 2 P1 E1 A1 C1, OFFER 7 2 P1 E1 A1 C1, OFFER 8 2 P1 E1 A1 C1, OFFER 9 2 P1 E1 A1 C1, OFFER 10 2 P1 E1 A1 C1, OFFER 11 2 P1 E1 A1 C1, OFFER 12 2 P1 E1 A1 C1, OFFER 13 2 P1 E1 A1 C1, OFFER 14 2 P1 E1 A1 C1, OFFER 15 2 P1 E1 A1 C1, OFFER 16 2 P1 E1 A1 C1, ROOM EXEC E1 0, ROOM AGR P1 0, ROOM ACCT A1 0, ROOM CARRY C1 0
EXTENT G1                         = 1 16 16 4
EXTENT G2                         = 17 17 1 4
GIVEUP E1 L3 R1 A1 9              = 8 NO 11 TooManyLots
GIVEUP E1 L3 R3 A1 2              = 9 NO 11 TooManyLots
== thousands of lines are offered and taken
DAY 20260105                         = 1 OK
LIMIT G1 EXEC E1 10000               = 2 OK
LIMIT G1 AGR P1 10000                = 3 OK
LIMIT G1 ACCT A1 10000               = 4 OK
LIMIT G1 CARRY C1 10000              = 5 OK
REPORT E1 R1 M1 B XF6 10000 101.5 H1 = 6 OK OPEN
REPORT E2 R2 M1 S XF6 10000 101.5 H2 = 7 OK MATCHED
EACH 0 256 1: GIVEUP E1 L# R1 A1 2 A1 2 A1 2 A1 2 A1 2 A1 2 A1 2 A1 2 A1 2 A1 2 A1 2 A1 2 A1 2 A1 2 A1 2 A1 2 = OK OFFERS
EXTENT G1                            = 1 4096 4096 4
EACH 1 4097 3: CLAIM C1 #            = OK LOTS 2
EXTENT G1                            = 2 4095 2730 4
GIVEUP E1 X1 R1 A1 1809              = 1630 NO 11 TooManyLots
GIVEUP E1 X1 R1 A1 1808              = 1631 OK OFFERS 4097 4097
";

#[test]
fn offers_are_taken_closed_and_reversed_so(rt: HostRuntime) {
    follow_all(&rt, rt.alloc(), TRANSCRIPTS, Patience::Never);
}

/// A give-up of sixteen lines.
const SIXTEEN: &str =
    "GIVEUP E1 L1 R1 A1 1 A1 1 A1 1 A1 1 A1 1 A1 1 A1 1 A1 1 A1 1 A1 1 A1 1 A1 1 A1 1 A1 1 A1 1 A1 1";

/// Gives up so often in a group.
fn give_up_again(
    rt: &impl Abort,
    offers: &mut Offers,
    command: &Command,
    group: &Group,
    times: u64,
) {
    for _ in 0..times {
        assert!(rt; give_up(offers, command, *group).is_ok());
    }
}

/// Returns how many open offers of a group are listed, with the number of the last one and the lots of all.
fn listed(rt: &impl Abort, offers: &Offers, group: &Group) -> (usize, u64, u64) {
    let list = offers.of_group(*group).ok().expect(rt, "memory");
    let mut last: u64 = 0;
    let mut left: u64 = 0;
    for row in &list {
        last = row.number.get();
        left = left.saturating_add(row.left);
    }
    (list.len(), last, left)
}

/// Offers of two groups, as many as a group may have and sixteen more.
fn offers_of_two(rt: &impl Abort, alloc: Global, group: &Group, other: &Group) -> Offers {
    let command = command_of(alloc, SIXTEEN).expect(rt, "a command");
    let mut offers = Offers::new(alloc);
    give_up_again(rt, &mut offers, &command, group, 256);
    give_up_again(rt, &mut offers, &command, other, 1);
    drop(command);
    offers
}

#[test]
fn open_offers_of_a_group_are_listed_thousands_of_times(rt: HostRuntime) {
    let group = &Group::new(b"G1").expect(&rt, "a group");
    let other = &Group::new(b"G2").expect(&rt, "a group");
    let offers = offers_of_two(&rt, rt.alloc(), group, other);
    assert_eq!(rt; listed(&rt, &offers, group), (4_096, 4_096, 4_096));
    for _ in 0..3_000 {
        assert_eq!(rt; listed(&rt, &offers, other), (16, 4_112, 16));
    }
    drop(offers);
}
