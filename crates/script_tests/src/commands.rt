//! Commands, positions and limits, line by line.

use crate::transcripts::check;

/// Commands, positions and limits.
const ENTERED: &str = "\
reports match or are refused
DAY 20260105/< 1 OK/
REPORT E1 R1 M1 B XF6 10 101.5 H1/< 2 OK OPEN/
REPORT E2 R2 M1 S XF6 10 101.6 H2/< 3 NO 7 MatchConflict/
REPORT E2 R2 M1 S XF6 10 101.5 H2/< 4 OK MATCHED/
REPORT E2 R3 M1 S XF6 10 101.5 H2/< 5 NO 7 MatchConflict/
REPORT E1 R1 M2 B XF6 10 101.5 H1/< 6 NO 6 DuplicateId/

a claim moves lots
@opened/@trade_10/@claimed_10/

lots are given up once
@opened/@trade_10/
GIVEUP E1 L1 R1 A1 6/< 8 OK OFFERS 1 1/
GIVEUP E1 L2 R1 A1 5/< 9 NO 11 TooManyLots/
GIVEUP E1 L3 R1 A1 2 A3 2/< 10 NO 10 NoAgreement/
GIVEUP E1 L3 R1 A1 4/< 11 OK OFFERS 2 2/

a claim names the limit that is reached
DAY 20260105/< 1 OK/
LIMIT G1 EXEC E1 100/< 2 OK/
LIMIT G1 AGR P1 100/< 3 OK/
LIMIT G1 ACCT A1 7/< 4 OK/
LIMIT G1 CARRY C1 3/< 5 OK/
@trade_10/
GIVEUP E1 L1 R1 A1 8/< 8 OK OFFERS 1 1/
CLAIM C1 1/< 9 NO 15 LimitReached ACCT A1/
LIMIT G1 ACCT A1 100/< 10 OK/
LIMIT G1 CARRY C1 100/< 11 OK/
CLAIM C1 1/< 12 OK LOTS 8/
CLAIM C1 1/< 13 NO 14 OfferClosed/
CLAIM C2 1/< 14 NO 5 NotYours/
CLAIM C1 9/< 15 NO 13 UnknownOffer/

names that the reference lacks are unknown
POSITION Z1 XF6/< UNKNOWN/
POSITION A1 ZF6/< UNKNOWN/
INTEREST ZF6/< UNKNOWN/
LIMITS G9/< UNKNOWN/
LIMITS G1/
INTEREST XF6/< INTEREST XF6 0/
POSITION A1 XF6/< POSITION A1 XF6 0 0/
COMMIT 3/< NOTHING/
PROPOSE 3/< NOTHING/";

#[test]
fn commands_and_questions_are_answered(rt: HostRuntime) {
    check(&rt, rt.alloc(), "", ENTERED);
}

/// The tenth line is no command.
const BAD: &str = "\
a bad line is named after the texts of those before it -> bad line 10
@opened/
LIMIT G1 EXEC E9 5/< 6 NO 16 UnknownKey/
LIMIT G1 EXEC E1 1000000001/< 7 NO 17 TooHigh/
SWEEP G9/< UNKNOWN GROUP/
COMMIT 3/< NOTHING/
CLAIM/
LIMITS G1/";

#[test]
fn a_bad_line_ends_the_answers(rt: HostRuntime) {
    check(&rt, rt.alloc(), "", BAD);
}

/// Claims and sweeps that are taken back, and what is not.
const TAKEN_BACK: &str = "\
claims are taken back
@opened/@trade_10/@claimed_10/
REVERSE C1 1/< 10 OK LOTS 10/
POSITION H1 XF6/< POSITION H1 XF6 10 0/
POSITION A1 XF6/< POSITION A1 XF6 0 0/
LIMITS G1/< LIMIT G1 EXEC E1 100 0 100/< LIMIT G1 AGR P1 100 0 100/< LIMIT G1 ACCT A1 100 0 100/< LIMIT G1 CARRY C1 100 0 100/
REVERSE C1 1/< 11 NO 19 NothingToReverse/
CLAIM C1 1/< 12 NO 14 OfferClosed/
GIVEUP E1 L2 R1 A1 10/< 13 OK OFFERS 2 2/
REVERSE C1 2/< 14 NO 18 OfferOpen/
REVERSE C2 2/< 15 NO 5 NotYours/
REVERSE C1 9/< 16 NO 13 UnknownOffer/

a claim of an earlier day is not taken back
@opened/@trade_10/@claimed_10/
DAY 20260106/< 10 OK/
REVERSE C1 1/< 11 NO 19 NothingToReverse/

what a sweep took is taken back
@swept_7_of_10/
REFUSE C1 2 1/< 10 OK LOTS 3/
REVERSE C1 2/< 11 OK LOTS 2/
LIMITS G1/< LIMIT G1 EXEC E1 100 5 95/< LIMIT G1 AGR P1 7 5 2/< LIMIT G1 ACCT A1 100 5 95/< LIMIT G1 CARRY C1 100 5 95/
GIVEUP E1 L2 R1 A1 6/< 12 NO 11 TooManyLots/
GIVEUP E1 L2 R1 A1 5/< 13 OK OFFERS 3 3/";

#[test]
fn claims_and_sweeps_are_taken_back(rt: HostRuntime) {
    check(&rt, rt.alloc(), "", TAKEN_BACK);
}

/// E2 guarantees C1.
const GUARANTEED: &str = "\
a guarantor's limit binds
@opened/
LIMIT G1 GUAR E2 4/< 6 OK/
REPORT E1 R1 M1 B XF6 10 101.5 H1/< 7 OK OPEN/
REPORT E2 R2 M1 S XF6 10 101.5 H2/< 8 OK MATCHED/
GIVEUP E1 L1 R1 A1 10/< 9 OK OFFERS 1 1/
SWEEP G1/< 10 SWEPT G1 4/< SHEET G1 7/< OFFER 1 10 P1 E1 A1 C1 E2/< ROOM EXEC E1 100/< ROOM AGR P1 100/< ROOM ACCT A1 100/< ROOM CARRY C1 100/< ROOM GUAR E2 4/< TAKE 1 4/< CUT GUAR E2/< END/
CLAIM C1 1/< 11 NO 15 LimitReached GUAR E2/
LIMIT G1 GUAR C2 5/< 12 NO 16 UnknownKey/

a guarantor's limit that was never set is 0
@opened/@trade_10/
GIVEUP E1 L1 R1 A1 10/< 8 OK OFFERS 1 1/
SWEEP G1/< 9 SWEPT G1 0/< SHEET G1 6/< OFFER 1 10 P1 E1 A1 C1 E2/< ROOM EXEC E1 100/< ROOM AGR P1 100/< ROOM ACCT A1 100/< ROOM CARRY C1 100/< ROOM GUAR E2 0/< TAKE 1 0/< CUT GUAR E2/< END/";

#[test]
fn a_guarantors_limit_is_one_of_the_path(rt: HostRuntime) {
    check(&rt, rt.alloc(), "GUARANTOR,E2,C1\n", GUARANTEED);
}
