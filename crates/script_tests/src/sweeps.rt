//! Sweeps and workers, line by line.

use crate::transcripts::{check, expected, told, whole};
use std::alloc::{AllocError, Global};
use std::process::Abort;

/// Sweeps.
const SWEPT: &str = "\
a sweep shows its sheet
@opened/@offered_7/
SWEEP G1/< 9 SWEPT G1 7/
@sheet_of_7/

a sweep takes what the oldest first over the group would miss
@over_the_group/

a sweep takes the oldest first of an agreement
@swept_7_of_10/";

#[test]
fn a_sweep_is_answered_by_its_sheet(rt: HostRuntime) {
    check(&rt, rt.alloc(), "", SWEPT);
}

/// Proposals, and what happens before they are committed.
const STALE: &str = "\
a proposal is stale after a claim
@opened/@trade_10/
GIVEUP E1 L1 R1 A1 10/< 8 OK OFFERS 1 1/
SEE 0 G1/< SEEN G1 6/
PROPOSE 0/< PROPOSED 10/
CLAIM C1 1/< 9 OK LOTS 10/
COMMIT 0/< STALE 6 7/
SWEEP G1/< 10 SWEPT G1 0/< SHEET G1 7/< END/

a report touches no group
@opened/@trade_10/
GIVEUP E1 L1 R1 A1 10/< 8 OK OFFERS 1 1/
SEE 0 G1/< SEEN G1 6/
PROPOSE 0/< PROPOSED 10/
REPORT E1 R3 M2 B XF6 1 100 H1/< 9 OK OPEN/
COMMIT 0/< 10 SWEPT G1 10/
@sheet_of_10/

a proposal is stale after a lowered limit
@opened/@trade_10/@proposed_4/
LIMIT G1 AGR P1 5/< 11 OK/
COMMIT 0/< STALE 8 9/
SWEEP G1/< 12 SWEPT G1 0/< SHEET G1 9/< OFFER 2 4 P1 E1 A1 C1/< ROOM EXEC E1 94/< ROOM AGR P1 0/< ROOM ACCT A1 94/< ROOM CARRY C1 94/< TAKE 2 0/< CUT AGR P1/< END/

a proposal is stale after a new day
@opened/@trade_10/@proposed_4/
DAY 20260106/< 11 OK/
COMMIT 0/< STALE 8 9/
SWEEP G1/< 12 SWEPT G1 4/< SHEET G1 9/< OFFER 2 4 P1 E1 A1 C1/< ROOM EXEC E1 100/< ROOM AGR P1 100/< ROOM ACCT A1 100/< ROOM CARRY C1 100/< TAKE 2 4/< CUT OFFER 2/< END/
DAY 20260106/< 13 NO 2 WrongDay/

a proposal is stale after a reversal
@opened/@trade_10/@proposed_4/
REVERSE C1 1/< 11 OK LOTS 6/
COMMIT 0/< STALE 8 9/";

#[test]
fn a_proposal_is_stale_after_what_touches_its_group(rt: HostRuntime) {
    check(&rt, rt.alloc(), "", STALE);
}

/// Workers that look, propose and commit.
const WORKERS: &str = "\
two workers sweep one group
@opened/@offered_7/
SEE 0 G1/< SEEN G1 6/
SEE 1 G1/< SEEN G1 6/
PROPOSE 0/< PROPOSED 7/
PROPOSE 1/< PROPOSED 7/
COMMIT 0/< 9 SWEPT G1 7/
@sheet_of_7/
COMMIT 1/< STALE 6 7/
COMMIT 1/< NOTHING/
PROPOSE 1/< NOTHING/

two workers sweep two groups
@opened/@trade_10/
GIVEUP E1 L1 R1 A1 10/< 8 OK OFFERS 1 1/
SEE 0 G1/< SEEN G1 6/
SEE 1 G2/< SEEN G2 1/
PROPOSE 0/< PROPOSED 10/
PROPOSE 1/< PROPOSED 0/
COMMIT 0/< 9 SWEPT G1 10/
@sheet_of_10/
COMMIT 1/< 10 SWEPT G2 0/< SHEET G2 1/< END/

a look at an unknown group keeps the older one
@opened/@offered_7/
SEE 0 G1/< SEEN G1 6/
PROPOSE 0/< PROPOSED 7/
SEE 0 G9/< UNKNOWN GROUP/
SWEEP G9/< UNKNOWN GROUP/
COMMIT 0/< 9 SWEPT G1 7/
@sheet_of_7/

a new look drops the proposal, and a commit of nothing keeps the look
@opened/@offered_7/
SEE 0 G1/< SEEN G1 6/
PROPOSE 0/< PROPOSED 7/
SEE 0 G1/< SEEN G1 6/
COMMIT 0/< NOTHING/
PROPOSE 0/< PROPOSED 7/
COMMIT 0/< 9 SWEPT G1 7/
@sheet_of_7/";

#[test]
fn workers_sweep_what_they_saw(rt: HostRuntime) {
    check(&rt, rt.alloc(), "", WORKERS);
}

/// What two offers may have taken: the lots of the first, `+`, and those of the second.
const WAYS_TO_13: &str = "3+10 4+9 5+8 6+7 7+6 8+5 9+4 10+3";

/// The same under one guarantor for two carrying firms with 8 lots each.
const WAYS_TO_10: &str = "2+8 3+7 4+6 5+5 6+4 7+3 8+2";

/// A guarantor with room for 10 lots, of two carrying firms with room for 8 each, and 10 lots for each, swept. The takes are left open.
const UNDER_A_GUARANTOR: &str = "\
DAY 20260105/< 1 OK/
LIMIT G1 EXEC E1 100/< 2 OK/
LIMIT G1 EXEC E2 100/< 3 OK/
LIMIT G1 AGR P1 100/< 4 OK/
LIMIT G1 AGR P4 100/< 5 OK/
LIMIT G1 ACCT A1 100/< 6 OK/
LIMIT G1 ACCT A3 100/< 7 OK/
LIMIT G1 CARRY C1 8/< 8 OK/
LIMIT G1 CARRY C2 8/< 9 OK/
LIMIT G1 GUAR E2 10/< 10 OK/
REPORT E1 R1 M1 B XF6 10 101.5 H1/< 11 OK OPEN/
REPORT E2 R2 M1 S XF6 10 101.5 H2/< 12 OK MATCHED/
GIVEUP E1 L1 R1 A1 10/< 13 OK OFFERS 1 1/
GIVEUP E2 L2 R2 A3 10/< 14 OK OFFERS 2 2/
SWEEP G1/< 15 SWEPT G1 10/< SHEET G1 12/< OFFER 1 10 P1 E1 A1 C1 E2/< OFFER 2 10 P4 E2 A3 C2 E2/< ROOM EXEC E1 100/< ROOM AGR P1 100/< ROOM ACCT A1 100/< ROOM CARRY C1 8/< ROOM GUAR E2 10/< ROOM EXEC E2 100/< ROOM AGR P4 100/< ROOM ACCT A3 100/< ROOM CARRY C2 8/< TAKE 1 @takes/< CUT GUAR E2/< END/";

/// Returns whether the outcome is the expected one, with one of these takes.
fn is_one_of(alloc: Global, told: &str, expected: &str, ways: &str) -> Result<bool, AllocError> {
    for way in ways.split(' ') {
        let takes = way.replace(alloc, "+", "/TAKE 2 ")?;
        if expected.replace(alloc, "@takes", &takes)?.as_str() == told {
            return Ok(true);
        }
    }
    Ok(false)
}

/// Asserts that the script of a transcript is answered so, with one of these takes.
fn check_ways(rt: &impl Abort, alloc: Global, rows: &str, transcript: &str, ways: &str) {
    let transcript = whole(alloc, transcript).expect(rt, "memory");
    let told = told(alloc, rows, &transcript).expect(rt, "memory");
    let expected = expected(alloc, "", &transcript).expect(rt, "memory");
    let is_one = is_one_of(alloc, &told, &expected, ways).expect(rt, "memory");
    assert!(rt; is_one, "{ways}: {told}");
}

#[test]
fn a_limit_over_two_accounts_or_two_firms_is_filled_in_some_way(rt: HostRuntime) {
    let alloc = rt.alloc();
    check_ways(&rt, alloc, "", "@under_a_carrying_firm/", WAYS_TO_13);
    let rows = "GUARANTOR,E2,C1\nGUARANTOR,E2,C2\n";
    check_ways(&rt, alloc, rows, UNDER_A_GUARANTOR, WAYS_TO_10);
}
