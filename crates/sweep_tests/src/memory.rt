//! Calls that are refused memory: run with each allocation failing in turn, and with all of them failing from one on
//! (tools/each-growth). What is refused memory is asked again, and what a call answers then, if there is memory, is as it would have
//! been.
use crate::rows::{Subject, check_again};
use crate::sheets::Question;
use crate::sweep::Telling;

/// A view of offers and rooms, and its copy.
const VIEWS: &str = "\
1 5 P1 EXEC E1,AGR P1,ACCT A1,CARRY C1|2 5 P1 EXEC E1,AGR P1,ACCT A1,CARRY C1\
/100 EXEC E1|7 AGR P1|100 ACCT A1|100 CARRY C1 -> true true";

#[test]
fn refused_to_a_view_or_its_copy_leaves_it_to_be_made_again(rt: HostRuntime) {
    check_again(&rt, rt.alloc(), Subject::Views, VIEWS);
}

/// A sweep of one agreement: the line that a check answers, its takes and its cut.
const SWEEP: &str = "shared: -> 7 OK 7|TAKE 1 5|TAKE 2 2|CUT AGR P1|END|";

/// A sweep with a surge: four accounts with room for 1,001 lots each, and firms with room for more.
const SURGE: &str = "creeping: -> 4004";

#[test]
fn refused_to_a_proposal_gives_the_view_back(rt: HostRuntime) {
    let takes = Subject::Sheets(Question::Sweep(Telling::Takes));
    check_again(&rt, rt.alloc(), takes, SWEEP);
    let lots = Subject::Sheets(Question::Sweep(Telling::Lots));
    check_again(&rt, rt.alloc(), lots, SURGE);
}

const VERDICTS: &str = "shared:TAKE 2 2|TAKE 1 5|CUT AGR P1| -> OK 7|";

const WRITTEN: &str = "\
shared:TAKE 2 2|TAKE 1 5|CUT AGR P1| -> \
    SHEET G1 7|OFFER 1 5 P1 E1 A1 C1|OFFER 2 5 P1 E1 A1 C1|\
    ROOM EXEC E1 100|ROOM AGR P1 7|ROOM ACCT A1 100|ROOM CARRY C1 100|\
    TAKE 1 5|TAKE 2 2|CUT AGR P1|END|";

#[test]
fn refused_to_a_sheet_or_its_text_leaves_it_to_be_read_and_written_again(rt: HostRuntime) {
    check_again(
        &rt,
        rt.alloc(),
        Subject::Sheets(Question::Verdict),
        VERDICTS,
    );
    check_again(&rt, rt.alloc(), Subject::Sheets(Question::Written), WRITTEN);
}

const LINES: &str = "\
GIVEUP E1 L1 R1 A1 1 A2 2 A3 3 A4 4 A5 5 A6 6 -> give up E1 L1 R1: A1 1 A2 2 A3 3 A4 4 A5 5 A6 6
REPORT E1 R1 M1 B XF6 10 101.5 H1 -> report E1 R1 M1 Buy XF6 H1 10 101500000 false
SWEEP G1 -> sweep G1 -";

#[test]
fn refused_to_a_line_leaves_it_to_be_read_again(rt: HostRuntime) {
    check_again(&rt, rt.alloc(), Subject::Lines, LINES);
}
