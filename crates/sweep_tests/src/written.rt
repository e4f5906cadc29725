//! Sheets as they are written: in the order of the view, whatever the order in which they were made.
use crate::rows::{Subject, check};
use crate::sheets::Question;

/// Sheets, and how they are written: one of an offer that is taken in full, one of three agreements of which one takes nothing, one
/// with an offer of which nothing is taken, one with two offers of one agreement, one with an offer under a guarantor, one without offers,
/// one whose takes and cut name what the view lacks, and two of carrying firms with a guarantor and without.
const WRITTEN: &str = "\
alone:TAKE 1 7|CUT OFFER 1| -> \
    SHEET G1 6|OFFER 1 7 P1 E1 A1 C1|\
    ROOM EXEC E1 100|ROOM AGR P1 100|ROOM ACCT A1 100|ROOM CARRY C1 100|\
    TAKE 1 7|CUT OFFER 1|END|
crossed:TAKE 3 10|TAKE 2 10|CUT ACCT A1|CUT EXEC E1| -> \
    SHEET G1 11|OFFER 1 10 P1 E1 A1 C1|OFFER 2 12 P2 E1 A2 C1|OFFER 3 15 P3 E2 A1 C1|\
    ROOM EXEC E1 10|ROOM AGR P1 100|ROOM ACCT A1 10|ROOM CARRY C1 100|\
    ROOM AGR P2 100|ROOM ACCT A2 20|ROOM EXEC E2 20|ROOM AGR P3 100|\
    TAKE 1 0|TAKE 2 10|TAKE 3 10|CUT EXEC E1|CUT ACCT A1|END|
full:CUT AGR P1| -> \
    SHEET G1 9|OFFER 2 4 P1 E1 A1 C1|\
    ROOM EXEC E1 94|ROOM AGR P1 0|ROOM ACCT A1 94|ROOM CARRY C1 94|\
    TAKE 2 0|CUT AGR P1|END|
shared:TAKE 2 2|TAKE 1 5|CUT AGR P1| -> \
    SHEET G1 7|OFFER 1 5 P1 E1 A1 C1|OFFER 2 5 P1 E1 A1 C1|\
    ROOM EXEC E1 100|ROOM AGR P1 7|ROOM ACCT A1 100|ROOM CARRY C1 100|\
    TAKE 1 5|TAKE 2 2|CUT AGR P1|END|
guaranteed:TAKE 1 4|CUT GUAR E2| -> \
    SHEET G1 7|OFFER 1 10 P1 E1 A1 C1 E2|\
    ROOM EXEC E1 100|ROOM AGR P1 100|ROOM ACCT A1 100|ROOM CARRY C1 100|ROOM GUAR E2 4|\
    TAKE 1 4|CUT GUAR E2|END|
SHEET G1 999999999999|END| -> SHEET G1 999999999999|END|
shared:TAKE 1 3|TAKE 9 5|TAKE 2 4|CUT OFFER 9|CUT ACCT A9|CUT OFFER 2|CUT OFFER 1| -> \
    SHEET G1 7|OFFER 1 5 P1 E1 A1 C1|OFFER 2 5 P1 E1 A1 C1|\
    ROOM EXEC E1 100|ROOM AGR P1 7|ROOM ACCT A1 100|ROOM CARRY C1 100|\
    TAKE 1 3|TAKE 2 4|CUT OFFER 1|CUT OFFER 2|END|
mixed: -> \
    SHEET G1 0|OFFER 1 10 P1 E1 A1 C1 E2|OFFER 2 10 P4 E2 A3 C2|\
    ROOM EXEC E1 100|ROOM AGR P1 100|ROOM ACCT A1 100|ROOM CARRY C1 8|ROOM GUAR E2 3|\
    ROOM EXEC E2 100|ROOM AGR P4 100|ROOM ACCT A3 100|ROOM CARRY C2 8|TAKE 1 0|TAKE 2 0|END|
both: -> \
    SHEET G1 12|OFFER 1 10 P1 E1 A1 C1 E2|OFFER 2 10 P4 E2 A3 C2 E2|\
    ROOM EXEC E1 100|ROOM AGR P1 100|ROOM ACCT A1 100|ROOM CARRY C1 8|ROOM GUAR E2 10|\
    ROOM EXEC E2 100|ROOM AGR P4 100|ROOM ACCT A3 100|ROOM CARRY C2 8|TAKE 1 0|TAKE 2 0|END|
";

/// Sheets, and whether their view, takes and cut are the same once they are written and read back.
const READ_BACK: &str = "\
alone:TAKE 1 7|CUT OFFER 1| -> true true true
crossed:TAKE 1 0|TAKE 2 10|TAKE 3 10|CUT EXEC E1|CUT ACCT A1| -> true true true
shared:TAKE 1 5|TAKE 2 999999999999|CUT AGR P1| -> true true true
guaranteed:TAKE 1 4|CUT GUAR E2|CUT OFFER 1| -> true true true
unlimited:TAKE 1 0|CUT GUAR E2| -> true true true
both:TAKE 1 8|TAKE 2 2|CUT GUAR E2| -> true true true
mixed:TAKE 1 3|TAKE 2 8|CUT GUAR E2|CUT CARRY C2| -> true true true
";

#[test]
fn sheets_stand_in_the_order_of_their_view_and_are_read_back(rt: HostRuntime) {
    check(&rt, rt.alloc(), Subject::Sheets(Question::Written), WRITTEN);
    check(
        &rt,
        rt.alloc(),
        Subject::Sheets(Question::ReadBack),
        READ_BACK,
    );
}
