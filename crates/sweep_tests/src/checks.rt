//! Takes and a cut of a view beside the line that a check of them answers, and which views are nested.
use crate::rows::{Subject, check};
use crate::sheets::Question;

/// Executing firm and account have room for 10 + 10 lots. Takes come before the cut, and the cut's keys before its offers.
const OF_THREE_AGREEMENTS: &str = "\
crossed:TAKE 3 10|TAKE 2 10|TAKE 1 0|CUT EXEC E1|CUT ACCT A1| -> OK 20|
crossed:TAKE 2 9|TAKE 3 10|CUT EXEC E1|CUT ACCT A1| -> FAULT 4 RoomDiffers|
crossed:TAKE 2 13|TAKE 3 10|CUT EXEC E1|CUT ACCT A1| -> FAULT 1 OverOffer 2|
crossed:TAKE 2 11|TAKE 3 10|CUT EXEC E1|CUT ACCT A1| -> FAULT 2 OverLimit EXEC E1|
crossed:TAKE 2 10|TAKE 3 10|CUT EXEC E1| -> FAULT 3 Uncovered 3|
crossed:TAKE 2 10|TAKE 3 10| -> FAULT 3 Uncovered 1|
crossed:TAKE 2 10|TAKE 3 10|TAKE 9 1|CUT EXEC E1|CUT ACCT A1| -> FAULT 5 Unknown OFFER 9|
crossed:TAKE 2 10|TAKE 3 10|CUT ACCT A3| -> FAULT 5 Unknown ACCT A3|
crossed:TAKE 9 0|CUT OFFER 8|CUT ACCT A3| -> FAULT 5 Unknown OFFER 9|
crossed:TAKE 2 13|CUT OFFER 8|CUT ACCT A3| -> FAULT 5 Unknown ACCT A3|
crossed:TAKE 2 10|TAKE 3 10|CUT GUAR E2| -> FAULT 5 Unknown GUAR E2|
";

/// The oldest offer of an agreement comes first, before what the cut lacks.
const OF_ONE_AGREEMENT: &str = "\
shared:TAKE 1 2|TAKE 2 5|CUT AGR P1| -> FAULT 6 NotOldestFirst 2|
shared:TAKE 1 2|TAKE 2 5| -> FAULT 6 NotOldestFirst 2|
shared:TAKE 1 5|TAKE 2 2|CUT AGR P1| -> OK 7|
";

/// A further offer is covered by its agreement, under which there is no room.
const OF_FOUR_AGREEMENTS: &str = "\
four:TAKE 2 10|TAKE 3 10|TAKE 4 0|CUT EXEC E1|CUT ACCT A1| -> FAULT 3 Uncovered 4|
four:TAKE 2 10|TAKE 3 10|TAKE 4 0|CUT EXEC E1|CUT ACCT A1|CUT AGR P4| -> OK 20|
";

/// A guarantor's room bounds all that its firms carry, and one key of the cut covers them.
const UNDER_GUARANTORS: &str = "\
guaranteed:TAKE 1 4|CUT GUAR E2| -> OK 4|
guaranteed:TAKE 1 5|CUT GUAR E2| -> FAULT 2 OverLimit GUAR E2|
unlimited:TAKE 1 0|CUT GUAR E2| -> OK 0|
both:TAKE 1 8|TAKE 2 2|CUT GUAR E2| -> OK 10|
both:TAKE 1 8|TAKE 2 8|CUT CARRY C1|CUT CARRY C2| -> FAULT 2 OverLimit GUAR E2|
mixed:TAKE 1 3|TAKE 2 8|CUT GUAR E2|CUT CARRY C2| -> OK 11|
mixed:TAKE 1 3|TAKE 2 8|CUT GUAR E2| -> FAULT 3 Uncovered 2|
";

/// Keys of each kind, long names and high numbers at fault.
const WORDS: &str = "\
long:TAKE 1 7| -> FAULT 2 OverLimit CARRY ABCDEFGHIJKL|
empty: -> OK 0|
empty:CUT EXEC E1| -> FAULT 5 Unknown EXEC E1|
empty:CUT EXEC E2| -> FAULT 5 Unknown EXEC E2|
empty:CUT AGR P4| -> FAULT 5 Unknown AGR P4|
empty:CUT ACCT A-3| -> FAULT 5 Unknown ACCT A-3|
empty:CUT GUAR E2| -> FAULT 5 Unknown GUAR E2|
empty:CUT OFFER 16000000| -> FAULT 5 Unknown OFFER 16000000|
";

#[test]
fn name_the_first_fault_or_the_lots_taken(rt: HostRuntime) {
    let subject = Subject::Sheets(Question::Verdict);
    check(&rt, rt.alloc(), subject, OF_THREE_AGREEMENTS);
    check(&rt, rt.alloc(), subject, OF_ONE_AGREEMENT);
    check(&rt, rt.alloc(), subject, OF_FOUR_AGREEMENTS);
    check(&rt, rt.alloc(), subject, UNDER_GUARANTORS);
    check(&rt, rt.alloc(), subject, WORDS);
}

/// An account has one carrying firm, and a carrying firm one guarantor or none.
const NESTED: &str = "\
crossed: -> true
moved: -> false
empty: -> true
both: -> true
mixed: -> true
torn: -> false
once: -> false
";

/// Two views are the same only with the same rooms.
const SHARED: &str = "\
shared: -> true true true
wider: -> false true true
";

#[test]
fn tell_nested_views_and_the_same(rt: HostRuntime) {
    check(&rt, rt.alloc(), Subject::Sheets(Question::IsNested), NESTED);
    check(&rt, rt.alloc(), Subject::Sheets(Question::IsShared), SHARED);
}
