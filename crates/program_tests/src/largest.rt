//! Engines at their largest: thousands of reports, and sheets of as many offers and rooms as a view may have.

use crate::engines::Engine;
use crate::rows::{check, check_told, told_of_text};
use trials::{AMPLE, Talk, front_told};

/// Reports of a trade each, and their acknowledgements. Nothing is held in the end.
const REPORTS: &str = "\
clock 00:00:00.000
(in AE % 571=R%|880=M%|55=XF6|32=10|31=101.5|552=1|54=1|1=H1|
*3000)(out AR % 571=R%|880=M%|939=0|
*3000)";

#[test]
fn thousands_of_reports_are_accepted(rt: HostRuntime) {
    let alloc = rt.alloc();
    let talk = Talk::of(alloc, "E1", REPORTS).expect(&rt, "memory");
    let expected = front_told(alloc, "done: all", &talk.output).expect(&rt, "memory");
    let told = told_of_text(alloc, Engine::Capture, &talk.input, AMPLE);
    check_told(&rt, "3,000 reports", told, &expected);
}

/// A sheet that takes one lot of each of 4,096 offers of one agreement; one offer more is bad at END, after 1 + 4,097 + 4 + 4,097 + 1
/// lines; a bad line after it is named first.
const SHEETS: &str = "\
SHEET G1 1/(OFFER % 1 P1 E1 A1 C1/*4096)ROOM EXEC E1 4096/ROOM AGR P1 4096/ROOM ACCT A1 4096/ROOM CARRY C1 4096/(TAKE % 1/*4096)CUT AGR P1/END/ -> done: OK 4096/
SHEET G1 1/(OFFER % 1 P1 E1 A1 C1/*4097)ROOM EXEC E1 4097/ROOM AGR P1 4097/ROOM ACCT A1 4097/ROOM CARRY C1 4097/(TAKE % 1/*4097)CUT AGR P1/END/ -> bad line 8201: 
SHEET G1 1/(OFFER % 1 P1 E1 A1 C1/*5000)OFFER 0 1 P1 E1 A1 C1/END/ -> bad line 5002: 
";

#[test]
fn a_sheet_of_as_many_offers_as_there_may_be_is_checked(rt: HostRuntime) {
    check(&rt, rt.alloc(), Engine::Check, "", SHEETS);
}

/// A sheet of 4,096 offers with five keys each, none of which two offers share. One room more is bad at END, after 1 + 4,096 + 20,481 +
/// 4,096 + 4,096 lines; so are 20,481 rooms and no offer.
const ROOMS: &str = "\
SHEET G1 1/(OFFER % 1 P% E% A% C% G%/*4096)(ROOM EXEC E% 1/*4096)(ROOM AGR P% 1/*4096)(ROOM ACCT A% 1/*4096)(ROOM CARRY C% 1/*4096)(ROOM GUAR G% 1/*4096)(TAKE % 1/*4096)(CUT AGR P%/*4096)END/ -> done: OK 4096/
SHEET G1 1/(OFFER % 1 P% E% A% C% G%/*4096)(ROOM EXEC E% 1/*4096)(ROOM AGR P% 1/*4096)(ROOM ACCT A% 1/*4096)(ROOM CARRY C% 1/*4096)(ROOM GUAR G% 1/*4096)ROOM EXEC E1 1/(TAKE % 1/*4096)(CUT AGR P%/*4096)END/ -> bad line 32771: 
SHEET G1 1/(ROOM EXEC E% 1/*20481)END/ -> bad line 20483: 
SHEET G1 1/(ROOM EXEC E% 1/*20500)ROOM EXEC E1/END/ -> bad line 20502: 
";

#[test]
fn a_sheet_of_as_many_rooms_as_there_may_be_is_checked(rt: HostRuntime) {
    check(&rt, rt.alloc(), Engine::Check, "", ROOMS);
}
