//! Sheets and what a check of them answers. The first line of a case is its name; then come the sheet and, after ` -> `, what the check
//! reports. An empty line comes between two cases, and other ends of lines mean nothing.

use crate::engines::Engine;
use crate::rows::{check_told, told_of_text};
use std::alloc::{AllocError, Global};
use std::process::Abort;
use trials::{AMPLE, columns, joined};

/// The view of three offers that share an executing firm or an account by twos.
const VIEW: &str =
    "SHEET G1 11/OFFER 1 10 P1 E1 A1 C1/OFFER 2 12 P2 E1 A2 C1/OFFER 3 15 P3 E2 A1 C1/ROOM EXEC E1 10/ROOM AGR P1 100/ROOM ACCT A1 10/ROOM CARRY C1 100/ROOM AGR P2 100/ROOM ACCT A2 20/ROOM EXEC E2 20/ROOM AGR P3 100/";

/// Its takes, and a cut.
const OF_THREE_OFFERS: &str = "\
takes of three offers within all limits
TAKE 1 0/TAKE 2 10/TAKE 3 10/CUT EXEC E1/CUT ACCT A1/END/ -> done: OK 20/

more than a limit has room for
TAKE 1 0/TAKE 2 11/TAKE 3 10/CUT EXEC E1/CUT ACCT A1/END/ -> a fault: FAULT 2 OverLimit EXEC E1/

more than an offer has
TAKE 1 0/TAKE 2 13/TAKE 3 10/CUT EXEC E1/CUT ACCT A1/END/ -> a fault: FAULT 1 OverOffer 2/

less than the room of the cut
TAKE 1 0/TAKE 2 9/TAKE 3 10/CUT EXEC E1/CUT ACCT A1/END/ -> a fault: FAULT 4 RoomDiffers/

an offer outside the cut
TAKE 1 0/TAKE 2 10/TAKE 3 10/CUT EXEC E1/END/ -> a fault: FAULT 3 Uncovered 3/

takes of an unknown offer
TAKE 1 0/TAKE 2 10/TAKE 3 10/TAKE 9 1/CUT EXEC E1/CUT ACCT A1/END/ -> a fault: FAULT 5 Unknown OFFER 9/";

/// Other views, with takes and a cut.
const OF_OTHER_VIEWS: &str = "\
nothing is offered
SHEET G1 0/END/ -> done: OK 0/

a fourth offer, whose agreement has no room, outside the cut
SHEET G1 11/OFFER 1 10 P1 E1 A1 C1/OFFER 2 12 P2 E1 A2 C1/OFFER 3 15 P3 E2 A1 C1/OFFER 4 5 P4 E2 A3 C2/
ROOM EXEC E1 10/ROOM AGR P1 100/ROOM ACCT A1 10/ROOM CARRY C1 100/ROOM AGR P2 100/ROOM ACCT A2 20/ROOM EXEC E2 20/ROOM AGR P3 100/ROOM AGR P4 0/ROOM ACCT A3 100/ROOM CARRY C2 100/
TAKE 1 0/TAKE 2 10/TAKE 3 10/TAKE 4 0/CUT EXEC E1/CUT ACCT A1/END/ -> a fault: FAULT 3 Uncovered 4/

the fourth offer in the cut, by its agreement
SHEET G1 11/OFFER 1 10 P1 E1 A1 C1/OFFER 2 12 P2 E1 A2 C1/OFFER 3 15 P3 E2 A1 C1/OFFER 4 5 P4 E2 A3 C2/
ROOM EXEC E1 10/ROOM AGR P1 100/ROOM ACCT A1 10/ROOM CARRY C1 100/ROOM AGR P2 100/ROOM ACCT A2 20/ROOM EXEC E2 20/ROOM AGR P3 100/ROOM AGR P4 0/ROOM ACCT A3 100/ROOM CARRY C2 100/
TAKE 1 0/TAKE 2 10/TAKE 3 10/TAKE 4 0/CUT EXEC E1/CUT ACCT A1/CUT AGR P4/END/ -> done: OK 20/

one offer, which is in the cut itself
SHEET G1 6/OFFER 1 7 P1 E1 A1 C1/
ROOM EXEC E1 100/ROOM AGR P1 100/ROOM ACCT A1 100/ROOM CARRY C1 100/
TAKE 1 7/CUT OFFER 1/END/ -> done: OK 7/

two offers under one carrying firm's limit, taken in one of the ways that there are
SHEET G1 8/OFFER 1 10 P1 E1 A1 C1/OFFER 2 10 P2 E1 A2 C1/
ROOM EXEC E1 100/ROOM AGR P1 100/ROOM ACCT A1 10/ROOM CARRY C1 13/ROOM AGR P2 100/ROOM ACCT A2 10/
TAKE 1 10/TAKE 2 3/CUT CARRY C1/END/ -> done: OK 13/

two offers of one agreement, the newer one first
SHEET G1 6/OFFER 1 5 P1 E1 A1 C1/OFFER 2 5 P1 E1 A1 C1/
ROOM EXEC E1 100/ROOM AGR P1 7/ROOM ACCT A1 100/ROOM CARRY C1 100/
TAKE 1 2/TAKE 2 5/CUT AGR P1/END/ -> a fault: FAULT 6 NotOldestFirst 2/";

/// Texts that are no sheet, with the first bad line of each; nothing is answered.
const NO_SHEETS: &str = "\
no line at all
 -> bad line 1: 

no end
SHEET G1 0/ -> bad line 2: 

a line after the end
SHEET G1 0/END/END/ -> bad line 3: 

an offer before the sheet
OFFER 1 5 P1 E1 A1 C1/SHEET G1 0/END/ -> bad line 1: 

a room that is missing
SHEET G1 6/OFFER 1 5 P1 E1 A1 C1/
ROOM EXEC E1 100/ROOM AGR P1 7/ROOM ACCT A1 100/
TAKE 1 5/CUT AGR P1/END/ -> bad line 8: 

takes of an offer twice
SHEET G1 6/OFFER 1 5 P1 E1 A1 C1/OFFER 2 5 P1 E1 A1 C1/
ROOM EXEC E1 100/ROOM AGR P1 7/ROOM ACCT A1 100/ROOM CARRY C1 100/
TAKE 1 2/TAKE 1 2/TAKE 2 5/CUT AGR P1/END/ -> bad line 9: 

takes twice of an offer that there isn't
SHEET G1 0/TAKE 9 1/TAKE 9 1/END/ -> bad line 3: 

a key that no offer has twice in the cut
SHEET G1 0/CUT EXEC E1/CUT OFFER 9/CUT EXEC E1/END/ -> bad line 4: 

a line of 1,025 bytes, though it is a comment
SHEET G1 0/(#*1025)/END/ -> bad line 2: 

the same with a CR
SHEET G1 0/(#*1025)\r/END/ -> bad line 2: 

a bad line before the end whose view is none
SHEET G1 6/OFFER 1 5 P1 E1 A1 C1/TAKE 1 x/END/ -> bad line 3: 

a line that isn't silent after an end whose view is none
SHEET G1 6/OFFER 1 5 P1 E1 A1 C1/END/END/ -> bad line 3: ";

/// Returns the check's verdict on a sheet that begins with this view.
fn told(alloc: Global, view: &str, sheet: &str) -> Result<String, AllocError> {
    let text = joined(alloc, &[view, sheet])?;
    told_of_text(alloc, Engine::Check, &text.replace(alloc, "\n", "")?, AMPLE)
}

/// Asserts that the check's verdict on each case, after this view, is the one that the case says.
fn check(rt: &impl Abort, alloc: Global, view: &str, table: &str) {
    for case in table.split("\n\n") {
        let (name, rest) = case.split_once('\n').unwrap_or((case, ""));
        let (sheet, expected) = columns(rest);
        check_told(rt, name, told(alloc, view, sheet), expected);
    }
}

#[test]
fn a_sheet_is_answered_by_its_verdict_and_a_bad_line_by_its_number(rt: HostRuntime) {
    check(&rt, rt.alloc(), VIEW, OF_THREE_OFFERS);
    check(&rt, rt.alloc(), "", OF_OTHER_VIEWS);
    check(&rt, rt.alloc(), "", NO_SHEETS);
}
