//! Views that several tests speak of, and the sheets of rows.
use crate::rows::meant;
use std::alloc::{AllocError, Global};

/// A block a view, with its name in front, and in brackets what it shows.
const VIEWS: &str = "\
empty (no offers)
SHEET G1 0

alone (one offer, with room for it)
SHEET G1 6
OFFER 1 7 P1 E1 A1 C1
ROOM CARRY C1 100
ROOM EXEC E1 100
ROOM ACCT A1 100
ROOM AGR P1 100

crossed (three agreements: oldest first over the group would take 10)
SHEET G1 11
OFFER 1 10 P1 E1 A1 C1
OFFER 2 12 P2 E1 A2 C1
OFFER 3 15 P3 E2 A1 C1
ROOM EXEC E2 20
ROOM ACCT A2 20
ROOM AGR P2 100
ROOM CARRY C1 100
ROOM ACCT A1 10
ROOM AGR P1 100
ROOM EXEC E1 10
ROOM AGR P3 100

four (three agreements and one more, under which there is no room)
SHEET G1 11
OFFER 1 10 P1 E1 A1 C1
OFFER 2 12 P2 E1 A2 C1
OFFER 3 15 P3 E2 A1 C1
OFFER 4 5 P4 E2 A3 C2
ROOM EXEC E1 10
ROOM AGR P1 100
ROOM ACCT A1 10
ROOM CARRY C1 100
ROOM AGR P2 100
ROOM ACCT A2 20
ROOM EXEC E2 20
ROOM AGR P3 100
ROOM AGR P4 0
ROOM ACCT A3 100
ROOM CARRY C2 100

shared (two offers of one agreement, with less room than both have)
SHEET G1 7
OFFER 1 5 P1 E1 A1 C1
OFFER 2 5 P1 E1 A1 C1
ROOM CARRY C1 100
ROOM ACCT A1 100
ROOM AGR P1 7
ROOM EXEC E1 100

wider (the same, with more room under their agreement)
SHEET G1 7
OFFER 1 5 P1 E1 A1 C1
OFFER 2 5 P1 E1 A1 C1
ROOM CARRY C1 100
ROOM ACCT A1 100
ROOM AGR P1 8
ROOM EXEC E1 100

full (an agreement without room)
SHEET G1 9
OFFER 2 4 P1 E1 A1 C1
ROOM EXEC E1 94
ROOM AGR P1 0
ROOM ACCT A1 94
ROOM CARRY C1 94

narrow (two agreements behind one carrying firm with less room than both accounts)
SHEET G1 0
OFFER 1 10 P1 E1 A1 C1
OFFER 2 10 P2 E1 A2 C1
ROOM EXEC E1 100
ROOM AGR P1 100
ROOM AGR P2 100
ROOM ACCT A1 10
ROOM ACCT A2 10
ROOM CARRY C1 13

long (a carrying firm with a name of twelve bytes)
SHEET G1 0
OFFER 1 7 P1 E1 A1 ABCDEFGHIJKL
ROOM EXEC E1 100
ROOM AGR P1 100
ROOM ACCT A1 100
ROOM CARRY ABCDEFGHIJKL 6

moved (one account under two carrying firms)
SHEET G1 0
OFFER 1 5 P1 E1 A1 C1
OFFER 2 5 P2 E2 A1 C2
ROOM EXEC E1 100
ROOM EXEC E2 100
ROOM AGR P1 100
ROOM AGR P2 100
ROOM ACCT A1 100
ROOM CARRY C1 100
ROOM CARRY C2 100

guaranteed (a carrying firm with a guarantor, with room everywhere but under the guarantor)
SHEET G1 7
OFFER 1 10 P1 E1 A1 C1 E2
ROOM EXEC E1 100
ROOM AGR P1 100
ROOM ACCT A1 100
ROOM CARRY C1 100
ROOM GUAR E2 4

unlimited (the same offer, where no limit was set for the guarantor)
SHEET G1 6
OFFER 1 10 P1 E1 A1 C1 E2
ROOM EXEC E1 100
ROOM AGR P1 100
ROOM ACCT A1 100
ROOM CARRY C1 100
ROOM GUAR E2 0

both (two carrying firms under one guarantor)
SHEET G1 12
OFFER 1 10 P1 E1 A1 C1 E2
OFFER 2 10 P4 E2 A3 C2 E2
ROOM EXEC E1 100
ROOM AGR P1 100
ROOM ACCT A1 100
ROOM CARRY C1 8
ROOM GUAR E2 10
ROOM EXEC E2 100
ROOM AGR P4 100
ROOM ACCT A3 100
ROOM CARRY C2 8

mixed (two carrying firms, of which the first alone has a guarantor)
SHEET G1 0
OFFER 1 10 P1 E1 A1 C1 E2
OFFER 2 10 P4 E2 A3 C2
ROOM EXEC E1 100
ROOM AGR P1 100
ROOM ACCT A1 100
ROOM CARRY C1 8
ROOM GUAR E2 3
ROOM EXEC E2 100
ROOM AGR P4 100
ROOM ACCT A3 100
ROOM CARRY C2 8

torn (one carrying firm under two guarantors)
SHEET G1 0
OFFER 1 5 P1 E1 A1 C1 E2
OFFER 2 5 P2 E1 A2 C1 C2
ROOM EXEC E1 100
ROOM AGR P1 100
ROOM AGR P2 100
ROOM ACCT A1 100
ROOM ACCT A2 100
ROOM CARRY C1 100
ROOM GUAR E2 100
ROOM GUAR C2 100

once (one carrying firm that has a guarantor on one path alone)
SHEET G1 0
OFFER 1 5 P1 E1 A1 C1
OFFER 2 5 P2 E1 A2 C1 E2
ROOM EXEC E1 100
ROOM AGR P1 100
ROOM AGR P2 100
ROOM ACCT A1 100
ROOM ACCT A2 100
ROOM CARRY C1 100
ROOM GUAR E2 100

creeping (a chain: firm n has accounts n and n - 1, and each account has room for one lot more than a firm fills. What firm 5 \
would fill of account 4 goes through all firms down to firm 1, so searches find one way each, and a surge brings the rest)
SHEET G1 11
OFFER 1 1000000 P1 E4 A4 C1
OFFER 2 1000000 P2 E3 A3 C1
OFFER 3 1000000 P3 E2 A2 C1
OFFER 4 1000000 P4 E1 A1 C1
OFFER 5 1000000 P5 E5 A4 C1
OFFER 6 1000000 P6 E4 A3 C1
OFFER 7 1000000 P7 E3 A2 C1
OFFER 8 1000000 P8 E2 A1 C1
ROOM EXEC E4 1000
ROOM AGR P1 1000000000
ROOM ACCT A4 1001
ROOM CARRY C1 1000000000
ROOM EXEC E3 1000
ROOM AGR P2 1000000000
ROOM ACCT A3 1001
ROOM EXEC E2 1000
ROOM AGR P3 1000000000
ROOM ACCT A2 1001
ROOM EXEC E1 1004
ROOM AGR P4 1000000000
ROOM ACCT A1 1001
ROOM EXEC E5 1000
ROOM AGR P5 1000000000
ROOM AGR P6 1000000000
ROOM AGR P7 1000000000
ROOM AGR P8 1000000000";

/// Returns the name of a block's view, and the view.
fn named(block: &str) -> (&str, &str) {
    let (head, view) = block.split_once('\n').unwrap_or((block, ""));
    let (name, _) = head.split_once(" (").unwrap_or((head, ""));
    (name, view)
}

/// Returns the view of this name, without the end of its last line.
fn view_named(name: &str) -> &'static str {
    for block in VIEWS.split("\n\n") {
        let (found, view) = named(block);
        if found == name {
            return view;
        }
    }
    ""
}

/// Returns the text that a row speaks of. After the name of a view and `:` come the lines between its rooms and its end; else the
/// row has the whole text.
pub fn sheet_text_of(alloc: Global, asked: &str) -> Result<String, AllocError> {
    match asked.split_once(':') {
        Some((name, rest)) => {
            let rest = meant(alloc, rest)?;
            format!(in alloc; "{}\n{rest}END\n", view_named(name))
        }
        None => meant(alloc, asked),
    }
}
