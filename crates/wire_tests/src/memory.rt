//! Calls that are refused memory, one a test, with few allocations before them. Each of these tests passes whichever of its
//! allocations fails, and if all of them fail from one on (tools/each-growth): a call that is refused memory says so, leaves what it
//! has as it was, and does at the second try what the row says, if there is memory then.
use crate::rows::{Subject, check};
use crate::talk::follow;

/// A message, and another one after it.
const FRONT: &str = "8=FIXT.1.1|9=5|35=0|10=241| -> 8=FIXT.1.1|9=5|35=0|10=241|SECOND";

/// Two messages in pieces of nine bytes: a piece is refused while what came before it is kept.
const PIECES: &str = "8=FIXT.1.1|9=5|35=0|10=241|8=FIXT.1.1|9=5|35=0|10=241| by 9 -> (2, 54)";

#[test]
fn refused_to_a_feed_leaves_the_piece_to_be_fed_again(rt: HostRuntime) {
    check(&rt, rt.alloc(), Subject::Fronts, FRONT);
    check(&rt, rt.alloc(), Subject::Pieces, PIECES);
}

#[test]
fn refused_to_an_intake_leaves_the_next_message_to_be_taken_again(rt: HostRuntime) {
    check(&rt, rt.alloc(), Subject::TakenAfter, FRONT);
    check(&rt, rt.alloc(), Subject::TakenIn, PIECES);
}

/// Fields, and fields with a fault: memory runs out.
const FIELDS: &str = "\
35=0|49=E1|56=GIVEUP|34=2|52=20260105-09:00:00| -> 8=FIXT.1.1|9=47|35=0|49=E1|56=GIVEUP|34=2|52=20260105-09:00:00|10=151|
35=0|49=| -> EmptyValue
";

#[test]
fn refused_to_fields_leaves_them_to_be_encoded_again(rt: HostRuntime) {
    check(&rt, rt.alloc(), Subject::Encoding, FIELDS);
}

/// What comes before give-ups.
const GIVE_UP: &str = "8=FIXT.1.1|9=100|10=000|35=J|49=E1|56=GIVEUP|34=2|52=x|70=L1|";

/// A give-up of two parts, and one with a fault.
const GIVE_UPS: &str = "\
71=0|53=10|124=1|17=R1|78=2|79=A1|80=4|79=A2|80=6| -> E1 gives up L1 of R1, 10 lots: A1 4 A2 6
53=9|124=1|17=R1|78=2|79=A1|80=4|80=5|79=A2| -> 80: 13
";

#[test]
fn refused_to_a_message_leaves_it_to_be_read_again(rt: HostRuntime) {
    check(&rt, rt.alloc(), Subject::Reading(GIVE_UP), GIVE_UPS);
}

/// A SequenceReset.
const RESET: &str = "\
106 1767603600000 -> 35=4|49=GIVEUP|56=E1|34=3|52=20260105-09:00:00.000|123=Y|36=106|";

#[test]
fn refused_to_a_message_leaves_it_to_be_written_again(rt: HostRuntime) {
    check(&rt, rt.alloc(), Subject::Written, RESET);
}

/// A report that is handed out, answered, and sent again.
const TALK: &str = "\
new goes on as it was when it is refused memory
in A 1 98=0|108=30|1137=9|
out A 1 98=0|108=30|1137=9|
in AE 2 571=R1|880=M1|55=XF6|32=10|31=101.5|552=1|54=1|1=H1|
hand E1 reports R1 of M1: H1 buys 10 XF6 at 101500000 on the open day
answer open
out AR 2 571=R1|880=M1|939=0|
in 2 3 7=2|16=0|
out AR 2 43=Y|122=20260105-09:00:00.000|571=R1|880=M1|939=0|
in AE 5 571=R1|880=M1|55=XF6|32=10|31=101.5|552=1|54=1|1=H1|
out 2 3 7=4|16=0|
";

#[test]
fn refused_to_a_session_leaves_the_input_to_be_given_again(rt: HostRuntime) {
    follow(&rt, rt.alloc(), TALK);
}
