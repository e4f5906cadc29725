//! Connections of firms to one book. The messages sent are worked out by hand.

use crate::exchanges::check_cases;

/// A connection that says nothing, faulty messages at the expected number, each by itself, and a firm that isn't known.
const REJECTED: &str = "\
an empty stream is answered by nothing:  -> 0
firm E1

a report without 880 is rejected: DAY 20260105/ -> 1
firm E1
in A 1 98=0|108=30|1137=9|
out A 1 98=0|108=30|1137=9|
in AE 2 571=R1|55=XF6|32=10|31=101.5|552=1|54=1|1=H1|
out 3 2 45=2|371=880|372=AE|373=1|

a report with fewer sides than it says is rejected: DAY 20260105/ -> 1
firm E1
in A 1 98=0|108=30|1137=9|
out A 1 98=0|108=30|1137=9|
in AE 2 571=R1|880=M1|55=XF6|32=10|31=101.5|552=2|54=1|1=H1|
out 3 2 45=2|371=552|372=AE|373=16|

a report with two sides is rejected: DAY 20260105/ -> 1
firm E1
in A 1 98=0|108=30|1137=9|
out A 1 98=0|108=30|1137=9|
in AE 2 571=R1|880=M1|55=XF6|32=10|31=101.5|552=2|54=1|1=H1|54=2|1=H2|
out 3 2 45=2|371=552|372=AE|373=5|

a message of a type that the house doesn't know is rejected: DAY 20260105/ -> 1
firm E1
in A 1 98=0|108=30|1137=9|
out A 1 98=0|108=30|1137=9|
in D 2 11=X|
out j 2 45=2|372=D|380=3|

a firm that the reference lacks may log on, and is answered by the rules: DAY 20260105/ -> 2
firm E9
in A 1 98=0|108=0|1137=9|
out A 1 98=0|108=0|1137=9|
in AE 2 571=R1|880=M1|55=XF6|32=10|31=101.5|552=1|54=1|1=H1|
out AR 2 571=R1|880=M1|939=1|751=1|58=NotYours|";

#[test]
fn faulty_messages_are_rejected_and_an_unknown_firm_is_served(rt: HostRuntime) {
    check_cases(&rt, rt.alloc(), "", REJECTED);
}

/// On the path of P1, with limits of 100, a trade of ten lots of E1 with E2 is given up by E1, which receives its notice; C1 receives the
/// offer and claims it, once, and asks for what it claimed; E1 asks for another firm's account.
const SHARED: &str = "\
connections one after another share a book: DAY 20260105/LIMIT G1 EXEC E1 100/LIMIT G1 AGR P1 100/LIMIT G1 ACCT A1 100/LIMIT G1 CARRY C1 100/REPORT E1 R1 M1 B XF6 10 101.5 H1/REPORT E2 R2 M1 S XF6 10 101.5 H2/ -> 10
firm E1
in A 1 98=0|108=30|1137=9|
out A 1 98=0|108=30|1137=9|
out AE 2 571=7-B|572=R1|573=0|880=M1|55=XF6|32=10|31=101.5|75=20260105|552=1|54=1|1=H1|
in J 2 70=L1|71=0|53=10|124=1|17=R1|78=1|79=A1|80=10|
out P 3 70=L1|87=0|
firm C1
in A 1 98=0|108=30|1137=9|
out A 1 98=0|108=30|1137=9|
out AS 2 755=1|71=0|794=8|87=6|55=XF6|54=1|53=10|6=101.5|75=20260105|78=1|79=A1|80=10|
in AT 2 755=1|87=0|
out AS 3 755=1|71=0|794=9|87=0|55=XF6|54=1|53=10|6=101.5|75=20260105|78=1|79=A1|80=10|
in AT 3 755=1|87=0|
out j 4 45=3|379=1|372=AT|380=0|58=OfferClosed|
firm C1
in A 1 98=0|108=30|1137=9|
out A 1 98=0|108=30|1137=9|
out AS 2 755=1|71=0|794=8|87=6|55=XF6|54=1|53=10|6=101.5|75=20260105|78=1|79=A1|80=10|
out AS 3 755=1|71=0|794=9|87=0|55=XF6|54=1|53=10|6=101.5|75=20260105|78=1|79=A1|80=10|
in AN 2 710=Q1|724=0|1=A1|
out AO 4 721=Q1-0|710=Q1|728=0|729=0|727=1|1=A1|
out AP 5 721=Q1-1|710=Q1|728=0|715=20260105|1=A1|55=XF6|702=1|703=TQ|704=10|705=0|
firm E1
in A 1 98=0|108=30|1137=9|
out A 1 98=0|108=30|1137=9|
out AE 2 571=7-B|572=R1|573=0|880=M1|55=XF6|32=10|31=101.5|75=20260105|552=1|54=1|1=H1|
out AS 3 755=1|71=0|794=9|87=0|55=XF6|54=1|53=10|6=101.5|75=20260105|78=1|79=A1|80=10|
in AN 2 710=Q1|724=0|1=A1|
out AO 4 721=Q1-0|710=Q1|728=3|729=2|727=0|1=A1|";

#[test]
fn connections_one_after_another_share_a_book(rt: HostRuntime) {
    check_cases(&rt, rt.alloc(), "", SHARED);
}

/// Connections in which time passes.
const IN_TIME: &str = "\
bytes that are no message don't end the silence: DAY 20260105/ -> 1
firm E1
in A 1 98=0|108=30|1137=9|
out A 1 98=0|108=30|1137=9|
clock 09:00:30.000
raw x
out 0 2
clock 09:01:00.000
raw x
out 1 3 112=TEST|
clock 09:01:30.000
raw x
out 5 4 58=Silent|

a read with two messages has one tick, behind both; the first is silent, and the second answered: DAY 20260105/ -> 1
firm E1
in A 1 98=0|108=30|1137=9|
out A 1 98=0|108=30|1137=9|
clock 09:00:30.000
in 0 2
and 1 3 112=X|
out 0 2 112=X|";

#[test]
fn time_passes_with_each_read(rt: HostRuntime) {
    check_cases(&rt, rt.alloc(), "", IN_TIME);
}

/// Gaps on both sides.
const GAPS: &str = "\
what was sent is sent again, and takes no new number: DAY 20260105/ -> 2
firm E1
in A 1 98=0|108=30|1137=9|
out A 1 98=0|108=30|1137=9|
clock 09:00:01.250
in AE 2 571=R1|880=M1|55=XF6|32=10|31=101.5|75=20260105|552=1|54=1|1=H1|
out AR 2 571=R1|880=M1|939=0|
clock 09:00:02.000
in 2 3 7=1|16=0|
out 4 1 43=Y|122=20260105-09:00:02.000|123=Y|36=2|
out AR 2 43=Y|122=20260105-09:00:01.250|571=R1|880=M1|939=0|

a Logon above 1 is taken, and the numbers before are asked for and filled: DAY 20260105/ -> 2
firm E1
in A 5 98=0|108=30|1137=9|
out A 1 98=0|108=30|1137=9|
out 2 2 7=1|16=0|
in 4 1 43=Y|123=Y|36=6|
in AE 6 571=R1|880=M1|55=XF6|32=10|31=101.5|75=20260105|552=1|54=1|1=H1|
out AR 3 571=R1|880=M1|939=0|

a SequenceReset to a number below the expected one changes nothing: DAY 20260105/ -> 1
firm E1
in A 1 98=0|108=30|1137=9|
out A 1 98=0|108=30|1137=9|
in 4 9 123=N|36=7|
in 4 9 123=N|36=3|
out 3 2 45=9|371=36|372=4|373=5|
in 0 7
in 0 9
out 2 3 7=8|16=0|";

#[test]
fn gaps_are_filled_on_both_sides(rt: HostRuntime) {
    check_cases(&rt, rt.alloc(), "", GAPS);
}

/// Openings of the longest message, at the end of the input, before a message, and with one inside.
const OPENINGS: &str = "\
an opening of the longest message alone is answered by nothing: DAY 20260105/ -> 1
firm E1
raw 8=FIXT.1.1|9=65510|

nothing is lost but the opening where the input ends: DAY 20260105/ -> 2
firm E1
in A 1 98=0|108=0|1137=9|
out A 1 98=0|108=0|1137=9|
in AE 2 571=R1|880=M1|55=XF6|32=10|31=101.5|75=20260105|552=1|54=1|1=H1|
out AR 2 571=R1|880=M1|939=0|
raw 8=FIXT.1.1|9=65510|

nor where a message comes: DAY 20260105/ -> 2
firm E1
raw 8=FIXT.1.1|9=65510|
in A 1 98=0|108=0|1137=9|
out A 1 98=0|108=0|1137=9|
raw 8=FIXT.1.1|9=65510|
in AE 2 571=R1|880=M1|55=XF6|32=10|31=101.5|75=20260105|552=1|54=1|1=H1|
out AR 2 571=R1|880=M1|939=0|

what may be inside the message waits with it: DAY 20260105/ -> 1
firm E1
in A 1 98=0|108=0|1137=9|
out A 1 98=0|108=0|1137=9|
raw 8=FIXT.1.1|9=65510|35=
in AE 2 571=R1|880=M1|55=XF6|32=10|31=101.5|75=20260105|552=1|54=1|1=H1|";

#[test]
fn an_opening_of_the_longest_message_keeps_the_stream_open(rt: HostRuntime) {
    check_cases(&rt, rt.alloc(), "", OPENINGS);
}

/// The counterpart of a report is entered as soon as the Logon was answered.
const TOLD_LATER: &str = "\
what was entered since the last notices is told behind the next message, and not at a read without one: DAY 20260105/REPORT E1 R1 M1 B XF6 10 101.5 H1/ -> 3
firm E1
in A 1 98=0|108=0|1137=9|
out A 1 98=0|108=0|1137=9|
raw x
raw y
in 0 2
out AE 2 571=3-B|572=R1|573=0|880=M1|55=XF6|32=10|31=101.5|75=20260105|552=1|54=1|1=H1|";

#[test]
fn notices_come_after_a_message(rt: HostRuntime) {
    let report = "REPORT E2 R2 M1 S XF6 10 101.5 H2";
    check_cases(&rt, rt.alloc(), report, TOLD_LATER);
}

/// Memory is short for the first command.
const FOR_MEMORY: &str = "\
a report that isn't entered for want of memory is entered when it comes again under a new number: DAY 20260105/ -> 2
firm E1
in A 1 98=0|108=0|1137=9|
out A 1 98=0|108=0|1137=9|
in AE 2 571=R1|880=M1|55=XF6|32=10|31=101.5|552=1|54=1|1=H1|
out AR 2 571=R1|880=M1|939=1|751=99|58=Memory|
in AE 3 571=R1|880=M1|55=XF6|32=10|31=101.5|552=1|54=1|1=H1|
out AR 3 571=R1|880=M1|939=0|";

/// The book is full at the first command.
const FOR_ROOM: &str = "\
a report that isn't entered into a full book is entered when it comes again under a new number: DAY 20260105/ -> 2
firm E1
in A 1 98=0|108=0|1137=9|
out A 1 98=0|108=0|1137=9|
in AE 2 571=R1|880=M1|55=XF6|32=10|31=101.5|552=1|54=1|1=H1|
out AR 2 571=R1|880=M1|939=1|751=99|58=Full|
in AE 3 571=R1|880=M1|55=XF6|32=10|31=101.5|552=1|54=1|1=H1|
out AR 3 571=R1|880=M1|939=0|";

#[test]
fn a_command_that_is_left_out_is_answered_and_the_session_goes_on(rt: HostRuntime) {
    check_cases(&rt, rt.alloc(), "Memory", FOR_MEMORY);
    check_cases(&rt, rt.alloc(), "Full", FOR_ROOM);
}
