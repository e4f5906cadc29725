//! What a session does by the number of a message.
use crate::talk::follow;

/// Conversations, each named for what it shows.
const TALKS: &str = "\
new asks for the gap: a report at 3 where 2 is expected is asked for; at 2 it is handed out once
in A 1 98=0|108=30|1137=9|
out A 1 98=0|108=30|1137=9|
in AE 3 571=R1|880=M1|55=XF6|32=10|31=101.5|552=1|54=1|1=H1|
out 2 2 7=2|16=0|
in AE 2 571=R1|880=M1|55=XF6|32=10|31=101.5|552=1|54=1|1=H1|
hand E1 reports R1 of M1: H1 buys 10 XF6 at 101500000 on the open day
answer open
out AR 3 571=R1|880=M1|939=0|
in AE 2 43=Y|571=R1|880=M1|55=XF6|32=10|31=101.5|552=1|54=1|1=H1|
in AE 2 571=R1|880=M1|55=XF6|32=10|31=101.5|552=1|54=1|1=H1|
out 5 4 58=SeqTooLow|
close
in 0 3
tick
notice matched
answer open
end
new asks for the gap each time: each message above the gap is asked for again, whatever its parties are and whatever is wrong with it
in A 1 98=0|108=30|1137=9|
out A 1 98=0|108=30|1137=9|
in AE 5 571=R1|880=M1|55=XF6|32=10|31=101.5|552=1|54=1|1=H1|
out 2 2 7=2|16=0|
in AE 4 571=R1|880=M1|55=XF6|32=10|31=101.5|552=1|54=1|1=H1|
out 2 3 7=2|16=0|
body 35=0|49=E9|56=X|34=3|52=x|
out 2 4 7=2|16=0|
in A 9 98=0|108=30|1137=9|
out 2 5 7=2|16=0|
in J 1000000000
out 2 6 7=2|16=0|
in AE 2 43=Y|571=R1|880=M1|55=XF6|32=10|31=101.5|552=1|54=1|1=H1|
hand E1 reports R1 of M1: H1 buys 10 XF6 at 101500000 on the open day
in 0 3 43=Y|
in 0 4
in 0 6
out 2 7 7=5|16=0|
new serves a request above the gap: a ResendRequest above the gap is served, and then the gap is asked for
in A 1 98=0|108=30|1137=9|
out A 1 98=0|108=30|1137=9|
in 2 7 7=1|16=0|
out 4 1 43=Y|122=20260105-09:00:00.000|123=Y|36=2|
out 2 2 7=2|16=0|
in 2 7 7=0|16=0|
out 2 3 7=2|16=0|
new takes leave above the gap: a Logout above the gap ends the session, sound or not
in A 1 98=0|108=30|1137=9|
out A 1 98=0|108=30|1137=9|
in 5 7
out 5 2
close
new takes leave above the gap
in A 1 98=0|108=30|1137=9|
out A 1 98=0|108=30|1137=9|
body 35=5|49=E9|49=E9|34=7|
out 5 2
close
new ends where a number is used again: a number that was used gives nothing where PossDupFlag is yes and stands once, and else ends the session
in A 1 98=0|108=30|1137=9|
out A 1 98=0|108=30|1137=9|
in 0 1 43=Y|
in D 1 43=Y|58=x|
in 5 1 43=Y|
body 35=0|49=E9|34=1|43=Y|
in 0 1 43=N|
out 5 2 58=SeqTooLow|
close
new ends where a number is used again
in A 1 98=0|108=30|1137=9|
out A 1 98=0|108=30|1137=9|
in 0 1 43=Y|43=Y|
out 5 2 58=SeqTooLow|
close
new ends where a number is used again
in A 1 98=0|108=30|1137=9|
out A 1 98=0|108=30|1137=9|
in 0 1 43=YX|
out 5 2 58=SeqTooLow|
close
new ends where a number is used again
in A 1 98=0|108=30|1137=9|
out A 1 98=0|108=30|1137=9|
in 5 1
out 5 2 58=SeqTooLow|
close
new ends where a number is used again
in A 1 98=0|108=30|1137=9|
out A 1 98=0|108=30|1137=9|
in A 1 98=0|108=30|1137=9|
out 5 2 58=SeqTooLow|
close
new ends where a message has no number: a number that is missing, stands twice or is none of 1 to 1,000,000,000 ends the session
in A 1 98=0|108=30|1137=9|
out A 1 98=0|108=30|1137=9|
body 35=0|49=E1|56=GIVEUP|52=x|
out 5 2 58=BadSeqNum|
close
new ends where a message has no number
in A 1 98=0|108=30|1137=9|
out A 1 98=0|108=30|1137=9|
body 35=0|49=E1|56=GIVEUP|34=2|34=2|52=x|
out 5 2 58=BadSeqNum|
close
new ends where a message has no number
in A 1 98=0|108=30|1137=9|
out A 1 98=0|108=30|1137=9|
in 0 0
out 5 2 58=BadSeqNum|
close
new ends where a message has no number
in A 1 98=0|108=30|1137=9|
out A 1 98=0|108=30|1137=9|
in 0 1000000001
out 5 2 58=BadSeqNum|
close
new ends where a message has no number
in A 1 98=0|108=30|1137=9|
out A 1 98=0|108=30|1137=9|
in 0 2x
out 5 2 58=BadSeqNum|
close
new ends where a message has no number
in A 1 98=0|108=30|1137=9|
out A 1 98=0|108=30|1137=9|
in 0 -2
out 5 2 58=BadSeqNum|
close
new ends where a message has no number
in A 1 98=0|108=30|1137=9|
out A 1 98=0|108=30|1137=9|
body 35=0|49=E1|56=GIVEUP|34=|52=x|
out 5 2 58=BadSeqNum|
close
new ends where a message has no number
in A 1 98=0|108=30|1137=9|
out A 1 98=0|108=30|1137=9|
in 0 99999999999999999999 43=Y|
out 5 2 58=BadSeqNum|
close
new ends where a message has no number
in A 1 98=0|108=30|1137=9|
out A 1 98=0|108=30|1137=9|
body 35=5|52=x|
out 5 2 58=BadSeqNum|
close
new resets the number that is expected: a reset sets the number that is expected, whatever its own is, and uses none; one below is rejected, and nothing changes
in A 1 98=0|108=30|1137=9|
out A 1 98=0|108=30|1137=9|
in 4 2 123=N|36=7|
in 4 7 123=N|36=3|
out 3 2 45=7|371=36|372=4|373=5|
in 0 7
in 4 500 36=9|
in 4 1 123=N|36=9|
in 4 9 123=N|36=8|
out 3 3 45=9|371=36|372=4|373=5|
body 35=4|49=E9|56=X|34=1|52=x|36=9|
in 0 9
in 0 11
out 2 4 7=10|16=0|
new counts up to the greatest number: the greatest number is used, and then everything is below
in A 1 98=0|108=30|1137=9|
out A 1 98=0|108=30|1137=9|
in 4 2 123=N|36=1000000000|
in AE 1000000000 571=R1|880=M1|55=XF6|32=10|31=101.5|552=1|54=1|1=H1|
hand E1 reports R1 of M1: H1 buys 10 XF6 at 101500000 on the open day
answer open
out AR 2 571=R1|880=M1|939=0|
in 0 1000000000 43=Y|
in 4 1 123=N|36=1000000000|
out 3 3 45=1|371=36|372=4|373=5|
in 0 1000000000
out 5 4 58=SeqTooLow|
close
new fills a gap: a gap fill with the number that is expected sets the next; one that leads nowhere is rejected, and its number is used
in A 1 98=0|108=30|1137=9|
out A 1 98=0|108=30|1137=9|
in 4 2 123=Y|36=5|
in 4 5 123=Y|36=5|
out 3 2 45=5|371=36|372=4|373=5|
in 4 6 123=Y|36=1|
out 3 3 45=6|371=36|372=4|373=5|
in 0 7
in 4 9 123=Y|36=20|
out 2 4 7=8|16=0|
in 4 7 43=Y|123=Y|36=20|
in 4 8 123=Y|36=9|
in 0 9
new goes on as it was when it is refused memory: something is handed out, answered, and sent again
in A 1 98=0|108=30|1137=9|
out A 1 98=0|108=30|1137=9|
in AE 3 571=R1|880=M1|55=XF6|32=10|31=101.5|552=1|54=1|1=H1|
out 2 2 7=2|16=0|
in AE 2 571=R1|880=M1|55=XF6|32=10|31=101.5|552=1|54=1|1=H1|
hand E1 reports R1 of M1: H1 buys 10 XF6 at 101500000 on the open day
answer open
out AR 3 571=R1|880=M1|939=0|
in 2 3 7=1|16=0|
out 4 1 43=Y|122=20260105-09:00:00.000|123=Y|36=3|
out AR 3 43=Y|122=20260105-09:00:00.000|571=R1|880=M1|939=0|
in AE 2 43=Y|571=R1|880=M1|55=XF6|32=10|31=101.5|552=1|54=1|1=H1|
in AE 2 571=R1|880=M1|55=XF6|32=10|31=101.5|552=1|54=1|1=H1|
out 5 4 58=SeqTooLow|
close
";

#[test]
fn messages_are_taken_by_their_numbers(rt: HostRuntime) {
    follow(&rt, rt.alloc(), TALKS);
}
