//! What a session does with what is faulty, and with messages of its own.
use crate::talk::follow;

/// Conversations, each named for what it shows.
const TALKS: &str = "\
new rejects what is faulty: the first fault is named; the number is used
in A 1 98=0|108=30|1137=9|
out A 1 98=0|108=30|1137=9|
in AE 2 571=R1|55=XF6|32=10|31=101.5|552=1|54=1|1=H1|
out 3 2 45=2|371=880|372=AE|373=1|
in AE 3 571=R1|880=M1|55=XF6|32=10|31=101.5|552=2|54=1|1=H1|
out 3 3 45=3|371=552|372=AE|373=16|
in AE 4 571=R1|880=M1|55=XF6|32=10|31=101.5|552=2|54=1|1=H1|54=2|1=H2|
out 3 4 45=4|371=552|372=AE|373=5|
in D 5 58=x|
out j 5 45=5|372=D|380=3|
body 35=0|49=E1|=x|56=GIVEUP|34=0006|52=x|
out 3 6 45=6|372=0|373=0|
body 35=AE|49=E1|58=|56=GIVEUP|34=7|52=x|
out 3 7 45=7|371=58|372=AE|373=4|
body 35=A-B|49=E1|56=GIVEUP|34=8|52=x|
out 3 8 45=8|371=35|373=11|
body 35=|49=E1|56=GIVEUP|34=9|52=x|
out 3 9 45=9|371=35|373=4|
in 5 10 52=x|
out 3 10 45=10|371=52|372=5|373=13|
in A 11 98=0|
out 3 11 45=11|371=108|372=A|373=1|
in ae 12
out j 12 45=12|372=ae|380=3|
in 0 13
new ends where a party is wrong: a sender that isn't the firm, then a target that isn't the house, is rejected once, and the session ends; nothing else is looked at
in A 1 98=0|108=30|1137=9|
out A 1 98=0|108=30|1137=9|
body 35=AE|49=E2|56=X|34=2|52=x|=|
out 3 2 45=2|371=49|372=AE|373=9|
out 5 3 58=CompId|
close
new ends where a party is wrong
in A 1 98=0|108=30|1137=9|
out A 1 98=0|108=30|1137=9|
body 35=0|49=E1|56=GIVEUPX|34=2|52=x|
out 3 2 45=2|371=56|372=0|373=9|
out 5 3 58=CompId|
close
new ends where a party is wrong
in A 1 98=0|108=30|1137=9|
out A 1 98=0|108=30|1137=9|
body 35=0|56=GIVEUP|34=2|52=x|
out 3 2 45=2|371=49|372=0|373=9|
out 5 3 58=CompId|
close
new ends where a party is wrong
in A 1 98=0|108=30|1137=9|
out A 1 98=0|108=30|1137=9|
body 35=0|49=E1|56=GIVEUP|56=GIVEUP|34=2|52=x|
out 3 2 45=2|371=56|372=0|373=9|
out 5 3 58=CompId|
close
new ends where a party is wrong
in A 1 98=0|108=30|1137=9|
out A 1 98=0|108=30|1137=9|
body 35=0|49=|56=GIVEUP|34=2|52=x|
out 3 2 45=2|371=49|372=0|373=9|
out 5 3 58=CompId|
close
new ends where a party is wrong
in A 1 98=0|108=30|1137=9|
out A 1 98=0|108=30|1137=9|
body 35=AE|49=e1|56=GIVEUP|34=2|52=x|
out 3 2 45=2|371=49|372=AE|373=9|
out 5 3 58=CompId|
close
new answers a test request: a TestRequest is answered with its id; a Heartbeat and a Reject by nothing
in A 1 98=0|108=30|1137=9|
out A 1 98=0|108=30|1137=9|
in 1 2 112=TEST A|
out 0 2 112=TEST A|
in 0 3 112=x|
in 0 4
in 3 5 45=1|
in 1 6 112=|
out 3 3 45=6|371=112|372=1|373=4|
in 1 7 112=A=B|
out 0 4 112=A=B|
new takes leave: a Logout is answered by one, and a second Logon by the reason
in A 1 98=0|108=30|1137=9|
out A 1 98=0|108=30|1137=9|
in 5 2 58=bye|
out 5 2
close
firm E1
in 0 3
end
new takes leave
in A 1 98=0|108=30|1137=9|
out A 1 98=0|108=30|1137=9|
in A 2 98=0|108=30|1137=9|
out 5 2 58=LoggedOn|
close
new answers a TestRequest of 1,024 bytes and rejects a longer one
in A 1 98=0|108=30|1137=9|
out A 1 98=0|108=30|1137=9|
in 1 2 112={x*1024}|
out 0 2 112={x*1024}|
in 1 3 112={x*1025}|
out 3 3 45=3|371=112|372=1|373=5|
in 1 4 112=a =b|
out 0 4 112=a =b|
";

#[test]
fn what_is_faulty_is_rejected_and_questions_are_answered(rt: HostRuntime) {
    follow(&rt, rt.alloc(), TALKS);
}
