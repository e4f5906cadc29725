//! What a session sends again.
use crate::talk::follow;

/// Conversations, each named for what it shows.
const TALKS: &str = "\
new sends again what was kept: application messages are sent again with their number, marked, and with the moment of their first sending; the rest is filled, and no number is used
in A 1 98=0|108=30|1137=9|
out A 1 98=0|108=30|1137=9|
now 09:00:01.250
in AE 2 571=R1|880=M1|55=XF6|32=10|31=101.5|552=1|54=1|1=H1|
hand E1 reports R1 of M1: H1 buys 10 XF6 at 101500000 on the open day
answer open
out AR 2 571=R1|880=M1|939=0|
now 09:00:02.000
in 2 3 7=1|16=0|
out 4 1 43=Y|122=20260105-09:00:02.000|123=Y|36=2|
out AR 2 43=Y|122=20260105-09:00:01.250|571=R1|880=M1|939=0|
now 09:00:03.000
in 2 4 7=2|16=2|
out AR 2 43=Y|122=20260105-09:00:01.250|571=R1|880=M1|939=0|
in 1 5 112=x|
out 0 3 112=x|
in D 6 58=x|
out j 4 45=6|372=D|380=3|
in 1 7 112=y|
out 0 5 112=y|
in 1 8 112=z|
out 0 6 112=z|
now 09:00:04.000
in 2 9 7=1|16=99|
out 4 1 43=Y|122=20260105-09:00:04.000|123=Y|36=2|
out AR 2 43=Y|122=20260105-09:00:01.250|571=R1|880=M1|939=0|
out 4 3 43=Y|122=20260105-09:00:04.000|123=Y|36=4|
out j 4 43=Y|122=20260105-09:00:03.000|45=6|372=D|380=3|
out 4 5 43=Y|122=20260105-09:00:04.000|123=Y|36=7|
in 2 10 7=3|16=5|
out 4 3 43=Y|122=20260105-09:00:04.000|123=Y|36=4|
out j 4 43=Y|122=20260105-09:00:03.000|45=6|372=D|380=3|
out 4 5 43=Y|122=20260105-09:00:04.000|123=Y|36=6|
in 2 11 7=7|16=0|
in 2 12 7=1000000000|16=1000000000|
in 2 13 7=3|16=3|
out 4 3 43=Y|122=20260105-09:00:04.000|123=Y|36=4|
in 2 14 7=4|16=3|
out 3 7 45=14|371=16|372=2|373=5|
new fills what is asked for and no more: a run of session messages is cut to what is asked for
in A 1 98=0|108=30|1137=9|
out A 1 98=0|108=30|1137=9|
in 1 2 112=a|
out 0 2 112=a|
in 1 3 112=b|
out 0 3 112=b|
in 1 4 112=c|
out 0 4 112=c|
in 2 5 7=1|16=2|
out 4 1 43=Y|122=20260105-09:00:00.000|123=Y|36=3|
in 2 6 7=2|16=0|
out 4 2 43=Y|122=20260105-09:00:00.000|123=Y|36=5|
in 2 7 7=4|16=1000000000|
out 4 4 43=Y|122=20260105-09:00:00.000|123=Y|36=5|
in 2 8 7=3|16=5|
out 4 3 43=Y|122=20260105-09:00:00.000|123=Y|36=5|
new sends the last 4,096 again of 4,200 reports that were denied one after another
in A 1 98=0|108=30|1137=9|
out A 1 98=0|108=30|1137=9|
each 2 4201 in AE # 571=R#|880=M1|55=XF6|32=10|31=101.5|552=1|54=1|1=H1|; hand E1 reports R# of M1: H1 buys 10 XF6 at 101500000 on the open day; answer NoDay; out AR # 571=R#|880=M1|939=1|751=99|58=NoDay|
in 2 4202 7=1|16=0|
out 4 1 43=Y|122=20260105-09:00:00.000|123=Y|36=106|
each 106 4201 out AR # 43=Y|122=20260105-09:00:00.000|571=R#|880=M1|939=1|751=99|58=NoDay|
";

#[test]
fn what_was_sent_is_sent_again_as_it_was(rt: HostRuntime) {
    follow(&rt, rt.alloc(), TALKS);
}
