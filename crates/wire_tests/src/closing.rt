//! What a session does as the house closes.
use crate::talk::follow;

/// Conversations, each named for what it shows.
const TALKS: &str = "\
new sends a firm the logout of a house that closes: byte by byte, and nothing after it
in A 1 98=0|108=30|1137=9|
out A 1 98=0|108=30|1137=9|
now 17:30:00.000
closing
sent 8=FIXT.1.1|9=62|35=5|49=GIVEUP|56=E1|34=2|52=20260105-17:30:00.000|58=Closing|10=211|
close
firm E1
in 5 2
tick
closing
end
new leaves a stranger without a byte as the house closes: and nobody logs on after it
closing
close
firm
in A 1 98=0|108=30|1137=9|
closing
new sends no second logout: the firm has logged out already
in A 1 98=0|108=30|1137=9|
out A 1 98=0|108=30|1137=9|
in 5 2
out 5 2
close
closing
new closes with a gap open: what was asked for again isn't waited for
in A 1 98=0|108=30|1137=9|
out A 1 98=0|108=30|1137=9|
in 0 5
out 2 2 7=2|16=0|
closing
out 5 3 58=Closing|
close
in 0 2 43=Y|
new closes while an answer is awaited: it is dropped
in A 1 98=0|108=30|1137=9|
out A 1 98=0|108=30|1137=9|
in AE 2 571=R1|880=M1|55=XF6|32=10|31=101.5|552=1|54=1|1=H1|
hand E1 reports R1 of M1: H1 buys 10 XF6 at 101500000 on the open day
closing
out 5 2 58=Closing|
close
answer matched
new closes at the greatest number that a firm may send: its own numbers go on from one
in A 1 98=0|108=30|1137=9|
out A 1 98=0|108=30|1137=9|
in 4 2 123=N|36=1000000000|
in 0 1000000000
closing
out 5 2 58=Closing|
close
";

#[test]
fn a_house_that_closes_sends_a_logout_once(rt: HostRuntime) {
    follow(&rt, rt.alloc(), TALKS);
}
