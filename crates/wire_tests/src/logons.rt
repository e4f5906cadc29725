//! What a session does before a firm is logged on.
use crate::talk::follow;

/// Conversations, each named for what it shows.
const TALKS: &str = "\
new answers a logon: a Logon for a heartbeat each half minute, and its answer, byte by byte
firm
in A 1 98=0|108=30|1137=9|
sent 8=FIXT.1.1|9=70|35=A|49=GIVEUP|56=E1|34=1|52=20260105-09:00:00.000|98=0|108=30|1137=9|10=189|
firm E1
new answers a logon as it was asked for: the interval is written as a number, and ResetSeqNumFlag only where it was set. PossDupFlag is no fault
in A 1 98=0|108=030|1137=009|141=Y|
out A 1 98=0|108=30|1137=9|141=Y|
new answers a logon as it was asked for
in A 1 43=Y|98=0|108=0|1137=9|141=N|
out A 1 98=0|108=0|1137=9|
new answers a logon as it was asked for
body 35=A|49=E2|56=GIVEUP|34=1|52=x|98=0|108=3600|1137=9|
sent 8=FIXT.1.1|9=72|35=A|49=GIVEUP|56=E2|34=1|52=20260105-09:00:00.000|98=0|108=3600|1137=9|10=038|
firm E2
new asks for what a logon leaves out: a Logon with number 5: all from 1 on is asked for, the Logon's own number too
in A 5 98=0|108=30|1137=9|
out A 1 98=0|108=30|1137=9|
out 2 2 7=1|16=0|
in 4 1 43=Y|123=Y|36=6|
in AE 6 571=R1|880=M1|55=XF6|32=10|31=101.5|552=1|54=1|1=H1|
hand E1 reports R1 of M1: H1 buys 10 XF6 at 101500000 on the open day
new asks again for a logon that is sent again: the Logon's own number is to be filled: a second Logon there ends the session
in A 2 98=0|108=30|1137=9|
out A 1 98=0|108=30|1137=9|
out 2 2 7=1|16=0|
in A 1 43=Y|98=0|108=30|1137=9|
out 5 3 58=LoggedOn|
close
new leaves a stranger without a byte: before a firm is logged on anything but a sound Logon of one of the firms to the house ends the session without a byte
in 0 1
close
firm
in A 1 98=0|108=30|1137=9|
new leaves a stranger without a byte
in A 1 98=0|108=30|
close
firm
new leaves a stranger without a byte
in A 1 98=1|108=30|1137=9|
close
firm
new leaves a stranger without a byte
in A 0 98=0|108=30|1137=9|
close
firm
new leaves a stranger without a byte
in A 1000000001 98=0|108=30|1137=9|
close
firm
new leaves a stranger without a byte
in D 1 58=x|
close
firm
new leaves a stranger without a byte
body 35=A|49=E9|56=GIVEUP|34=1|52=x|98=0|108=30|1137=9|
close
firm
new leaves a stranger without a byte
body 35=A|49=e1|56=GIVEUP|34=1|52=x|98=0|108=30|1137=9|
close
firm
new leaves a stranger without a byte
body 35=A|49=E1|56=GIVEU|34=1|52=x|98=0|108=30|1137=9|
close
firm
new leaves a stranger without a byte
body 35=A|56=GIVEUP|34=1|52=x|98=0|108=30|1137=9|
close
firm
new leaves a stranger without a byte
body 35=A|49=E1|56=GIVEUP|52=x|98=0|108=30|1137=9|
close
firm
new leaves a stranger without a byte
body 35=A|49=E1|56=GIVEUP|34=1|52=x|98=0|108=30|1137=9|=|
close
firm
new leaves a stranger without a byte
in 5 1
close
firm
new leaves a stranger without a byte
in 4 1 123=N|36=5|
close
firm
new has nothing to say before the logon: notices and time give nothing before a firm is logged on, and the end is the end
notice matched
notice offered
tick
now 12:00:00.000
tick
in A 1 98=0|108=30|1137=9|
out A 1 98=0|108=30|1137=9|
end
close
firm E1
new has nothing to say before the logon
end
close
end
new answers a logon that resets the numbers and asks for no heartbeat
in A 1 98=0|108=0|1137=9|141=Y|
out A 1 98=0|108=0|1137=9|141=Y|
";

#[test]
fn a_firm_logs_on(rt: HostRuntime) {
    follow(&rt, rt.alloc(), TALKS);
}
