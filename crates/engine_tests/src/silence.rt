//! Connections whose line is silent: notices of what others did, heartbeats, a test request, and the logout, on time.

use crate::exchanges::check_cases;

/// C1 logs on, and receives E1's offer while it sends nothing. Its Logon at nine is its last message.
const TIMES: &str = "\
a silent firm gets notices, and then what its interval asks for: DAY 20260105/REPORT E1 R1 M1 B XF6 10 101.5 H1/REPORT E2 R2 M1 S XF6 10 101.5 H2/ -> 4
firm C1
in A 1 98=0|108=30|1137=9|
out A 1 98=0|108=30|1137=9|
clock 09:00:00.100
silence
out AS 2 755=1|71=0|794=8|87=6|55=XF6|54=1|53=10|6=101.5|75=20260105|78=1|79=A1|80=10|
clock 09:00:00.200
silence
clock 09:00:30.099
silence
clock 09:00:30.100
silence
out 0 3
clock 09:01:00.000
silence
out 1 4 112=TEST|
clock 09:01:29.999
silence
clock 09:01:30.000
silence
out 5 5 58=Silent|";

/// A firm that hasn't logged on is sent nothing, however long it is silent; and its Logon is answered as ever.
const UNKNOWN: &str = "\
nothing happens before the logon: DAY 20260105/ -> 1
firm C1
silence
clock 09:05:00.000
silence
in A 1 98=0|108=30|1137=9|
out A 1 98=0|108=30|1137=9|
silence

an interval of 0 asks for nothing: DAY 20260105/ -> 1
firm C1
in A 1 98=0|108=0|1137=9|
out A 1 98=0|108=0|1137=9|
clock 09:05:00.000
silence
in 5 2
out 5 2";

#[test]
fn a_silent_firm_is_told_what_others_did_and_what_its_interval_asks_for(rt: HostRuntime) {
    check_cases(&rt, rt.alloc(), "GIVEUP E1 L1 R1 A1 10", TIMES);
}

#[test]
fn before_the_logon_silence_brings_nothing(rt: HostRuntime) {
    check_cases(&rt, rt.alloc(), "", UNKNOWN);
}
