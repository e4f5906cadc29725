//! Deadlines: the Logon, heartbeats, the Logout of a firm that is silent, and how long a worker waits.

use crate::floors::{NO_JOURNAL, Setting};
use crate::steps::check_plays;

/// On a day without a trade.
const TIMES: &str = "\
a worker without connections waits until it is woken
round
waits ever
rung 0 0

a firm that doesn't log on in 30 s is closed without a byte
1:E1 comes
rounds 2
clock 09:00:20.000
1:E1 raw 8=FIXT
round
waits 1000
clock 09:00:29.500
round
waits 500
clock 09:00:29.999
round
1:E1 open
clock 09:00:30.000
round
1:E1 closed
host 1 1 1 0
round
waits ever

one that logs on in time is served
1:E1 comes
rounds 2
clock 09:00:29.999
1:E1 in A 1 98=0|108=0|1137=9|
round
1:E1 out A 1 98=0|108=0|1137=9|
clock 09:00:30.000
round
1:E1 open
host 1 0 0 1

a silent firm is sent a Heartbeat, a TestRequest and a Logout, and has a second to end the connection
1:E1 comes
1:E1 in A 1 98=0|108=30|1137=9|
rounds 2
1:E1 out A 1 98=0|108=30|1137=9|
clock 09:00:29.999
round
waits 1
clock 09:00:30.000
round
1:E1 out 0 2
clock 09:01:00.000
round
1:E1 out 1 3 112=TEST|
clock 09:01:29.999
round
clock 09:01:30.000
round
1:E1 out 5 4 58=Silent|
1:E1 hung
host 1 0 0 0
clock 09:01:30.999
round
1:E1 open
clock 09:01:31.000
round
1:E1 closed
host 1 1 0 0

one that answers the TestRequest is served on
1:E1 comes
1:E1 in A 1 98=0|108=30|1137=9|
rounds 2
1:E1 out A 1 98=0|108=30|1137=9|
clock 09:00:30.000
round
1:E1 out 0 2
clock 09:01:00.000
round
1:E1 out 1 3 112=TEST|
clock 09:01:10.000
1:E1 in 0 2 112=TEST|
round
clock 09:01:29.999
round
clock 09:01:30.000
round
1:E1 out 0 4
1:E1 open

two connections have their deadlines, whichever comes first
1:E1 comes
1:E1 in A 1 98=0|108=30|1137=9|
rounds 2
1:E1 out A 1 98=0|108=30|1137=9|
clock 09:00:10.000
2:E2 comes
2:E2 in A 1 98=0|108=5|1137=9|
rounds 2
2:E2 out A 1 98=0|108=5|1137=9|
clock 09:00:14.999
round
waits 1
clock 09:00:15.000
round
2:E2 out 0 2
2:E2 in 0 2
round
clock 09:00:20.000
round
2:E2 out 0 3
2:E2 in 0 3
round
clock 09:00:25.000
round
2:E2 out 0 4
2:E2 in 0 4
round
clock 09:00:30.000
round
1:E1 out 0 2
2:E2 out 0 5";

#[test]
fn deadlines_are_met_by_the_clock_alone(rt: HostRuntime) {
    let setting = Setting {
        script: "DAY 20260105/",
        wires: 2,
        workers: 1,
        places: 2,
        kept: NO_JOURNAL,
        secrets: "",
        looks: false,
    };
    check_plays(&rt, rt.alloc(), setting, TIMES);
}
