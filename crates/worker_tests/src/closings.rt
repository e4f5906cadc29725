//! The close of a day: a Logout to each firm, what is read and dropped after it, and how long it takes at most.

use crate::floors::{NO_JOURNAL, Setting};
use crate::steps::check_plays;

/// A trade of 10,000 lots of E1 with E2, of which E1 gave up 960 in as many lines.
const OFFERS: &str =
    "DAY 20260105/REPORT E1 R1 M1 B XF6 10000 101.5 H1/REPORT E2 R2 M1 S XF6 10000 101.5 H2/(GIVEUP E1 L% R1 A1 1 A1 1 A1 1 A1 1 A1 1 A1 1 A1 1 A1 1 A1 1 A1 1 A1 1 A1 1 A1 1 A1 1 A1 1 A1 1/*1..60)";

/// The day is closed while firms are connected.
const CLOSE: &str = "\
each firm is sent a Logout; what it sends after that is read and isn't entered; it has 10 s to end the connection
1:E1 comes
2:C2 comes
3:E2 comes
1:E1 in A 1 98=0|108=30|1137=9|
2:C2 in A 1 98=0|108=30|1137=9|
rounds 2
1:E1 out A 1 98=0|108=30|1137=9|
1:E1 out AE 2 571=3-B|572=R1|573=0|880=M1|55=XF6|32=10000|31=101.5|75=20260105|552=1|54=1|1=H1|
2:C2 out A 1 98=0|108=30|1137=9|
round
close
rung 0 4
round
waits 0
1:E1 out 5 3 58=Closing|
2:C2 out 5 2 58=Closing|
1:E1 hung
2:C2 hung
3:E2 hung
host 3 0 0 0
1:E1 in J 2 70=L61|71=0|53=1|124=1|17=R1|78=1|79=A1|80=1|
1:E1 in 5 3
rounds 2
1:E1 unread 0
1:E1 open
1:E1 ends
round
1:E1 closed
clock 09:00:00.999
round
3:E2 open
clock 09:00:01.000
round
3:E2 closed
clock 09:00:09.999
round
2:C2 open
clock 09:00:10.000
round
2:C2 closed
host 3 3 0 0
entries 63
round
waits ever
last
round
over

what wasn't read when the day is closed isn't answered, and one that comes then is closed without a byte
1:E1 comes
1:E1 in A 1 98=0|108=30|1137=9|
rounds 2
1:E1 out A 1 98=0|108=30|1137=9|
1:E1 out AE 2 571=3-B|572=R1|573=0|880=M1|55=XF6|32=10000|31=101.5|75=20260105|552=1|54=1|1=H1|
1:E1 in J 2 70=L61|71=0|53=1|124=1|17=R1|78=1|79=A1|80=1|
close
2:C2 comes
2:C2 in A 1 98=0|108=30|1137=9|
round
1:E1 out 5 3 58=Closing|
2:C2 closed
entries 63
1:E1 ends
rounds 2
1:E1 closed
host 1 1 0 0

what was read is answered, and what is held goes out, before the Logout
1:C1 comes
1:C1 room 0
1:C1 in A 1 98=0|108=0|1137=9|
1:C1 in 1 2 112=X|
rounds 5
full 1
1:C1 unread 0
close
round
clock 09:00:09.000
1:C1 room 1000000
rounds 10
1:C1 all 963 960 5
1:C1 hung

one that takes too little for its answers is closed 20 s after the close
1:C1 comes
2:C2 comes
1:C1 room 0
1:C1 in A 1 98=0|108=0|1137=9|
2:C2 in A 1 98=0|108=0|1137=9|
rounds 5
2:C2 out A 1 98=0|108=0|1137=9|
full 1
close
round
2:C2 out 5 2 58=Closing|
clock 09:00:09.000
1:C1 room 1
round
1:C1 took 1
clock 09:00:18.000
1:C1 room 1
round
1:C1 took 1
clock 09:00:19.999
round
1:C1 open
2:C2 closed
clock 09:00:20.000
round
1:C1 closed
host 2 2 1 0
last
round
over

one that takes too little for its Logout is closed 35 s after the close
1:C2 comes
1:C2 in A 1 98=0|108=0|1137=9|
rounds 2
1:C2 out A 1 98=0|108=0|1137=9|
1:C2 room 0
close
round
clock 09:00:09.000
1:C2 room 1
round
1:C2 took 1
clock 09:00:18.000
1:C2 room 1
round
1:C2 took 1
clock 09:00:27.000
1:C2 room 1
round
1:C2 took 1
clock 09:00:34.999
round
1:C2 open
clock 09:00:35.000
round
1:C2 closed
host 1 1 1 0
last
round
over";

#[test]
fn a_close_ends_each_connection_in_order_and_in_time(rt: HostRuntime) {
    let setting = Setting {
        script: OFFERS,
        wires: 3,
        workers: 1,
        places: 3,
        kept: NO_JOURNAL,
        secrets: "",
        looks: false,
    };
    check_plays(&rt, rt.alloc(), setting, CLOSE);
}
