//! Places: who gets one, how it becomes free, and what the next connection there begins with.

use crate::floors::{NO_JOURNAL, Setting};
use crate::steps::check_plays;

/// A trade of E1 with E2, of which E1 gave up five lots.
const OFFER: &str =
    "DAY 20260105/REPORT E1 R1 M1 B XF6 10 101.5 H1/REPORT E2 R2 M1 S XF6 10 101.5 H2/GIVEUP E1 L1 R1 A1 5/";

/// A worker with one place.
const ONE_PLACE: &str = "\
the next connection at a place begins as new, with number 1 and the first notice
1:C1 comes
1:C1 in A 1 98=0|108=30|1137=9|
rounds 2
1:C1 out A 1 98=0|108=30|1137=9|
1:C1 out AS 2 755=1|71=0|794=8|87=6|55=XF6|54=1|53=5|6=101.5|75=20260105|78=1|79=A1|80=5|
1:C1 ends
rounds 2
1:C1 hung
1:C1 closed
host 1 1 0 0
2:C2 comes
2:C2 in A 1 98=0|108=30|1137=9|
2:C2 in 5 2
rounds 2
2:C2 out A 1 98=0|108=30|1137=9|
2:C2 out 5 2
2:C2 hung
2:C2 ends
round
2:C2 closed
3:C1 comes
3:C1 in A 1 98=0|108=30|1137=9|
rounds 2
3:C1 out A 1 98=0|108=30|1137=9|
3:C1 out AS 2 755=1|71=0|794=8|87=6|55=XF6|54=1|53=5|6=101.5|75=20260105|78=1|79=A1|80=5|
host 3 2 0 1
connections 0 1
rounds 2
waits 1000

one that finds no place is closed without a byte
1:E1 comes
round
2:E2 comes
2:E2 in A 1 98=0|108=30|1137=9|
round
1:E1 open
2:E2 closed
2:E2 unread 89
host 1 0 0 0
connections 0 1

an event of a place whose connection has ended does nothing, nor does one of a place that isn't there
1:C2 comes
rounds 2
1:C2 ends
rounds 2
1:C2 closed
event 0
event 7
round
host 1 1 0 0
2:C2 comes
2:C2 in A 1 98=0|108=30|1137=9|
event 0
round
event 0
round
2:C2 out A 1 98=0|108=30|1137=9|
rounds 2
2:C2 open
waits 1000";

#[test]
fn a_place_that_is_free_again_is_as_new(rt: HostRuntime) {
    let setting = Setting {
        script: OFFER,
        wires: 3,
        workers: 1,
        places: 1,
        kept: NO_JOURNAL,
        secrets: "",
        looks: false,
    };
    check_plays(&rt, rt.alloc(), setting, ONE_PLACE);
}

/// A worker with three places.
const ENDS: &str = "\
a connection that is cut ends alone, and its place is free
1:C2 comes
2:E2 comes
1:C2 in A 1 98=0|108=30|1137=9|
2:E2 in A 1 98=0|108=30|1137=9|
rounds 2
1:C2 out A 1 98=0|108=30|1137=9|
2:E2 out A 1 98=0|108=30|1137=9|
2:E2 out AE 2 571=3-S|572=R2|573=0|880=M1|55=XF6|32=10|31=101.5|75=20260105|552=1|54=2|1=H2|
miss 3
cut 1
round
1:C2 closed
2:E2 in 1 2 112=X|
round
2:E2 out 0 3 112=X|
host 2 1 1 1
miss 1
3:C2 comes
3:C2 in A 1 98=0|108=30|1137=9|
rounds 2
3:C2 out A 1 98=0|108=30|1137=9|
round
3:C2 open

a connection that fails ends alone
1:C2 comes
2:E2 comes
1:C2 in A 1 98=0|108=30|1137=9|
2:E2 in A 1 98=0|108=30|1137=9|
rounds 2
1:C2 out A 1 98=0|108=30|1137=9|
2:E2 out A 1 98=0|108=30|1137=9|
2:E2 out AE 2 571=3-S|572=R2|573=0|880=M1|55=XF6|32=10|31=101.5|75=20260105|552=1|54=2|1=H2|
1:C2 fails
2:E2 in 1 2 112=X|
round
1:C2 closed
2:E2 out 0 3 112=X|
host 2 1 1 1

a firm that isn't admitted is closed without a byte, and has no place
refuse C2
1:C2 comes
2:C1 comes
1:C2 in A 1 98=0|108=30|1137=9|
2:C1 in A 1 98=0|108=30|1137=9|
rounds 2
1:C2 closed
2:C1 out A 1 98=0|108=30|1137=9|
2:C1 out AS 2 755=1|71=0|794=8|87=6|55=XF6|54=1|53=5|6=101.5|75=20260105|78=1|79=A1|80=5|
host 2 1 1 1

what comes in one event with the end is answered
1:C2 comes
rounds 2
1:C2 in A 1 98=0|108=30|1137=9|
1:C2 in 1 2 112=X|
1:C2 ends
rounds 3
1:C2 out A 1 98=0|108=30|1137=9|
1:C2 out 0 2 112=X|
1:C2 hung
1:C2 closed
host 1 1 0 0

after a Logout a firm has no place, and its peer a second to end the connection
1:C2 comes
1:C2 in A 1 98=0|108=30|1137=9|
1:C2 in 5 2
rounds 2
1:C2 out A 1 98=0|108=30|1137=9|
1:C2 out 5 2
1:C2 hung
host 1 0 0 0
clock 09:00:00.999
rounds 2
waits 1
1:C2 open
clock 09:00:01.000
round
1:C2 closed
host 1 1 0 0

each connection counts its own give-ups
1:E1 comes
2:E1 comes
1:E1 in A 1 98=0|108=30|1137=9|
2:E1 in A 1 98=0|108=30|1137=9|
rounds 2
1:E1 out A 1 98=0|108=30|1137=9|
1:E1 out AE 2 571=3-B|572=R1|573=0|880=M1|55=XF6|32=10|31=101.5|75=20260105|552=1|54=1|1=H1|
2:E1 out A 1 98=0|108=30|1137=9|
2:E1 out AE 2 571=3-B|572=R1|573=0|880=M1|55=XF6|32=10|31=101.5|75=20260105|552=1|54=1|1=H1|
1:E1 in J 2 70=L2|71=0|53=1|124=1|17=R1|78=1|79=A1|80=1|
2:E1 in J 2 70=L3|71=0|53=1|124=1|17=R1|78=1|79=A1|80=1|
round
1:E1 out P 3 70=L2|87=0|
2:E1 out P 3 70=L3|87=0|
counted 1
asked 1
1:E1 in J 3 70=L4|71=0|53=1|124=1|17=R1|78=1|79=A1|80=1|
round
1:E1 out P 4 70=L4|87=0|
counted 2";

#[test]
fn a_connection_ends_alone(rt: HostRuntime) {
    let setting = Setting {
        script: OFFER,
        wires: 3,
        workers: 1,
        places: 3,
        kept: NO_JOURNAL,
        secrets: "",
        looks: false,
    };
    check_plays(&rt, rt.alloc(), setting, ENDS);
}
