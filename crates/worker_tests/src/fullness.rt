//! Connections that take nothing, or little.

use crate::floors::{NO_JOURNAL, Setting};
use crate::steps::check_plays;

/// A trade of 10,000 lots of E1 with E2, of which E1 gave up 960 in as many lines: C1 has 960 notices of some 170 bytes.
const OFFERS: &str =
    "DAY 20260105/REPORT E1 R1 M1 B XF6 10000 101.5 H1/REPORT E2 R2 M1 S XF6 10000 101.5 H2/(GIVEUP E1 L% R1 A1 1 A1 1 A1 1 A1 1 A1 1 A1 1 A1 1 A1 1 A1 1 A1 1 A1 1 A1 1 A1 1 A1 1 A1 1 A1 1/*1..60)";

/// C1 takes nothing, and C2 all.
const FULL: &str = "\
one that takes nothing is read no further, hurts no neighbour, and is told all once it takes again
1:C1 comes
2:C2 comes
3:E1 comes
1:C1 room 0
1:C1 in A 1 98=0|108=0|1137=9|
2:C2 in A 1 98=0|108=0|1137=9|
3:E1 in A 1 98=0|108=0|1137=9|
rounds 5
2:C2 out A 1 98=0|108=0|1137=9|
3:E1 out A 1 98=0|108=0|1137=9|
3:E1 out AE 2 571=3-B|572=R1|573=0|880=M1|55=XF6|32=10000|31=101.5|75=20260105|552=1|54=1|1=H1|
full 1
rounds 2
waits 1000
1:C1 in 1 2 112=X|
2:C2 in 1 2 112=Y|
round
2:C2 out 0 2 112=Y|
round
1:C1 unread 76
3:E1 in J 2 70=L61|71=0|53=1|124=1|17=R1|78=1|79=A1|80=1|
round
3:E1 out P 3 70=L61|87=0|
rounds 2
full 1
1:C1 room 1000000
rounds 20
1:C1 unread 0
1:C1 all 963 961 0
host 3 0 0 3
waits 1000

one of which nothing goes out for 10 s ends by a fault, and alone
1:C1 comes
2:C2 comes
1:C1 room 0
1:C1 in A 1 98=0|108=0|1137=9|
2:C2 in A 1 98=0|108=0|1137=9|
rounds 5
2:C2 out A 1 98=0|108=0|1137=9|
clock 09:00:09.000
1:C1 room 1
round
1:C1 took 1
clock 09:00:15.000
1:C1 in 1 2 112=X|
round
clock 09:00:18.999
rounds 2
waits 1
1:C1 open
clock 09:00:19.000
2:C2 in 1 2 112=Y|
round
1:C1 closed
2:C2 out 0 2 112=Y|
host 2 1 1 1

an answer that waits for room goes out as soon as there is some
1:C2 comes
1:C2 in A 1 98=0|108=0|1137=9|
rounds 2
1:C2 out A 1 98=0|108=0|1137=9|
1:C2 room 0
1:C2 in 1 2 112=Y|
rounds 2
1:C2 unread 0
1:C2 in 1 3 112=Z|
round
1:C2 unread 0
1:C2 room 1000
round
1:C2 out 0 2 112=Y|
1:C2 out 0 3 112=Z|
clock 09:01:00.000
round
1:C2 open";

#[test]
fn one_that_takes_nothing_waits_and_hurts_nobody(rt: HostRuntime) {
    let setting = Setting {
        script: OFFERS,
        wires: 3,
        workers: 1,
        places: 3,
        kept: NO_JOURNAL,
        secrets: "",
        looks: false,
    };
    check_plays(&rt, rt.alloc(), setting, FULL);
}
