//! Immediate notices: a firm that an entry informs receives it in its worker's next round.

use crate::floors::{NO_JOURNAL, Setting};
use crate::steps::check_plays;

/// A trade of E1 with E2.
const TRADE: &str =
    "DAY 20260105/REPORT E1 R1 M1 B XF6 10 101.5 H1/REPORT E2 R2 M1 S XF6 10 101.5 H2/";

/// Firms in one worker.
const ONE_WORKER: &str = "\
an entry is told in the next round, with no event of the firm's, to each connection of the firm and to no other
1:E1 comes
2:C1 comes
3:C1 comes
4:C2 comes
1:E1 in A 1 98=0|108=30|1137=9|
2:C1 in A 1 98=0|108=30|1137=9|
3:C1 in A 1 98=0|108=30|1137=9|
4:C2 in A 1 98=0|108=30|1137=9|
rounds 2
1:E1 out A 1 98=0|108=30|1137=9|
1:E1 out AE 2 571=3-B|572=R1|573=0|880=M1|55=XF6|32=10|31=101.5|75=20260105|552=1|54=1|1=H1|
2:C1 out A 1 98=0|108=30|1137=9|
3:C1 out A 1 98=0|108=30|1137=9|
4:C2 out A 1 98=0|108=30|1137=9|
rounds 2
waits 1000
1:E1 in J 2 70=L1|71=0|53=10|124=1|17=R1|78=1|79=A1|80=10|
round
1:E1 out P 3 70=L1|87=0|
round
waits 0
2:C1 out AS 2 755=1|71=0|794=8|87=6|55=XF6|54=1|53=10|6=101.5|75=20260105|78=1|79=A1|80=10|
3:C1 out AS 2 755=1|71=0|794=8|87=6|55=XF6|54=1|53=10|6=101.5|75=20260105|78=1|79=A1|80=10|
rounds 2
waits 1000
entries 4

an entry is told that was made between a firm's first turn and its admission
1:C1 comes
1:C1 in A 1 98=0|108=30|1137=9|
besides GIVEUP E1 L1 R1 A1 10
rounds 2
1:C1 out A 1 98=0|108=30|1137=9|
round
waits 0
1:C1 out AS 2 755=1|71=0|794=8|87=6|55=XF6|54=1|53=10|6=101.5|75=20260105|78=1|79=A1|80=10|
rounds 2
waits 1000
entries 4";

#[test]
fn an_entry_is_told_by_the_next_round(rt: HostRuntime) {
    let setting = Setting {
        script: TRADE,
        wires: 4,
        workers: 1,
        places: 4,
        kept: NO_JOURNAL,
        secrets: "",
        looks: false,
    };
    check_plays(&rt, rt.alloc(), setting, ONE_WORKER);
}

/// The giving firm in one worker, and the carrying firm in another.
const TWO_WORKERS: &str = "\
a worker that waits is woken once, and one that doesn't wait isn't
1:E1 comes
2:C1 comes 1
1:E1 in A 1 98=0|108=30|1137=9|
2:C1 in A 1 98=0|108=30|1137=9|
rounds 2
1:E1 out A 1 98=0|108=30|1137=9|
1:E1 out AE 2 571=3-B|572=R1|573=0|880=M1|55=XF6|32=10|31=101.5|75=20260105|552=1|54=1|1=H1|
2:C1 out A 1 98=0|108=30|1137=9|
rung 0 1
rung 1 1
1:E1 in J 2 70=L1|71=0|53=5|124=1|17=R1|78=1|79=A1|80=5|
round 0
1:E1 out P 3 70=L1|87=0|
rung 1 0
asleep 1
1:E1 in J 3 70=L2|71=0|53=3|124=1|17=R1|78=1|79=A1|80=3|
round 0
1:E1 out P 4 70=L2|87=0|
rung 1 1
1:E1 in J 4 70=L3|71=0|53=2|124=1|17=R1|78=1|79=A1|80=2|
round 0
1:E1 out P 5 70=L3|87=0|
rung 1 0
rung 0 0
round 1
waits 0
2:C1 out AS 2 755=1|71=0|794=8|87=6|55=XF6|54=1|53=5|6=101.5|75=20260105|78=1|79=A1|80=5|
2:C1 out AS 3 755=2|71=0|794=8|87=6|55=XF6|54=1|53=3|6=101.5|75=20260105|78=1|79=A1|80=3|
2:C1 out AS 4 755=3|71=0|794=8|87=6|55=XF6|54=1|53=2|6=101.5|75=20260105|78=1|79=A1|80=2|
round 1
waits 1000

a worker with no connection of the firm isn't woken
1:E1 comes
2:C1 comes 1
3:C2 comes 1
1:E1 in A 1 98=0|108=30|1137=9|
2:C1 in A 1 98=0|108=30|1137=9|
2:C1 in 5 2
3:C2 in A 1 98=0|108=30|1137=9|
rounds 2
1:E1 out A 1 98=0|108=30|1137=9|
1:E1 out AE 2 571=3-B|572=R1|573=0|880=M1|55=XF6|32=10|31=101.5|75=20260105|552=1|54=1|1=H1|
2:C1 out A 1 98=0|108=30|1137=9|
2:C1 out 5 2
3:C2 out A 1 98=0|108=30|1137=9|
rung 1 2
asleep 1
1:E1 in J 2 70=L1|71=0|53=5|124=1|17=R1|78=1|79=A1|80=5|
round 0
1:E1 out P 3 70=L1|87=0|
rung 1 0
round 1
round 1
waits 1000";

#[test]
fn a_worker_is_woken_where_it_waits_and_has_the_firm(rt: HostRuntime) {
    let setting = Setting {
        script: TRADE,
        wires: 3,
        workers: 2,
        places: 3,
        kept: NO_JOURNAL,
        secrets: "",
        looks: false,
    };
    check_plays(&rt, rt.alloc(), setting, TWO_WORKERS);
}
