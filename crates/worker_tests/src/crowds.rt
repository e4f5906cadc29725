//! A thousand connections in one worker.

use crate::floors::{NO_JOURNAL, Setting};
use crate::steps::check_plays;

/// A trade of E1 with E2.
const TRADE: &str =
    "DAY 20260105/REPORT E1 R1 M1 B XF6 10 101.5 H1/REPORT E2 R2 M1 S XF6 10 101.5 H2/";

/// One connection of E1, and 999 of C1.
const CROWD: &str = "\
a thousand connections log on, are told, are answered and end
(%:C1 comes
%:C1 in A 1 98=0|108=30|1137=9|
*1..999)1000:E1 comes
1000:E1 in A 1 98=0|108=30|1137=9|
rounds 2
(%:C1 out A 1 98=0|108=30|1137=9|
*1..999)1000:E1 out A 1 98=0|108=30|1137=9|
1000:E1 out AE 2 571=3-B|572=R1|573=0|880=M1|55=XF6|32=10|31=101.5|75=20260105|552=1|54=1|1=H1|
connections 0 1000
host 1000 0 0 1000
1000:E1 in J 2 70=L1|71=0|53=10|124=1|17=R1|78=1|79=A1|80=10|
round
1000:E1 out P 3 70=L1|87=0|
round
waits 0
(%:C1 out AS 2 755=1|71=0|794=8|87=6|55=XF6|54=1|53=10|6=101.5|75=20260105|78=1|79=A1|80=10|
*1..999)rounds 2
waits 1000
(%:C1 in 1 2 112=X|
*1..999)round
(%:C1 out 0 3 112=X|
*1..999)clock 09:00:30.000
round
(%:C1 out 0 4
*1..999)1000:E1 out 0 4
(%:C1 ends
*1..999)rounds 2
(%:C1 closed
*1..999)1000:E1 open
host 1000 999 0 1
connections 0 1";

#[test]
fn a_thousand_connections_are_served_in_one_worker(rt: HostRuntime) {
    let setting = Setting {
        script: TRADE,
        wires: 1_000,
        workers: 1,
        places: 1_000,
        kept: NO_JOURNAL,
        secrets: "",
        looks: false,
    };
    check_plays(&rt, rt.alloc(), setting, CROWD);
}
