//! Who is admitted: before anything that a firm sends after its Logon is answered.

use crate::floors::{NO_JOURNAL, Setting};
use crate::steps::check_plays;

/// A trade of E1 with E2, of which E1 gave up five lots.
const OFFER: &str =
    "DAY 20260105/REPORT E1 R1 M1 B XF6 10 101.5 H1/REPORT E2 R2 M1 S XF6 10 101.5 H2/GIVEUP E1 L1 R1 A1 5/";

/// A worker with three places.
const ADMISSIONS: &str = "\
what a firm without a place sends in one piece with its Logon isn't entered, and it is closed without a byte; once a session of its ends it gets in
most 1
1:E1 comes
1:E1 in A 1 98=0|108=30|1137=9|
rounds 2
1:E1 out A 1 98=0|108=30|1137=9|
1:E1 out AE 2 571=3-B|572=R1|573=0|880=M1|55=XF6|32=10|31=101.5|75=20260105|552=1|54=1|1=H1|
2:E1 comes
2:E1 in A 1 98=0|108=30|1137=9|
2:E1 in J 2 70=L2|71=0|53=1|124=1|17=R1|78=1|79=A1|80=1|
rounds 2
2:E1 closed
2:E1 took 0
entries 4
host 2 1 1 1
1:E1 in J 2 70=L2|71=0|53=1|124=1|17=R1|78=1|79=A1|80=1|
round
1:E1 out P 3 70=L2|87=0|
entries 5
1:E1 ends
rounds 2
1:E1 hung
1:E1 closed
host 2 2 1 0
3:E1 comes
3:E1 in A 1 98=0|108=30|1137=9|
3:E1 in J 2 70=L3|71=0|53=1|124=1|17=R1|78=1|79=A1|80=1|
rounds 2
3:E1 out A 1 98=0|108=30|1137=9|
3:E1 out AE 2 571=3-B|572=R1|573=0|880=M1|55=XF6|32=10|31=101.5|75=20260105|552=1|54=1|1=H1|
3:E1 out P 3 70=L3|87=0|
asked 3
entries 6
host 3 2 1 1

a firm that was admitted and whose turn fails then has its place no more
fault house
1:E1 comes
1:E1 in A 1 98=0|108=30|1137=9|
rounds 2
1:E1 closed
1:E1 took 0
host 1 1 1 0
connections 0 0

one that logs on and off in one piece has a place until then
most 1
1:C2 comes
1:C2 in A 1 98=0|108=30|1137=9|
1:C2 in 5 2
rounds 2
1:C2 out A 1 98=0|108=30|1137=9|
1:C2 out 5 2
1:C2 hung
host 1 0 0 0
2:C2 comes
2:C2 in A 1 98=0|108=30|1137=9|
rounds 2
2:C2 out A 1 98=0|108=30|1137=9|
host 2 0 0 1";

#[test]
fn a_firm_is_admitted_before_it_is_answered(rt: HostRuntime) {
    let setting = Setting {
        script: OFFER,
        wires: 3,
        workers: 1,
        places: 3,
        kept: NO_JOURNAL,
        secrets: "",
        looks: false,
    };
    check_plays(&rt, rt.alloc(), setting, ADMISSIONS);
}
