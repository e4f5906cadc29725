//! Answers are held back until the entries that they show are kept.

use crate::floors::Setting;
use crate::steps::check_plays;

/// A trade of E1 with E2: three entries, which are kept.
const TRADE: &str =
    "DAY 20260105/REPORT E1 R1 M1 B XF6 10 101.5 H1/REPORT E2 R2 M1 S XF6 10 101.5 H2/";

/// One worker.
const HELD: &str = "\
an answer goes out once the entry that it shows is kept, and so does a notice, with no event of the firm's
1:E1 comes
2:C1 comes
1:E1 in A 1 98=0|108=30|1137=9|
2:C1 in A 1 98=0|108=30|1137=9|
rounds 2
1:E1 out A 1 98=0|108=30|1137=9|
1:E1 out AE 2 571=3-B|572=R1|573=0|880=M1|55=XF6|32=10|31=101.5|75=20260105|552=1|54=1|1=H1|
2:C1 out A 1 98=0|108=30|1137=9|
sent 1
1:E1 in J 2 70=L1|71=0|53=10|124=1|17=R1|78=1|79=A1|80=10|
rounds 4
entries 4
held 1
held 2
waits 1000
keep 3
rounds 2
held 1
keep 4
round
waits 0
1:E1 out P 3 70=L1|87=0|
2:C1 out AS 2 755=1|71=0|794=8|87=6|55=XF6|54=1|53=10|6=101.5|75=20260105|78=1|79=A1|80=10|
rounds 2
sent 1
sent 2
waits 1000

what shows no new entry goes out at once, and after what is held back
1:E1 comes
2:C2 comes
1:E1 in A 1 98=0|108=30|1137=9|
rounds 2
1:E1 out A 1 98=0|108=30|1137=9|
1:E1 out AE 2 571=3-B|572=R1|573=0|880=M1|55=XF6|32=10|31=101.5|75=20260105|552=1|54=1|1=H1|
1:E1 in 1 2 112=X|
round
1:E1 out 0 3 112=X|
1:E1 in J 3 70=L1|71=0|53=1|124=1|17=R1|78=1|79=A1|80=1|
round
1:E1 in 1 4 112=Y|
2:C2 in A 1 98=0|108=30|1137=9|
rounds 2
held 1
held 2
keep 4
round
1:E1 out P 4 70=L1|87=0|
1:E1 out 0 5 112=Y|
2:C2 out A 1 98=0|108=30|1137=9|

one that is answered again and again isn't kept waiting by it
1:E1 comes
1:E1 in A 1 98=0|108=30|1137=9|
rounds 2
1:E1 out A 1 98=0|108=30|1137=9|
1:E1 out AE 2 571=3-B|572=R1|573=0|880=M1|55=XF6|32=10|31=101.5|75=20260105|552=1|54=1|1=H1|
1:E1 in J 2 70=L1|71=0|53=1|124=1|17=R1|78=1|79=A1|80=1|
round
1:E1 in J 3 70=L2|71=0|53=1|124=1|17=R1|78=1|79=A1|80=1|
round
1:E1 in J 4 70=L3|71=0|53=1|124=1|17=R1|78=1|79=A1|80=1|
round
keep 4
round
1:E1 out P 3 70=L1|87=0|
1:E1 in J 5 70=L4|71=0|53=1|124=1|17=R1|78=1|79=A1|80=1|
round
keep 5
round
1:E1 in J 6 70=L5|71=0|53=1|124=1|17=R1|78=1|79=A1|80=1|
round
keep 6
round
1:E1 out P 4 70=L2|87=0|
1:E1 out P 5 70=L3|87=0|
1:E1 in J 7 70=L6|71=0|53=1|124=1|17=R1|78=1|79=A1|80=1|
round
entries 9
keep 8
round
1:E1 out P 6 70=L4|87=0|
1:E1 out P 7 70=L5|87=0|
keep 9
round
1:E1 out P 8 70=L6|87=0|

a firm that takes little is sent the first part bit by bit, and then the rest
1:E1 comes
1:E1 in A 1 98=0|108=0|1137=9|
rounds 2
1:E1 out A 1 98=0|108=0|1137=9|
1:E1 out AE 2 571=3-B|572=R1|573=0|880=M1|55=XF6|32=10|31=101.5|75=20260105|552=1|54=1|1=H1|
1:E1 room 0
1:E1 in J 2 70=L1|71=0|53=1|124=1|17=R1|78=1|79=A1|80=1|
round
1:E1 in J 3 70=L2|71=0|53=1|124=1|17=R1|78=1|79=A1|80=1|
round
1:E1 in J 4 70=L3|71=0|53=1|124=1|17=R1|78=1|79=A1|80=1|
round
keep 4
round
1:E1 room 1000
round
1:E1 out P 3 70=L1|87=0|
keep 6
1:E1 room 0
round
1:E1 room 1000
round
1:E1 out P 4 70=L2|87=0|
1:E1 out P 5 70=L3|87=0|

a worker that waits is woken once more entries are kept, if it holds answers back
1:E1 comes
1:E1 in A 1 98=0|108=30|1137=9|
rounds 3
1:E1 out A 1 98=0|108=30|1137=9|
1:E1 out AE 2 571=3-B|572=R1|573=0|880=M1|55=XF6|32=10|31=101.5|75=20260105|552=1|54=1|1=H1|
rung 0 1
asleep 0
keep 3
rung 0 0
1:E1 in J 2 70=L1|71=0|53=1|124=1|17=R1|78=1|79=A1|80=1|
rounds 2
asleep 0
keep 4
rung 0 1
keep 4
rung 0 0
round
waits 0
1:E1 out P 3 70=L1|87=0|
rounds 2
asleep 0
keep 5
rung 0 0

the 10 s in which a firm takes nothing don't run while its answers are held back
1:E1 comes
1:E1 in A 1 98=0|108=0|1137=9|
rounds 2
1:E1 out A 1 98=0|108=0|1137=9|
1:E1 out AE 2 571=3-B|572=R1|573=0|880=M1|55=XF6|32=10|31=101.5|75=20260105|552=1|54=1|1=H1|
1:E1 in J 2 70=L1|71=0|53=1|124=1|17=R1|78=1|79=A1|80=1|
rounds 2
clock 09:00:30.000
rounds 2
1:E1 open
1:E1 room 0
keep 4
round
clock 09:00:39.999
round
1:E1 open
clock 09:00:40.000
round
1:E1 closed
host 1 1 1 0

a session that is over goes out once all of it may go
1:E1 comes
1:E1 in A 1 98=0|108=30|1137=9|
rounds 2
1:E1 out A 1 98=0|108=30|1137=9|
1:E1 out AE 2 571=3-B|572=R1|573=0|880=M1|55=XF6|32=10|31=101.5|75=20260105|552=1|54=1|1=H1|
1:E1 in J 2 70=L1|71=0|53=1|124=1|17=R1|78=1|79=A1|80=1|
1:E1 in 5 3
rounds 2
host 1 0 0 0
held 1
1:E1 open
keep 4
round
1:E1 out P 3 70=L1|87=0|
1:E1 out 5 4
1:E1 hung
1:E1 ends
round
1:E1 closed
host 1 1 0 0

the Logout of a close goes out after what is held back
1:E1 comes
1:E1 in A 1 98=0|108=0|1137=9|
rounds 2
1:E1 out A 1 98=0|108=0|1137=9|
1:E1 out AE 2 571=3-B|572=R1|573=0|880=M1|55=XF6|32=10|31=101.5|75=20260105|552=1|54=1|1=H1|
1:E1 in J 2 70=L1|71=0|53=1|124=1|17=R1|78=1|79=A1|80=1|
round
close
round
held 1
keep 4
round
1:E1 out P 3 70=L1|87=0|
1:E1 out 5 4 58=Closing|
1:E1 hung
1:E1 ends
round
1:E1 closed
host 1 1 0 0

35 s after a close a connection ends whose answers are held back still
1:E1 comes
1:E1 in A 1 98=0|108=0|1137=9|
rounds 2
1:E1 out A 1 98=0|108=0|1137=9|
1:E1 out AE 2 571=3-B|572=R1|573=0|880=M1|55=XF6|32=10|31=101.5|75=20260105|552=1|54=1|1=H1|
1:E1 in J 2 70=L1|71=0|53=1|124=1|17=R1|78=1|79=A1|80=1|
round
close
round
held 1
clock 09:00:34.999
keep 3
round
1:E1 open
clock 09:00:35.000
round
1:E1 closed
1:E1 took 0
host 1 1 1 0
last
round
over";

#[test]
fn an_answer_goes_out_once_what_it_shows_is_kept(rt: HostRuntime) {
    let setting = Setting {
        script: TRADE,
        wires: 2,
        workers: 1,
        places: 2,
        kept: 3,
        secrets: "",
        looks: false,
    };
    check_plays(&rt, rt.alloc(), setting, HELD);
}

/// No more entries are kept.
const STOPS: &str = "\
what was kept still goes out, and nothing else; each connection ends, and nothing is entered any more
1:E1 comes
2:C2 comes
1:E1 in A 1 98=0|108=30|1137=9|
rounds 2
1:E1 out A 1 98=0|108=30|1137=9|
1:E1 out AE 2 571=3-B|572=R1|573=0|880=M1|55=XF6|32=10|31=101.5|75=20260105|552=1|54=1|1=H1|
1:E1 in J 2 70=L1|71=0|53=1|124=1|17=R1|78=1|79=A1|80=1|
round
1:E1 in J 3 70=L2|71=0|53=1|124=1|17=R1|78=1|79=A1|80=1|
round
2:C2 in A 1 98=0|108=30|1137=9|
round
entries 5
rung 0 2
keep 4
stop
rung 0 1
1:E1 in J 4 70=L3|71=0|53=1|124=1|17=R1|78=1|79=A1|80=1|
3:C2 comes
round
waits 0
1:E1 out P 3 70=L1|87=0|
1:E1 closed
2:C2 closed
2:C2 took 0
3:C2 closed
entries 5
host 2 2 2 0
connections 0 0
over

a worker that waits for its first connection is over
stop
run
host 0 0 0 0";

#[test]
fn what_is_not_kept_is_never_sent(rt: HostRuntime) {
    let setting = Setting {
        script: TRADE,
        wires: 3,
        workers: 1,
        places: 3,
        kept: 3,
        secrets: "",
        looks: false,
    };
    check_plays(&rt, rt.alloc(), setting, STOPS);
}
