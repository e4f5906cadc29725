//! Nothing leaves a desk whose lease has ended.

use crate::floors::Setting;
use crate::steps::check_plays;

/// A trade of E1 with E2: three entries, which are kept.
const TRADE: &str =
    "DAY 20260105/REPORT E1 R1 M1 B XF6 10 101.5 H1/REPORT E2 R2 M1 S XF6 10 101.5 H2/";

/// One worker of a desk with a lease.
const LEASED: &str = "\
answers go out up to the margin of the lease, and none after it
1:E1 comes
1:E1 in A 1 98=0|108=0|1137=9|
rounds 2
1:E1 out A 1 98=0|108=0|1137=9|
1:E1 out AE 2 571=3-B|572=R1|573=0|880=M1|55=XF6|32=10|31=101.5|75=20260105|552=1|54=1|1=H1|
lease 2499 2499
1:E1 in 1 2 112=X|
round
1:E1 out 0 3 112=X|
lease 2500 2500
1:E1 in 1 3 112=Y|
rounds 2
held 1
1:E1 open

a lease that has ended never comes back
1:E1 comes
1:E1 in A 1 98=0|108=0|1137=9|
rounds 2
1:E1 out A 1 98=0|108=0|1137=9|
1:E1 out AE 2 571=3-B|572=R1|573=0|880=M1|55=XF6|32=10|31=101.5|75=20260105|552=1|54=1|1=H1|
lease 2500 2500
1:E1 in 1 2 112=X|
round
held 1
lease 100 100
1:E1 in 1 3 112=Y|
rounds 2
held 1
waits 1000

a clock that slept ends it: one stood still while the other went on
1:E1 comes
1:E1 in A 1 98=0|108=0|1137=9|
rounds 2
1:E1 out A 1 98=0|108=0|1137=9|
1:E1 out AE 2 571=3-B|572=R1|573=0|880=M1|55=XF6|32=10|31=101.5|75=20260105|552=1|54=1|1=H1|
lease 1 3600000
1:E1 in 1 2 112=X|
rounds 2
held 1

a clock that was set back ends it
1:E1 comes
1:E1 in A 1 98=0|108=0|1137=9|
rounds 2
1:E1 out A 1 98=0|108=0|1137=9|
1:E1 out AE 2 571=3-B|572=R1|573=0|880=M1|55=XF6|32=10|31=101.5|75=20260105|552=1|54=1|1=H1|
lease 1000 1000
1:E1 in 1 2 112=X|
round
1:E1 out 0 3 112=X|
lease 1001 999
1:E1 in 1 3 112=Y|
rounds 2
held 1

a clock that fails ends it
1:E1 comes
1:E1 in A 1 98=0|108=0|1137=9|
rounds 2
1:E1 out A 1 98=0|108=0|1137=9|
1:E1 out AE 2 571=3-B|572=R1|573=0|880=M1|55=XF6|32=10|31=101.5|75=20260105|552=1|54=1|1=H1|
fault lease
1:E1 in 1 2 112=X|
rounds 2
held 1
lease 1 1
rounds 2
held 1

what was held back until it is kept doesn't go out, and no notice does
1:E1 comes
1:E1 in A 1 98=0|108=0|1137=9|
rounds 2
1:E1 out A 1 98=0|108=0|1137=9|
1:E1 out AE 2 571=3-B|572=R1|573=0|880=M1|55=XF6|32=10|31=101.5|75=20260105|552=1|54=1|1=H1|
2:C1 comes
2:C1 in A 1 98=0|108=0|1137=9|
rounds 2
2:C1 out A 1 98=0|108=0|1137=9|
1:E1 in J 2 70=L1|71=0|53=10|124=1|17=R1|78=1|79=A1|80=10|
rounds 4
entries 4
lease 2500 2500
keep 4
rounds 2
held 1
held 2

once no more entries are kept, all end without a byte
1:E1 comes
1:E1 in A 1 98=0|108=0|1137=9|
rounds 2
1:E1 out A 1 98=0|108=0|1137=9|
1:E1 out AE 2 571=3-B|572=R1|573=0|880=M1|55=XF6|32=10|31=101.5|75=20260105|552=1|54=1|1=H1|
1:E1 in J 2 70=L1|71=0|53=1|124=1|17=R1|78=1|79=A1|80=1|
round
lease 2500 2500
keep 4
stop
round
1:E1 closed
1:E1 took 0
host 1 1 1 0
over

the Logout of a close doesn't go out
1:E1 comes
1:E1 in A 1 98=0|108=0|1137=9|
rounds 2
1:E1 out A 1 98=0|108=0|1137=9|
1:E1 out AE 2 571=3-B|572=R1|573=0|880=M1|55=XF6|32=10|31=101.5|75=20260105|552=1|54=1|1=H1|
lease 2500 2500
close
rounds 2
held 1
1:E1 open
clock 09:00:35.000
round
1:E1 closed
1:E1 took 0";

#[test]
fn nothing_leaves_after_the_lease(rt: HostRuntime) {
    let setting = Setting {
        script: TRADE,
        wires: 2,
        workers: 1,
        places: 2,
        kept: 3,
        secrets: "",
        looks: false,
    };
    check_plays(&rt, rt.alloc(), setting, LEASED);
}
