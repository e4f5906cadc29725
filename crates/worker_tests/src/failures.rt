//! Workers that are left to themselves, until they are over or can't go on.

use crate::floors::{NO_JOURNAL, Setting};
use crate::steps::check_plays;

/// One that logs on and off, one that never logs on, and one that is on its way.
const RUNS: &str = "\
a worker is over once no more connections come and the last has ended
1:E1 comes
2:C2 comes
1:E1 in A 1 98=0|108=0|1137=9|
1:E1 in 5 2
last
run
1:E1 out A 1 98=0|108=0|1137=9|
1:E1 out 5 2
1:E1 closed
2:C2 closed
host 2 2 1 0
connections 0 0

a worker whose poller fails ends its connections, also those that are on their way
1:E1 comes
2:C2 comes
1:E1 in A 1 98=0|108=0|1137=9|
rounds 2
1:E1 out A 1 98=0|108=0|1137=9|
3:C1 comes
fault poller
run poller
1:E1 closed
2:C2 closed
3:C1 closed
host 2 2 2 0
connections 0 0

so does one whose clock fails
1:E1 comes
2:C2 comes
1:E1 in A 1 98=0|108=0|1137=9|
rounds 2
1:E1 out A 1 98=0|108=0|1137=9|
3:C1 comes
fault clock
run clock
1:E1 closed
2:C2 closed
3:C1 closed
host 2 2 2 0
connections 0 0";

#[test]
fn a_worker_runs_until_it_is_over_or_can_not_go_on(rt: HostRuntime) {
    let setting = Setting {
        script: "DAY 20260105/",
        wires: 3,
        workers: 1,
        places: 3,
        kept: NO_JOURNAL,
        secrets: "",
        looks: false,
    };
    check_plays(&rt, rt.alloc(), setting, RUNS);
}
