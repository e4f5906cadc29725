//! A connection that has much to be read.

use crate::floors::{NO_JOURNAL, Setting};
use crate::steps::check_plays;

/// E1 has sent 13,700 Heartbeats, and C2 a TestRequest in each round. A visit makes four turns at most, each of 4,096 bytes at most.
const MUCH: &str = "\
one that has sent a million bytes keeps no neighbour waiting
1:E1 comes
2:C2 comes
1:E1 in A 1 98=0|108=0|1137=9|
2:C2 in A 1 98=0|108=0|1137=9|
rounds 2
1:E1 out A 1 98=0|108=0|1137=9|
2:C2 out A 1 98=0|108=0|1137=9|
(1:E1 in 0 %
*2..13700)1:E1 unread 1002624
2:C2 in 1 2 112=A|
round
2:C2 out 0 2 112=A|
1:E1 left 986240
(2:C2 in 1 % 112=A|
round
2:C2 out 0 % 112=A|
*3..12)1:E1 left 822400
waits 0
rounds 60
1:E1 unread 0
1:E1 in 1 13701 112=A|
round
1:E1 out 0 2 112=A|
host 2 0 0 2";

#[test]
fn one_that_has_much_to_be_read_keeps_nobody_waiting(rt: HostRuntime) {
    let setting = Setting {
        script: "DAY 20260105/",
        wires: 2,
        workers: 1,
        places: 2,
        kept: NO_JOURNAL,
        secrets: "",
        looks: false,
    };
    check_plays(&rt, rt.alloc(), setting, MUCH);
}
