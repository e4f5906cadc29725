//! What a session does as time passes.
use crate::talk::follow;

/// Conversations, each named for what it shows.
const TALKS: &str = "\
new beats asks and leaves: with a heartbeat each half minute: one after half a minute, a TestRequest after one of silence, and the end after one and a half
due
in A 1 98=0|108=30|1137=9|
out A 1 98=0|108=30|1137=9|
due 09:00:30.000
now 09:00:30.000
tick
out 0 2
due 09:01:00.000
now 09:01:00.000
tick
out 1 3 112=TEST|
due 09:01:30.000
now 09:01:30.000
tick
out 5 4 58=Silent|
close
due
new beats from the last sending: a heartbeat is due an interval after the last sending, also of what was sent again; what comes in is none
in A 1 98=0|108=30|1137=9|
out A 1 98=0|108=30|1137=9|
tick
now 09:00:29.999
tick
in 0 2
tick
now 09:00:30.000
tick
out 0 2
tick
now 09:00:50.000
in 2 3 7=1|16=0|
out 4 1 43=Y|122=20260105-09:00:50.000|123=Y|36=3|
due 09:01:20.000
now 09:01:00.000
tick
now 09:01:19.999
tick
now 09:01:20.000
tick
out 0 3
new asks once whether the firm is there: a TestRequest goes out once in a silence; any frame ends it, also one that is repeated, rejected or above the gap
in A 1 98=0|108=30|1137=9|
out A 1 98=0|108=30|1137=9|
now 09:01:00.000
tick
out 1 2 112=TEST|
tick
now 09:01:29.999
tick
in 0 1 43=Y|
now 09:01:30.000
tick
out 0 3
now 09:02:29.999
tick
out 1 4 112=TEST|
in 0 9
out 2 5 7=2|16=0|
now 09:03:29.998
tick
out 0 6
now 09:03:29.999
tick
out 1 7 112=TEST|
now 09:03:59.999
tick
out 5 8 58=Silent|
close
new takes a clock that goes back as no time: where the clock goes back nothing has passed; a TestRequest doesn't stop heartbeats
in A 1 98=0|108=30|1137=9|
out A 1 98=0|108=30|1137=9|
now 08:00:00.000
tick
now 09:01:00.000
tick
out 1 2 112=TEST|
now 08:00:00.000
in 1 2 112=x|
out 0 3 112=x|
now 08:01:00.000
tick
out 1 4 112=TEST|
now 07:00:00.000
tick
now 08:01:29.999
tick
now 08:01:30.000
tick
out 5 5 58=Silent|
close
new is patient where no heartbeat was asked for: with an interval of 0 time gives nothing
in A 1 98=0|108=0|1137=9|
out A 1 98=0|108=0|1137=9|
due
now 23:59:59.999
tick
in 0 2
end
close
tick
";

#[test]
fn a_session_beats_asks_and_leaves_by_the_clock(rt: HostRuntime) {
    follow(&rt, rt.alloc(), TALKS);
}
