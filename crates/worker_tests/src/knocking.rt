//! Who is let in: by the first message of a connection, which is looked at before there is a session, and by the door at which it came.

use crate::floors::{NO_JOURNAL, Setting};
use crate::steps::check_plays;

/// E1's secret is 101112131415161718191a1b1c1d1e1f, and C1's is 303132333435363738393a3b3c3d3e3f; C2 has none. The digests are those that
/// Python's hashlib makes.
const SECRETS: &str = "\
E1,000102030405060708090a0b0c0d0e0f,6260881eef63b338c58ef4638ccb26d8f2ab8f81eb097925c51c255b224761e5
C1,202122232425262728292a2b2c2d2e2f,282bf34bb3e524c7a4caee29013acb4cfbb62c7d4a162a959ca29601cb9f7051
";

/// A worker with three places, on a day without trades.
const LET_IN: &str = "\
a firm whose secret fits logs on, and what it sends with its Logon is answered
1:E1 comes
1:E1 in A 1 98=0|108=30|1137=9|554=101112131415161718191a1b1c1d1e1f|
1:E1 in 1 2 112=X|
rounds 3
1:E1 out A 1 98=0|108=30|1137=9|
1:E1 out 0 2 112=X|
host 1 0 0 1
1:E1 in 1 3 112=Y|
round
1:E1 out 0 3 112=Y|
1:E1 ends
rounds 2
1:E1 hung
1:E1 closed
host 1 1 0 0

its Logon may come in pieces, and after bytes that are none
1:C1 comes
1:C1 raw no message
rounds 2
1:C1 raw 8=FIXT.1.1|9=103|35=A|49=C1|56=GIVEUP|34=
rounds 2
1:C1 raw 1|52=20260105-09:00:00|98=0|108=30|1137=9|554=303132333435363738393a3b3c3d3e3f|10=152|
rounds 3
1:C1 out A 1 98=0|108=30|1137=9|
host 1 0 0 1

one whose secret doesn't fit gets no byte, and is closed after a second, whatever it sends then
1:E1 comes
1:E1 in A 1 98=0|108=30|1137=9|554=101112131415161718191a1b1c1d1e1e|
rounds 2
1:E1 open
1:E1 in A 1 98=0|108=30|1137=9|554=101112131415161718191a1b1c1d1e1f|
clock 09:00:00.999
rounds 2
waits 1
1:E1 open
1:E1 took 0
clock 09:00:01.000
round
1:E1 closed
1:E1 took 0
host 1 1 1 0
wrong Secret E1
ended Refused
entries 0

nor is one let in without a secret, by another firm's, without a row, or that is no firm
1:E1 comes
1:E1 in A 1 98=0|108=30|1137=9|
2:C1 comes
2:C1 in A 1 98=0|108=30|1137=9|554=101112131415161718191a1b1c1d1e1f|
3:C2 comes
3:C2 in A 1 98=0|108=30|1137=9|554=101112131415161718191a1b1c1d1e1f|
rounds 2
host 3 0 0 0
clock 09:00:01.000
rounds 2
1:E1 closed
2:C1 closed
3:C2 closed
host 3 3 3 0
1:X9 comes
1:X9 in A 1 98=0|108=30|1137=9|554=101112131415161718191a1b1c1d1e1f|
rounds 2
wrong Sender
clock 09:00:02.000
round
1:X9 closed
1:X9 took 0

a first message that is no Logon ends the session without a byte, as always
1:E1 comes
1:E1 in 1 1 112=X|554=101112131415161718191a1b1c1d1e1f|
rounds 3
1:E1 took 0
1:E1 hung
wrong NotALogon
host 1 0 0 0

one that says nothing whole is closed after 30 s
1:E1 comes
1:E1 raw 8=FIXT.1.1
rounds 2
clock 09:00:29.999
round
1:E1 open
clock 09:00:30.000
round
1:E1 closed
1:E1 took 0
ended NoLogon
host 1 1 1 0

one that ends before it says anything is closed
1:E1 comes
1:E1 ends
rounds 2
1:E1 closed
ended Done
host 1 1 0 0

one that is cut, and those that are there when the day is closed, end without a byte
1:E1 comes
2:E1 comes
round
cut 1
round
1:E1 closed
ended Cut
close
rounds 2
2:E1 closed
2:E1 took 0
ended Closing
host 2 2 2 0

with more than 16,384 bytes before a whole message nobody is let in
1:E1 comes
1:E1 raw (garbage-%*1000..2699)
1:E1 in A 1 98=0|108=30|1137=9|554=101112131415161718191a1b1c1d1e1f|
rounds 9
1:E1 open
wrong TooLong
clock 09:00:01.000
round
1:E1 closed
1:E1 took 0
host 1 1 1 0

at a firm's own door that firm alone is let in
1:C1 comes at E1
1:C1 in A 1 98=0|108=30|1137=9|554=303132333435363738393a3b3c3d3e3f|
2:C1 comes at C1
2:C1 in A 1 98=0|108=30|1137=9|554=303132333435363738393a3b3c3d3e3f|
rounds 3
2:C1 out A 1 98=0|108=30|1137=9|
wrong Door
clock 09:00:01.000
round
1:C1 closed
1:C1 took 0
2:C1 open
host 2 1 1 1";

#[test]
fn who_knows_a_secret_is_let_in(rt: HostRuntime) {
    let setting = Setting {
        script: "",
        wires: 3,
        workers: 1,
        places: 3,
        kept: NO_JOURNAL,
        secrets: SECRETS,
        looks: false,
    };
    check_plays(&rt, rt.alloc(), setting, LET_IN);
}

/// A worker with two places, without secrets.
const DOORS: &str = "\
a firm logs on at its own door, and no other does
1:C1 comes at E1
1:C1 in A 1 98=0|108=30|1137=9|
2:E1 comes at E1
2:E1 in A 1 98=0|108=30|1137=9|
rounds 2
1:C1 took 0
1:C1 hung
2:E1 out A 1 98=0|108=30|1137=9|
host 2 0 0 1";

#[test]
fn a_door_lets_its_firm_in(rt: HostRuntime) {
    let setting = Setting {
        script: "",
        wires: 2,
        workers: 1,
        places: 2,
        kept: NO_JOURNAL,
        secrets: "",
        looks: false,
    };
    check_plays(&rt, rt.alloc(), setting, DOORS);
}

/// A worker with two places, without secrets, which looks at first messages.
const LOOKED_AT: &str = "\
a firm logs on as if nobody looked, and what it sends with its Logon is answered
1:E1 comes
1:E1 in A 1 98=0|108=30|1137=9|
1:E1 in 1 2 112=X|
rounds 3
1:E1 out A 1 98=0|108=30|1137=9|
1:E1 out 0 2 112=X|
wrong nothing
host 1 0 0 1

its Logon may come in pieces, and after bytes that are none, however many
1:C1 comes
1:C1 raw (garbage-%*1000..2699)
rounds 9
1:C1 raw 8=FIXT.1.1|9=66|35=A|49=C1|56=GIVEUP|34=1|52=20260105-09:00:00|
rounds 2
1:C1 raw 98=0|108=30|1137=9|10=002|
rounds 3
1:C1 out A 1 98=0|108=30|1137=9|
wrong nothing
host 1 0 0 1

of one that isn't accepted it is said what was wrong, and it gets no byte
1:X9 comes
1:X9 in A 1 98=0|108=30|1137=9|
rounds 2
1:X9 took 0
1:X9 hung
wrong Sender
1:X9 ends
rounds 2
1:X9 closed
ended Done
host 1 1 0 0

a Logon with an encryption that isn't none
1:E1 comes
1:E1 in A 1 98=1|108=30|1137=9|
rounds 2
1:E1 hung
wrong Encryption

one without a number of seconds
1:E1 comes
1:E1 in A 1 98=0|108=x|1137=9|
rounds 2
1:E1 hung
wrong Heartbeat

one of another version
1:E1 comes
1:E1 in A 1 98=0|108=30|1137=8|
rounds 2
1:E1 hung
wrong Version

one that isn't sent to the house
1:E1 comes
1:E1 raw 8=FIXT.1.1|9=70|35=A|49=E1|56=GIVEUX|34=1|52=20260105-09:00:00.000|98=0|108=30|1137=9|10=197|
rounds 2
1:E1 hung
wrong Target

one whose number is none
1:E1 comes
1:E1 raw 8=FIXT.1.1|9=70|35=A|49=E1|56=GIVEUP|34=x|52=20260105-09:00:00.000|98=0|108=30|1137=9|10=004|
rounds 2
1:E1 hung
wrong Number

a first message that is no Logon
1:E1 comes
1:E1 in 1 1 112=X|
rounds 2
1:E1 hung
wrong NotALogon

at another firm's door
1:C1 comes at E1
1:C1 in A 1 98=0|108=30|1137=9|
rounds 2
1:C1 hung
wrong Door

who says nothing whole is ended after 30 s
1:E1 comes
1:E1 raw 8=FIXT.1.1
rounds 2
clock 09:00:30.000
round
1:E1 closed
1:E1 took 0
ended NoLogon
host 1 1 1 0

a firm that has all its places is told nothing, and a third connection finds none
refuse E1
1:E1 comes
2:C1 comes
1:E1 in A 1 98=0|108=30|1137=9|
rounds 2
1:E1 closed
1:E1 took 0
ended Refused
1:E1 comes
3:C1 comes
round
3:C1 closed
away Full
close
rounds 3
3:C1 took 0";

#[test]
fn what_is_wrong_with_a_first_message_is_said(rt: HostRuntime) {
    let setting = Setting {
        script: "",
        wires: 3,
        workers: 1,
        places: 2,
        kept: NO_JOURNAL,
        secrets: "",
        looks: true,
    };
    check_plays(&rt, rt.alloc(), setting, LOOKED_AT);
}
