//! A connection over streams: cut into pieces, with a byte that is another, with a reader, a writer or a clock that fails, and a long one.

use crate::exchanges::{told_after, told_raised};
use crate::rows::check_told;
use std::alloc::Global;
use std::process::Abort;
use trials::{Talk, Terms, columns, front_told};

/// A report above the gap is asked for, one at its number is entered, and the same again is not. The answers end at 93, 176, 271 and 358
/// bytes.
const ENTERED_ONCE: &str = "\
in A 1 98=0|108=30|1137=9|
sent 8=FIXT.1.1|9=70|35=A|49=GIVEUP|56=E1|34=1|52=20260105-09:00:00.000|98=0|108=30|1137=9|10=189|
in AE 3 571=R1|880=M1|55=XF6|32=10|31=101.5|75=20260105|552=1|54=1|1=H1|
out 2 2 7=2|16=0|
in AE 2 571=R1|880=M1|55=XF6|32=10|31=101.5|75=20260105|552=1|54=1|1=H1|
out AR 3 571=R1|880=M1|939=0|
in AE 2 43=Y|571=R1|880=M1|55=XF6|32=10|31=101.5|75=20260105|552=1|54=1|1=H1|
in AE 2 571=R1|880=M1|55=XF6|32=10|31=101.5|75=20260105|552=1|54=1|1=H1|
out 5 4 58=SeqTooLow|";

/// Each read but the fourth is answered, by one write, and the fifth closes the session: a sixth isn't made.
const FAULTS: &str = "\
ample -> 2 entries, done: 358
reads 0 -> 1 entries, read fault: 0
reads 1 -> 1 entries, read fault: 93
reads 2 -> 1 entries, read fault: 176
reads 3 -> 2 entries, read fault: 271
reads 4 -> 2 entries, read fault: 271
reads 5 -> 2 entries, done: 358
writes 0 -> 1 entries, write fault: 0
writes 1 -> 1 entries, write fault: 93
writes 2 -> 2 entries, write fault: 176
writes 3 -> 2 entries, write fault: 271
clock 0 -> 1 entries, read fault: 0
clock 1 -> 1 entries, read fault: 93
clock 2 -> 1 entries, read fault: 176
clock 3 -> 2 entries, read fault: 271
clock 4 -> 2 entries, read fault: 271
";

/// Byte by byte, in pieces of 100 bytes, and in one piece.
const CUT: &str = "\
piece 1 -> 2 entries, done: 358
piece 100 -> 2 entries, done: 358
piece 4096 -> 2 entries, done: 358
";

/// Asserts that a connection of E1 to a book after a script, on the terms of each row, ends and writes as the row says.
fn check(rt: &impl Abort, alloc: Global, script: &str, talk: &Talk, table: &str) {
    for row in table.lines() {
        let (terms, expected) = columns(row);
        let expected = front_told(alloc, expected, &talk.output).expect(rt, "memory");
        let told = told_after(alloc, script, talk, Terms::of(terms));
        check_told(rt, row, told, &expected);
    }
}

#[test]
fn what_was_answered_before_a_stream_or_the_clock_fails_is_sent(rt: HostRuntime) {
    let talk = Talk::of(rt.alloc(), "E1", ENTERED_ONCE).expect(&rt, "memory");
    check(&rt, rt.alloc(), "DAY 20260105/", &talk, FAULTS);
}

#[test]
fn a_session_may_be_cut_anywhere(rt: HostRuntime) {
    let mut talk = Talk::of(rt.alloc(), "E1", ENTERED_ONCE).expect(&rt, "memory");
    talk.cut().expect(&rt, "memory");
    check(&rt, rt.alloc(), "DAY 20260105/", &talk, CUT);
}

/// Two Logons of 89 bytes each, which ask for two intervals, and a report.
const TWO_LOGONS: &str = "\
raw 8=FIXT.1.1|9=66|35=A|49=E1|56=GIVEUP|34=1|52=20260105-09:00:00|98=0|108=20|1137=9|10=003|
raw 8=FIXT.1.1|9=66|35=A|49=E1|56=GIVEUP|34=1|52=20260105-09:00:00|98=0|108=30|1137=9|10=004|
in AE 2 571=R1|880=M1|55=XF6|32=10|31=101.5|75=20260105|552=1|54=1|1=H1|
";

/// The messages sent if the second Logon is the first message.
const BY_THE_SECOND: &str = "\
out A 1 98=0|108=30|1137=9|
out AR 2 571=R1|880=M1|939=0|";

/// The messages sent if the second Logon is garbled.
const BY_THE_FIRST: &str = "\
out A 1 98=0|108=20|1137=9|
out AR 2 571=R1|880=M1|939=0|";

/// Asserts that two Logons and a report, with a byte one higher at each of these places, enter the report and are answered by this.
fn check_raised(rt: &impl Abort, alloc: Global, from: usize, to: usize, answers: &str) {
    let talk = Talk::of(alloc, "E1", TWO_LOGONS).expect(rt, "memory");
    let answers = Talk::of(alloc, "E1", answers).expect(rt, "memory");
    let expected = front_told(alloc, "2 entries, done: all", &answers.output).expect(rt, "memory");
    for place in from..to {
        let row = format!(in alloc; "byte {place}").expect(rt, "memory");
        let told = told_raised(alloc, "DAY 20260105/", &talk, place);
        check_told(rt, &row, told, &expected);
    }
}

#[test]
fn a_garbled_message_changes_nothing_whichever_byte_is_another(rt: HostRuntime) {
    check_raised(&rt, rt.alloc(), 0, 89, BY_THE_SECOND);
    check_raised(&rt, rt.alloc(), 89, 178, BY_THE_FIRST);
}

/// 4,200 reports on no day, each refused, and a ResendRequest for all that was sent: the last 4,096 refusals once more, after one gap fill.
const LONG: &str = "\
in A 1 98=0|108=0|1137=9|
out A 1 98=0|108=0|1137=9|
(in AE % 571=R%|880=M%|55=XF6|32=10|31=101.5|552=1|54=1|1=H1|
*2..4201)in 2 4202 7=1|16=0|
(out AR % 571=R%|880=M%|939=1|751=99|58=NoDay|
*2..4201)out 4 1 43=Y|122=20260105-09:00:00.000|123=Y|36=106|
(out AR % 43=Y|122=20260105-09:00:00.000|571=R%|880=M%|939=1|751=99|58=NoDay|
*106..4201)";

#[test]
fn the_last_messages_are_sent_again(rt: HostRuntime) {
    let mut talk = Talk::of(rt.alloc(), "E1", LONG).expect(&rt, "memory");
    talk.cut().expect(&rt, "memory");
    let row = "piece 4096 -> 4200 entries, done: all";
    check(&rt, rt.alloc(), "", &talk, row);
}
