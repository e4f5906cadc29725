//! What messages are written as.
use crate::messages::{replaced, text_of};
use crate::rows::{Subject, check, first_word, number};
use crate::words::Values;
use gu_msgs::outbound::Body;
use gu_msgs::{Draft, LogoutReason, Outbound, Stamp, write, write_over};
use gu_terms::Moment;
use std::alloc::{AllocError, Global};

/// Returns message 3 to the firm, which is sent at nine.
fn at_nine(w: &Values, body: Body) -> Outbound {
    Outbound {
        firm: w.firm,
        msg_seq_num: 3,
        sending_time: w.nine,
        orig_sending_time: None,
        body,
    }
}

/// Returns the fields of a message that is written over another one, as a text.
fn written(alloc: Global, w: &Values, message: &Outbound) -> Result<String, AllocError> {
    let mut draft = Draft::new(alloc);
    let earlier = at_nine(w, Body::Logout(Some(LogoutReason::SeqTooLow)));
    let before = Stamp::new(earlier.sending_time);
    write_over(&mut draft, &earlier.as_ref(), &before)?;
    let stamp = Stamp::new(message.sending_time);
    write_over(&mut draft, &message.as_ref(), &stamp)?;
    text_of(alloc, &draft.into_fields())
}

/// Returns what a message that is sent at nine is written as, but for those parts of the header that each has, if it has them.
pub fn text_at_nine(alloc: Global, w: &Values, body: Body) -> Result<String, AllocError> {
    let text = written(alloc, w, &at_nine(w, body))?;
    let each = "49=GIVEUP|56=E1|34=3|52=20260105-09:00:00.000|";
    replaced(alloc, text.as_str(), each, "")
}

/// A TestRequest, or a SequenceReset to a number, when it is sent, and when it was sent first; and what it is written as.
const ROWS: &str = "\
0 253402300799999 951868799001 -> 35=1|49=GIVEUP|56=E1|34=3|52=99991231-23:59:59.999|43=Y|122=20000229-23:59:59.001|112=TEST|
106 1767603600000 -> 35=4|49=GIVEUP|56=E1|34=3|52=20260105-09:00:00.000|123=Y|36=106|
";

/// Returns the message of a row.
fn message_of(w: &Values, words: &str) -> Outbound {
    let (reset, times) = first_word(words);
    let (now, first) = first_word(times);
    let body = match number(reset) {
        0 => Body::TestRequest,
        number => Body::SequenceReset(number),
    };
    let mut message = at_nine(w, body);
    message.sending_time = Moment::new(number(now)).unwrap_or(w.nine);
    if !first.is_empty() {
        message.orig_sending_time = Moment::new(number(first));
    }
    message
}

/// Returns what the message of a row is written as.
pub fn told(alloc: Global, w: &Values, words: &str) -> Result<String, AllocError> {
    let fields = write(alloc, &message_of(w, words))?;
    text_of(alloc, &fields)
}

#[test]
fn a_message_says_when_it_is_sent_and_when_it_was_sent_first(rt: HostRuntime) {
    check(&rt, rt.alloc(), Subject::Written, ROWS);
}
