//! Firms' reports in each of their forms, and their acknowledgements. `|` ends a field.
use crate::messages::{FIRST, shown, text_in};
use crate::reading::{answer, fields_in};
use crate::rows::{Subject, check, first_word, number};
use crate::words::{Values, rejection_of};
use gu_fix::encode_onto;
use gu_msgs::outbound::{Application, Body, TradeCaptureReportAck};
use gu_msgs::{Draft, Outbound, Stamp, midnight_of, sender, write_over};
use gu_terms::{FirmId, Id};
use std::alloc::{AllocError, Global};

/// A part of the first report and another form of it, and what the report is read as then. One is in another order, the
/// group first; the last three have tags of the group outside it, or before its first side.
const FORMS: &str = "\
|34=1| by |34=0001| -> E1: E1 reports R1 of M1: H1 buys 10 XF6 at 101500000 on (2026, 1, 5)
|34=1| by |34=1000000000| -> E1: E1 reports R1 of M1: H1 buys 10 XF6 at 101500000 on (2026, 1, 5)
|56=GIVEUP| by |56=x|43=Y|122=y| -> E1: E1 reports R1 of M1: H1 buys 10 XF6 at 101500000 on (2026, 1, 5)
|56=GIVEUP| by |43=N|56=GIVEUP| -> E1: E1 reports R1 of M1: H1 buys 10 XF6 at 101500000 on (2026, 1, 5)
|571=R1| by |571=R1|487=0|856=00|448=a|448=b| -> E1: E1 reports R1 of M1: H1 buys 10 XF6 at 101500000 on (2026, 1, 5)
|75=20260105| by | -> E1: E1 reports R1 of M1: H1 buys 10 XF6 at 101500000 on the open day
|54=1| by |54=02| -> E1: E1 reports R1 of M1: H1 sells 10 XF6 at 101500000 on (2026, 1, 5)
34=1|52=20260105-09:00:00|571=R1|880=M1|55=XF6|32=0010.0|31=101.50|75=20260105|552=1|54=1|1=H1| by 552=01|54=01|448=P|1=H1|880=M1|75=20260105|31=101.5|55=XF6|32=10|571=R1|52=x|34=1| -> E1: E1 reports R1 of M1: H1 buys 10 XF6 at 101500000 on (2026, 1, 5)
|571=R1| by |54=2|1=H9|571=R1| -> E1: E1 reports R1 of M1: H1 buys 10 XF6 at 101500000 on (2026, 1, 5)
|552=1| by |552=1|1=H9| -> E1: E1 reports R1 of M1: H1 buys 10 XF6 at 101500000 on (2026, 1, 5)
|10=222| by |10=222|54=2|1=H9| -> E1: E1 reports R1 of M1: H1 buys 10 XF6 at 101500000 on (2026, 1, 5)
";

/// A part of the first report and what is in its place, and why that is no report of a firm's.
const OTHERS: &str = "\
|35=AE| by |35=AR| -> E1: unread AR
|35=AE| by |35=AE|35=AE| -> E1: 35: 13
|35=AE| by |35=AE|35=D| -> E1: 35: 13
|49=E1| by |49=e1| -> no sender
|56=GIVEUP| by | -> E1: 56: 1
|34=1| by |34=0| -> no sender
|34=1| by |34=1000000001| -> no sender
|34=1| by |34=1.0| -> no sender
|34=1| by |34=1|43=X| -> E1: 43: 5
|34=1| by |34=1|43=Y|43=Y| -> E1: 43: 13
|34=1| by |34=1|122=x|122=x| -> E1: 122: 13
|52=20260105-09:00:00| by | -> E1: 52: 1
|571=R1| by |571=R 1| -> E1: 571: 5
|880=M1| by | -> E1: 880: 1
|571=R1| by |571=R1|487=1| -> E1: 487: 5
|571=R1| by |571=R1|856=2| -> E1: 856: 5
|55=XF6| by |55=XF6|55=XF6| -> E1: 55: 13
|32=0010.0| by |32=10.5| -> E1: 32: 5
|31=101.50| by |31=x| -> E1: 31: 6
|75=20260105| by |75=20260230| -> E1: 75: 5
|552=1| by |552=2| -> E1: 552: 16
|1=H1| by |1=H1|54=2|1=H2| -> E1: 552: 16
|54=1| by |54=3| -> E1: 54: 5
|54=1| by | -> E1: 552: 16
|1=H1| by |1=H1|1=H1| -> E1: 1: 13
|1=H1| by |1=h1| -> E1: 1: 5
|54=1|1=H1| by |1=H1|54=1| -> E1: 1: 1
|75=20260105|552=1|54=1| by |552=1|54=1|75=20260105| -> E1: 1: 1
|75=20260105|552=1| by |552=1|75=20260105| -> E1: 552: 16
|10=222| by |10=222|10=222| -> E1: 10: 13
";

/// The sides of a trade.
const TRADE: &str = "\
8=FIXT.1.1|9=117|35=AE|49=E1|56=GIVEUP|34=1|52=20260105-09:00:00|571=R1|880=M1|55=XF6|32=0010.0|31=101.50|75=20260105|552=1|54=1|1=H1|10=222| -> E1: E1 reports R1 of M1: H1 buys 10 XF6 at 101500000 on (2026, 1, 5)
8=FIXT.1.1|9=112|35=AE|49=E2|56=GIVEUP|34=1|52=20260105-09:00:00|571=R2|880=M1|55=XF6|32=10|31=101.5|75=20260105|552=1|54=2|1=H2|10=239| -> E2: E2 reports R2 of M1: H2 sells 10 XF6 at 101500000 on (2026, 1, 5)
";

/// Returns who sent a message with a text after it or a part of it in another form, and what it is read as.
pub fn told(alloc: Global, message: &str, asked: &str) -> Result<String, AllocError> {
    let fields = fields_in(alloc, message, asked)?;
    let Some(firm) = sender(&fields) else {
        return format!(in alloc; "no sender");
    };
    let text = answer(alloc, &fields)?;
    format!(in alloc; "{}: {text}", text_in(firm.get()))
}

#[test]
fn a_report_is_read_in_each_of_its_forms_and_others_are_none(rt: HostRuntime) {
    check(&rt, rt.alloc(), Subject::Sent(FIRST), FORMS);
    check(&rt, rt.alloc(), Subject::Sent(FIRST), OTHERS);
    check(&rt, rt.alloc(), Subject::Sent(""), TRADE);
}

/// The firm, the number of the message, the report and why it isn't in the book, and the message.
const ANSWERS: &str = "\
E1 1 R1 done -> x8=FIXT.1.1|9=72|35=AR|49=GIVEUP|56=E1|34=1|52=20260105-00:00:00.000|571=R1|880=M1|939=0|10=121|
E2 2 R2 done -> x8=FIXT.1.1|9=72|35=AR|49=GIVEUP|56=E2|34=2|52=20260105-00:00:00.000|571=R2|880=M1|939=0|10=124|
E2 3 R3 MatchConflict -> x8=FIXT.1.1|9=96|35=AR|49=GIVEUP|56=E2|34=3|52=20260105-00:00:00.000|571=R3|880=M1|939=1|751=99|58=MatchConflict|10=156|
E2 4 R3 NotYours -> x8=FIXT.1.1|9=90|35=AR|49=GIVEUP|56=E2|34=4|52=20260105-00:00:00.000|571=R3|880=M1|939=1|751=1|58=NotYours|10=138|
E2 5 R3 Memory -> x8=FIXT.1.1|9=89|35=AR|49=GIVEUP|56=E2|34=5|52=20260105-00:00:00.000|571=R3|880=M1|939=1|751=99|58=Memory|10=250|
E2 1000000000 R3 UnknownInstrument -> x8=FIXT.1.1|9=108|35=AR|49=GIVEUP|56=E2|34=1000000000|52=20260105-00:00:00.000|571=R3|880=M1|939=1|751=2|58=UnknownInstrument|10=062|
";

/// Returns the answer of 2026-01-05 to a firm's report with match id M1, by the number of its message, the report and the outcome.
fn ack_to(w: &Values, firm: FirmId, words: &str) -> Option<Outbound> {
    let (seq_num, rest) = first_word(words);
    let (id, outcome) = first_word(rest);
    Some(Outbound {
        firm,
        msg_seq_num: number(seq_num),
        sending_time: midnight_of(w.day),
        orig_sending_time: None,
        body: Body::Application(Application::TradeCaptureReportAck(TradeCaptureReportAck {
            trade_report_id: Id::new(id.as_bytes())?,
            trd_match_id: w.match_id,
            rejection: rejection_of(w, outcome),
        })),
    })
}

/// Returns a message on the wire, after an `x`.
fn on_the_wire(alloc: Global, message: &Outbound) -> Result<String, AllocError> {
    let stamp = Stamp::new(message.sending_time);
    let mut draft = Draft::new(alloc);
    write_over(&mut draft, &message.as_ref(), &stamp)?;
    let mut output = Vec::from_slice(alloc, b"x")?;
    encode_onto(&mut output, draft.fields())?;
    shown(alloc, &output)
}

/// Returns the answer to a report, on the wire after an `x`.
pub fn acknowledged(alloc: Global, w: &Values, words: &str) -> Result<String, AllocError> {
    let (firm, rest) = first_word(words);
    let firm = FirmId::new(firm.as_bytes()).unwrap_or(w.firm);
    match ack_to(w, firm, rest) {
        Some(message) => on_the_wire(alloc, &message),
        None => format!(in alloc; "no id"),
    }
}

#[test]
fn reports_are_answered_with_the_reason(rt: HostRuntime) {
    check(&rt, rt.alloc(), Subject::Acknowledged, ANSWERS);
}
