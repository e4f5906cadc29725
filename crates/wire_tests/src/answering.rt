//! What answers a firm's message, and what notices are sent as.
use crate::reading::{asking_of, inbound_of};
use crate::rows::{Subject, check, first_word, number};
use crate::words::{Values, notice_of, rejection_of, rows_of, side_of};
use crate::writing::text_at_nine;
use gu_msgs::inbound::RequestForPositions;
use gu_msgs::outbound::Body;
use gu_msgs::{Question, notice_body, positions_answer};
use gu_terms::Price;
use std::alloc::{AllocError, Global};

/// Messages after a sound header, each with its number and what became of what it asks, and the answers.
const ANSWERS: &str = "\
35=AE|571=R1|880=M1|55=XF6|32=10|31=101.5|552=1|54=1|1=H1|2 open -> 35=AR|571=R1|880=M1|939=0|
35=J|70=R1|53=10|124=1|17=R1|78=1|79=A1|80=10|2 offered 1 -> 35=P|70=R1|87=0|
35=AT|755=1|87=0|2 claimed 10
35=AT|755=1|87=1|2 refused 10
35=AT|755=1|87=7|2 reversed 10
35=AE|571=R1|880=M1|55=XF6|32=10|31=101.5|552=1|54=1|1=H1|2 Full -> 35=AR|571=R1|880=M1|939=1|751=99|58=Full|
35=J|70=R1|53=10|124=1|17=R1|78=1|79=A1|80=10|2 TooManyLots -> 35=P|70=R1|87=1|88=99|58=TooManyLots|
35=AT|755=1|87=0|2 OfferClosed -> 35=j|45=2|379=1|372=AT|380=0|58=OfferClosed|
35=AT|755=1|87=0|1000000000 LimitReached ACCT -> 35=j|45=1000000000|379=1|372=AT|380=0|58=LimitReached ACCT A1|
35=AT|755=1|87=1|2 Memory -> 35=j|45=2|379=1|372=AT|380=0|58=Memory|
35=AT|755=1|87=7|2 NothingToReverse -> 35=j|45=2|379=1|372=AT|380=0|58=NothingToReverse|
35=AT|755=1|87=0|4 Memory -> 35=j|45=4|379=1|372=AT|380=0|58=Memory|
35=AT|755=1|87=0|4 Full -> 35=j|45=4|379=1|372=AT|380=0|58=Full|
35=AT|755=1|87=0|4 NoDay -> 35=j|45=4|379=1|372=AT|380=0|58=NoDay|
35=AT|755=1|87=0|4 NotYours -> 35=j|45=4|379=1|372=AT|380=0|58=NotYours|
35=AT|755=1|87=0|4 UnknownOffer -> 35=j|45=4|379=1|372=AT|380=0|58=UnknownOffer|
35=AT|755=1|87=0|4 OfferClosed -> 35=j|45=4|379=1|372=AT|380=0|58=OfferClosed|
35=AT|755=1|87=0|4 OfferOpen -> 35=j|45=4|379=1|372=AT|380=0|58=OfferOpen|
35=AT|755=1|87=0|4 NothingToReverse -> 35=j|45=4|379=1|372=AT|380=0|58=NothingToReverse|
35=AT|755=1|87=0|4 TooManyOffers -> 35=j|45=4|379=1|372=AT|380=0|58=TooManyOffers|
35=AT|755=1|87=0|4 UnknownInstrument -> 35=j|45=4|379=1|372=AT|380=0|58=UnknownInstrument|
35=AT|755=1|87=0|4 LimitReached EXEC -> 35=j|45=4|379=1|372=AT|380=0|58=LimitReached EXEC E1|
35=AT|755=1|87=0|4 LimitReached AGR -> 35=j|45=4|379=1|372=AT|380=0|58=LimitReached AGR P1|
35=AT|755=1|87=0|4 LimitReached ACCT -> 35=j|45=4|379=1|372=AT|380=0|58=LimitReached ACCT A1|
35=AT|755=1|87=0|4 LimitReached CARRY -> 35=j|45=4|379=1|372=AT|380=0|58=LimitReached CARRY E1|
35=AT|755=1|87=0|4 LimitReached GUAR -> 35=j|45=4|379=1|372=AT|380=0|58=LimitReached GUAR E1|
35=AE|571=R1|880=M1|55=XF6|32=10|31=101.5|552=1|54=1|1=H1|4 UnknownAccount -> 35=AR|571=R1|880=M1|939=1|751=1|58=UnknownAccount|
35=AE|571=R1|880=M1|55=XF6|32=10|31=101.5|552=1|54=1|1=H1|4 Full -> 35=AR|571=R1|880=M1|939=1|751=99|58=Full|
35=J|70=R1|53=10|124=1|17=R1|78=1|79=A1|80=10|4 Memory -> 35=P|70=R1|87=1|88=99|58=Memory|
35=AE|571=R2|880=M1|55=XF6|32=10|31=-1|552=1|54=2|1=H2|2 matched -> 35=AR|571=R2|880=M1|939=0|
35=J|70=L1|71=0|53=10|124=1|17=R1|78=2|79=A1|80=4|79=A1|80=6|2 offered 2 -> 35=P|70=L1|87=0|
35=J|70=L2|53=16|124=1|17=R1|78=16|{79=A|80=1|*16}|2 offered 16 -> 35=P|70=L2|87=0|
35=AT|755=1|87=2|2 Full -> 35=j|45=2|379=1|372=AT|380=0|58=Full|
35=AT|755=1|87=5|2 Full -> 35=j|45=2|379=1|372=AT|380=0|58=Full|
35=AT|755=9|87=7|2 Full -> 35=j|45=2|379=9|372=AT|380=0|58=Full|
35=AT|755=1|87=6|2 Full -> no question
35=0|2 Full -> no question
35=1|112=TEST|2 Full -> no question
35=A|98=0|108=30|1137=9|2 Full -> no question
35=5|2 Full -> no question
35=D|2 Full -> no question
";

/// Questions for positions, each with its number and the positions in this many instruments on an open day or on none, and the
/// messages that report them, one after another.
const POSITIONS: &str = "\
35=AN|710=R1|724=0|1=A1|2 stranger -> 35=AO|721=R1-0|710=R1|728=3|729=2|727=0|1=A1|
35=AN|710=R1|724=0|1=A1|2 rows 1 -> 35=AO|721=R1-0|710=R1|728=0|729=0|727=1|1=A1|35=AP|721=R1-1|710=R1|728=0|715=20260105|1=A1|55=XF6|702=1|703=TQ|704=10|705=0|
35=AN|710=R1|724=0|1=A1|2 rows 0 -> 35=AO|721=R1-0|710=R1|728=2|729=0|727=0|1=A1|
35=AN|710=R1|724=0|1=A1|2 closed 1 -> 35=AO|721=R1-0|710=R1|728=2|729=0|727=0|1=A1|
35=AN|710=R1|724=0|1=A1|2 rows 2 -> 35=AO|721=R1-0|710=R1|728=0|729=0|727=2|1=A1|35=AP|721=R1-1|710=R1|728=0|715=20260105|1=A1|55=XF6|702=1|703=TQ|704=10|705=0|35=AP|721=R1-2|710=R1|728=0|715=20260105|1=A1|55=XF6|702=1|703=TQ|704=10|705=0|
35=AN|710=Q1|724=0|1=A1|2 stranger -> 35=AO|721=Q1-0|710=Q1|728=3|729=2|727=0|1=A1|
";

/// Prices in millionths with notices, and what they are sent as.
const NOTICES: &str = "\
101500000 buy matched -> 35=AE|571=7-B|572=R1|573=0|880=M1|55=XF6|32=10|31=101.5|75=20260105|552=1|54=1|1=A1|
101500000 sell matched -> 35=AE|571=7-S|572=R1|573=0|880=M1|55=XF6|32=10|31=101.5|75=20260105|552=1|54=2|1=A1|
101500000 sell offered -> 35=AS|755=1|71=0|794=8|87=6|55=XF6|54=2|53=10|6=101.5|75=20260105|78=1|79=A1|80=10|
101500000 sell claimed -> 35=AS|755=1|71=0|794=9|87=0|55=XF6|54=2|53=10|6=101.5|75=20260105|78=1|79=A1|80=10|
101500000 sell refused 2 -> 35=AS|755=1|71=0|794=10|87=2|55=XF6|54=2|53=10|6=101.5|75=20260105|78=1|79=A1|80=10|
101500000 sell reversed -> 35=AS|755=1|71=0|794=9|87=7|55=XF6|54=2|53=10|6=101.5|75=20260105|78=1|79=A1|80=10|
101500000 buy offered -> 35=AS|755=1|71=0|794=8|87=6|55=XF6|54=1|53=10|6=101.5|75=20260105|78=1|79=A1|80=10|
101500000 buy claimed -> 35=AS|755=1|71=0|794=9|87=0|55=XF6|54=1|53=10|6=101.5|75=20260105|78=1|79=A1|80=10|
101500000 buy refused 1 -> 35=AS|755=1|71=0|794=10|87=1|55=XF6|54=1|53=10|6=101.5|75=20260105|78=1|79=A1|80=10|
101500000 buy refused 2 -> 35=AS|755=1|71=0|794=10|87=2|55=XF6|54=1|53=10|6=101.5|75=20260105|78=1|79=A1|80=10|
101500000 buy refused 5 -> 35=AS|755=1|71=0|794=10|87=5|55=XF6|54=1|53=10|6=101.5|75=20260105|78=1|79=A1|80=10|
101500000 buy reversed -> 35=AS|755=1|71=0|794=9|87=7|55=XF6|54=1|53=10|6=101.5|75=20260105|78=1|79=A1|80=10|
0 buy matched -> 35=AE|571=7-B|572=R1|573=0|880=M1|55=XF6|32=10|31=0|75=20260105|552=1|54=1|1=A1|
-250000 buy matched -> 35=AE|571=7-B|572=R1|573=0|880=M1|55=XF6|32=10|31=-0.25|75=20260105|552=1|54=1|1=A1|
23000000 buy matched -> 35=AE|571=7-B|572=R1|573=0|880=M1|55=XF6|32=10|31=23|75=20260105|552=1|54=1|1=A1|
1500000 buy matched -> 35=AE|571=7-B|572=R1|573=0|880=M1|55=XF6|32=10|31=1.5|75=20260105|552=1|54=1|1=A1|
100000001 buy matched -> 35=AE|571=7-B|572=R1|573=0|880=M1|55=XF6|32=10|31=100.000001|75=20260105|552=1|54=1|1=A1|
-999999999999999 buy matched -> 35=AE|571=7-B|572=R1|573=0|880=M1|55=XF6|32=10|31=-999999999.999999|75=20260105|552=1|54=1|1=A1|
";

/// Returns what messages are written as, one after another.
fn texts(alloc: Global, w: &Values, bodies: Vec<Body>) -> Result<String, AllocError> {
    let mut text = String::new(alloc);
    for body in bodies {
        text.push_str(&text_at_nine(alloc, w, body)?)?;
    }
    Ok(text)
}

/// Returns the messages that report positions by their words.
fn positions(
    alloc: Global,
    w: &Values,
    question: &RequestForPositions,
    words: &str,
) -> Result<String, AllocError> {
    let rows = rows_of(alloc, w, words)?;
    let bodies = positions_answer(alloc, question, &rows)?;
    texts(alloc, w, bodies)
}

/// Returns the answer to a question by the number of its message and what became of what it asks.
fn answer(
    alloc: Global,
    w: &Values,
    question: Question,
    words: &str,
) -> Result<String, AllocError> {
    let (seq_num, outcome) = first_word(words);
    if let Question::Positions(question) = question {
        return positions(alloc, w, &question, outcome);
    }
    match question.answer(number(seq_num), rejection_of(w, outcome)) {
        Some(body) => text_at_nine(alloc, w, body),
        None => Ok(String::new(alloc)),
    }
}

/// Returns what a message asks.
fn question_of(alloc: Global, message: &str) -> Result<Option<Question>, AllocError> {
    let asking = asking_of(inbound_of(alloc, message)?);
    Ok(asking.map(|asking| asking.question()))
}

/// Returns the answer to a row's message.
pub fn told(alloc: Global, w: &Values, asked: &str) -> Result<String, AllocError> {
    let (message, words) = asked.rsplit_once('|').unwrap_or((asked, ""));
    match question_of(alloc, message)? {
        Some(question) => answer(alloc, w, question, words),
        None => String::from_str(alloc, "no question"),
    }
}

/// Returns what a notice is sent as.
pub fn notice_told(alloc: Global, w: &Values, words: &str) -> Result<String, AllocError> {
    let (price, rest) = first_word(words);
    let (side, event) = first_word(rest);
    let mut w = *w;
    w.price = Price::new(price.parse().unwrap_or(0)).unwrap_or(w.price);
    match notice_of(&w, side_of(side), event) {
        Some(notice) => text_at_nine(alloc, &w, notice_body(&notice)),
        None => format!(in alloc; "no notice"),
    }
}

/// Each row, and thousands of them in a row.
#[test]
fn each_message_has_its_answer_and_each_notice_its_message(rt: HostRuntime) {
    for _ in 0..50 {
        check(&rt, rt.alloc(), Subject::Answers, ANSWERS);
        check(&rt, rt.alloc(), Subject::Answers, POSITIONS);
        check(&rt, rt.alloc(), Subject::Notices, NOTICES);
    }
}

/// Returns how many messages report the positions of a row, in the last of this many turns.
pub fn positions_told(alloc: Global, w: &Values, asked: &str) -> Result<String, AllocError> {
    let (turns, words) = first_word(asked);
    let question = RequestForPositions {
        pos_req_id: w.id,
        account: w.account,
    };
    let rows = rows_of(alloc, w, words)?;
    let mut count = 0;
    for _ in 0..number(turns) {
        count = positions_answer(alloc, &question, &rows)?.len();
    }
    format!(in alloc; "{count}")
}

#[test]
fn positions_in_10_000_instruments_are_told(rt: HostRuntime) {
    let row = "20 rows 10000 -> 10001";
    check(&rt, rt.alloc(), Subject::Positions, row);
}
