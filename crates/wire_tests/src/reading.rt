//! What messages are read as.
use crate::messages::{fields_of, text_in};
use crate::requests::tell_request;
use crate::rows::{Subject, check};
use gu_fix::Fields;
use gu_msgs::{Asking, Inbound, MsgFault, read, sender};
use std::alloc::{AllocError, Global};

/// What comes before messages after a sound header.
const SOUND: &str = "8=FIXT.1.1|9=100|10=000|49=E1|56=GIVEUP|34=2|52=x|";

/// What comes before whole messages.
const FRAMED: &str = "8=FIXT.1.1|9=100|10=000|";

/// Whole messages.
const HEADERS: &str = "\
35=0|49=E1|56=GIVEUP|34=0|52=x| -> beats
35=0|49=E1|56=GIVEUP|34=1x|52=x| -> 34: 6
35=0|49=E1|56=GIVEUP|34=1000000001|52=x| -> 34: 5
35=0|49=E1|56=GIVEUP|34=18446744073709551617|52=x| -> 34: 5
35=AE|49=E1|56=GIVEUP|34=1x|52=x|571=R1|880=M1|55=X|32=1|31=1| -> 552: 1
35=AE|49=E1|56=GIVEUP|34=1x|52=x|571=R1|880=M1|55=x|32=1|31=1|552=1|54=1|1=H1| -> 34: 6
35=0|34=2|52=x| -> 49: 1
35=0|49=E1|56=GIVEUP|34=2|52=x|35=1| -> 35: 13
49=E1|56=GIVEUP|34=2| -> 35: 1
49=E1|49=E1|56=GIVEUP|34=2| -> 49: 13
35=A!|49=E1|49=E1| -> 35: 11
35=ABCD| -> 35: 11
35=D|52=x|52=x| -> unread D
";

/// Messages of the session after a sound header.
const SESSION: &str = "\
35=0| -> beats
35=0|112=a =b| -> beats
35=1|112=TEST| -> asks TEST
35=1|112=a =b| -> asks a =b
35=1|112=| -> 112: 5
35=1|112=a\x01b| -> 112: 5
35=1| -> 112: 1
35=2|7=003|16=0| -> again 3 to 0
35=2|7=0|16=x| -> 7: 5
35=2|7=5|16=4| -> 16: 5
35=2|7=5|16=-1| -> 16: 6
35=3|45=1| -> rejects
35=4|36=9|123=Y| -> resets to 9, fill true
35=4|36=0| -> 36: 5
35=5| -> logs out
35=A|98=0|108=030|1137=009|141=N| -> logs on, beats 30, resets false
35=A|98=0|108=3601|1137=9| -> 108: 5
35=A|98=0|108=30|1137=8| -> 1137: 5
35=D|52=x| -> unread D
35=ae| -> unread ae
";

/// Questions and answers after a sound header.
const HOUSE: &str = "\
35=AT|755=01|87=00| -> E1 claims 1
35=AT|755=-5|87=0| -> 755: 6
35=AT|755=16000001|87=0| -> 755: 5
35=AT|755=1|87=1| -> E1 refuses 1 by 1
35=AT|755=1|87=2| -> E1 refuses 1 by 2
35=AT|755=1|87=5| -> E1 refuses 1 by 5
35=AT|755=1|87=6| -> asks for nothing
35=AT|755=16000000|87=007| -> E1 reverses 16000000
35=AT|755=1|87=3| -> 87: 5
35=AT|755=1|87=8| -> 87: 5
35=AT|755=1|87=18446744073709551623| -> 87: 5
35=AT|755=1|87=-1| -> 87: 6
35=AN|710=Q1|724=0|1=A1| -> E1 asks for the positions of A1
35=AN|710=Q1|724=1|1=A1| -> 724: 5
35=AN|710=Q 1|724=0|1=A1| -> 710: 5
";

/// What comes before trade capture reports.
const REPORT: &str =
    "8=FIXT.1.1|9=100|10=000|35=AE|49=E1|56=GIVEUP|34=2|52=20260105-09:00:00|571=R1|";

/// Trade capture reports after a sound header.
const REPORTS: &str = "\
880=M1|55=XF6|32=10|31=1.5|75=20260105|552=1|54=1|1=H1| -> E1 reports R1 of M1: H1 buys 10 XF6 at 1500000 on (2026, 1, 5)
880=M1|55=X|32=1|31=-1|552=1|54=1|1=H1| -> E1 reports R1 of M1: H1 buys 1 X at -1000000 on the open day
55=X|32=1|31=1|552=1|54=1|1=H1| -> 880: 1
880=M1|880=M1|571=R1|552=x| -> 880: 13
880=M1|9=5|571=R1| -> 9: 13
880=M1|55=x|32=-5|31=1|552=1|54=1|1=H1| -> 55: 5
880=M1|55=X|32=-5|31=1|552=1|54=1|1=H1| -> 32: 5
880=M1|55=X|32=1.5|31=1|552=1|54=1|1=H1| -> 32: 5
880=M1|55=X|32=a|31=1|552=1|54=1|1=H1| -> 32: 6
880=M1|55=X|32=1|31=1|75=2026010|552=1|54=1|1=H1| -> 75: 6
880=M1|55=X|32=1|31=1|75=20260230|552=1|54=1|1=H1| -> 75: 5
880=M1|55=X|32=1|31=1|487=1|552=1|54=1|1=H1| -> 487: 5
880=M1|55=X|32=1|31=1|43=X|552=1|54=1|1=H1| -> 43: 5
";

/// What comes before the sides of trade capture reports.
const SIDE: &str =
    "8=FIXT.1.1|9=100|10=000|35=AE|49=E1|56=GIVEUP|34=2|52=x|571=R1|880=M1|55=XF6|32=0010.0|31=1|";

/// The sides of trade capture reports.
const SIDES: &str = "\
552=1|54=1|1=H1| -> E1 reports R1 of M1: H1 buys 10 XF6 at 1000000 on the open day
552=1|1=Q|54=01|1=H1| -> E1 reports R1 of M1: H1 buys 10 XF6 at 1000000 on the open day
552=01|9999=q|54=1|452=7|1=H1| -> E1 reports R1 of M1: H1 buys 10 XF6 at 1000000 on the open day
54=1|552=1|54=2|1=H1| -> E1 reports R1 of M1: H1 sells 10 XF6 at 1000000 on the open day
552=2|54=1|1=H1| -> 552: 16
552=2|54=1|1=H1|54=2|1=H1| -> 552: 5
552=0| -> 552: 5
552=x|54=1|1=H1| -> 552: 6
552=1000000001|54=1|1=H1| -> 552: 16
552=18446744073709551617|54=1|1=H1| -> 552: 16
552=1|1=H1|54=1| -> 1: 1
552=1|54=1|1=H1|1=H1| -> 1: 13
552=1|54=1|487=0|1=H1| -> 1: 1
552=1|487=0|54=1|1=H1| -> 552: 16
552=1|54=B|1=H1| -> 54: 6
552=1|54=3|1=H1| -> 54: 5
552=1|54=1|1=h1| -> 1: 5
 -> 552: 1
";

/// What comes before give-ups.
const GIVE_UP: &str = "8=FIXT.1.1|9=100|10=000|35=J|49=E1|56=GIVEUP|34=2|52=x|70=L1|";

/// Give-ups; one may have sixteen parts.
const GIVE_UPS: &str = "\
71=0|53=10|124=1|17=R1|78=2|79=A1|80=4|79=A2|80=6| -> E1 gives up L1 of R1, 10 lots: A1 4 A2 6
53=10.0|78=2|79=A1|17=q|80=4|79=A1|80=6|124=01|79=q|17=R1| -> E1 gives up L1 of R1, 10 lots: A1 4 A1 6
53=9|124=1|17=R1|78=1|79=A1|80=10| -> 53: 5
53=9|124=1|17=R1|78=1|79=A1|80=x| -> 80: 6
53=x|124=1|17=R1|78=1|79=A1|80=x| -> 53: 6
53=9|124=1|17=R1|78=2|79=A1|80=4|80=5|79=A2| -> 80: 13
53=9|124=1|17=R1|78=1|79=A1|79=A1| -> 78: 16
53=9|124=1|78=2|79=A1| -> 124: 16
53=9|124=1|17= |78=0| -> 17: 5
53=136|124=1|17=R1|78=16|79=A|80=1|79=B|80=2|79=C|80=3|79=D|80=4|79=E|80=5|79=F|80=6|79=G|80=7|79=H|80=8|79=I|80=9|79=J|80=10|79=K|80=11|79=L|80=12|79=M|80=13|79=N|80=14|79=O|80=15|79=P|80=16| -> E1 gives up L1 of R1, 136 lots: A 1 B 2 C 3 D 4 E 5 F 6 G 7 H 8 I 9 J 10 K 11 L 12 M 13 N 14 O 15 P 16
53=17|124=1|17=R1|78=17|79=A|80=1|79=B|80=1|79=C|80=1|79=D|80=1|79=E|80=1|79=F|80=1|79=G|80=1|79=H|80=1|79=I|80=1|79=J|80=1|79=K|80=1|79=L|80=1|79=M|80=1|79=N|80=1|79=O|80=1|79=P|80=1|79=Q|80=1| -> 78: 5
";

/// What else a firm asks for after a sound header.
const ASKED: &str = "\
35=AE|571=R1|880=M1|55=XF6|32=10|31=101.5|75=20260105|552=1|54=1|1=H1| -> E1 reports R1 of M1: H1 buys 10 XF6 at 101500000 on (2026, 1, 5)
35=AE|571=R2|880=M1|55=XF6|32=10|31=-1|552=1|54=2|1=H2| -> E1 reports R2 of M1: H2 sells 10 XF6 at -1000000 on the open day
35=J|70=L1|71=0|53=10|124=1|17=R1|78=2|79=A1|80=4|79=A1|80=6| -> E1 gives up L1 of R1, 10 lots: A1 4 A1 6
35=J|70=L2|53=16|124=1|17=R1|78=16|79=A|80=1|79=B|80=1|79=C|80=1|79=D|80=1|79=E|80=1|79=F|80=1|79=G|80=1|79=H|80=1|79=I|80=1|79=J|80=1|79=K|80=1|79=L|80=1|79=M|80=1|79=N|80=1|79=O|80=1|79=P|80=1| -> E1 gives up L2 of R1, 16 lots: A 1 B 1 C 1 D 1 E 1 F 1 G 1 H 1 I 1 J 1 K 1 L 1 M 1 N 1 O 1 P 1
35=AT|755=1|87=0| -> E1 claims 1
35=AT|755=9|87=7| -> E1 reverses 9
";

/// Messages of 65,536 bytes: a give-up of sixteen parts, of which the last has 16,324 fields that nothing reads, and a heartbeat
/// with 16,380 fields.
const LONGEST: &str = "\
8=FIXT.1.1|9=65510|35=J|49=E|56=G|34=1|52=xx|70=L|53=16|124=1|17=R|78=16|79=A|80=1|79=B|80=1|79=C|80=1|79=D|80=1|79=E|80=1|79=F|80=1|79=G|80=1|79=H|80=1|79=I|80=1|79=J|80=1|79=K|80=1|79=L|80=1|79=M|80=1|79=N|80=1|79=O|80=1|79=P|80=1|{2=x|*16324}10=170| -> E gives up L of R, 16 lots: A 1 B 1 C 1 D 1 E 1 F 1 G 1 H 1 I 1 J 1 K 1 L 1 M 1 N 1 O 1 P 1
8=FIXT.1.1|9=65510|35=0|{1=x|*16375}11=x|10=182| -> 49: 1
";

/// Appends what a session message says; nothing for any other message.
fn tell_session(text: &mut String, inbound: &Inbound) -> Result<(), AllocError> {
    match inbound {
        Inbound::Heartbeat => text.push_str("beats"),
        Inbound::TestRequest(m) => write!(text, "asks {}", text_in(m.test_req_id.get())),
        Inbound::ResendRequest(m) => write!(text, "again {} to {}", m.begin_seq_no, m.end_seq_no),
        Inbound::Reject => text.push_str("rejects"),
        Inbound::SequenceReset(m) => {
            write!(text, "resets to {}, fill {}", m.new_seq_no, m.is_gap_fill)
        }
        Inbound::Logout => text.push_str("logs out"),
        Inbound::Logon(m) => write!(
            text,
            "logs on, beats {}, resets {}",
            m.heart_bt_int, m.resets_seq_num
        ),
        Inbound::Unread(code) => write!(text, "unread {}", text_in(code.get())),
        _ => Ok(()),
    }
}

/// Returns what a message asks for, if it asks for anything.
pub fn asking_of(inbound: Inbound) -> Option<Asking> {
    match inbound {
        Inbound::TradeCaptureReport(m) => Some(Asking::Report(m)),
        Inbound::AllocationInstruction(m) => Some(Asking::GiveUp(m)),
        Inbound::AllocationReportAck(m) => m.asked(),
        Inbound::RequestForPositions(m) => Some(Asking::Positions(m)),
        _ => None,
    }
}

/// Appends what a message with these fields says: a session message, or what its firm asks for.
fn tell_said(text: &mut String, fields: &Fields, inbound: Inbound) -> Result<(), AllocError> {
    tell_session(text, &inbound)?;
    if !text.is_empty() {
        return Ok(());
    }
    let Some(firm) = sender(fields) else {
        return text.push_str("no sender");
    };
    match asking_of(inbound) {
        Some(asking) => tell_request(text, &asking.into_request(firm)),
        None => text.push_str("asks for nothing"),
    }
}

/// Appends what fields say, or the tag and the reason of their first fault.
fn tell(text: &mut String, alloc: Global, fields: &Fields) -> Result<(), AllocError> {
    match read(alloc, fields) {
        Ok(inbound) => tell_said(text, fields, inbound),
        Err(MsgFault::Rejected(fault)) => write!(text, "{}: {}", fault.tag, fault.reason.number()),
        Err(MsgFault::Memory) => Err(AllocError),
    }
}

/// Returns what fields say, or the tag and the reason of their first fault.
pub fn answer(alloc: Global, fields: &Fields) -> Result<String, AllocError> {
    let mut text = String::new(alloc);
    tell(&mut text, alloc, fields)?;
    Ok(text)
}

/// Returns the fields of texts one after another.
fn joined(alloc: Global, front: &str, middle: &str, end: &str) -> Result<Fields, AllocError> {
    let text = format!(in alloc; "{front}{middle}{end}")?;
    fields_of(alloc, text.as_str())
}

/// Returns the message of which this comes after a sound header.
pub fn inbound_of(alloc: Global, text: &str) -> Result<Inbound, AllocError> {
    let fields = joined(alloc, SOUND, text, "")?;
    read(alloc, &fields).map_err(|_| AllocError)
}

/// Returns the fields of a message and a text after it, or of a message with a part of it in another form.
pub fn fields_in(alloc: Global, message: &str, asked: &str) -> Result<Fields, AllocError> {
    let Some((part, other)) = asked.split_once(" by ") else {
        return joined(alloc, message, asked, "");
    };
    let (before, after) = message.split_once(part).unwrap_or(("no such part", ""));
    joined(alloc, before, other, after)
}

/// Returns what these fields are read as.
pub fn told(alloc: Global, message: &str, asked: &str) -> Result<String, AllocError> {
    answer(alloc, &fields_in(alloc, message, asked)?)
}

/// Each row, and thousands of them in a row.
#[test]
fn messages_say_what_they_ask_or_name_their_first_fault(rt: HostRuntime) {
    check(&rt, rt.alloc(), Subject::Reading(""), LONGEST);
    for _ in 0..201 {
        check(&rt, rt.alloc(), Subject::Reading(FRAMED), HEADERS);
        check(&rt, rt.alloc(), Subject::Reading(SOUND), SESSION);
        check(&rt, rt.alloc(), Subject::Reading(SOUND), HOUSE);
        check(&rt, rt.alloc(), Subject::Reading(SOUND), ASKED);
        check(&rt, rt.alloc(), Subject::Reading(REPORT), REPORTS);
        check(&rt, rt.alloc(), Subject::Reading(SIDE), SIDES);
        check(&rt, rt.alloc(), Subject::Reading(GIVE_UP), GIVE_UPS);
    }
}
