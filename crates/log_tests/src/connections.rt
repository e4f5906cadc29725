//! The lines of connections and sweeps.

use crate::logfmt::check_plain;
use gu_log::{CommittedSweep, EndCause, Event, LogonFault, Refusal, SweepFault, Way};
use gu_terms::{FirmId, Group};
use std::process::Abort;

/// Why a Logon may be refused, with the words of its line.
const LOGON_FAULTS: &[(LogonFault, &str)] = &[
    (LogonFault::NotALogon, "not-a-logon tag=35"),
    (LogonFault::Sender, "SenderCompID tag=49"),
    (LogonFault::Target, "TargetCompID tag=56"),
    (LogonFault::Number, "MsgSeqNum tag=34"),
    (LogonFault::Encryption, "EncryptMethod tag=98"),
    (LogonFault::Heartbeat, "HeartBtInt tag=108"),
    (LogonFault::Version, "DefaultApplVerID tag=1137"),
    (LogonFault::Other(4_294_967_295), "field tag=4294967295"),
    (LogonFault::Secret, "Password tag=554"),
    (LogonFault::Door, "door"),
    (LogonFault::Places, "places"),
    (LogonFault::TooLong, "too-long"),
];

/// Why a connection may end, with the word of its line.
const CAUSES: &[(EndCause, &str)] = &[
    (EndCause::Done, "done"),
    (EndCause::HungUp, "hung-up"),
    (EndCause::Cut, "cut"),
    (EndCause::Closing, "closing"),
    (EndCause::Silent, "not-reading"),
    (EndCause::NoLogon, "no-logon"),
    (EndCause::Stream, "stream"),
    (EndCause::Memory, "memory"),
    (EndCause::Stopped, "stopped"),
    (EndCause::Refused, "refused"),
];

/// Why a sweep may be left out, with the word of its line.
const SWEEP_FAULTS: &[(SweepFault, &str)] = &[
    (SweepFault::Stale, "stale"),
    (SweepFault::Full, "full"),
    (SweepFault::UnknownGroup, "unknown-group"),
    (SweepFault::Memory, "memory"),
    (SweepFault::Clock, "clock"),
];

/// Returns the firm E1.
fn e1(rt: &impl Abort) -> FirmId {
    FirmId::new(b"E1").expect(rt, "a firm")
}

/// Returns the group G1.
fn g1(rt: &impl Abort) -> Group {
    Group::new(b"G1").expect(rt, "a group")
}

#[test]
fn a_connection_comes_in_by_the_port_or_by_a_door(rt: HostRuntime) {
    let by_port = Event::Accepted {
        number: 4,
        way: Way::Port(50514),
    };
    check_plain(&rt, &by_port, "connection.accepted n=4 at=port port=50514");
    let by_door = Event::Accepted {
        number: 18_446_744_073_709_551_615,
        way: Way::Door(e1(&rt)),
    };
    let text = "connection.accepted n=18446744073709551615 at=door firm=E1";
    check_plain(&rt, &by_door, text);
}

#[test]
fn a_connection_is_refused(rt: HostRuntime) {
    for (reason, text) in [
        (Refusal::Full, "connection.refused n=9 reason=full"),
        (Refusal::Closing, "connection.refused n=9 reason=closing"),
    ] {
        check_plain(&rt, &Event::Refused { number: 9, reason }, text);
    }
}

#[test]
fn a_firm_has_logged_on(rt: HostRuntime) {
    let logged_on = Event::LoggedOn {
        number: 4,
        firm: e1(&rt),
    };
    check_plain(&rt, &logged_on, "logon.accepted n=4 firm=E1");
}

/// Asserts the line of what happened: a text and words after it.
fn check_words(rt: &(impl Abort + AllocGlobal), event: &Event, text: &str, words: &str) {
    let text = format!(in rt.alloc(); "{text}{words}").expect(rt, "memory");
    check_plain(rt, event, &text);
}

#[test]
fn a_logon_is_refused(rt: HostRuntime) {
    for &(fault, words) in LOGON_FAULTS {
        let refused = Event::LogonRefused {
            number: 4,
            firm: Some(e1(&rt)),
            fault,
        };
        check_words(&rt, &refused, "logon.refused n=4 firm=E1 reason=", words);
    }
    let of_nobody = Event::LogonRefused {
        number: 4,
        firm: None,
        fault: LogonFault::Sender,
    };
    check_plain(
        &rt,
        &of_nobody,
        "logon.refused n=4 reason=SenderCompID tag=49",
    );
}

#[test]
fn a_connection_has_ended(rt: HostRuntime) {
    for &(cause, word) in CAUSES {
        let ended = Event::Ended {
            number: 4,
            firm: Some(e1(&rt)),
            cause,
        };
        check_words(&rt, &ended, "connection.ended n=4 firm=E1 reason=", word);
    }
    let of_nobody = Event::Ended {
        number: 7,
        firm: None,
        cause: EndCause::NoLogon,
    };
    check_plain(&rt, &of_nobody, "connection.ended n=7 reason=no-logon");
}

#[test]
fn a_firm_has_its_share(rt: HostRuntime) {
    for (is_of_entries, text) in [
        (true, "share.full n=4 firm=E1 of=entries"),
        (false, "share.full n=4 firm=E1 of=offers"),
    ] {
        let full = Event::ShareFull {
            number: 4,
            firm: e1(&rt),
            is_of_entries,
        };
        check_plain(&rt, &full, text);
    }
}

#[test]
fn a_firm_is_refused_memory(rt: HostRuntime) {
    let refused = Event::MemoryRefused {
        number: 4,
        firm: e1(&rt),
    };
    check_plain(&rt, &refused, "memory.refused n=4 firm=E1");
}

#[test]
fn a_sweep_is_made_or_left_out(rt: HostRuntime) {
    let swept = Event::Swept(CommittedSweep {
        group: g1(&rt),
        entry: 14,
        lots: 25,
        tries: 2,
    });
    check_plain(&rt, &swept, "sweep.made group=G1 entry=14 lots=25 tries=2");
    for &(reason, word) in SWEEP_FAULTS {
        let left = Event::SweepLeft {
            group: g1(&rt),
            reason,
        };
        check_words(&rt, &left, "sweep.left group=G1 reason=", word);
    }
}
