//! The lines of a day: how it opens and closes, where connections come in, and what an operator and the journal do.

use crate::logfmt::{check, check_plain};
use gu_log::{AcceptFault, Beginning, Event, Listener};
use gu_terms::Day;
use std::io;
use std::io::ErrorKind;

#[test]
fn a_day_is_opened(rt: HostRuntime) {
    let reference = "docs/samples/house.csv";
    let opened = Beginning::DayOpened {
        reference,
        day: Day::new(2026, 1, 5),
        entries: 9,
        journal: Some("/var/lib/bathlif/day.journal"),
    };
    let text =
        "day.opened reference=docs/samples/house.csv day=20260105 entries=9 journal=/var/lib/bathlif/day.journal";
    check_plain(&rt, &opened, text);
    let unopened = Beginning::DayOpened {
        reference,
        day: None,
        entries: 0,
        journal: None,
    };
    let text = "day.opened reference=docs/samples/house.csv entries=0";
    check_plain(&rt, &unopened, text);
}

/// Where connections come in, and the line of each place.
const LISTENERS: &[(Listener<'static>, &str)] = &[
    (Listener::Port(9001), "listening at=port port=9001"),
    (
        Listener::Doors {
            folder: "/run/bathlif/doors",
            doors: 14,
        },
        "listening at=doors folder=/run/bathlif/doors doors=14",
    ),
    (
        Listener::Console("/run/bathlif/console"),
        "listening at=console path=/run/bathlif/console",
    ),
    (
        Listener::Watch("/run/bathlif/watch"),
        "listening at=watch path=/run/bathlif/watch",
    ),
];

#[test]
fn connections_come_in_at_four_places(rt: HostRuntime) {
    for &(listener, text) in LISTENERS {
        check_plain(&rt, &Beginning::Listening(listener), text);
    }
}

#[test]
fn any_firm_may_log_on(rt: HostRuntime) {
    check(
        &rt,
        &Beginning::AnyFirm,
        "firms.unknown note=\"whoever reaches the port is any firm\"",
        &[("note", b"whoever reaches the port is any firm")],
    );
}

/// Why no connections are accepted for a while, and the line of each reason.
const PAUSES: &[(AcceptFault, &str)] = &[
    (AcceptFault::Memory, "accepting.paused reason=memory"),
    (AcceptFault::Threads, "accepting.paused reason=threads"),
    (
        AcceptFault::System(Some(24)),
        "accepting.paused reason=system code=24",
    ),
    (
        AcceptFault::System(Some(-1)),
        "accepting.paused reason=system",
    ),
    (AcceptFault::System(None), "accepting.paused reason=system"),
];

#[test]
fn accepting_is_paused_and_resumed(rt: HostRuntime) {
    for &(reason, text) in PAUSES {
        check_plain(&rt, &Event::AcceptingPaused { reason }, text);
    }
    check_plain(&rt, &Event::AcceptingResumed, "accepting.resumed");
}

#[test]
fn an_error_of_an_accept_says_why(rt: HostRuntime) {
    let none_left = io::Error::from_raw_os_error(24);
    assert_eq!(rt; AcceptFault::of(&none_left), AcceptFault::System(Some(24)));
    let memory = io::Error::from_raw_os_error(12);
    assert_eq!(rt; AcceptFault::of(&memory), AcceptFault::Memory);
    let other = io::Error::from(ErrorKind::TimedOut);
    assert_eq!(rt; AcceptFault::of(&other), AcceptFault::System(None));
}

#[test]
fn a_book_fills(rt: HostRuntime) {
    let filling = Event::BookFilling { entries: 900_000 };
    check_plain(&rt, &filling, "book.filling entries=900000 of=1000000");
}

#[test]
fn an_operator_enters_an_entry_or_cuts_a_connection(rt: HostRuntime) {
    let entered = Event::OperatorEntered { entry: 214 };
    check_plain(&rt, &entered, "operator.entered entry=214");
    check_plain(&rt, &Event::OperatorCut { number: 4 }, "operator.cut n=4");
}

#[test]
fn the_journal_is_behind_or_lost(rt: HostRuntime) {
    let behind = Event::JournalBehind {
        ms: 1200,
        entries: 31,
    };
    check_plain(&rt, &behind, "journal.behind ms=1200 entries=31");
    check_plain(
        &rt,
        &Event::JournalLost { kept: 31 },
        "journal.lost kept=31",
    );
}

#[test]
fn a_day_is_closed(rt: HostRuntime) {
    check_plain(&rt, &Event::DayClosing, "day.closing");
    for (is_audited, text) in [
        (true, "day.closed entries=9 swept=10 audit=OK"),
        (false, "day.closed entries=9 swept=10 audit=FAILED"),
    ] {
        let closed = Event::DayClosed {
            entries: 9,
            lots: 10,
            is_audited,
        };
        check_plain(&rt, &closed, text);
    }
}
