//! Days whose log is read: each event is logged once.

use crate::acts::Act;
use crate::doings::Doing;
use crate::opening::{A_LARGE_TRADE, A_TRADE};
use crate::served::{Outside, Row, Span, Told, check_end, end_of_told};
use crate::visits::{
    GIVES_UP, GIVES_UP_LINES, GIVES_UP_OF_ANOTHER, GIVES_UP_TOO_OFTEN, IS_OFFERED, LOGON,
};
use gu_log::{EventLog, write_all};
use std::alloc::{AllocError, Global};
use std::net::{Net, TcpListener, TcpStream};
use std::process::Abort;
use std::rt::Clock;
use std::str::from_utf8;
use std::sync::{Mutex, Wait};
use std::test::Fail;
use std::thread::Threads;

/// A day that an operator closes, on which firms come and go, and what its log says, in the order of the letters and without ports.
const OPERATED: Row = Row {
    begin: A_TRADE,
    span: Span::UntilClosed(2, 1),
    doing: Doing::Acts(&[
        Act::Comes,
        Act::Says(0, "C1", LOGON),
        Act::LogsOut(0, "C1", 2),
        Act::Awaits("DESK OPEN DAY 20260105 ENTRIES 7 OF 1000000 SWEPT 0 CONNECTIONS 0 OF 2 ALL 1"),
        Act::Comes,
        Act::IsTurnedAway(1, "X9", LOGON),
        Act::Awaits("DESK OPEN DAY 20260105 ENTRIES 7 OF 1000000 SWEPT 0 CONNECTIONS 0 OF 2 ALL 2"),
        Act::Comes,
        Act::Says(2, "E1", GIVES_UP_LINES),
        Act::Comes,
        Act::Says(3, "E3", LOGON),
        Act::Comes,
        Act::IsRefused(4),
        Act::Asks("SWEEP G1", "9 SWEPT G1 10\n"),
        Act::Asks("LIMIT G1 EXEC E1 50", "10 OK\n"),
        Act::Asks("CUT 3", "CUT\n"),
        Act::IsEnded(2),
        Act::LogsOut(3, "E3", 2),
        Act::Closes("CLOSING"),
    ]),
    every: 0,
    end: "ENTRIES 10\nSWEPT 10\nAUDIT OK\n",
};

const OPERATED_LOG: &[&str] = &[
    "20260105-09:00:00.000 connection.accepted n=1 at=port",
    "20260105-09:00:00.000 connection.accepted n=2 at=port",
    "20260105-09:00:00.000 connection.accepted n=3 at=port",
    "20260105-09:00:00.000 connection.accepted n=4 at=port",
    "20260105-09:00:00.000 connection.accepted n=5 at=port",
    "20260105-09:00:00.000 connection.ended n=1 firm=C1 reason=done",
    "20260105-09:00:00.000 connection.ended n=2 reason=done",
    "20260105-09:00:00.000 connection.ended n=3 firm=E1 reason=cut",
    "20260105-09:00:00.000 connection.ended n=4 firm=E3 reason=done",
    "20260105-09:00:00.000 connection.refused n=5 reason=full",
    "20260105-09:00:00.000 day.closing",
    "20260105-09:00:00.000 logon.accepted n=1 firm=C1",
    "20260105-09:00:00.000 logon.accepted n=3 firm=E1",
    "20260105-09:00:00.000 logon.accepted n=4 firm=E3",
    "20260105-09:00:00.000 logon.refused n=2 reason=SenderCompID tag=49",
    "20260105-09:00:00.000 operator.cut n=3",
    "20260105-09:00:00.000 operator.entered entry=10",
    "20260105-09:00:00.000 operator.entered entry=9",
];

/// A day of two connections whose give-up is swept.
const SWEPT: Row = Row {
    begin: A_TRADE,
    doing: Doing::Visits(&[GIVES_UP, IS_OFFERED]),
    span: Span::Connections(2),
    every: 1,
    end: "ENTRIES 9\nSWEPT 10\nAUDIT OK\n",
};

const SWEPT_LOG: &[&str] = &[
    "20260105-09:00:00.000 connection.accepted n=1 at=port",
    "20260105-09:00:00.000 connection.accepted n=2 at=port",
    "20260105-09:00:00.000 connection.ended n=1 firm=E1 reason=done",
    "20260105-09:00:00.000 connection.ended n=2 firm=C1 reason=done",
    "20260105-09:00:00.000 logon.accepted n=1 firm=E1",
    "20260105-09:00:00.000 logon.accepted n=2 firm=C1",
    "20260105-09:00:00.000 sweep.made group=G1 entry=9 lots=10 tries=1",
];

/// A day on which a firm uses up its share: that is logged once, and the firm is refused what goes past it, while another isn't.
const SHARED: Row = Row {
    begin: A_LARGE_TRADE,
    doing: Doing::VisitsWithin(1, &[GIVES_UP_TOO_OFTEN, GIVES_UP_OF_ANOTHER]),
    span: Span::Connections(2),
    every: 0,
    end: "ENTRIES 11\nSWEPT 0\nAUDIT OK\n",
};

const SHARED_LOG: &[&str] = &[
    "20260105-09:00:00.000 connection.accepted n=1 at=port",
    "20260105-09:00:00.000 connection.accepted n=2 at=port",
    "20260105-09:00:00.000 connection.ended n=1 firm=E1 reason=done",
    "20260105-09:00:00.000 connection.ended n=2 firm=E2 reason=done",
    "20260105-09:00:00.000 logon.accepted n=1 firm=E1",
    "20260105-09:00:00.000 logon.accepted n=2 firm=E2",
    "20260105-09:00:00.000 share.full n=1 firm=E1 of=offers",
];

/// Returns lines as a text.
fn text_of(alloc: Global, lines: &[&str]) -> Result<String, AllocError> {
    let mut text = String::new(alloc);
    for line in lines {
        text.push_str(line)?;
        text.push_str("\n")?;
    }
    Ok(text)
}

/// Returns the lines of a log in the order of the letters, without ports.
fn sorted_lines(alloc: Global, text: &str) -> Result<String, AllocError> {
    let mut lines = Vec::new(alloc);
    for line in text.lines() {
        let (line, _) = line.split_once(" port=").unwrap_or((line, ""));
        lines.push(line)?;
    }
    lines.sort_unstable();
    text_of(alloc, lines.as_slice())
}

/// Returns the ways in for connections.
fn outside(listener: TcpListener) -> Outside {
    Outside {
        listener,
        first: None,
        fails_where_nobody_waits: false,
    }
}

/// Asserts what the log of a day says.
fn check_log<
    R: Net<Listener = TcpListener, Stream = TcpStream> + Threads + Wait + Clock + Abort + Sync,
>(rt: &R, alloc: Global, outside: Outside, row: &Row, want: &[&str]) -> Result<(), Fail> {
    let said = Mutex::new(Vec::new(alloc));
    let (log, mut reader) = EventLog::new(alloc)?;
    let told = Told {
        said: &said,
        log: &log,
    };
    let (closed, closers) = end_of_told(rt, alloc, outside, row, told);
    drop(closers);
    check_end(rt, alloc, closed, row.end);
    log.end(rt);
    let mut text = Vec::new(alloc);
    write_all(rt, alloc, &log, &mut reader, &mut text);
    let text = from_utf8(text.as_slice()).ok().expect(rt, "a text");
    assert_eq!(rt; sorted_lines(alloc, text)?, text_of(alloc, want)?);
    assert!(rt; said.lock(rt).is_empty());
    Ok(())
}

#[test]
fn what_happens_on_a_day_is_said_in_its_log(rt: HostRuntime) -> Result<(), Fail> {
    let alloc = rt.alloc();
    let listener = TcpListener::bind(&rt, ("127.0.0.1", 0))?;
    check_log(&rt, alloc, outside(listener), &OPERATED, OPERATED_LOG)?;
    let listener = TcpListener::bind(&rt, ("127.0.0.1", 0))?;
    check_log(&rt, alloc, outside(listener), &SWEPT, SWEPT_LOG)?;
    let listener = TcpListener::bind(&rt, ("127.0.0.1", 0))?;
    check_log(&rt, alloc, outside(listener), &SHARED, SHARED_LOG)
}
