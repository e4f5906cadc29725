//! Days of a server that end after this many connections, from the first to the audit.

use crate::clients::Client;
use crate::doings::Doing;
use crate::opening::{A_LARGE_TRADE, A_TRADE, A_TRADE_OF_G2};
use crate::served::{Outside, Row, Span, check_end, end_of, port_of};
use crate::visits::{
    COMES_IN_BURSTS, GIVES_UP, GIVES_UP_AGAIN, GIVES_UP_FOUR, GIVES_UP_IN_G2, GIVES_UP_ONE_MORE,
    GIVES_UP_SIX, GIVES_UP_TWICE, HASTY, IS_OFFERED, LAST_FIRM, SENDS_ON_AFTER_ITS_LOGOUT,
    STRANGER,
};
use gu_streams::StreamError;
use std::net::TcpListener;
use std::sync::Mutex;
use std::test::Fail;

/// Connections to the book of a trade of ten lots, which has seven entries.
const ROWS: &[Row] = &[
    Row {
        begin: A_TRADE,
        doing: Doing::Visits(&[GIVES_UP, IS_OFFERED]),
        span: Span::Connections(2),
        every: 1,
        end: "ENTRIES 9\nSWEPT 10\nAUDIT OK\n",
    },
    Row {
        begin: A_TRADE,
        doing: Doing::Visits(&[GIVES_UP, IS_OFFERED]),
        span: Span::Connections(2),
        every: 0,
        end: "ENTRIES 8\nSWEPT 0\nAUDIT OK\n",
    },
    Row {
        begin: A_TRADE,
        doing: Doing::Visits(&[GIVES_UP]),
        span: Span::Connections(1),
        every: 2,
        end: "ENTRIES 8\nSWEPT 0\nAUDIT OK\n",
    },
    Row {
        begin: A_TRADE,
        doing: Doing::Visits(&[GIVES_UP_TWICE]),
        span: Span::Connections(1),
        every: 2,
        end: "ENTRIES 10\nSWEPT 10\nAUDIT OK\n",
    },
    // It is the give-up's own group that is swept.
    Row {
        begin: A_TRADE_OF_G2,
        doing: Doing::Visits(&[GIVES_UP_IN_G2]),
        span: Span::Connections(1),
        every: 1,
        end: "ENTRIES 9\nSWEPT 10\nAUDIT OK\n",
    },
    // Each accepted give-up has its group swept; and the second, but not the third.
    Row {
        begin: A_TRADE,
        doing: Doing::Visits(&[GIVES_UP_AGAIN]),
        span: Span::Connections(1),
        every: 1,
        end: "ENTRIES 11\nSWEPT 10\nAUDIT OK\n",
    },
    Row {
        begin: A_TRADE,
        doing: Doing::Visits(&[GIVES_UP_ONE_MORE]),
        span: Span::Connections(1),
        every: 2,
        end: "ENTRIES 11\nSWEPT 7\nAUDIT OK\n",
    },
    // A report and what is refused count for no order, and each connection counts its own give-ups.
    Row {
        begin: A_TRADE,
        doing: Doing::Visits(&[GIVES_UP_FOUR, GIVES_UP_SIX]),
        span: Span::Connections(2),
        every: 2,
        end: "ENTRIES 11\nSWEPT 0\nAUDIT OK\n",
    },
    Row {
        begin: A_TRADE,
        doing: Doing::Visits(&[GIVES_UP_FOUR]),
        span: Span::Connections(1),
        every: 1,
        end: "ENTRIES 11\nSWEPT 4\nAUDIT OK\n",
    },
    Row {
        begin: A_TRADE,
        doing: Doing::Visits(&[COMES_IN_BURSTS]),
        span: Span::Connections(1),
        every: 0,
        end: "ENTRIES 7\nSWEPT 0\nAUDIT OK\n",
    },
    // What a session says last comes, whatever the firm sent after its Logout.
    Row {
        begin: A_TRADE,
        doing: Doing::Visits(&[SENDS_ON_AFTER_ITS_LOGOUT]),
        span: Span::Connections(1),
        every: 0,
        end: "ENTRIES 7\nSWEPT 0\nAUDIT OK\n",
    },
    Row {
        begin: A_TRADE,
        doing: Doing::SendsMuch,
        span: Span::Connections(1),
        every: 0,
        end: "ENTRIES 7\nSWEPT 0\nAUDIT OK\n",
    },
    Row {
        begin: A_TRADE,
        doing: Doing::Visits(&[LAST_FIRM]),
        span: Span::Connections(1),
        every: 0,
        end: "ENTRIES 7\nSWEPT 0\nAUDIT OK\n",
    },
    // A firm that doesn't log on and one that doesn't read don't keep the day from its end.
    Row {
        begin: A_TRADE,
        doing: Doing::LogsOnTooLate,
        span: Span::Connections(1),
        every: 0,
        end: "ENTRIES 7\nSWEPT 0\nAUDIT OK\n",
    },
    Row {
        begin: A_TRADE,
        doing: Doing::DoesNotRead,
        span: Span::Connections(1),
        every: 0,
        end: "ENTRIES 7\nSWEPT 0\nAUDIT OK\n",
    },
    Row {
        begin: A_TRADE,
        doing: Doing::Visits(&[STRANGER, HASTY]),
        span: Span::Connections(2),
        every: 1,
        end: "ENTRIES 7\nSWEPT 0\nAUDIT OK\n",
    },
    Row {
        begin: A_TRADE,
        doing: Doing::Waits,
        span: Span::Connections(2),
        every: 0,
        end: "ENTRIES 8\nSWEPT 0\nAUDIT OK\n",
    },
    Row {
        begin: A_TRADE,
        doing: Doing::Visits(&[STRANGER, GIVES_UP, HASTY, IS_OFFERED]),
        span: Span::Connections(4),
        every: 1,
        end: "ENTRIES 9\nSWEPT 10\nAUDIT OK\n",
    },
];

#[test]
fn a_day_is_served_and_its_receipts_are_its_entries(rt: HostRuntime) -> Result<(), Fail> {
    for row in ROWS {
        let listener = TcpListener::bind(&rt, ("127.0.0.1", 0))?;
        let said = Mutex::new(Vec::new(rt.alloc()));
        let outside = Outside {
            listener,
            first: None,
            fails_where_nobody_waits: false,
        };
        let (closed, _) = end_of(&rt, rt.alloc(), outside, row, &said);
        assert!(rt; closed.fault.is_none());
        assert!(rt; said.lock(&rt).is_empty());
        check_end(&rt, rt.alloc(), closed, row.end);
    }
    Ok(())
}

/// Two connections are to be accepted, and one firm is there.
const LACKS_ONE: Row = Row {
    begin: A_TRADE,
    doing: Doing::Visits(&[]),
    span: Span::Connections(2),
    every: 1,
    end: "ENTRIES 9\nSWEPT 10\nAUDIT OK\n",
};

#[test]
fn an_accept_that_fails_ends_the_day_by_a_fault_once_who_was_there_has_ended(
    rt: HostRuntime,
) -> Result<(), Fail> {
    let listener = TcpListener::bind(&rt, ("127.0.0.1", 0))?;
    let first = Client::open(&rt, rt.alloc(), port_of(&listener))?;
    let outside = Outside {
        listener,
        first: Some(first),
        fails_where_nobody_waits: true,
    };
    let said = Mutex::new(Vec::new(rt.alloc()));
    let (closed, _) = end_of(&rt, rt.alloc(), outside, &LACKS_ONE, &said);
    assert!(rt; closed.fault == Some(StreamError::Read));
    check_end(&rt, rt.alloc(), closed, LACKS_ONE.end);
    Ok(())
}

/// Two connections are to be accepted, the second of which comes late.
const ONE_COMES_LATER: Row = Row {
    begin: A_TRADE,
    doing: Doing::ComesLater,
    span: Span::Connections(2),
    every: 1,
    end: "ENTRIES 9\nSWEPT 10\nAUDIT OK\n",
};

#[test]
fn accepting_that_fails_is_said_at_once_and_goes_on_when_a_connection_has_ended(
    rt: HostRuntime,
) -> Result<(), Fail> {
    let listener = TcpListener::bind(&rt, ("127.0.0.1", 0))?;
    let first = Client::open(&rt, rt.alloc(), port_of(&listener))?;
    let outside = Outside {
        listener,
        first: Some(first),
        fails_where_nobody_waits: true,
    };
    let said = Mutex::new(Vec::new(rt.alloc()));
    let (closed, _) = end_of(&rt, rt.alloc(), outside, &ONE_COMES_LATER, &said);
    assert!(rt; closed.fault.is_none());
    check_end(&rt, rt.alloc(), closed, ONE_COMES_LATER.end);
    let said = said.lock(&rt);
    assert!(rt; said.starts_with(b"giveup: no connection is accepted until one has ended: "));
    assert_eq!(rt; said.iter().filter(|byte| **byte == b'\n').count(), 1);
    Ok(())
}

/// A day on which sweepers leave sweeps out, since an operator sweeps the same group at the same time, and how its lines end.
const BESIDE_SWEEPS: Row = Row {
    begin: A_LARGE_TRADE,
    doing: Doing::GivesUpBesideSweeps,
    span: Span::Connections(1),
    every: 1,
    end: "\nSWEPT 48\nAUDIT OK\n",
};

#[test]
fn a_sweep_that_is_left_out_does_not_end_its_sweeper(rt: HostRuntime) -> Result<(), Fail> {
    let alloc = rt.alloc();
    let outside = Outside {
        listener: TcpListener::bind(&rt, ("127.0.0.1", 0))?,
        first: None,
        fails_where_nobody_waits: false,
    };
    let said = Mutex::new(Vec::new(alloc));
    let (closed, _) = end_of(&rt, alloc, outside, &BESIDE_SWEEPS, &said);
    assert!(rt; closed.fault.is_none());
    let (end, book, _) = closed.end(alloc);
    drop(book);
    let (lines, is_well) = end.expect(&rt, "memory");
    assert!(rt; is_well);
    assert!(rt;
        lines.as_str().ends_with(BESIDE_SWEEPS.end),
        "{}",
        lines.as_str()
    );
    Ok(())
}
