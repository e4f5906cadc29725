//! Days of a server that go on until an operator closes them.

use crate::acts::Act;
use crate::doings::Doing;
use crate::opening::A_TRADE;
use crate::served::{Outside, Row, Span, check_end, end_of};
use crate::visits::{GIVES_UP_LINES, LOGON, OFFER};
use std::net::TcpListener;
use std::sync::Mutex;
use std::test::Fail;

/// The Logout that each firm gets when the day is closed.
const CLOSING: &str = "out 5 2 58=Closing|\n";

/// The same for a firm that has received a notice of an offer.
const CLOSING_AFTER_AN_OFFER: &str = "out 5 3 58=Closing|\n";

/// A firm's answer to it.
const LOGOUT: &str = "in 5 2\n";

/// Days on which connections come and go.
const ROWS: &[Row] = &[
    // More connections come than there are places, one after the other; a place is free once its connection has ended.
    Row {
        begin: A_TRADE,
        span: Span::UntilClosed(1, 1),
        doing: Doing::Acts(&[
            Act::Comes,
            Act::Says(0, "E1", GIVES_UP_LINES),
            Act::LogsOut(0, "E1", 3),
            Act::Awaits(
                "DESK OPEN DAY 20260105 ENTRIES 8 OF 1000000 SWEPT 0 CONNECTIONS 0 OF 1 ALL 1",
            ),
            Act::Comes,
            Act::Says(1, "E3", LOGON),
            Act::LogsOut(1, "E3", 2),
            Act::Awaits(
                "DESK OPEN DAY 20260105 ENTRIES 8 OF 1000000 SWEPT 0 CONNECTIONS 0 OF 1 ALL 2",
            ),
            Act::Comes,
            Act::Says(2, "E3", LOGON),
            Act::LogsOut(2, "E3", 2),
            Act::Closes("CLOSING"),
        ]),
        every: 0,
        end: "ENTRIES 8\nSWEPT 0\nAUDIT OK\n",
    },
    // A connection for which there is no place is closed silently, and those that have one go on.
    Row {
        begin: A_TRADE,
        span: Span::UntilClosed(2, 1),
        doing: Doing::Acts(&[
            Act::Comes,
            Act::Says(0, "C1", LOGON),
            Act::Comes,
            Act::Says(1, "E3", LOGON),
            Act::Comes,
            Act::IsRefused(2),
            Act::LogsOut(1, "E3", 2),
            Act::Asks("CUT 77", "UNKNOWN\n"),
            Act::Closes("CLOSING"),
            Act::Says(0, "C1", CLOSING),
            Act::Says(0, "C1", LOGOUT),
            Act::IsEnded(0),
        ]),
        every: 0,
        end: "ENTRIES 7\nSWEPT 0\nAUDIT OK\n",
    },
    // A firm's sessions hold all places but one.
    Row {
        begin: A_TRADE,
        span: Span::UntilClosed(2, 2),
        doing: Doing::Acts(&[
            Act::Comes,
            Act::Says(0, "C1", LOGON),
            Act::Comes,
            Act::IsTurnedAway(1, "C1", LOGON),
            Act::Awaits(
                "DESK OPEN DAY 20260105 ENTRIES 7 OF 1000000 SWEPT 0 CONNECTIONS 1 OF 2 ALL 2",
            ),
            Act::Comes,
            Act::Says(2, "E3", LOGON),
            Act::Closes("CLOSING"),
            Act::Says(0, "C1", CLOSING),
            Act::Says(2, "E3", CLOSING),
            Act::Says(0, "C1", LOGOUT),
            Act::Says(2, "E3", LOGOUT),
            Act::IsEnded(0),
            Act::IsEnded(2),
        ]),
        every: 0,
        end: "ENTRIES 7\nSWEPT 0\nAUDIT OK\n",
    },
    // A firm receives notices of what another firm entered through another worker; what is sent after a Logout isn't entered.
    Row {
        begin: A_TRADE,
        span: Span::UntilClosed(4, 2),
        doing: Doing::Acts(&[
            Act::Comes,
            Act::Says(0, "C1", LOGON),
            Act::Comes,
            Act::Says(1, "E1", GIVES_UP_LINES),
            Act::Says(0, "C1", OFFER),
            Act::Closes("CLOSING"),
            Act::Says(1, "E1", "out 5 4 58=Closing|\n"),
            Act::Says(
                1,
                "E1",
                "in J 3 70=L2|71=0|53=1|124=1|17=R1|78=1|79=A1|80=1|\n",
            ),
            Act::Says(0, "C1", CLOSING_AFTER_AN_OFFER),
            Act::Says(0, "C1", LOGOUT),
            Act::IsEnded(0),
            Act::HangsUp(1),
        ]),
        every: 0,
        end: "ENTRIES 8\nSWEPT 0\nAUDIT OK\n",
    },
    // The operator looks, changes a limit, cuts a connection and closes the day; another CLOSE is answered at once.
    Row {
        begin: A_TRADE,
        span: Span::UntilClosed(2, 1),
        doing: Doing::Acts(&[
            Act::Comes,
            Act::Says(0, "C1", LOGON),
            Act::Asks(
                "STATUS",
                "DESK OPEN DAY 20260105 ENTRIES 7 OF 1000000 SWEPT 0 CONNECTIONS 1 OF 2 ALL 1\nCONNECTION 1 C1 PORT ",
            ),
            Act::Asks("LIMIT G1 EXEC E1 50", "8 OK\n"),
            Act::Asks("SEE 1 G1", "BAD LINE\n"),
            Act::Asks("CUT 1", "CUT\n"),
            Act::IsEnded(0),
            Act::Closes("CLOSING"),
        ]),
        every: 0,
        end: "ENTRIES 8\nSWEPT 0\nAUDIT OK\n",
    },
    // The firms that an operator's sweep informs receive its notices.
    Row {
        begin: A_TRADE,
        span: Span::UntilClosed(2, 2),
        doing: Doing::Acts(&[
            Act::Comes,
            Act::Says(0, "E1", GIVES_UP_LINES),
            Act::Asks("SWEEP G1", "9 SWEPT G1 10\n"),
            Act::Says(
                0,
                "E1",
                "out AS 4 755=1|71=0|794=9|87=0|55=XF6|54=1|53=10|6=101.5|75=20260105|78=1|79=A1|80=10|\n",
            ),
            Act::Closes("CLOSING"),
            Act::Says(0, "E1", "out 5 5 58=Closing|\n"),
            Act::Says(0, "E1", "in 5 3\n"),
            Act::IsEnded(0),
        ]),
        every: 0,
        end: "ENTRIES 9\nSWEPT 10\nAUDIT OK\n",
    },
];

#[test]
fn connections_come_and_go_until_the_day_is_closed(rt: HostRuntime) -> Result<(), Fail> {
    for row in ROWS {
        let outside = Outside {
            listener: TcpListener::bind(&rt, ("127.0.0.1", 0))?,
            first: None,
            fails_where_nobody_waits: false,
        };
        let said = Mutex::new(Vec::new(rt.alloc()));
        let (closed, closers) = end_of(&rt, rt.alloc(), outside, row, &said);
        assert!(rt; closed.fault.is_none());
        assert!(rt; said.lock(&rt).is_empty());
        closers.tell(row.end);
        check_end(&rt, rt.alloc(), closed, row.end);
    }
    Ok(())
}
