//! Days that are kept in a journal while they go on, and one whose journal fails.

ghost use Rattle.gu_keeping.specs.Chains.{IsChainOf};

use crate::clients::{Client, Ending, Visit};
use crate::doings::Doing;
use crate::frail_device::FrailDevice;
use crate::opening::{A_TRADE, book_after};
use crate::served::{Begun, Outside, Row, Span, Told, check_end, port_of, served_from};
use crate::visits::{GIVES_UP, IS_OFFERED, LOGON_OF_A_TRADE};
use gu_journal::Log;
use gu_keeping::keep_opening;
use gu_log::{EventLog, LogReader, write_all};
use gu_server::{DayJournal, JournalEnd, LostBy, LostJournal, Served};
use gu_terms::History;
use std::alloc::Global;
use std::net::TcpListener;
use std::process::Abort;
use std::rt::Clock;
use std::str::from_utf8;
use std::sync::{Mutex, Wait};
use std::test::Fail;

/// How many zeros are added to a test's log at a time.
const STEP: usize = 4_096;

/// How many calls a device answers until the day's opening is kept: two syncs and a row of zeros, and a write and a sync for the heading
/// and for the entries.
const OPENING_CALLS: u32 = 7;

/// A day of a give-up and its sweep.
const A_SWEEP: Row = Row {
    begin: A_TRADE,
    doing: Doing::Visits(&[GIVES_UP, IS_OFFERED]),
    span: Span::Connections(2),
    every: 1,
    end: "ENTRIES 9\nSWEPT 10\nAUDIT OK\n",
};

/// The lines of its journal that are no comments.
const A_SWEEP_LINES: &str = "\
DAY 20260105
LIMIT G1 EXEC E1 100
LIMIT G1 AGR P1 100
LIMIT G1 ACCT A1 100
LIMIT G1 CARRY C1 100
REPORT E1 R1 M1 B XF6 10 101.5 H1
REPORT E2 R2 M1 S XF6 10 101.5 H2
GIVEUP E1 L1 R1 A1 10
SWEEP G1
";

/// A firm gives up its lots, is not answered, and finds its connection closed.
const IS_NOT_ANSWERED: Visit = Visit {
    firm: "E1",
    parts: &[
        LOGON_OF_A_TRADE,
        "in J 2 70=L1|71=0|53=10|124=1|17=R1|78=1|79=A1|80=10|\n",
    ],
    ending: Ending::Waits,
};

/// A day of such a firm.
const UNANSWERED: Row = Row {
    begin: A_TRADE,
    doing: Doing::Visits(&[IS_NOT_ANSWERED]),
    span: Span::Connections(2),
    every: 0,
    end: "",
};

/// A day of a desk whose lease has ended.
const AFTER_THE_LEASE: Row = Row {
    begin: A_TRADE,
    doing: Doing::ComesAfterTheLease,
    span: Span::Connections(2),
    every: 0,
    end: "",
};

/// Returns the journal of a day that has the entries of a history.
fn opened_journal(
    rt: &impl Abort,
    alloc: Global,
    log: Log<FrailDevice>,
    history: &History,
) -> DayJournal<Log<FrailDevice>>
    ensures { IsChainOf result.chain history.now }
{
    match keep_opening(alloc, log, b"# a test\n", history) {
        Ok((sink, chain)) => DayJournal { sink, chain },
        Err(_) => panic!(rt; "no opening"),
    }
}

/// Returns a book after the script of a row, and its journal on a device that answers this many calls.
fn begun_on(rt: &impl Abort, alloc: Global, row: &Row, calls: u32) -> Begun<Log<FrailDevice>> {
    let (book, receipts) = book_after(alloc, row.begin).ok().expect(rt, "a book");
    let device = FrailDevice {
        bytes: Vec::new(alloc),
        calls_left: calls,
    };
    let log = Log::create(device, STEP).ok().expect(rt, "a log");
    let journal = opened_journal(rt, alloc, log, book.history());
    Begun {
        book,
        receipts,
        journal: Some(journal),
    }
}

/// Returns the log of a journal that is whole.
fn whole(journal: Option<JournalEnd<Log<FrailDevice>>>) -> Option<Log<FrailDevice>> {
    match journal {
        Some(JournalEnd::Whole(log)) => Some(log),
        other => {
            drop(other);
            None
        }
    }
}

/// Returns what is left of a journal that was lost.
fn lost(journal: Option<JournalEnd<Log<FrailDevice>>>) -> Option<LostJournal<FrailDevice>> {
    match journal {
        Some(JournalEnd::Lost(lost)) => Some(lost),
        other => {
            drop(other);
            None
        }
    }
}

/// Returns the lines of a text that are no comments.
fn lines_of(rt: &impl Abort, alloc: Global, text: &[u8]) -> String {
    let text = from_utf8(text).ok().expect(rt, "a text");
    let mut lines = String::new(alloc);
    for line in text.lines().filter(|line| !line.starts_with('#')) {
        lines.push_str(line).expect(rt, "memory");
        lines.push('\n').expect(rt, "memory");
    }
    lines
}

/// Asserts that a log says that the journal was lost which had seven entries.
fn check_lost<R: Wait + Clock + Abort>(
    rt: &R,
    alloc: Global,
    log: &EventLog,
    mut reader: LogReader,
) {
    let mut text = Vec::new(alloc);
    write_all(rt, alloc, log, &mut reader, &mut text);
    let text = from_utf8(text.as_slice()).ok().expect(rt, "a text");
    assert!(rt;
        text.contains("20260105-09:00:00.000 journal.lost kept=7\n"),
        "{text}"
    );
}

/// Returns the ways in for connections.
fn outside(rt: &HostRuntime) -> Result<Outside, Fail> {
    Ok(Outside {
        listener: TcpListener::bind(rt, ("127.0.0.1", 0))?,
        first: None,
        fails_where_nobody_waits: false,
    })
}

#[test]
fn each_entry_of_a_day_is_in_its_journal(rt: HostRuntime) -> Result<(), Fail> {
    let alloc = rt.alloc();
    let begun = begun_on(&rt, alloc, &A_SWEEP, 10_000);
    let said = Mutex::new(Vec::new(alloc));
    let silent = EventLog::silent();
    let told = Told {
        said: &said,
        log: &silent,
    };
    let served = served_from(&rt, alloc, outside(&rt)?, &A_SWEEP, begun, told);
    let Served {
        closed,
        closers,
        journal,
    } = served;
    drop(closers);
    check_end(&rt, alloc, closed, A_SWEEP.end);
    let log = whole(journal).expect(&rt, "a whole journal");
    let device = log.finish().ok().expect(&rt, "an end");
    let lines = lines_of(&rt, alloc, device.bytes.as_slice());
    assert_eq!(rt; lines.as_str(), A_SWEEP_LINES);
    Ok(())
}

#[test]
fn what_a_failed_journal_lacks_is_shown_to_nobody(rt: HostRuntime) -> Result<(), Fail> {
    let alloc = rt.alloc();
    // The first batch is written and not synced, or not even written.
    for calls in [OPENING_CALLS, OPENING_CALLS + 1] {
        let begun = begun_on(&rt, alloc, &UNANSWERED, calls);
        let said = Mutex::new(Vec::new(alloc));
        let (log, reader) = EventLog::new(alloc)?;
        let told = Told {
            said: &said,
            log: &log,
        };
        let served = served_from(&rt, alloc, outside(&rt)?, &UNANSWERED, begun, told);
        log.end(&rt);
        check_lost(&rt, alloc, &log, reader);
        let Served {
            closed,
            closers,
            journal,
        } = served;
        drop(closers);
        assert_eq!(rt; closed.book.history().len(), 8);
        drop(closed);
        let lost = lost(journal).expect(&rt, "a lost journal");
        assert_eq!(rt; lost.kept, 7);
        assert!(rt; matches!(&lost.by, LostBy::Place(_)));
    }
    Ok(())
}

#[test]
fn a_desk_whose_lease_has_ended_answers_nothing_and_ends(rt: HostRuntime) -> Result<(), Fail> {
    let alloc = rt.alloc();
    let begun = begun_on(&rt, alloc, &AFTER_THE_LEASE, 10_000);
    let said = Mutex::new(Vec::new(alloc));
    let (log, reader) = EventLog::new(alloc)?;
    let told = Told {
        said: &said,
        log: &log,
    };
    let mut outside = outside(&rt)?;
    outside.first = Some(Client::open(&rt, alloc, port_of(&outside.listener))?);
    let served = served_from(&rt, alloc, outside, &AFTER_THE_LEASE, begun, told);
    log.end(&rt);
    check_lost(&rt, alloc, &log, reader);
    let Served {
        closed,
        closers,
        journal,
    } = served;
    drop(closers);
    assert_eq!(rt; closed.book.history().len(), 7);
    drop(closed);
    let lost = lost(journal).expect(&rt, "a lost journal");
    assert_eq!(rt; lost.kept, 7);
    assert!(rt; matches!(&lost.by, LostBy::Lease));
    Ok(())
}
