//! Reports that `Trades` takes in one by one, telling what each makes. (The book takes them in by their terms, without that answer.)

use gu_terms::{Command, Day, Report};
use gu_text::{Line, TextError};
use gu_trades::{Matching, Trades};
use gu_world::Step;
use std::alloc::{AllocError, Global};
use std::process::Abort;

/// Reports of one day, and the fate of each.
const REPORTS: &str = "\
REPORT E1 R1 M1 B XF6 10 101.5 H1  = waits
REPORT E1 R1 M9 S XF6 10 101.5 H1  = is known
REPORT E2 R1 M1 B XF6 10 101.5 H2  = conflicts
REPORT E2 R1 M1 S XF6 11 101.5 H2  = conflicts
REPORT E2 R1 M1 S YF6 10 101.5 H2  = conflicts
REPORT E2 R1 M1 S XF6 10 101.6 H2  = conflicts
REPORT E2 R1 M1 S XF6 10 101.50 H2 = is of a trade
REPORT E2 R2 M1 S XF6 10 101.5 H2  = conflicts
REPORT E1 R2 M2 B XF6 10 101.5 H1  = waits
REPORT E1 R3 M2 S XF6 10 101.5 H1  = is of a trade
REPORT E1 R4 M3 B XF6 10 101.5 H1  = waits
REPORT E1 R5 M4 B XF6 10 101.5 H1  = waits
REPORT E1 R6 M5 B XF6 10 101.5 H1  = waits
REPORT E1 R7 M6 B XF6 10 101.5 H1  = waits
REPORT E1 R8 M7 B XF6 10 101.5 H1  = waits
REPORT E2 R8 M7 S XF6 10 101.5 H2  = is of a trade
";

/// Returns the report that a firm asks for, on one day.
pub fn report_of(command: &Command) -> Option<Report> {
    let day = Day::new(2026, 1, 5)?;
    match command {
        Command::ReportSide(it) => Some(Report {
            firm: it.firm,
            id: it.id,
            match_id: it.match_id,
            symbol: it.symbol,
            lots: it.lots,
            price: it.price,
            day,
            side: it.side,
            account: it.account,
        }),
        _ => None,
    }
}

/// Returns the report that a step enters, if it enters one.
fn report_entered(step: &Step) -> Option<Report> {
    match step {
        Step::Enter(command) => report_of(command),
        _ => None,
    }
}

/// Returns the report of the step in a line, if the line is a step.
fn report_in(read: &Result<Option<Line>, TextError>) -> Option<Report> {
    match read {
        Ok(Some(Line::Step(step))) => report_entered(step),
        _ => None,
    }
}

/// Returns the trade report that a line describes.
fn read_report(alloc: Global, line: &str) -> Option<Report> {
    let read = Line::read(alloc, line.as_bytes(), 0);
    let report = report_in(&read);
    drop(read);
    report
}

/// Takes in a report if it is new and fits, and appends its fate.
pub fn take(trades: &mut Trades, report: &Report) -> Result<&'static str, AllocError> {
    if trades.side_of(report.firm, report.id).is_some() {
        return Ok("is known");
    }
    if trades.trade(report.match_id).conflicts_with(report) {
        return Ok("conflicts");
    }
    let matching = trades.report(
        report.firm,
        report.id,
        report.match_id,
        report.symbol,
        report.lots,
        report.price,
        report.day,
        report.side,
        report.account,
    )?;
    Ok(match matching {
        Matching::Opened => "waits",
        Matching::Matched => "is of a trade",
    })
}

/// Returns the same, retrying once if memory is refused, which changes nothing.
fn take_again(rt: &impl Abort, trades: &mut Trades, report: &Report) -> &'static str {
    let before = trades.trade(report.match_id);
    if let Ok(told) = take(trades, report) {
        return told;
    }
    assert!(rt; trades.trade(report.match_id) == before);
    assert!(rt; trades.side_of(report.firm, report.id).is_none());
    take(trades, report).ok().expect(rt, "memory")
}

#[test]
fn a_report_waits_or_is_of_a_trade_unless_it_is_known_or_conflicts(rt: HostRuntime) {
    let mut trades = Trades::new(rt.alloc());
    for row in REPORTS.lines() {
        let (line, want) = row.split_once("=").unwrap_or((row, ""));
        let read = read_report(rt.alloc(), line.trim());
        let report = match read {
            Some(report) => report,
            None => read_report(rt.alloc(), line.trim()).expect(&rt, "a report"),
        };
        let told = take_again(&rt, &mut trades, &report);
        assert_eq!(rt; told, want.trim(), "{row}");
        let found = trades.side_of(report.firm, report.id);
        assert_eq!(rt;
            found == Some(report),
            matches!(told, "waits" | "is of a trade"),
            "{row}"
        );
    }
}
