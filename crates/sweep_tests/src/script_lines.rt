//! Lines of a script, and what they say.
use crate::rows::{Subject, check, meant};
use gu_terms::{Command, FirmId, Id, LimitKey, Line as GiveUpLine, ReportSide};
use gu_text::{Line, TextError};
use gu_world::Step;
use std::alloc::{AllocError, Global};

/// Returns the text of a name.
fn name(bytes: &[u8]) -> &str {
    str::from_utf8(bytes).unwrap_or("?")
}

/// Returns a kind and two names.
fn named(alloc: Global, kind: &str, first: &[u8], second: &[u8]) -> Result<String, AllocError> {
    format!(in alloc; "{kind} {} {}", name(first), name(second))
}

/// Returns a kind, a firm, and the number of an offer.
fn numbered(alloc: Global, kind: &str, firm: &FirmId, number: u64) -> Result<String, AllocError> {
    format!(in alloc; "{kind} {} {number}", name(firm.get()))
}

/// Returns a limit on a key.
fn limit_text(
    alloc: Global,
    group: &[u8],
    key: &LimitKey,
    lots: u64,
) -> Result<String, AllocError> {
    format!(in alloc;
        "limit {} {} {} {lots}",
        name(group),
        key.kind(),
        name(key.name())
    )
}

/// Returns a firm and two ids.
fn ids(alloc: Global, firm: &FirmId, id: &Id, other: &Id) -> Result<String, AllocError> {
    format!(in alloc;
        "{} {} {}",
        name(firm.get()),
        name(id.get()),
        name(other.get())
    )
}

/// Returns a report, with millionths as its price.
fn report_text(alloc: Global, report: &ReportSide) -> Result<String, AllocError> {
    let ids = ids(alloc, &report.firm, &report.id, &report.match_id)?;
    let names = named(alloc, "", report.symbol.get(), report.account.get())?;
    let (lots, price) = (report.lots.get(), report.price.get());
    let has_day = report.day.is_some();
    format!(in alloc;
        "report {ids} {:?}{names} {lots} {price} {has_day}",
        report.side
    )
}

/// Returns the accounts and lots of a give-up.
fn pairs_text(alloc: Global, lines: &[GiveUpLine]) -> Result<String, AllocError> {
    let mut text = String::new(alloc);
    for line in lines {
        let account = name(line.account.get());
        text.push_str(&format!(in alloc; " {account} {}", line.lots.get())?)?;
    }
    Ok(text)
}

/// Returns what a command asks for.
fn command_text(alloc: Global, command: &Command) -> Result<String, AllocError> {
    match command {
        Command::OpenDay(opening) => format!(in alloc; "day {:?}", opening.day.get()),
        Command::SetLimit(it) => limit_text(alloc, it.group.get(), &it.key, it.lots),
        Command::ReportSide(report) => report_text(alloc, report),
        Command::GiveUp(it) => {
            let ids = ids(alloc, &it.firm, &it.id, &it.report)?;
            let pairs = pairs_text(alloc, it.lines.as_slice())?;
            format!(in alloc; "give up {ids}:{pairs}")
        }
        Command::Claim(it) => numbered(alloc, "claim", &it.firm, it.offer.get()),
        Command::Refuse(it) => {
            let text = numbered(alloc, "refuse", &it.firm, it.offer.get())?;
            format!(in alloc; "{text} {:?}", it.why)
        }
        Command::Reverse(it) => numbered(alloc, "reverse", &it.firm, it.offer.get()),
    }
}

/// Returns what a line asks for.
fn said_text(alloc: Global, line: &Line) -> Result<String, AllocError> {
    match line {
        Line::Step(Step::Enter(command)) => command_text(alloc, command),
        Line::Step(Step::See(worker, group)) => {
            format!(in alloc; "see {} {}", worker.get(), name(group.get()))
        }
        Line::Step(Step::Propose(worker)) => format!(in alloc; "propose {}", worker.get()),
        Line::Step(Step::Commit(worker)) => format!(in alloc; "commit {}", worker.get()),
        Line::Sweep(group) => named(alloc, "sweep", group.get(), b"-"),
        Line::Position(account, symbol) => { named(alloc, "position", account.get(), symbol.get()) }
        Line::Interest(symbol) => named(alloc, "interest", symbol.get(), b"-"),
        Line::Limits(group) => named(alloc, "limits", group.get(), b"-"),
    }
}

/// Returns the outcome of line 7.
fn line_told(alloc: Global, line: &[u8]) -> Result<String, AllocError> {
    match Line::read(alloc, line, 7) {
        Ok(Some(said)) => said_text(alloc, &said),
        Ok(None) => String::from_str(alloc, "silent"),
        Err(TextError::BadLine(number)) => format!(in alloc; "bad at {number}"),
        Err(TextError::Memory) => Err(AllocError),
    }
}

/// Returns the outcome of a row's line.
pub fn told(alloc: Global, asked: &str) -> Result<String, AllocError> {
    let line = meant(alloc, asked)?;
    line_told(alloc, line.as_bytes())
}

/// Days, limits on keys of each kind, and reports with the lots and prices of messages.
const COMMANDS: &str = "\
DAY 20260105 -> day (2026, 1, 5)
DAY   20240229 -> day (2024, 2, 29)
LIMIT G1 EXEC E1 100 -> limit G1 EXEC E1 100
LIMIT G1 AGR P1 0 -> limit G1 AGR P1 0
LIMIT  G1 ACCT  A-1 000000000007 -> limit G1 ACCT A-1 7
LIMIT G1 CARRY C1 1000000001 -> limit G1 CARRY C1 1000000001
LIMIT G1 GUAR ABCDEFGHIJKL 999999999999 -> limit G1 GUAR ABCDEFGHIJKL 999999999999
REPORT E1 R1 M/1# B XF6 10 101.5 H1 -> report E1 R1 M/1# Buy XF6 H1 10 101500000 false
REPORT E1 R1 M/1# S XF6 0010.0 -0.25 H1 -> report E1 R1 M/1# Sell XF6 H1 10 -250000 false
REPORT E1 R1 M/1# B XF6 10. .5 H1 -> report E1 R1 M/1# Buy XF6 H1 10 500000 false
REPORT E1 R1 M/1# B XF6 1000000 0001.50000000 H1 -> report E1 R1 M/1# Buy XF6 H1 1000000 1500000 false
REPORT E1 (!*64) M1 B XF6 10 101.5 H1 -> report E1 !!!!!!!!!!!!!!!!!!!!!!!!!!!!!!!!!!!!!!!!!!!!!!!!!!!!!!!!!!!!!!!! M1 Buy XF6 H1 10 101500000 false
";

/// Give-ups to accounts of which one may be named twice; claims, refusals and reversals.
const OF_OFFERS: &str = "\
GIVEUP E1 L1 R1 A1 10 -> give up E1 L1 R1: A1 10
GIVEUP E1 L1 R1 A1 5 A1 5. -> give up E1 L1 R1: A1 5 A1 5
GIVEUP E1 L1 R1 A1 10.0  A2 0012 -> give up E1 L1 R1: A1 10 A2 12
GIVEUP E1 L1 R1 A2 12 A1 10 -> give up E1 L1 R1: A2 12 A1 10
GIVEUP E1 L1 R1 A1 1 -> give up E1 L1 R1: A1 1
GIVEUP E1 L1 R1( A1 1*16) -> give up E1 L1 R1: \
    A1 1 A1 1 A1 1 A1 1 A1 1 A1 1 A1 1 A1 1 A1 1 A1 1 A1 1 A1 1 A1 1 A1 1 A1 1 A1 1
CLAIM C1 16000000 -> claim C1 16000000
REVERSE C1 000002 -> reverse C1 2
REFUSE C1 3 1 -> refuse C1 3 BlockLevel
REFUSE C1 3 02 -> refuse C1 3 AccountLevel
REFUSE C1 3 5 -> refuse C1 3 Intermediary
";

/// Workers from 0 to 62, sweeps and questions.
const STEPS: &str = "\
SEE 0 G1 -> see 0 G1
SEE 062 G2 -> see 62 G2
PROPOSE 7 -> propose 7
PROPOSE 1 -> propose 1
COMMIT 62 -> commit 62
COMMIT 1 -> commit 1
SWEEP G1 -> sweep G1 -
POSITION A1 XF6 -> position A1 XF6
INTEREST XF6 -> interest XF6 -
LIMITS G-1 -> limits G-1 -
LIMITS( *1016)G1 -> limits G1 -
";

/// Lines that are empty, or begin with a hash.
const SILENT: &str = "\
# -> silent
 -> silent
# DAY 20260105 -> silent
(#*1024) -> silent
";

/// Blanks, tabs, CR, words in front, and lengths.
const OF_BAD_BLANKS: &str = "\
DAY -> bad at 7
  -> bad at 7
   -> bad at 7
 # a comment -> bad at 7
 LIMITS G1 -> bad at 7
LIMITS G1  -> bad at 7
LIMITS\tG1 -> bad at 7
LIMITS G1\r -> bad at 7
day 20260105 -> bad at 7
BUY 1 -> bad at 7
SWEEPS G1 -> bad at 7
LIMITS( *1017)G1 -> bad at 7
(#*1025) -> bad at 7
";

/// Days and limits of no form.
const BAD_LIMITS: &str = "\
DAY 2026010 -> bad at 7
DAY 2026-105 -> bad at 7
DAY 20260230 -> bad at 7
DAY 00000101 -> bad at 7
DAY 20260105 1 -> bad at 7
LIMIT G1 EXEC E1 -> bad at 7
LIMIT G1 EXEC E1 1 1 -> bad at 7
LIMIT G1 FIRM E1 1 -> bad at 7
LIMIT G1 exec E1 1 -> bad at 7
LIMIT g1 EXEC E1 1 -> bad at 7
LIMIT G1 EXEC e1 1 -> bad at 7
LIMIT G1 EXEC E1 10.0 -> bad at 7
LIMIT G1 EXEC E1 -1 -> bad at 7
LIMIT G1 EXEC E1 1000000000000 -> bad at 7
LIMIT G1 EXEC E1 0000000000001 -> bad at 7
";

/// Reports of no form.
const BAD_REPORTS: &str = "\
REPORT E1 R1 M1 B XF6 10 101.5 -> bad at 7
REPORT E1 R1 M1 B XF6 10 101.5 H1 H1 -> bad at 7
REPORT E1 R1 M1 X XF6 10 101.5 H1 -> bad at 7
REPORT E1 R1 M1 BS XF6 10 101.5 H1 -> bad at 7
REPORT E1 R1 M1 b XF6 10 101.5 H1 -> bad at 7
REPORT E1 R1 M1 B XF6 0 101.5 H1 -> bad at 7
REPORT E1 R1 M1 B XF6 -5 101.5 H1 -> bad at 7
REPORT E1 R1 M1 B XF6 10.5 101.5 H1 -> bad at 7
REPORT E1 R1 M1 B XF6 1000001 101.5 H1 -> bad at 7
REPORT E1 R1 M1 B XF6 10 1e3 H1 -> bad at 7
REPORT E1 R1 M1 B XF6 10 1000000000 H1 -> bad at 7
REPORT E1 R1 M1 B XF6 10 0.0000001 H1 -> bad at 7
REPORT E1 R\u{e9} M1 B XF6 10 101.5 H1 -> bad at 7
REPORT E_1 R1 M1 B XF6 10 101.5 H1 -> bad at 7
REPORT E1 (!*65) M1 B XF6 10 101.5 H1 -> bad at 7
";

/// Give-ups, claims, refusals and reversals of no form.
const BAD_OF_OFFERS: &str = "\
GIVEUP E1 L1 R1 -> bad at 7
GIVEUP E1 L1 R1 A1 -> bad at 7
GIVEUP E1 L1 R1 A1 10 A2 -> bad at 7
GIVEUP E1 L1 R1 A1 0 -> bad at 7
GIVEUP E1 L1 R1 a1 10 -> bad at 7
GIVEUP E1 L1 R1 A1 10 A2 x -> bad at 7
GIVEUP E1 L1 R1( A1 1*17) -> bad at 7
CLAIM C1 0 -> bad at 7
CLAIM C1 16000001 -> bad at 7
CLAIM C1 1.0 -> bad at 7
CLAIM C1 -> bad at 7
CLAIM C1 1 1 -> bad at 7
REFUSE C1 1 -> bad at 7
REFUSE C1 1 0 -> bad at 7
REFUSE C1 1 3 -> bad at 7
REFUSE C1 1 6 -> bad at 7
REFUSE C1 0 1 -> bad at 7
REVERSE C1 -> bad at 7
REVERSE c1 1 -> bad at 7
REVERSE C1 0 -> bad at 7
";

/// Steps of workers, sweeps and questions of no form.
const BAD_STEPS: &str = "\
SEE 63 G1 -> bad at 7
SEE 64 G1 -> bad at 7
SEE -1 G1 -> bad at 7
SEE 0 -> bad at 7
SEE G1 0 -> bad at 7
PROPOSE -> bad at 7
PROPOSE 63 -> bad at 7
PROPOSE 0 G1 -> bad at 7
COMMIT 256 -> bad at 7
COMMIT 1000000000000 -> bad at 7
SWEEP -> bad at 7
SWEEP G1 G2 -> bad at 7
SWEEP ABCDEFGHIJKLM -> bad at 7
POSITION A1 -> bad at 7
POSITION a1 XF6 -> bad at 7
POSITION A1 XF6 1 -> bad at 7
INTEREST xf6 -> bad at 7
INTEREST XF6 1 -> bad at 7
LIMITS -> bad at 7
LIMITS g1 -> bad at 7
";

#[test]
fn say_commands_steps_and_questions(rt: HostRuntime) {
    check(&rt, rt.alloc(), Subject::Lines, COMMANDS);
    check(&rt, rt.alloc(), Subject::Lines, OF_OFFERS);
    check(&rt, rt.alloc(), Subject::Lines, STEPS);
    check(&rt, rt.alloc(), Subject::Lines, SILENT);
    assert!(rt; matches!(Line::read(rt.alloc(), b"#\xFF\x00 ", 7), Ok(None)));
}

#[test]
fn are_bad_by_their_number_where_they_are_of_no_form(rt: HostRuntime) {
    check(&rt, rt.alloc(), Subject::Lines, OF_BAD_BLANKS);
    check(&rt, rt.alloc(), Subject::Lines, BAD_LIMITS);
    check(&rt, rt.alloc(), Subject::Lines, BAD_REPORTS);
    check(&rt, rt.alloc(), Subject::Lines, BAD_OF_OFFERS);
    check(&rt, rt.alloc(), Subject::Lines, BAD_STEPS);
}
