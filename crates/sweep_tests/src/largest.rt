//! Calls at their largest, and thousands of times over: a body that answers Memory at will meets every contract.
use crate::rows::{Subject, check, check_row};
use crate::sheets::Question;
use crate::sweep::Telling;
use std::alloc::{AllocError, Global};

/// Returns a line for each number from a first to a last, with the number in the place of each `#`.
fn numbered(alloc: Global, line: &str, first: u64, last: u64) -> Result<String, AllocError> {
    let mut text = String::new(alloc);
    for number in first..=last {
        let digits = format!(in alloc; "{number}")?;
        text.push_str(&line.replace(alloc, '#', &digits)?)?;
    }
    Ok(text)
}

/// Returns the view of this many offers, each of its own agreement, into its own account, under its own firms, the guarantor among them.
fn apart(alloc: Global, most: u64) -> Result<String, AllocError> {
    let offers = numbered(alloc, "OFFER # 1 P# E# A# C# F#|", 1, most)?;
    let rooms = "ROOM EXEC E# 1|ROOM AGR P# 1|ROOM ACCT A# 1|ROOM CARRY C# 1|ROOM GUAR F# 1|";
    let rooms = numbered(alloc, rooms, 1, most)?;
    format!(in alloc; "SHEET G1 0|{offers}{rooms}")
}

/// Returns the same with takes of all offers, and a cut of the keys of their accounts and of this many offers.
fn taken(alloc: Global, most: u64, cut: u64) -> Result<String, AllocError> {
    let view = apart(alloc, most)?;
    let takes = numbered(alloc, "TAKE # 1|", 1, most)?;
    let keys = numbered(alloc, "CUT ACCT A#|", 1, most)?;
    let offers = numbered(alloc, "CUT OFFER #|", 1, cut)?;
    format!(in alloc; "{view}{takes}{keys}{offers}END|")
}

#[test]
fn sheet_of_4096_offers_is_read_checked_swept_and_written(rt: HostRuntime) {
    let swept = Subject::Sheets(Question::Sweep(Telling::Lots));
    let sheet = taken(rt.alloc(), 4_096, 0).expect(&rt, "memory");
    let verdict = Subject::Sheets(Question::Verdict);
    check_row(&rt, rt.alloc(), verdict, &sheet, "OK 4096|");
    check_row(&rt, rt.alloc(), swept, &sheet, "4096");
    let sheet = taken(rt.alloc(), 4_096, 4_096).expect(&rt, "memory");
    let written = Subject::Sheets(Question::Written);
    check_row(&rt, rt.alloc(), written, &sheet, &sheet);
}

#[test]
fn sheet_of_4097_offers_is_bad_at_its_end(rt: HostRuntime) {
    // SHEET, 4,097 offers with five rooms each, END.
    let more = apart(rt.alloc(), 4_097).expect(&rt, "memory");
    let more = format!(in rt.alloc(); "{more}END|").expect(&rt, "memory");
    let subject = Subject::Sheets(Question::IsRead);
    check_row(&rt, rt.alloc(), subject, &more, "bad at 24584");
}

/// Returns the view of this many offers of 1,000,000 lots under one agreement, with as much room as there may be.
fn together(alloc: Global, most: u64) -> Result<String, AllocError> {
    let offers = numbered(alloc, "OFFER # 1000000 P1 E1 A1 C1|", 1, most)?;
    let rooms =
        "ROOM EXEC E1 1000000000|ROOM AGR P1 1000000000|ROOM ACCT A1 1000000000|ROOM CARRY C1 1000000000|";
    format!(in alloc; "SHEET G1 0|{offers}{rooms}END|")
}

/// Returns the outcome of its sweep: the first thousand offers are taken in full, and the others not at all.
fn fills_a_thousand(alloc: Global, most: u64) -> Result<String, AllocError> {
    let full = numbered(alloc, "TAKE # 1000000|", 1, 1_000)?;
    let empty = numbered(alloc, "TAKE # 0|", 1_001, most)?;
    format!(in alloc; "1000000000 OK 1000000000|{full}{empty}")
}

#[test]
fn view_of_4096_offers_under_one_agreement_is_swept(rt: HostRuntime) {
    let view = together(rt.alloc(), 4_096).expect(&rt, "memory");
    let takes = fills_a_thousand(rt.alloc(), 4_096).expect(&rt, "memory");
    let expected = format!(in rt.alloc(); "{takes}CUT EXEC E1|END|").expect(&rt, "memory");
    let subject = Subject::Sheets(Question::Sweep(Telling::Takes));
    check_row(&rt, rt.alloc(), subject, &view, &expected);
}

/// A sheet that is read and swept, whose proposal is checked and written.
const SWEEPS: &str =
    "crossed: -> 20 OK 20|TAKE 1 0|TAKE 2 10|TAKE 3 10|CUT EXEC E1|CUT ACCT A1|END|";

#[test]
fn sheet_is_read_swept_and_checked_5000_times(rt: HostRuntime) {
    let swept = Subject::Sheets(Question::Sweep(Telling::Takes));
    for _ in 0..5_000 {
        check(&rt, rt.alloc(), swept, SWEEPS);
    }
}

/// A give-up of sixteen lines.
const LINES: &str = "\
GIVEUP E1 L1 R1( ABCDEFGHIJKL 1000000*16) -> give up E1 L1 R1: \
    ABCDEFGHIJKL 1000000 ABCDEFGHIJKL 1000000 ABCDEFGHIJKL 1000000 ABCDEFGHIJKL 1000000 \
    ABCDEFGHIJKL 1000000 ABCDEFGHIJKL 1000000 ABCDEFGHIJKL 1000000 ABCDEFGHIJKL 1000000 \
    ABCDEFGHIJKL 1000000 ABCDEFGHIJKL 1000000 ABCDEFGHIJKL 1000000 ABCDEFGHIJKL 1000000 \
    ABCDEFGHIJKL 1000000 ABCDEFGHIJKL 1000000 ABCDEFGHIJKL 1000000 ABCDEFGHIJKL 1000000";

#[test]
fn sheet_and_line_are_read_and_told_5000_times(rt: HostRuntime) {
    let written = Subject::Sheets(Question::Written);
    let sheet = taken(rt.alloc(), 2, 2).expect(&rt, "memory");
    for _ in 0..5_000 {
        check(&rt, rt.alloc(), Subject::Lines, LINES);
        check_row(&rt, rt.alloc(), written, &sheet, &sheet);
    }
}
