//! Long scripts, a group with as many open offers as it may have, and a script that fills a book.

use crate::plays::told;
use crate::rows::check_told;
use std::alloc::{AllocError, Global};
use std::fmt;
use std::fmt::Write;
use trials::{columns, meant};

/// Returns the report of a script, with its signs replaced.
fn told_of(alloc: Global, script: &str) -> Result<String, AllocError> {
    told(alloc, "", &meant(alloc, script)?, 4_096)
}

/// A day and 19,999 reports.
const TWENTY_THOUSAND_LINES: &str =
    "DAY 20260105/(REPORT E1 R% M% B XF6 10 101.5 H1/*19999) -> done: 1 OK/(% OK OPEN/*2..20000)";

#[test]
fn a_script_of_twenty_thousand_lines_is_answered(rt: HostRuntime) {
    let (script, text) = columns(TWENTY_THOUSAND_LINES);
    let expected = meant(rt.alloc(), text).expect(&rt, "memory");
    check_told(&rt, "20,000 lines", told_of(rt.alloc(), script), &expected);
}

/// An opening, and 19,999 more of the same day.
const TWENTY_THOUSAND_OPENINGS: &str =
    "(DAY 20260105/*20000) -> done: 1 OK/(% NO 2 WrongDay/*2..20000)";

#[test]
fn a_script_of_twenty_thousand_reads_is_answered_in_as_many_writes(rt: HostRuntime) {
    let (script, text) = columns(TWENTY_THOUSAND_OPENINGS);
    let script = meant(rt.alloc(), script).expect(&rt, "memory");
    let expected = meant(rt.alloc(), text).expect(&rt, "memory");
    // A read gives one line, of 13 bytes, which is answered before the next.
    let told = told(rt.alloc(), "", &script, 13);
    check_told(&rt, "20,000 reads", told, &expected);
}

/// 256 times sixteen offers of a lot, and one more.
const OFFERS: &str =
    "DAY 20260105/LIMIT G1 EXEC E1 100/LIMIT G1 AGR P1 100/LIMIT G1 ACCT A1 100/LIMIT G1 CARRY C1 100/REPORT E1 R1 M1 B XF6 5000 101.5 H1/REPORT E2 R2 M1 S XF6 5000 101.5 H2/(GIVEUP E1 L% R1 A1 1 A1 1 A1 1 A1 1 A1 1 A1 1 A1 1 A1 1 A1 1 A1 1 A1 1 A1 1 A1 1 A1 1 A1 1 A1 1/*0..255)GIVEUP E1 L256 R1 A1 1/";

/// Returns their outcomes.
fn offers_told(alloc: Global) -> Result<String, AllocError> {
    let front = "done: 1 OK/2 OK/3 OK/4 OK/5 OK/6 OK OPEN/7 OK MATCHED/";
    let mut told = String::from_str(alloc, front)?;
    for number in 0..256_u32 {
        let first = number.saturating_mul(16).saturating_add(1);
        let last = first.saturating_add(15);
        let entry = number.saturating_add(8);
        told.push_str(&format!(in alloc; "{entry} OK OFFERS {first} {last}/")?)?;
    }
    told.push_str("264 NO 12 TooManyOffers/")?;
    Ok(told)
}

#[test]
fn a_group_has_4096_open_offers_at_most(rt: HostRuntime) {
    let expected = offers_told(rt.alloc()).expect(&rt, "memory");
    check_told(&rt, "4,097 offers", told_of(rt.alloc(), OFFERS), &expected);
}

/// Entries of a full book.
const ENTRIES: u32 = 1_000_000;

/// Returns what answers openings of one day that fill a book, and one more: the first opens the day.
fn openings_told(alloc: Global) -> Result<String, AllocError> {
    let mut told = String::from_str(alloc, "done: 1 OK/")?;
    for number in 2..=ENTRIES {
        write!(told, "{number} NO 2 WrongDay/")?;
    }
    told.push_str("FULL/")?;
    Ok(told)
}

#[test]
fn a_script_fills_a_book(rt: HostRuntime) {
    let expected = openings_told(rt.alloc()).expect(&rt, "memory");
    let script = "DAY 20260105/"
        .repeat(rt.alloc(), 1_000_001)
        .expect(&rt, "memory");
    let told = told(rt.alloc(), "", &script, 4_096).expect(&rt, "memory");
    assert!(rt; told == expected);
}

/// How many accounts the house has beside the sample's four, and how many agreements beside the sample's four.
const ROWS_MORE: u32 = 9_995;

/// A script that is written line by line, and what answers it.
#[derive(Drop)]
struct Transcript {
    script: String,
    answers: String,
    entries: u32,
}

impl Transcript {
    /// Appends a line that makes an entry, and its answer.
    fn say<L: fmt::Display + Drop, A: fmt::Display + Drop>(
        &mut self,
        line: L,
        answer: A,
    ) -> Result<(), AllocError> {
        self.entries = self.entries.saturating_add(1);
        write!(self.script, "{line}/")?;
        write!(self.answers, "{} {answer}/", self.entries)
    }
}

/// Returns the rows of a house of 9,999 accounts, 9,999 agreements and fourteen groups.
fn many_rows(alloc: Global) -> Result<String, AllocError> {
    let mut rows = String::new(alloc);
    for group in 3..=14_u32 {
        write!(rows, "GROUP,G{group}\nINSTRUMENT,I{group},G{group}\n")?;
    }
    for place in 0..ROWS_MORE {
        write!(
            rows,
            "ACCOUNT,B{place},C1\nAGREEMENT,Q{place},E1,B{place}\n"
        )?;
    }
    Ok(rows)
}

/// Adds 33,000 limits, in four groups.
fn say_limits(transcript: &mut Transcript) -> Result<(), AllocError> {
    for place in 0..8_250_u32 {
        for (group, kind, name) in [
            (3, "AGR", "Q"),
            (4, "ACCT", "B"),
            (5, "AGR", "Q"),
            (6, "ACCT", "B"),
        ] {
            transcript.say(
                format_args!("LIMIT G{group} {kind} {name}{place} {place}"),
                "OK",
            )?;
        }
    }
    Ok(())
}

/// Adds a trade of a group whose ids have 64 bytes, given up in this many give-ups of sixteen lots to as many accounts.
fn say_give_ups(
    transcript: &mut Transcript,
    group: u32,
    count: u32,
    first: u32,
) -> Result<(), AllocError> {
    transcript.say(
        format_args!("REPORT E1 {group:064} M{group:063} B I{group} 5000 101.5 H1"),
        "OK OPEN",
    )?;
    transcript.say(
        format_args!("REPORT E2 {group:064} M{group:063} S I{group} 5000 101.5 H2"),
        "OK MATCHED",
    )?;
    for place in 0..count {
        let first = first.saturating_add(place.saturating_mul(16));
        write!(
            transcript.script,
            "GIVEUP E1 {group:032}{place:032} {group:064}"
        )?;
        for account in 0..15_u32 {
            write!(transcript.script, " B{account} 1")?;
        }
        transcript.say(
            format_args!(" B{} 1", place.saturating_add(15)),
            format_args!("OK OFFERS {first} {}", first.saturating_add(15)),
        )?;
    }
    Ok(())
}

/// Returns a day of 33,000 limits and of 48,016 open offers in twelve groups, by ids of 64 bytes.
fn many_lines(alloc: Global) -> Result<Transcript, AllocError> {
    let mut transcript = Transcript {
        script: String::new(alloc),
        answers: String::from_str(alloc, "done: ")?,
        entries: 0,
    };
    transcript.say("DAY 20260105", "OK")?;
    say_limits(&mut transcript)?;
    for group in 3..14_u32 {
        let first = group
            .saturating_sub(3)
            .saturating_mul(4_000)
            .saturating_add(1);
        say_give_ups(&mut transcript, group, 250, first)?;
    }
    say_give_ups(&mut transcript, 14, 251, 44_001)?;
    Ok(transcript)
}

#[test]
fn a_house_of_many_rows_has_many_limits_and_offers(rt: HostRuntime) {
    let rows = many_rows(rt.alloc()).expect(&rt, "memory");
    let Transcript {
        script,
        answers,
        ..
    } = many_lines(rt.alloc()).expect(&rt, "memory");
    let told = told(rt.alloc(), &rows, &script, 4_096).expect(&rt, "memory");
    assert!(rt; told == answers);
}
