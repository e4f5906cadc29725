//! What lines are answered.

use crate::house::world_after;
use gu_lookout::{Onlooker, Played, append_lead_answer};
use gu_standby::{LeadAnswer, Wish};
use std::alloc::Global;
use std::process::Abort;

/// The day that the desk has played.
const DAY: &str = "\
DAY 20260105
LIMIT G1 EXEC E1 4
LIMIT G1 AGR P1 100
LIMIT G1 ACCT A1 100
LIMIT G1 CARRY C1 100
REPORT E1 R1 M1 B XF6 10 101.5 H1
REPORT E1 R2 M1 S XF6 10 101.5 H1
GIVEUP E1 L1 R1 A1 6
SWEEP G1
";

/// Lines at the console or at the watch, one after another, what each is answered, and what it wishes.
const ROWS: &[(bool, &str, &str, Option<Wish>)] = &[
    (
        false,
        "STATUS",
        "DESK FOLLOWING DAY 20260105 ENTRIES 9 OF 1000000 SWEPT 4 BATCHES 3\n\n",
        None,
    ),
    (false, "", "\n", None),
    (false, "# a comment", "\n", None),
    (false, "DAY 20260106", "NOT LEADING\n\n", None),
    (false, "LIMIT G1 EXEC E1 5", "NOT LEADING\n\n", None),
    (
        false,
        "REPORT E1 R3 M2 B XF6 10 101.5 H1",
        "NOT LEADING\n\n",
        None,
    ),
    (false, "GIVEUP E1 L2 R2 A1 1", "NOT LEADING\n\n", None),
    (false, "CLAIM C1 1", "NOT LEADING\n\n", None),
    (false, "REFUSE C1 1 2", "NOT LEADING\n\n", None),
    (false, "REVERSE C1 1", "NOT LEADING\n\n", None),
    (false, "SWEEP G1", "NOT LEADING\n\n", None),
    (false, "SWEEP G9", "NOT LEADING\n\n", None),
    (false, "POSITION A1 XF6", "POSITION A1 XF6 4 0\n\n", None),
    (false, "POSITION H9 XF6", "UNKNOWN\n\n", None),
    (false, "INTEREST XF6", "INTEREST XF6 4\n\n", None),
    (
        false,
        "LIMITS G1",
        "LIMIT G1 EXEC E1 4 4 0\nLIMIT G1 AGR P1 100 4 96\nLIMIT G1 ACCT A1 100 4 96\nLIMIT G1 CARRY C1 100 4 96\n\n",
        None,
    ),
    (
        false,
        "JOURNAL",
        "DAY 20260105\nLIMIT G1 EXEC E1 4\nLIMIT G1 AGR P1 100\nLIMIT G1 ACCT A1 100\nLIMIT G1 CARRY C1 100\nREPORT E1 R1 M1 B XF6 10 101.5 H1\nREPORT E1 R2 M1 S XF6 10 101.5 H1\nGIVEUP E1 L1 R1 A1 6\nSWEEP G1\n# TAKE 1 4\n# CUT EXEC E1\n\n",
        None,
    ),
    (false, "JOURNAL", "\n", None),
    (false, "CUT 1", "UNKNOWN\n\n", None),
    (false, "LEAD", "", Some(Wish::Lead)),
    (false, "CLOSE", "CLOSING\n\n", Some(Wish::Close)),
    (false, "LEAD 1", "BAD LINE\n\n", None),
    (false, "lead", "BAD LINE\n\n", None),
    (false, "SEE 0 G1", "BAD LINE\n\n", None),
    (false, "COMMIT 0", "BAD LINE\n\n", None),
    (
        true,
        "STATUS",
        "DESK FOLLOWING DAY 20260105 ENTRIES 9 OF 1000000 SWEPT 4 BATCHES 3\n\n",
        None,
    ),
    (true, "POSITION A1 XF6", "POSITION A1 XF6 4 0\n\n", None),
    (true, "LEAD", "BAD LINE\n\n", None),
    (true, "CLOSE", "BAD LINE\n\n", None),
    (true, "CUT 1", "BAD LINE\n\n", None),
    (true, "SWEEP G1", "BAD LINE\n\n", None),
    (true, "LIMIT G1 EXEC E1 5", "BAD LINE\n\n", None),
];

/// Checks what a row's line is answered at this connection.
fn check_row(
    rt: &impl Abort,
    alloc: Global,
    onlooker: &mut Onlooker,
    played: Played<'_>,
    row: &(bool, &str, &str, Option<Wish>),
) {
    let (_, line, expected, wish) = row;
    let mut output = Vec::new(alloc);
    let wished = onlooker.answer(alloc, played, line.as_bytes(), &mut output);
    assert_eq!(rt; wished, Ok(*wish), "{line}");
    assert_eq!(rt; str::from_utf8(&output).unwrap_or("?"), *expected, "{line}");
}

#[test]
fn a_desk_that_follows_answers_from_its_own_book(rt: HostRuntime) {
    let alloc = rt.alloc();
    let world = world_after(alloc, DAY).expect(&rt, "a world");
    let played = Played {
        book: world.book(),
        batches: 3,
    };
    let (mut operator, mut watcher) = (Onlooker::new(false), Onlooker::new(true));
    for row in ROWS {
        if row.0 {
            check_row(&rt, alloc, &mut watcher, played, row);
        } else {
            check_row(&rt, alloc, &mut operator, played, row);
        }
    }
}

#[test]
fn before_the_first_batch_no_day_is_open(rt: HostRuntime) {
    let alloc = rt.alloc();
    let world = world_after(alloc, "").expect(&rt, "a world");
    let played = Played {
        book: world.book(),
        batches: 0,
    };
    let mut output = Vec::new(alloc);
    let wished = Onlooker::new(false).answer(alloc, played, b"STATUS", &mut output);
    assert_eq!(rt; wished, Ok(None));
    assert_eq!(rt;
        str::from_utf8(&output).unwrap_or("?"),
        "DESK FOLLOWING DAY - ENTRIES 0 OF 1000000 SWEPT 0 BATCHES 0\n\n"
    );
}

#[test]
fn a_journal_goes_on_as_the_book_grows(rt: HostRuntime) {
    let alloc = rt.alloc();
    let mut operator = Onlooker::new(false);
    for (script, shown) in [
        ("DAY 20260105\n", "DAY 20260105\n\n"),
        ("DAY 20260105\n", "\n"),
        (
            "DAY 20260105\nLIMIT G1 EXEC E1 4\nCLAIM C1 1\n",
            "LIMIT G1 EXEC E1 4\nCLAIM C1 1\n\n",
        ),
    ] {
        let world = world_after(alloc, script).expect(&rt, "a world");
        let played = Played {
            book: world.book(),
            batches: 1,
        };
        let mut output = Vec::new(alloc);
        let wished = operator.answer(alloc, played, b"JOURNAL", &mut output);
        assert_eq!(rt; wished, Ok(None));
        assert_eq!(rt; str::from_utf8(&output).unwrap_or("?"), shown);
    }
}

#[test]
fn who_wishes_that_it_leads_gets_one_line(rt: HostRuntime) {
    for (answer, text) in [
        (LeadAnswer::Leading, "LEADING\n\n"),
        (LeadAnswer::Stale, "STALE\n\n"),
        (LeadAnswer::NotLeading, "NOT LEADING\n\n"),
    ] {
        let mut output = Vec::new(rt.alloc());
        assert!(rt; append_lead_answer(answer, &mut output).is_ok());
        assert_eq!(rt; str::from_utf8(&output).unwrap_or("?"), text);
    }
}
