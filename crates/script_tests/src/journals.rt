//! Days that are written as scripts.

use crate::plays::{Pieces, played};
use crate::rows::check_told;
use gu_script::{ScriptError, write_journal};
use gu_streams::StreamError;
use gu_terms::{
    AccountId, Command, Day, FirmId, Id, Lots, OpenDay, Price, ReportSide, Side, Symbol,
};
use gu_world::{Step, World};
use std::alloc::{AllocError, Global};
use std::io;
use trials::{Sink, columns, meant};

/// Scripts, and the journals of the histories that they lead to.
const JOURNALS: &str = "\
# nothing is entered/POSITION H1 XF6/ -> 
DAY 20260105/LIMIT G1 EXEC E1 100/LIMIT G1 AGR P1 100/LIMIT G1 ACCT A1 100/LIMIT G1 CARRY C1 100/LIMIT G2 GUAR E1 5/REPORT E1 R1 M1 B XF6 10 101.5 H1/REPORT E2 R2 M1 S XF6 10 101.5 H2/GIVEUP E1 L1 R1 A1 6 A2 3/REFUSE C1 2 5/CLAIM C1 1/REVERSE C1 1/SWEEP G1/CLAIM C1 9/DAY 20260105/LIMIT G9 EXEC E1 999999999999/ -> DAY 20260105/LIMIT G1 EXEC E1 100/LIMIT G1 AGR P1 100/LIMIT G1 ACCT A1 100/LIMIT G1 CARRY C1 100/LIMIT G2 GUAR E1 5/REPORT E1 R1 M1 B XF6 10 101.5 H1/REPORT E2 R2 M1 S XF6 10 101.5 H2/GIVEUP E1 L1 R1 A1 6 A2 3/REFUSE C1 2 5/CLAIM C1 1/REVERSE C1 1/SWEEP G1/CLAIM C1 9/DAY 20260105/LIMIT G9 EXEC E1 999999999999/
REPORT E1 R#1 M:1 S XF6 0010.0 -000.250 H1/REPORT  E1 R2 M2 B XF6 1000000 999999999.999999 H1/REPORT E1 R3 M3 B XF6 1 -0 H1/POSITION H1 XF6/LIMITS G1/INTEREST XF6/ -> REPORT E1 R#1 M:1 S XF6 10 -0.25 H1/REPORT E1 R2 M2 B XF6 1000000 999999999.999999 H1/REPORT E1 R3 M3 B XF6 1 0 H1/
DAY 20260105/LIMIT G1 EXEC E1 10/LIMIT G1 EXEC E2 20/LIMIT G1 ACCT A1 10/LIMIT G1 ACCT A2 20/LIMIT G1 CARRY C1 100/LIMIT G1 AGR P1 100/LIMIT G1 AGR P2 100/LIMIT G1 AGR P3 100/REPORT E1 R1 M1 B XF6 22 101.5 H1/REPORT E2 S1 M1 S XF6 22 101.5 H2/GIVEUP E1 L1 R1 A1 10 A2 12/GIVEUP E2 L1 S1 A1 15/SWEEP G1/CLAIM C1 2/ -> DAY 20260105/LIMIT G1 EXEC E1 10/LIMIT G1 EXEC E2 20/LIMIT G1 ACCT A1 10/LIMIT G1 ACCT A2 20/LIMIT G1 CARRY C1 100/LIMIT G1 AGR P1 100/LIMIT G1 AGR P2 100/LIMIT G1 AGR P3 100/REPORT E1 R1 M1 B XF6 22 101.5 H1/REPORT E2 S1 M1 S XF6 22 101.5 H2/GIVEUP E1 L1 R1 A1 10 A2 12/GIVEUP E2 L1 S1 A1 15/SWEEP G1/# TAKE 2 10/# TAKE 3 10/# CUT EXEC E1/# CUT ACCT A1/CLAIM C1 2/
DAY 20260105/SEE 0 G1/PROPOSE 0/SEE 1 G9/COMMIT 0/COMMIT 1/SWEEP G2/SWEEP G9/ -> DAY 20260105/SWEEP G1/SWEEP G2/
DAY 20260105/(REPORT E1 R% M% B XF6 10 101.5 H1/*2..20000) -> DAY 20260105/(REPORT E1 R% M% B XF6 10 101.5 H1/*2..20000)";

/// Returns the world that a script leads to.
pub fn world_after(alloc: Global, script: &str) -> Result<World, ScriptError> {
    let script = meant(alloc, script)?.replace(alloc, "/", "\n")?;
    let script = Pieces {
        bytes: script.as_bytes(),
        most: 4_096,
    };
    played(alloc, "", script, &mut io::sink())
}

/// Returns the journal of a world's history.
fn journal_of(alloc: Global, world: &World) -> Result<String, AllocError> {
    let mut written = Vec::new(alloc);
    if write_journal(alloc, world.book().history(), &mut written).is_err() {
        return Err(AllocError);
    }
    str::from_utf8(&written)
        .unwrap_or("?")
        .replace(alloc, "\n", "/")
}

/// Returns the journal of the history that a script leads to.
fn journal_after(alloc: Global, script: &str) -> Result<String, ScriptError> {
    let world = world_after(alloc, script)?;
    Ok(journal_of(alloc, &world)?)
}

#[test]
fn a_journal_has_the_line_of_each_entry(rt: HostRuntime) {
    for row in JOURNALS.lines() {
        let (script, journal) = columns(row);
        let expected = meant(rt.alloc(), journal).expect(&rt, "memory");
        let told = journal_after(rt.alloc(), script)
            .ok()
            .expect(&rt, "a world");
        check_told(&rt, "a journal", Ok(told), &expected);
    }
}

/// Returns a report of E1 with this id that names a day of January 2026.
fn report_of(id: &[u8], day: u8) -> Option<Command> {
    Some(Command::ReportSide(ReportSide {
        firm: FirmId::new(b"E1")?,
        id: Id::new(id)?,
        match_id: Id::new(b"M1")?,
        symbol: Symbol::new(b"XF6")?,
        lots: Lots::new(10)?,
        price: Price::new(101_500_000)?,
        day: Some(Day::new(2026, 1, day)?),
        side: Side::Buy,
        account: AccountId::new(b"H1")?,
    }))
}

/// Enters a report with this id that names a day of January 2026.
fn enter(world: &mut World, id: &[u8], day: u8) -> Result<(), AllocError> {
    match report_of(id, day) {
        Some(command) => world.step(Step::Enter(command)),
        None => Err(AllocError),
    }
}

/// Returns the journal of a history with reports that name days: before a day is open, of another day, and of the open one.
fn dated_journal(alloc: Global) -> Result<String, ScriptError> {
    let mut world = world_after(alloc, "")?;
    enter(&mut world, b"R1", 5)?;
    let opening = Day::new(2026, 1, 5).map(|day| Step::Enter(Command::OpenDay(OpenDay { day })));
    match opening {
        Some(step) => world.step(step)?,
        None => return Err(ScriptError::Memory),
    }
    enter(&mut world, b"R2", 4)?;
    enter(&mut world, b"R3", 5)?;
    Ok(journal_of(alloc, &world)?)
}

/// A script has no line for a report of another day: it is a comment there, and an opening of the open day is refused in its place.
const DATED: &str =
    "REPORT E1 R1 M1 B XF6 10 101.5 H1/DAY 20260105/# REPORT E1 R2 M1 B XF6 10 101.5 H1 20260104/DAY 20260105/REPORT E1 R3 M1 B XF6 10 101.5 H1/";

#[test]
fn a_report_of_another_day_is_a_comment(rt: HostRuntime) {
    let told = dated_journal(rt.alloc()).ok().expect(&rt, "a world");
    check_told(&rt, "reports with days", Ok(told), DATED);
}

/// Returns whether a journal whose writer takes three bytes a write, and fails after this many writes, is a fault and a prefix of this
/// length.
fn is_prefix(alloc: Global, world: &World, whole: &str, writes: usize) -> bool {
    let mut sink = Sink::new(alloc, 3, writes);
    let end = write_journal(alloc, world.book().history(), &mut sink);
    let text = whole.as_bytes();
    let length = writes.saturating_mul(3);
    if length >= text.len() {
        return end == Ok(()) && sink.held.as_slice() == text;
    }
    end == Err(StreamError::Write) && sink.held.as_slice() == &text[..length]
}

/// Two entries.
const SHORT: &str = "DAY 20260105\nSWEEP G1\n";

#[test]
fn a_journal_whose_writer_fails_is_a_prefix(rt: HostRuntime) {
    let world = world_after(rt.alloc(), "DAY 20260105/SWEEP G1/")
        .ok()
        .expect(&rt, "a world");
    for writes in 0..9 {
        assert!(rt;
            is_prefix(rt.alloc(), &world, SHORT, writes),
            "{writes} writes"
        );
    }
    drop(world);
}
