//! Runs of steps, and the entries that are to blame for stale commits.

use crate::sample::reference_of;
use gu_text::Line;
use gu_world::{Outcome, Step, World, culprit, run};
use std::alloc::Global;
use std::process::Abort;

/// Scripts of which the last step is a commit that entry 9 made stale: that of the first of two workers, and a claim that overtakes
/// a proposal.
const STALE: [&str; 2] = [
    "\
DAY 20260105
LIMIT G1 EXEC E1 100
LIMIT G1 AGR P1 100
LIMIT G1 ACCT A1 100
LIMIT G1 CARRY C1 100
REPORT E1 R1 M1 B XF6 7 101.5 H1
REPORT E2 R2 M1 S XF6 7 101.5 H2
GIVEUP E1 L1 R1 A1 7
SEE 0 G1
SEE 1 G1
PROPOSE 0
PROPOSE 1
COMMIT 0
COMMIT 1
",
    "\
DAY 20260105
LIMIT G1 EXEC E1 100
LIMIT G1 AGR P1 100
LIMIT G1 ACCT A1 100
LIMIT G1 CARRY C1 100
REPORT E1 R1 M1 B XF6 10 101.5 H1
REPORT E2 R2 M1 S XF6 10 101.5 H2
GIVEUP E1 L1 R1 A1 10
SEE 0 G1
PROPOSE 0
CLAIM C1 1
COMMIT 0
",
];

/// Returns the steps of a script.
pub fn steps(alloc: Global, script: &str) -> Option<Vec<Step>> {
    let mut steps = Vec::new(alloc);
    for line in script.lines() {
        match Line::read(alloc, line.as_bytes(), 0) {
            Ok(Some(Line::Step(step))) => steps.push(step).ok()?,
            _ => return None,
        }
    }
    Some(steps)
}

/// Returns who is to blame for a step, if that can be known.
fn blamed(alloc: Global, steps: &[Step], at: usize) -> Option<Option<u64>> {
    let reference = reference_of(alloc, "", "").ok()?;
    culprit(alloc, reference, steps, at).ok()
}

/// Returns whether the last step's commit was stale, by one entry.
fn ends_stale(world: &World) -> bool {
    matches!(
        world.outcomes().last(),
        Ok(Some(Outcome::Stale { seen: 6, now: 7 }))
    )
}

/// Returns whether a run of these steps has one outcome each, the last stale, and nine entries.
fn is_run(alloc: Global, steps: &[Step]) -> Option<bool> {
    let reference = reference_of(alloc, "", "").ok()?;
    let world = run(alloc, reference, steps).ok()?;
    let is_stale = ends_stale(&world);
    let outcomes = world.outcomes().len();
    let book = world.into_book();
    let entries = book.history().len();
    drop(book);
    Some((is_stale, outcomes, entries) == (true, steps.len(), 9))
}

/// Compares who is to blame for each step of a script, and what a run of them comes to.
fn compare(rt: &impl Abort, alloc: Global, script: &str) {
    let steps = steps(alloc, script).expect(rt, "steps");
    for at in 0..=steps.len() {
        let is_last = at + 1 == steps.len();
        let want = if is_last { Some(9) } else { None };
        let found = blamed(alloc, &steps, at);
        assert_eq!(rt; found, Some(want), "step {at} of {script}");
    }
    assert_eq!(rt; is_run(alloc, &steps), Some(true), "{script}");
}

#[test]
fn a_stale_commit_has_its_culprit(rt: HostRuntime) {
    for script in STALE {
        compare(&rt, rt.alloc(), script);
    }
}
