//! The outcomes of a world by place: of commands in a row, and of the steps between them.

use crate::steps::tell_outcome;
use crate::transcript::{Patience, follow, world_of};
use gu_world::World;
use std::alloc::Global;
use std::process::Abort;

/// Steps, each with its outcome.
const STEPS: &str = "\
DAY 20260105          = 1 OK
LIMIT G1 EXEC E1 100  = 2 OK
SEE 0 G1              = SEEN 2
LIMIT G1 EXEC E9 5    = 3 NO 16 UnknownKey
SEE 0 G9              = UNKNOWN GROUP
LIMIT G1 AGR P1 100   = 4 OK
LIMIT G1 ACCT A1 100  = 5 OK
COMMIT 0              = NOTHING
PROPOSE 0             = PROPOSED 0
COMMIT 0              = STALE 2 4
DAY 20260105          = 6 NO 2 WrongDay
SEE 0 G1              = SEEN 4
PROPOSE 0             = PROPOSED 0
COMMIT 0              = 7 SWEPT G1 0
LIMIT G1 CARRY C1 100 = 8 OK
LIMIT G1 EXEC E2 100  = 9 OK
";

/// Returns the text of the outcome at a place; nothing past the last.
fn told_at(rt: &impl Abort, alloc: Global, world: &World, place: usize) -> Vec<u8> {
    let mut text = Vec::new(alloc);
    let found = world.outcomes().get(place).ok().expect(rt, "memory");
    if let Some(outcome) = found {
        assert!(rt; tell_outcome(&mut text, &outcome).is_ok());
    }
    text
}

/// Compares the text of the outcome at a place.
fn compare(rt: &impl Abort, alloc: Global, world: &World, place: usize, want: &str) {
    let told = told_at(rt, alloc, world, place);
    let told = str::from_utf8(&told).unwrap_or("").trim_end();
    assert!(rt; told == want, "{place}: {want}: told {told}");
}

#[test]
fn each_outcome_is_at_the_place_of_its_step(rt: HostRuntime) {
    let mut world = world_of(&rt, rt.alloc(), "", "", Patience::Never);
    follow(
        &rt,
        rt.alloc(),
        &mut world,
        "outcomes",
        STEPS,
        Patience::Never,
    );
    let mut place: usize = 0;
    for line in STEPS.lines() {
        let (_, want) = line.split_once("=").expect(&rt, "a step and what is told");
        compare(&rt, rt.alloc(), &world, place, want.trim());
        place = place.saturating_add(1);
    }
    assert_eq!(&rt; world.outcomes().len(), place);
    compare(&rt, rt.alloc(), &world, place, "");
}
