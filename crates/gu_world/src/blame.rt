//! The entry to blame for a stale commit.

ghost use Rattle.std.specs.Prelude.{◌≡◌, ◌≤◌, ◌∷◌, [], ◌++◌, List, length, replicate, IfOk, OnOk};
ghost use Rattle.std.specs.Option.{option_and_then};
ghost use Rattle.gu_terms.specs.declared.entry.Entry.{Entry as EntryOf};
ghost use Rattle.gu_world.specs.Blame.{IsBlamedFor, ends_stale, first_after, is_stale, own_of};
ghost use Rattle.gu_world.specs.Runs.{IsCulprit};
ghost use Rattle.gu_world.specs.Steps.{Look, first_touch_above, look_of};

use crate::outcome::Outcome;
use crate::outcomes::Outcomes;
use crate::running::take_all;
use crate::step::Step;
use crate::touching::is_touching;
use crate::worker::Worker;
use crate::world::World;
use gu_ref::Reference;
use gu_terms::{Command, Done, Entry, Group, History, Reply};
use std::alloc::{AllocError, Global};

/// Appends `count` times whether offers are in the group.
fn push_own(own: &mut Vec<bool>, is_own: bool, count: usize) -> Result<(), AllocError>
    ensures { OnOk result (own.new.items ≡ own.old.items ++ replicate count is_own) }
{
    for _ in 0..count {
        own.push(is_own)?;
    }
    Ok(())
}

/// Appends, for each offer that an entry makes, whether it is in the group.
fn know(own: &mut Vec<bool>, group: &Group, entry: &Entry) -> Result<(), AllocError>
    ensures { (before : List EntryOf) → own.old.items ≡ own_of before group.now → OnOk result (own.new.items ≡ own_of (before ++ entry.now ∷ []) group.now) }
{
    let Entry::Asked { command, reply } = entry else {
        return Ok(());
    };
    let Command::GiveUp(give_up) = command else {
        return Ok(());
    };
    let Reply::Accepted(done) = *reply else {
        return Ok(());
    };
    let Done::Offered { group: at, .. } = done else {
        return Ok(());
    };
    push_own(own, at == *group, give_up.lines.as_slice().len())
}

/// Returns the first entry after a number that touches a group.
fn first_touch(
    alloc: Global,
    history: &History,
    group: &Group,
    seen: u64,
) -> Result<Option<u64>, AllocError>
    requires { length history.now ≤ 1000000 }
    ensures { IfOk result (λ first. first ≡ first_touch_above history.now group.now seen) }
{
    let mut own = Vec::new(alloc);
    for place in 0..history.len() {
        let entry = history.at(place)?;
        let number = place as u64 + 1;
        if number > seen && is_touching(&own, group, &entry) {
            return Ok(Some(number));
        }
        know(&mut own, group, &entry)?;
    }
    Ok(None)
}

/// Returns the first entry that touched the group of a worker's look after those that the worker saw.
fn first_after(alloc: Global, world: &World, worker: Worker) -> Result<Option<u64>, AllocError>
    ensures { IfOk result (λ first. first
        ≡ option_and_then (λ (look : Look). first_touch_above world.now.state.book.history look.group look.seen) (look_of world.now.state worker)) }
{
    let Some((group, seen)) = world.seen(worker) else {
        return Ok(None);
    };
    let history = world.book().history();
    first_touch(alloc, history, &group, seen)
}

/// Returns the same if the step is that worker's commit, and None for any other step.
fn first_for(alloc: Global, world: &World, step: &Step) -> Result<Option<u64>, AllocError>
    ensures { IfOk result (λ first. first ≡ first_after world.now.state step.now) }
{
    match step {
        Step::Commit(worker) => first_after(alloc, world, *worker),
        _ => Ok(None),
    }
}

/// Returns whether an outcome is a stale commit.
fn is_stale(outcome: &Outcome) -> bool
    ensures { result ≡ is_stale outcome.now }
{
    matches!(outcome, Outcome::Stale { .. })
}

/// Returns whether the last outcome is a stale commit.
fn ends_stale(outcomes: &Outcomes<'_>) -> Result<bool, AllocError>
    ensures { IfOk result (λ ends. ends ≡ ends_stale outcomes.now) }
{
    match outcomes.last()? {
        Some(outcome) => Ok(is_stale(&outcome)),
        None => Ok(false),
    }
}

/// Takes one more step, and returns the entry to blame for its outcome.
fn blame(alloc: Global, world: &mut World, step: Step) -> Result<Option<u64>, AllocError>
    ensures { IfOk result (IsBlamedFor world.old step world.new) }
{
    let first = first_for(alloc, world, &step)?;
    world.step(step)?;
    let ends = ends_stale(&world.outcomes())?;
    if ends { Ok(first) } else { Ok(None) }
}

/// Returns the entry to blame for the outcome of the step at an index, counted from 0: if that is a stale commit, the first entry that
/// touched its group after those that its worker saw. None otherwise, and after the last step.
pub fn culprit(
    alloc: Global,
    reference: Reference,
    steps: &[Step],
    at: usize,
) -> Result<Option<u64>, AllocError>
    ensures { IfOk result (IsCulprit reference steps.now at) }
{
    if at >= steps.len() {
        return Ok(None);
    }
    let mut world = take_all(alloc, reference, &steps[..at])?;
    let step = steps[at].copy()?;
    blame(alloc, &mut world, step)
}
