//! Runs.

ghost use Rattle.std.specs.Prelude.{◌≡◌, ◌≢◌, All, IfOk, take};
ghost use Rattle.gu_rules.specs.Legal.{IsLegal};
ghost use Rattle.gu_rules.specs.Positions.{LongIsShort};
ghost use Rattle.gu_world.specs.Headline.{AreGreatestSweeps, ArePositionsSums};
ghost use Rattle.gu_world.specs.Runs.{IsRunOf};
ghost use Rattle.gu_world.specs.declared.outcome.Outcome.TheVariants.{Foreign};

use crate::step::Step;
use crate::world::World;
use gu_ref::Reference;
use std::alloc::{AllocError, Global};

/// Takes the steps, starting from an empty book.
pub fn take_all(alloc: Global, reference: Reference, steps: &[Step]) -> Result<World, AllocError>
    ensures { IfOk result (IsRunOf reference steps.now) }
{
    let mut world = World::new(alloc, reference);
    for step in steps {
        world.step(step.copy()?)?;
    }
    Ok(world)
}

/// Runs the steps of firms and workers, in any order, starting from an empty book.
pub fn run(alloc: Global, reference: Reference, steps: &[Step]) -> Result<World, AllocError>
    // The history, the looks and the outcomes are those of a run of the steps, with one outcome each.
    ensures run { IfOk result (IsRunOf reference steps.now) }
    ensures legal { IfOk result (λ world. IsLegal reference world.state.book.history) }

    // Each committed sweep stays within every offer and limit of its group as the book was at its commit, and takes as many lots as any
    // admissible takes could, oldest first; its cut names only keys and offers of the view, covers each offer, and its room equals the lots
    // taken.
    ensures sweeps { IfOk result (λ world. AreGreatestSweeps reference world.state.book.history) }

    // Each account's long and short positions are the sums of its trades and of what claims and sweeps moved to it, less what they moved
    // from it; and over all accounts, as many lots of each instrument are held long as short.
    ensures positions { IfOk result (λ world. ArePositionsSums world.state.book.history) }
    ensures even { IfOk result (λ world. LongIsShort world.state.book) }
    ensures never_foreign { IfOk result (λ world. All (λ outcome. outcome ≢ Foreign) world.outcomes) }
{
    let world = take_all(alloc, reference, steps)?;
    // Shows the prover: the history is legal.
    let _entries = world.book().history().len();
    Ok(world)
}
