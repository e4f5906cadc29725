//! Playing a day's text again.

ghost use Rattle.std.specs.Prelude.{List, None, ℕ, IfOk, IsErrOf};
ghost use Rattle.std.specs.Str.Lines.{lines};
ghost use Rattle.gu_terms.specs.declared.entry.Entry.{Entry as EntryOf};
ghost use Rattle.gu_rules.specs.Legal.{IsLegal};
ghost use Rattle.gu_world.specs.Runs.{beginning};
ghost use Rattle.gu_script.specs.Journals.{said_after};
ghost use Rattle.gu_script.specs.Replaying.{IsTextOfLines, SayAll};
ghost use Rattle.gu_script.specs.ScriptRuns.{EndsAtBadLine};
ghost use Rattle.gu_days.specs.Resumed.{IsDayAgain};

use crate::laws::what_says_a_day_plays_to_it;
use gu_ref::Reference;
use gu_script::{ScriptError, play_opening};
use gu_streams::CountedReads;
use gu_terms::Seed;
use gu_world::World;
use std::alloc::Global;

/// Plays the lines of a text from a book without entries, whose tables of ids have this seed, and returns the world that they lead to.
pub fn play_day(
    alloc: Global,
    reference: Reference,
    seed: Seed,
    text: &[u8],
) -> Result<World, ScriptError>
    ensures played { IfOk result (λ world. (answers : List ℕ) × IsTextOfLines (beginning reference) (lines text.now) answers world) }

    // If each line is silent or says the next entry of a legal history, the book has that day again.
    ensures day { IfOk result (λ world. (history : List EntryOf) → IsLegal reference history → SayAll (lines text.now) (said_after None history)
        → IsDayAgain reference history world.state.book.history) }
    ensures bad_line { (n : ℕ) → IsErrOf result (ScriptError.BadLine n) → (answers : List ℕ) × EndsAtBadLine (beginning reference) text.now answers n }
{
    what_says_a_day_plays_to_it();
    match play_opening(alloc, reference, seed, &mut CountedReads::new(text)) {
        Ok((world, refused)) => {
            drop(refused);
            Ok(world)
        }
        Err(error) => Err(error),
    }
}
