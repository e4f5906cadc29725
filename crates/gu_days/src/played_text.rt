//! A day's text that is played while it still arrives.

ghost use Rattle.std.specs.Prelude.{◌≡◌, ◌++◌, [], List, None, ℕ, IfOk, OnOk};
ghost use Rattle.std.specs.Str.Lines.{lines};
ghost use Rattle.gu_terms.specs.declared.entry.Entry.{Entry as EntryOf};
ghost use Rattle.gu_ref.specs.Tables.{Tables};
ghost use Rattle.gu_rules.specs.Legal.{IsLegal};
ghost use Rattle.gu_world.specs.Runs.{beginning};
ghost use Rattle.gu_script.specs.Journals.{said_after};
ghost use Rattle.gu_script.specs.Replaying.{IsTextOfLines, SayAll};
ghost use Rattle.gu_days.specs.Arriving.{IsPlayedSoFar};
ghost use Rattle.gu_days.specs.Resumed.{IsDayAgain};

use crate::laws::what_says_a_day_plays_to_it;
use gu_ref::Reference;
use gu_script::{Script, ScriptError, Unwatched};
use gu_terms::Seed;
use gu_world::World;
use std::alloc::Global;

/// A day's text that is played while it still arrives, from a book without entries.
#[derive(Drop)]
pub struct PlayedText {
    script: Script,
    text: Vec<u8>,
    /// What the lines of the last piece were answered.
    output: Vec<u8>,
}

/// A text that was played, and the world that its lines led to.
#[derive(Drop)]
pub struct PlayedDay {
    pub world: World,
    pub text: Vec<u8>,
}

impl PlayedText {
    /// Creates a text that hasn't begun, to be played from a book without entries, whose tables of ids have this seed.
    pub fn new(alloc: Global, reference: Reference, seed: Seed) -> Self
        ensures text { result.text.items ≡ [] }
        ensures played { IsPlayedSoFar reference result.text.items result.script }
    {
        PlayedText {
            script: Script::new(alloc, reference, seed),
            text: Vec::new(alloc),
            output: Vec::new(alloc),
        }
    }

    /// Returns the text that has arrived.
    pub fn text(&self) -> &[u8]
        ensures { result.now ≡ self.now.text.items }
    {
        &self.text
    }

    /// Returns the world that its lines so far led to.
    pub fn world(&self) -> &World
        ensures { result.now ≡ self.now.script.course }
    {
        self.script.world()
    }

    /// Plays a piece of the text that comes next. After an error it is unusable.
    pub fn take(&mut self, piece: &[u8]) -> Result<(), ScriptError>
        ensures text { OnOk result (self.new.text.items ≡ self.old.text.items ++ piece.now) }
        ensures played { (reference : Tables) → IsPlayedSoFar reference self.old.text.items self.old.script
            → OnOk result (IsPlayedSoFar reference self.new.text.items self.new.script) }
    {
        let lines = self.script.count();
        if piece.len() as u64 >= u64::MAX - lines {
            return Err(ScriptError::Memory);
        }
        self.text.extend_from_slice(piece)?;
        self.output.clear();
        self.script.take(piece, &mut self.output, &mut Unwatched)?;
        Ok(())
    }

    /// Returns the text and the world that its lines led to, given that nothing more follows.
    pub fn end(self) -> Result<PlayedDay, ScriptError>
        ensures text { IfOk result (λ day. day.text.items ≡ self.text.items) }
        ensures played { (reference : Tables) → IsPlayedSoFar reference self.text.items self.script
            → IfOk result (λ day. (answers : List ℕ) × IsTextOfLines (beginning reference) (lines day.text.items) answers day.world) }

        // If each line is silent or says the next entry of a legal history, the book has that day again.
        ensures day { (reference : Tables) → IsPlayedSoFar reference self.text.items self.script
            → IfOk result (λ day. (history : List EntryOf) → IsLegal reference history → SayAll (lines day.text.items) (said_after None history)
            → IsDayAgain reference history day.world.state.book.history) }
    {
        what_says_a_day_plays_to_it();
        let PlayedText {
            mut script,
            text,
            mut output,
        } = self;
        output.clear();
        if script.count() == u64::MAX {
            return Err(ScriptError::Memory);
        }
        script.end(&mut output, &mut Unwatched)?;
        Ok(PlayedDay {
            world: script.into_world(),
            text,
        })
    }
}
