//! The world: a book, its workers, and the outcome of each step.

ghost use Rattle.std.specs.Prelude.{◌≡◌, false, IfOk, OnOk, OnErr, Some};
ghost use Rattle.std.specs.Option.{option_copied, option_map};
ghost use Rattle.gu_rules.specs.Views.{group_view};
ghost use Rattle.gu_world.specs.Looks.{AreTrue, state_in};
ghost use Rattle.gu_world.specs.Runs.{GoesOn, IsReached, beginning};
ghost use Rattle.gu_world.specs.Steps.{LeadsTo, Look, ShowsProposed, is_overtaken, look_of, outcome_of, view_seen};
ghost use Rattle.gu_world.specs.declared.step.Step.TheVariants.{Commit, Enter};

use crate::answered::Answered;
use crate::committing::commit_for;
use crate::kept_outcomes::KeptOutcomes;
use crate::looks::Looks;
use crate::outcome::Outcome;
use crate::outcomes::{KeptOutcome, Outcomes};
use crate::proposing::propose_for;
use crate::step::Step;
use crate::stepping::{ask, enter, see};
use crate::worker::Worker;
use gu_book::Book;
use gu_ref::Reference;
use gu_terms::{Command, Group, Seed};
use gu_view::View;
use std::alloc::{AllocError, Global};
use std::marker::Model;

/// Takes one step.
fn take(
    alloc: Global,
    book: &mut Book,
    looks: &mut Looks,
    step: Step,
) -> Result<Outcome, AllocError>
    requires { AreTrue book.old looks.old }
    ensures leads { IfOk result (λ outcome. LeadsTo (state_in book.old looks.old) step outcome (state_in book.new looks.new)) }
    ensures still { AreTrue book.new looks.new }
    ensures refused { OnErr result (state_in book.new looks.new ≡ state_in book.old looks.old) }
{
    match step {
        Step::Enter(command) => enter(book, command),
        Step::See(worker, group) => see(book, looks, worker, group),
        Step::Propose(worker) => propose_for(alloc, looks, worker),
        Step::Commit(worker) => {
            let (outcome, view) = commit_for(book, looks, worker)?;
            drop(view);
            Ok(outcome)
        }
    }
}

/// A book, its workers, and the outcome of each step. To a contract it is a state and the outcomes.
pub struct World {
    book: Book,
    looks: Looks,
    outcomes: KeptOutcomes,
    alloc: Global,
}

impl Model for World {
    ghost use Rattle.gu_world.specs.Runs.{Course};

    ghost Value = { Course };

    ghost use Rattle.std.specs.Prelude.{map};
    ghost use Rattle.gu_world.specs.Looks.{IsKeptCourse, state_in};
    ghost use Rattle.gu_world.specs.Outcomes.{outcome_in};

    ghost view = { λ w. record { state = state_in w.book w.looks; outcomes = map (outcome_in w.book.history) w.outcomes.items } };

    ghost invariant = { λ w. IsKeptCourse w.book w.looks w.outcomes.items };
}

// By hand, so that a world's owner drops it with one call.
impl Drop for World {
    fn drop(self) {
        let World {
            book,
            looks,
            outcomes,
            alloc: _,
        } = self;
        drop(book);
        drop(looks);
        drop(outcomes);
    }
}

impl World {
    /// Returns a world with an empty book and workers that haven't looked, for runs that serve no peers: its tables have a fixed seed.
    pub fn new(alloc: Global, reference: Reference) -> Self
        ensures { result ≡ beginning reference }
    {
        World::seeded(alloc, reference, Seed::new(0))
    }

    /// Returns a world with an empty book, whose tables of firm-chosen ids use `seed`, and workers that haven't looked. The seed affects no
    /// outcome.
    pub fn seeded(alloc: Global, reference: Reference, seed: Seed) -> Self
        ensures { result ≡ beginning reference }
    {
        World {
            book: Book::seeded(alloc, reference, seed),
            looks: Looks::new(alloc),
            outcomes: KeptOutcomes::new(alloc),
            alloc,
        }
    }

    /// Takes one step, adds its outcome and returns it.
    pub fn take(&mut self, step: Step) -> Result<Outcome, AllocError>
        ensures taken { IfOk result (λ outcome. (goes : GoesOn self.old step self.new) × (goes.outcome ≡ outcome)) }
        ensures refused { OnErr result (self.new ≡ self.old) }
    {
        self.outcomes.reserve()?;
        let outcome = take(self.alloc, &mut self.book, &mut self.looks, step)?;
        // Shows the prover: the history is legal.
        let _entries = self.book.history().len();
        self.outcomes.push(KeptOutcome::of(&outcome));
        Ok(outcome)
    }

    /// Enters a command, adds its outcome and returns the command's answer, or None if the book is full.
    pub fn enter(&mut self, command: &Command) -> Result<Option<Answered>, AllocError>
        ensures taken { IfOk result (λ answered. (goes : GoesOn self.old (Enter command.now) self.new)
            × (goes.outcome ≡ outcome_of command.now answered)) }
        ensures refused { OnErr result (self.new ≡ self.old) }
    {
        self.outcomes.reserve()?;
        let answered = ask(&mut self.book, command)?;
        // Shows the prover: the history is legal.
        let _entries = self.book.history().len();
        self.outcomes.push(KeptOutcome::of_answer(&answered));
        Ok(answered)
    }

    /// Commits a worker's proposal, adds the outcome, and returns it with the proposal's view.
    pub fn commit(&mut self, worker: Worker) -> Result<(Outcome, Option<View>), AllocError>
        ensures taken { IfOk result (λ r. (goes : GoesOn self.old (Commit worker) self.new) × (goes.outcome ≡ r.0)) }

        // If no entry touched the group of the worker's look, the proposal's view is the group's.
        ensures view { IfOk result (λ r. ShowsProposed self.old.state worker r.1) }
        ensures refused { OnErr result (self.new ≡ self.old) }
    {
        // Shows the prover: the history is legal.
        let _entries = self.book.history().len();
        self.outcomes.reserve()?;
        let (outcome, view) = commit_for(&mut self.book, &mut self.looks, worker)?;
        // Shows the prover: the history after the commit is legal too.
        let _more = self.book.history().len();
        self.outcomes.push(KeptOutcome::of(&outcome));
        Ok((outcome, view))
    }

    /// Takes one step, and adds its outcome.
    pub fn step(&mut self, step: Step) -> Result<(), AllocError>
        ensures stepped { OnOk result (GoesOn self.old step self.new) }
        ensures refused { OnErr result (self.new ≡ self.old) }
    {
        let outcome = self.take(step)?;
        drop(outcome);
        Ok(())
    }

    /// Returns the book.
    pub fn book(&self) -> &Book
        ensures { result.now ≡ self.now.state.book }
    {
        &self.book
    }

    /// Returns the group of a worker's look, and the number of entries that the book had then.
    pub(crate) fn seen(&self, worker: Worker) -> Option<(Group, u64)>
        ensures { result ≡ option_map (λ (look : Look). (look.group, look.seen)) (look_of self.now.state worker) }
    {
        match self.looks.get(worker) {
            Some(held) => Some((held.view().group(), held.seen)),
            None => None,
        }
    }

    /// Returns the view that a worker saw, as long as it has a look.
    pub fn look(&self, worker: Worker) -> Option<&View>
        ensures seen { option_copied result ≡ option_map (view_seen self.now.state) (look_of self.now.state worker) }

        // Until an entry touches its group, it is the group's view.
        ensures current { (look : Look) → look_of self.now.state worker ≡ Some look → is_overtaken self.now.state look ≡ false
            → option_copied result ≡ Some (group_view self.now.state.book.reference self.now.state.book.history look.group) }
    {
        // Shows the prover: the history is legal.
        let _entries = self.book.history().len();
        match self.looks.get(worker) {
            Some(held) => Some(held.view()),
            None => None,
        }
    }

    /// Returns the outcomes of the steps, in order.
    pub fn outcomes(&self) -> Outcomes<'_>
        ensures outcomes { result ≡ self.now.outcomes }
        ensures reached { IsReached self.now }
    {
        Outcomes::new(&self.outcomes, self.book.history())
    }

    /// Returns the book, and drops the rest.
    pub fn into_book(self) -> Book
        ensures { result ≡ self.state.book }
    {
        let World {
            book,
            looks,
            outcomes,
            alloc: _,
        } = self;
        drop(looks);
        drop(outcomes);
        book
    }
}
