//! Consequences of the definitions alone.

ghost use Rattle.std.specs.Prelude.{◌≡◌, ◌≤◌, ◌<◌, ◌++◌, ℕ, false, List, Some, length, take};
ghost use Rattle.gu_terms.specs.declared.receipt.Receipt.{Receipt as ReceiptOf};
ghost use Rattle.gu_terms.specs.declared.entry.Entry.{Entry as EntryOf};
ghost use Rattle.gu_terms.specs.declared.group.Group.{Group as GroupOf};
ghost use Rattle.gu_ref.specs.Tables.{Tables};
ghost use Rattle.gu_rules.specs.Legal.{IsLegal};
ghost use Rattle.gu_rules.specs.Versions.{version_of};
ghost use Rattle.gu_rules.specs.Views.{group_view};
ghost use Rattle.gu_world.specs.Headline.{AreGreatestSweeps};
ghost use Rattle.gu_world.specs.Runs.{Course, IsRun, IsRunOf, blamed};
ghost use Rattle.gu_world.specs.Steps.{LeadsTo, Look, State, is_overtaken, look_of, seen_history, view_seen};
ghost use Rattle.gu_world.specs.declared.outcome.Outcome.{Outcome as OutcomeOf};
ghost use Rattle.gu_world.specs.declared.outcome.Outcome.TheVariants.{Stale, Swept};
ghost use Rattle.gu_world.specs.declared.step.Step.{Step as StepOf};
ghost use Rattle.gu_world.specs.declared.step.Step.TheVariants.{Commit};

/// A run of some steps, followed by a run of more from where it ended, is a run of all of them. It has one outcome for each step.
pub fn runs_join()
    ensures joined { (old mid new : State) (steps more : List StepOf) (outcomes others : List OutcomeOf)
        → IsRun old steps outcomes mid → IsRun mid more others new → IsRun old (steps ++ more) (outcomes ++ others) new }
    ensures one_each { (old new : State) (steps : List StepOf) (outcomes : List OutcomeOf)
        → IsRun old steps outcomes new → length outcomes ≡ length steps }
{}

/// The history that a run of steps leads to is legal.
pub fn a_run_is_legal()
    ensures { (reference : Tables) (steps : List StepOf) (course : Course)
        → IsRunOf reference steps course
        → IsLegal reference course.state.book.history }
{}

/// A worker's look stays true, whatever steps follow.
pub fn a_look_stays_true()
    ensures { (old new : State) (step : StepOf) (outcome : OutcomeOf) (look : Look)
        → look.seen ≤ length old.book.history
        → LeadsTo old step outcome new
        → (seen_history new look ≡ seen_history old look) × (view_seen new look ≡ view_seen old look) }
{}

/// A commit is stale only if there is an entry to blame, after those that the worker saw.
pub fn a_stale_commit_has_a_culprit()
    ensures { (before after : State) (worker seen now : ℕ)
        → LeadsTo before (Commit worker) (Stale seen now) after
        → (look : Look) × (k : ℕ) × (look_of before worker ≡ Some look) × (look.seen < k) × (blamed before (Commit worker) (Stale seen now) ≡ Some k) }
{}

/// A sweep is committed only if no entry after those that the worker saw touches its group.
pub fn a_committed_sweep_was_not_overtaken()
    ensures { (before after : State) (worker : ℕ) (receipt : ReceiptOf)
        → LeadsTo before (Commit worker) (Swept receipt) after
        → (look : Look) × (look_of before worker ≡ Some look) × (is_overtaken before look ≡ false) }
{}

/// If a group has the same version at two moments of a legal history, it has the same view.
pub fn equal_versions_are_equal_views()
    ensures { (reference : Tables) (history : List EntryOf) (first : ℕ) (group : GroupOf)
        → IsLegal reference history
        → first ≤ length history
        → version_of (take first history) group ≡ version_of history group
        → group_view reference (take first history) group ≡ group_view reference history group }
{}

/// Each sweep of a legal history stays within every offer and limit of its group as the book was just before it, and takes as many lots as
/// any admissible takes could, oldest first; its cut names only keys and offers of the view, covers each offer, and its room equals the
/// lots taken.
pub fn each_committed_sweep_is_greatest()
    ensures { (reference : Tables) (history : List EntryOf) → IsLegal reference history → AreGreatestSweeps reference history }
{}
