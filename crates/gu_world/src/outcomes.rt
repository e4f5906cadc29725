//! The outcomes of a world, as stored and as shown.

ghost use Rattle.std.specs.Prelude.{◌≡◌, ◌++◌, ◌-◌, ◌≤◌, length, map, slice_get, IfOk, OnOk, Some};
ghost use Rattle.std.specs.Option.{option_to_list};
ghost use Rattle.gu_terms.specs.Histories.{entry_at};
ghost use Rattle.gu_terms.specs.declared.command.Command.{Command as CommandOf};
ghost use Rattle.gu_world.specs.Outcomes.{kept_of, outcome_in, AreNumbered, IsNumbered};
ghost use Rattle.gu_world.specs.Runs.{receipt_of, receipts_in};
ghost use Rattle.gu_world.specs.Steps.{outcome_of};
ghost use Rattle.gu_world.specs.Series.{outcomes_of};

use crate::answered::Answered;
use crate::kept_outcomes::KeptOutcomes;
use crate::outcome::Outcome;
use crate::series::Series;
use gu_terms::{History, Receipt};
use std::alloc::{AllocError, Global};
use std::marker::Model;

/// An outcome as stored: an entry is stored as its number.
#[derive(Clone, Copy)]
pub(crate) enum KeptOutcome {
    Asked(u64),
    Full,
    Seen(u64),
    NoGroup,
    Proposed(u64),
    Swept(u64),
    Stale { seen: u64, now: u64 },
    Foreign,
    Nothing,
}

impl KeptOutcome {
    /// Returns the stored form of an outcome.
    pub(crate) fn of(outcome: &Outcome) -> Self
        ensures { result ≡ kept_of outcome.now }
    {
        match outcome {
            Outcome::Asked(receipt) => KeptOutcome::Asked(receipt.number),
            Outcome::Full => KeptOutcome::Full,
            Outcome::Seen(version) => KeptOutcome::Seen(*version),
            Outcome::NoGroup => KeptOutcome::NoGroup,
            Outcome::Proposed(lots) => KeptOutcome::Proposed(*lots),
            Outcome::Swept(receipt) => KeptOutcome::Swept(receipt.number),
            Outcome::Stale { seen, now } => KeptOutcome::Stale {
                seen: *seen,
                now: *now,
            },
            Outcome::Foreign => KeptOutcome::Foreign,
            Outcome::Nothing => KeptOutcome::Nothing,
        }
    }

    /// Returns the stored form of a command's outcome, given the answer to it, if there is one.
    pub(crate) fn of_answer(answered: &Option<Answered>) -> Self
        ensures { (command : CommandOf) → result ≡ kept_of (outcome_of command answered.now) }
    {
        match answered {
            Some(answered) => KeptOutcome::Asked(answered.number),
            None => KeptOutcome::Full,
        }
    }

    /// Returns the outcome stored as this, with its entry from the history.
    fn outcome(self, history: &History) -> Result<Outcome, AllocError>
        requires { IsNumbered (length history.now) self }
        ensures { IfOk result (λ outcome. outcome ≡ outcome_in history.now self) }
    {
        match self {
            KeptOutcome::Asked(number) => Ok(Outcome::Asked(receipt(history, number)?)),
            KeptOutcome::Full => Ok(Outcome::Full),
            KeptOutcome::Seen(version) => Ok(Outcome::Seen(version)),
            KeptOutcome::NoGroup => Ok(Outcome::NoGroup),
            KeptOutcome::Proposed(lots) => Ok(Outcome::Proposed(lots)),
            KeptOutcome::Swept(number) => Ok(Outcome::Swept(receipt(history, number)?)),
            KeptOutcome::Stale { seen, now } => Ok(Outcome::Stale { seen, now }),
            KeptOutcome::Foreign => Ok(Outcome::Foreign),
            KeptOutcome::Nothing => Ok(Outcome::Nothing),
        }
    }
}

/// Returns the receipt for the entry with this number.
fn receipt(history: &History, number: u64) -> Result<Receipt, AllocError>
    requires { (1 ≤ number) × (number ≤ length history.now) }
    ensures number { IfOk result (λ r. r.number ≡ number) }
    ensures entry { IfOk result (λ r. entry_at history.now number ≡ Some r.entry) }
{
    let entry = history.at(number as usize - 1)?;
    Ok(Receipt { number, entry })
}

/// Appends the receipt of what was entered, if anything was.
fn append_receipt(receipts: &mut Vec<Receipt>, outcome: Outcome) -> Result<(), AllocError>
    ensures { OnOk result (receipts.new.items ≡ receipts.old.items ++ option_to_list (receipt_of outcome)) }
{
    if let Some(receipt) = outcome.into_receipt() {
        receipts.push(receipt)?;
    }
    Ok(())
}

/// Appends the receipts of what was entered by consecutive steps.
fn append_receipts(
    receipts: &mut Vec<Receipt>,
    series: &Series,
    history: &History,
) -> Result<(), AllocError>
    requires { AreNumbered (length history.now) (outcomes_of series.now) }
    ensures { OnOk result (receipts.new.items
        ≡ receipts.old.items ++ receipts_in (map (outcome_in history.now) (outcomes_of series.now))) }
{
    for place in 0..series.len() {
        append_receipt(receipts, series.at(place).outcome(history)?)?;
    }
    Ok(())
}

/// The outcomes of the steps, in order. To a contract it is their list.
#[derive(Drop)]
pub struct Outcomes<'a> {
    kept: &'a KeptOutcomes,
    history: &'a History,
}

impl<'a> Model for Outcomes<'a> {
    ghost use Rattle.std.specs.Prelude.{List, length, map};
    ghost use Rattle.gu_world.specs.Outcomes.{outcome_in, AreNumbered};
    ghost use Rattle.gu_world.specs.declared.outcome.Outcome.{Outcome as OutcomeOf};

    ghost Value = { List OutcomeOf };

    ghost view = { λ o. map (outcome_in o.history.now) o.kept.now.items };

    ghost invariant = { λ o. AreNumbered (length o.history.now) o.kept.now.items };
}

impl<'a> Outcomes<'a> {
    /// Returns these outcomes, with the entries of this history.
    pub(crate) fn new(kept: &'a KeptOutcomes, history: &'a History) -> Self
        requires { AreNumbered (length history.now) kept.now.items }
        ensures { result ≡ map (outcome_in history.now) kept.now.items }
    {
        Outcomes { kept, history }
    }

    /// Returns the number of outcomes, which is the number of steps taken.
    pub fn len(&self) -> usize
        ensures { result ≡ length self.now }
    {
        self.kept.len()
    }

    /// Returns the outcome of the step at an index, counted from 0.
    pub fn get(&self, place: usize) -> Result<Option<Outcome>, AllocError>
        ensures { IfOk result (λ outcome. outcome ≡ slice_get self.now place) }
    {
        match self.kept.get(place) {
            Some(kept) => Ok(Some(kept.outcome(self.history)?)),
            None => Ok(None),
        }
    }

    /// Returns the receipts of what was entered, in order.
    pub fn receipts(&self, alloc: Global) -> Result<Vec<Receipt>, AllocError>
        ensures { IfOk result (λ receipts. receipts.items ≡ receipts_in self.now) }
    {
        let mut receipts = Vec::with_capacity(alloc, self.len())?;
        for series in self.kept.list() {
            append_receipts(&mut receipts, series, self.history)?;
        }
        Ok(receipts)
    }

    /// Returns the outcome of the last step.
    pub fn last(&self) -> Result<Option<Outcome>, AllocError>
        ensures { IfOk result (λ outcome. outcome ≡ slice_get self.now (length self.now - 1)) }
    {
        match self.kept.last() {
            Some(kept) => Ok(Some(kept.outcome(self.history)?)),
            None => Ok(None),
        }
    }
}
