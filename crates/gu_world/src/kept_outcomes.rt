//! The outcomes of a world, as stored.

ghost use Rattle.std.specs.Prelude.{◌≡◌, ◌-◌, ◌++◌, ◌∷◌, [], ◌<◌, ◌≤◌, length, slice_get, slice_set, vec_capacity, vec_len, IfSome, OnOk};
ghost use Rattle.gu_world.specs.Series.{all_outcomes, IsShort};

use crate::outcomes::KeptOutcome;
use crate::series::Series;
use std::alloc::{AllocError, Global};
use std::marker::Model;

/// The outcomes of steps. Those of commands entered one after the other share one element. To a contract it is their list, and how many
/// more fit.
pub(crate) struct KeptOutcomes {
    list: Vec<Series>,
    count: usize,
}

impl Model for KeptOutcomes {
    ghost use Rattle.gu_world.specs.Series.{Keeping};

    ghost Value = { Keeping };

    ghost use Rattle.std.specs.Prelude.{◌≡◌, ◌-◌, ◌^◌, length, min, vec_capacity, vec_len};
    ghost use Rattle.gu_world.specs.Series.{all_outcomes};

    ghost view = { λ k. record {
      items = all_outcomes k.list.items;
      room = min (vec_capacity k.list - vec_len k.list) (2 ^ 64 - 1 - k.count);
    } };

    ghost invariant = { λ k. k.count ≡ length (all_outcomes k.list.items) };
}

// By hand, so that their owner drops them with one call.
impl Drop for KeptOutcomes {
    fn drop(self) {
        let KeptOutcomes { list, count: _ } = self;
        drop(list);
    }
}

#[tactic(auto, using(crate::proofs::SeriesLemmas::last_extended))]
/// Returns the last series extended by one outcome, if that is of the command entered next.
fn extended_last(list: &[Series], kept: KeptOutcome) -> Option<Series>
    ensures some { IfSome result (λ longer. 1 ≤ length list.now) }
    ensures longer { IfSome result (λ longer. all_outcomes (slice_set list.now (length list.now - 1) longer)
        ≡ all_outcomes list.now ++ kept ∷ []) }
{
    match list.last() {
        Some(last) => last.extended(kept),
        None => None,
    }
}

/// Adds an outcome after the others. There is room for it.
fn add(list: &mut Vec<Series>, kept: KeptOutcome)
    requires room { vec_len list.old < vec_capacity list.old }
    requires short { IsShort kept }
    ensures { all_outcomes list.new.items ≡ all_outcomes list.old.items ++ kept ∷ [] }
{
    if let Some(longer) = extended_last(list, kept) {
        let last = list.len() - 1;
        list[last] = longer;
    } else {
        list.push_reserved(Series::of(kept));
    }
}

#[tactic(auto, using(crate::proofs::SeriesLemmas::place_here, crate::proofs::SeriesLemmas::place_past))]
/// Returns the outcome at an index among those of all series, counted from 0.
fn outcome_at(list: &[Series], place: usize) -> Option<KeptOutcome>
    ensures { result ≡ slice_get (all_outcomes list.now) place }
{
    let mut left = place;
    for series in list {
        if left < series.len() {
            return Some(series.at(left));
        }
        left -= series.len();
    }
    None
}

#[tactic(auto, using(crate::proofs::SeriesLemmas::last_is))]
/// Returns the last outcome of the last series.
fn last_outcome(list: &[Series]) -> Option<KeptOutcome>
    ensures { result ≡ slice_get (all_outcomes list.now) (length (all_outcomes list.now) - 1) }
{
    match list.last() {
        Some(last) => Some(last.at(last.len() - 1)),
        None => None,
    }
}

impl KeptOutcomes {
    /// Returns an empty list.
    pub(crate) fn new(alloc: Global) -> Self
        ensures { result.items ≡ [] }
    {
        KeptOutcomes {
            list: Vec::new(alloc),
            count: 0,
        }
    }

    /// Returns the number of outcomes.
    pub(crate) fn len(&self) -> usize
        ensures { result ≡ length self.now.items }
    {
        self.count
    }

    /// Returns the series, in order.
    pub(crate) fn list(&self) -> &[Series]
        ensures { all_outcomes result.now ≡ self.now.items }
    {
        &self.list
    }

    /// Returns the outcome at an index, counted from 0.
    pub(crate) fn get(&self, place: usize) -> Option<KeptOutcome>
        ensures { result ≡ slice_get self.now.items place }
    {
        outcome_at(&self.list, place)
    }

    /// Returns the last outcome.
    pub(crate) fn last(&self) -> Option<KeptOutcome>
        ensures { result ≡ slice_get self.now.items (length self.now.items - 1) }
    {
        last_outcome(&self.list)
    }

    /// Makes room for one more.
    pub(crate) fn reserve(&mut self) -> Result<(), AllocError>
        ensures same { self.new.items ≡ self.old.items }
        ensures room { OnOk result (1 ≤ self.new.room) }
    {
        if self.count == usize::MAX {
            return Err(AllocError);
        }
        self.list.reserve(1)
    }

    /// Adds an outcome after the others. There is room for it.
    pub(crate) fn push(&mut self, kept: KeptOutcome)
        requires room { 1 ≤ self.old.room }
        requires short { IsShort kept }
        ensures { self.new.items ≡ self.old.items ++ kept ∷ [] }
    {
        add(&mut self.list, kept);
        self.count += 1;
    }
}
