//! The lots taken, by offer and by key.

ghost use Rattle.std.specs.Prelude.{◌≡◌, ℕ, false, ◌<◌, ◌≤◌, ◌^◌, AllPairs, All, IfNone, IfSome, None, find, length, map, nat_lt, slice_get, slice_index, sum, sum_by};
ghost use Rattle.gu_terms.specs.Takes.{IsAscending, lots_of};
ghost use Rattle.gu_view.specs.Check.{unknown_take, over_offer, over_limit, not_oldest_first};
ghost use Rattle.gu_view.specs.Takes.{lots_under};
ghost use Rattle.gu_view.specs.Marks.{split_of, AreLots, AreMarks};

use crate::error::{CutFault, Unknown};
use crate::view::{MOST_ROOMS, View, ViewOffer};
use gu_terms::{OfferNo, Take};

/// Returns the lots of the first take if it is from this offer, else 0, and the takes that remain.
fn split_first(takes: &[Take], offer: OfferNo) -> (u64, &[Take])
    ensures lots { result.0 ≡ (split_of takes.now offer).0 }
    ensures rest { result.1.now ≡ (split_of takes.now offer).1 }
{
    match takes {
        [take, rest @ ..] if take.offer == offer => (take.lots, rest),
        _ => (0, takes),
    }
}

/// Writes the lots taken from each offer, or returns the first take from an offer that the view lacks.
pub fn fill_lots(offers: &[ViewOffer], takes: &[Take], taken: &mut [u64]) -> Option<CutFault>
    requires offers { AllPairs (λ a b. a.number < b.number) offers.now }
    requires takes { IsAscending takes.now }
    requires size { length taken.old ≡ length offers.now }
    ensures unknown { result ≡ unknown_take offers.now takes.now }
    ensures lots { IfNone result (AreLots offers.now taken.new (lots_of takes.now)) }
{
    let mut rest = takes;
    for (place, offer) in offers.iter().enumerate() {
        let (lots, behind) = split_first(rest, offer.number);
        taken[place] = lots;
        rest = behind;
    }
    rest.first()
        .map(|take| CutFault::Unknown(Unknown::Offer(take.offer)))
}

/// Returns the first offer from which more is taken than it has.
pub fn over_offer(offers: &[ViewOffer], taken: &[u64]) -> Option<CutFault>
    requires { length taken.now ≡ length offers.now }
    ensures first { (lots : ℕ → ℕ) → AreLots offers.now taken.now lots → result ≡ over_offer offers.now lots }
    ensures within { IfNone result (sum taken.now ≤ sum_by (λ o. o.lots) offers.now) }
{
    for (place, offer) in offers.iter().enumerate() {
        if offer.lots < taken[place] {
            return Some(CutFault::OverOffer(offer.number));
        }
    }
    None
}

/// Returns the total lots taken from the offers at these indexes.
fn lots_at(places: &[u32], taken: &[u64]) -> u64
    requires within { All (λ place. place < length taken.now) places.now }
    requires fits { sum_by (λ place. slice_index taken.now place) places.now < 2 ^ 64 }
    ensures { result ≡ sum_by (λ place. slice_index taken.now place) places.now }
{
    places.iter().map(|place| taken[*place as usize]).sum()
}

/// Returns the lots taken under the key of the room at an index.
fn taken_under(view: &View, room: usize, taken: &[u64]) -> u64
    requires room { room < length view.now.rooms }
    requires size { length taken.now ≡ length view.now.offers }
    requires fits { sum taken.now < 2 ^ 64 }
    ensures { (lots : ℕ → ℕ)
        → AreLots view.now.offers taken.now lots
        → IfSome (slice_get view.now.rooms room) (λ r. result ≡ lots_under view.now.offers r.key lots) }
{
    lots_at(view.members(room), taken)
}

/// Returns the first key under which more is taken than its room.
pub fn over_limit(view: &View, taken: &[u64]) -> Option<CutFault>
    requires size { length taken.now ≡ length view.now.offers }
    requires fits { sum taken.now < 2 ^ 64 }
    ensures { (lots : ℕ → ℕ) → AreLots view.now.offers taken.now lots → result ≡ over_limit view.now.offers view.now.rooms lots }
{
    for (place, room) in view.rooms().iter().enumerate() {
        if room.lots < taken_under(view, place, taken) {
            return Some(CutFault::OverLimit(room.key));
        }
    }
    None
}

/// Returns the first offer that takes lots too early. Marks, at the index of its agreement's room, each offer that isn't full.
fn first_too_early(view: &View, taken: &[u64], short: &mut [bool]) -> Option<CutFault>
    requires size { length taken.now ≡ length view.now.offers }
    requires fresh { AreMarks view.now.rooms short.old (λ _. false) }
    ensures { (lots : ℕ → ℕ) → AreLots view.now.offers taken.now lots → result ≡ not_oldest_first view.now.offers lots }
{
    for (place, offer) in view.offers().iter().enumerate() {
        let agreement = view.agreement_place(place);
        if 0 < taken[place] && short[agreement] {
            return Some(CutFault::NotOldestFirst(offer.number));
        }
        if taken[place] < offer.lots {
            short[agreement] = true;
        }
    }
    None
}

/// Returns the first offer that takes lots while an older one under its agreement isn't full.
pub fn not_oldest_first(view: &View, taken: &[u64]) -> Option<CutFault>
    requires size { length taken.now ≡ length view.now.offers }
    ensures { (lots : ℕ → ℕ) → AreLots view.now.offers taken.now lots → result ≡ not_oldest_first view.now.offers lots }
{
    let mut short = [false; MOST_ROOMS];
    first_too_early(view, taken, &mut short[..view.rooms().len()])
}

/// Returns the total lots taken.
pub fn sum_of(taken: &[u64]) -> u64
    requires { sum taken.now < 2 ^ 64 }
    ensures { result ≡ sum taken.now }
{
    taken.iter().sum()
}
