//! The checker of takes and cuts.

ghost use Rattle.std.specs.Prelude.{◌≡◌, ℕ, false, ◌<◌, ◌≤◌, ◌^◌, ◌==◌, ◌↔◌, AllPairs, All, IfNone, OnOk, length, position, slice_index_or, sum_by, if◌then◌else◌};
ghost use Rattle.std.specs.List.{AllWithin, list_any, zip};
ghost use Rattle.gu_terms.specs.Cuts.{CutLists, has_number};
ghost use Rattle.gu_terms.specs.LimitKeys.{has_key};
ghost use Rattle.gu_terms.specs.Takes.{lots_of};
ghost use Rattle.gu_view.specs.Check.{unknown_key, unknown_offer, uncovered, verdict, verdict_of_known, IsRight};
ghost use Rattle.gu_view.specs.Marks.{AreMarks, IsMarked};
ghost use Rattle.gu_view.specs.Takes.{IsGreatest};
ghost use Rattle.gu_view.specs.View.{IsView};

use crate::error::{CutFault, Unknown};
use crate::takes::{fill_lots, not_oldest_first, over_limit, over_offer, sum_of};
use crate::view::{MOST_ROOMS, Room, View, ViewOffer};
use gu_terms::{Cut, LimitKey, MOST_OPEN_OFFERS, OfferNo, Takes};

/// Marks the rooms of these keys, or returns the first key that has no room.
fn mark_keys(view: &View, keys: &[LimitKey], marks: &mut [bool]) -> Option<CutFault>
    requires { AreMarks view.now.rooms marks.old (λ _. false) }
    ensures unknown { result ≡ unknown_key view.now.rooms keys.now }
    ensures marks { IfNone result (AreMarks view.now.rooms marks.new (λ r. has_key keys.now r.key)) }
{
    for key in keys {
        let Some(place) = view.place(*key) else {
            return Some(CutFault::Unknown(Unknown::Key(*key)));
        };
        marks[place] = true;
    }
    None
}

/// Returns the number of offers with a smaller number.
fn smaller(offers: &[ViewOffer], number: OfferNo) -> usize
    requires { AllPairs (λ a b. a.number < b.number) offers.now }
    ensures before { AllWithin (λ o. o.number < number) offers.now 0 result }
    ensures behind { AllWithin (λ o. number ≤ o.number) offers.now result (length offers.now) }
{
    offers.partition_point(|offer| offer.number < number)
}

/// Returns the index of the offer with this number.
pub fn offer_place(offers: &[ViewOffer], number: OfferNo) -> Option<usize>
    requires { AllPairs (λ a b. a.number < b.number) offers.now }
    ensures { result ≡ position (λ o. o.number == number) offers.now }
{
    let place = smaller(offers, number);
    if place < offers.len() && offers[place].number == number {
        Some(place)
    } else {
        None
    }
}

/// Marks the offers with these numbers, or returns the first number that no offer has.
fn mark_offers(offers: &[ViewOffer], numbers: &[OfferNo], marks: &mut [bool]) -> Option<CutFault>
    requires ascending { AllPairs (λ a b. a.number < b.number) offers.now }
    requires fresh { AreMarks offers.now marks.old (λ _. false) }
    ensures unknown { result ≡ unknown_offer offers.now numbers.now }
    ensures marks { IfNone result (AreMarks offers.now marks.new (λ o. has_number numbers.now o.number)) }
{
    for number in numbers {
        let Some(place) = offer_place(offers, *number) else {
            return Some(CutFault::Unknown(Unknown::Offer(*number)));
        };
        marks[place] = true;
    }
    None
}

/// Returns whether any of these indexes is marked.
fn is_marked(places: &[u32], marks: &[bool]) -> bool
    requires { All (λ place. place < length marks.now) places.now }
    ensures { result ≡ list_any (λ place. slice_index_or marks.now place false) places.now }
{
    places.iter().any(|place| marks[*place as usize])
}

/// Returns the first offer that neither is in the cut nor has a key in it.
fn first_uncovered(view: &View, keys: &[bool], numbers: &[bool]) -> Option<CutFault>
    requires keys { length keys.now ≡ length view.now.rooms }
    requires numbers { length numbers.now ≡ length view.now.offers }
    ensures { (cut : CutLists)
        → AreMarks view.now.rooms keys.now (λ r. has_key cut.keys r.key)
        → AreMarks view.now.offers numbers.now (λ o. has_number cut.offers o.number)
        → result ≡ uncovered view.now.offers cut }
{
    for (place, offer) in view.offers().iter().enumerate() {
        if !numbers[place] && !is_marked(view.places(place), keys) {
            return Some(CutFault::Uncovered(offer.number));
        }
    }
    None
}

/// Returns the lots that a limit adds to the room of a cut: its room if its key is cut, else 0.
fn room_of_limit(room: &Room, is_cut: bool) -> u64
    ensures { result ≡ (if is_cut then room.now.lots else 0) }
{
    if is_cut { room.lots } else { 0 }
}

/// Returns the total lots of the marked rooms.
fn room_in_keys(rooms: &[Room], marks: &[bool]) -> u64
    requires { sum_by (λ p. if p.1 then p.0.lots else 0) (zip rooms.now marks.now) < 2 ^ 64 }
    ensures { result ≡ sum_by (λ p. if p.1 then p.0.lots else 0) (zip rooms.now marks.now) }
{
    rooms
        .iter()
        .zip(marks)
        .map(|(room, marked)| room_of_limit(room, *marked))
        .sum()
}

/// Returns the total lots of the marked offers.
fn room_in_offers(offers: &[ViewOffer], marks: &[bool]) -> u64
    requires { sum_by (λ p. if p.1 then p.0.lots else 0) (zip offers.now marks.now) < 2 ^ 64 }
    ensures { result ≡ sum_by (λ p. if p.1 then p.0.lots else 0) (zip offers.now marks.now) }
{
    offers
        .iter()
        .zip(marks)
        .map(|(offer, marked)| if *marked { offer.lots } else { 0 })
        .sum()
}

/// Returns the first fault of these lots by offer and of the marked keys and offers, which are all in the view, or else the lots taken.
fn check_marked(
    view: &View,
    taken: &[u64],
    keys: &[bool],
    numbers: &[bool],
) -> Result<u64, CutFault>
    requires taken { length taken.now ≡ length view.now.offers }
    requires keys { length keys.now ≡ length view.now.rooms }
    requires numbers { length numbers.now ≡ length view.now.offers }
    ensures { (lots : ℕ → ℕ) (cut : CutLists)
        → IsMarked view.now taken.now keys.now numbers.now lots cut
        → result ≡ verdict_of_known view.now lots cut }
{
    if let Some(fault) = over_offer(view.offers(), taken) {
        return Err(fault);
    }
    if let Some(fault) = over_limit(view, taken) {
        return Err(fault);
    }
    if let Some(fault) = not_oldest_first(view, taken) {
        return Err(fault);
    }
    if let Some(fault) = first_uncovered(view, keys, numbers) {
        return Err(fault);
    }
    let lots = sum_of(taken);
    if lots == room_in_keys(view.rooms(), keys) + room_in_offers(view.offers(), numbers) {
        Ok(lots)
    } else {
        Err(CutFault::RoomDiffers)
    }
}

/// Returns the first fault of takes and a cut, or else the lots taken.
fn answer(view: &View, takes: &Takes, cut: &Cut) -> Result<u64, CutFault>
    ensures verdict { result ≡ verdict view.now takes.now cut.now }
    ensures sound { IsView view.now }
{
    let offers = view.offers();
    let mut taken = [0; MOST_OPEN_OFFERS];
    let taken = &mut taken[..offers.len()];
    if let Some(fault) = fill_lots(offers, takes.as_slice(), taken) {
        return Err(fault);
    }
    let mut keys = [false; MOST_ROOMS];
    let keys = &mut keys[..view.rooms().len()];
    if let Some(fault) = mark_keys(view, cut.keys(), keys) {
        return Err(fault);
    }
    let mut numbers = [false; MOST_OPEN_OFFERS];
    let numbers = &mut numbers[..offers.len()];
    if let Some(fault) = mark_offers(offers, cut.offers(), numbers) {
        return Err(fault);
    }
    check_marked(view, taken, keys, numbers)
}

/// Returns the total lots of the takes, or the first fault of the takes or the cut. It allocates nothing.
pub fn check(view: &View, takes: &Takes, cut: &Cut) -> Result<u64, CutFault>
    ensures verdict { result ≡ verdict view.now takes.now cut.now }
    ensures exact { (lots : ℕ) → (result ≡ Ok lots) ↔ IsRight view.now takes.now cut.now lots }
    ensures certified { OnOk result (IsGreatest view.now (lots_of takes.now)) }
{
    answer(view, takes, cut)
}
