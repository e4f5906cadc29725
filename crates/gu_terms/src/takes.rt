//! The lots that a sweep takes from offers.

ghost use Rattle.std.specs.Prelude.{◌≡◌, ◌↔◌, [], nat_lt, IsTrue, IfOk, OnErr, if◌then◌else◌};
ghost use Rattle.gu_terms.specs.Takes.{IsAscending, IsNamed, IsPlace, with_take};

use crate::offer_no::OfferNo;
use std::alloc::{AllocError, Global};
use std::marker::Model;

/// The lots taken from an offer.
#[derive(Clone, Copy, Debug, PartialEq, Eq)]
pub struct Take {
    pub offer: OfferNo,
    pub lots: u64,
}

/// A list of takes in ascending order of offers, each named once. An offer not named takes 0. To a contract it is the list of the takes.
#[derive(Debug, Drop)]
pub struct Takes {
    list: Vec<Take>,
}

impl Model for Takes {
    ghost use Rattle.std.specs.Prelude.{List};
    ghost use Rattle.gu_terms.specs.declared.takes.Take.{Take};
    ghost use Rattle.gu_terms.specs.Takes.{IsAscending};

    ghost Value = { List Take };

    ghost view = { λ t. t.list.items };

    ghost invariant = { λ t. IsAscending t.list.items };
}

/// Returns whether a take is from an earlier offer.
fn is_earlier(take: &Take, offer: OfferNo) -> bool
    ensures { result ≡ nat_lt take.now.offer offer }
{
    take.offer < offer
}

/// Returns the number of takes from earlier offers.
fn place_of(takes: &[Take], offer: OfferNo) -> usize
    requires { IsAscending takes.now }
    ensures { IsPlace takes.now result offer }
{
    match takes {
        [.., last] if is_earlier(last, offer) => takes.len(),
        _ => takes.partition_point(move |take| is_earlier(take, offer)),
    }
}

/// Returns whether the take at an index is from this offer.
fn is_at(takes: &[Take], place: usize, offer: OfferNo) -> bool
    requires ascending { IsAscending takes.now }
    requires place { IsPlace takes.now place offer }
    ensures { IsTrue result ↔ IsNamed takes.now offer }
{
    place < takes.len() && takes[place].offer == offer
}

impl Takes {
    /// Returns an empty list of takes.
    pub fn new(alloc: Global) -> Self
        ensures { result ≡ [] }
    {
        Takes {
            list: Vec::new(alloc),
        }
    }

    /// Returns the takes in a list whose offers ascend.
    pub fn of(list: Vec<Take>) -> Self
        requires { IsAscending list.items }
        ensures { result ≡ list.items }
    {
        Takes { list }
    }

    /// Returns the takes, in ascending order of offers.
    pub fn as_slice(&self) -> &[Take]
        ensures takes { result.now ≡ self.now }
        ensures ascending { IsAscending self.now }
    {
        self.list.as_slice()
    }

    /// Adds a take in order, and returns whether it was new: an offer already named keeps its lots. Later takes are moved, so adding offers
    /// in ascending order costs least.
    pub fn add(&mut self, offer: OfferNo, lots: u64) -> Result<bool, AllocError>
        ensures added { IfOk result (λ added. IsTrue added ↔ (¬ IsNamed self.old offer)) }
        ensures takes { IfOk result (λ added.
            self.new ≡ (if added then with_take self.old (record { offer = offer; lots = lots }) else self.old)) }
        ensures refused { OnErr result (self.new ≡ self.old) }
    {
        let place = place_of(&self.list, offer);
        if is_at(&self.list, place, offer) {
            return Ok(false);
        }
        self.list.insert(place, Take { offer, lots })?;
        Ok(true)
    }

    /// Returns a copy.
    pub fn copy(&self) -> Result<Takes, AllocError>
        ensures { IfOk result (λ takes. takes ≡ self.now) }
    {
        let list = self.list.clone()?;
        Ok(Takes { list })
    }

    /// Returns whether two lists of takes are the same.
    pub fn is_same(&self, other: &Takes) -> bool
        ensures { IsTrue result ↔ (self.now ≡ other.now) }
    {
        self.as_slice() == other.as_slice()
    }
}
