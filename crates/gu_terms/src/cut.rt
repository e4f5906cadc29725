//! Cuts: the limits and offers that bound a sweep.

ghost use Rattle.std.specs.Prelude.{◌≡◌, ◌↔◌, [], not, IsTrue, IfOk, OnErr, if◌then◌else◌, ◌++◌, ◌∷◌};
ghost use Rattle.std.specs.List.{list_any, IsDistinct};
ghost use Rattle.gu_terms.specs.Cuts.{has_number};
ghost use Rattle.gu_terms.specs.LimitKeys.{has_key};

use crate::limit_key::LimitKey;
use crate::offer_no::OfferNo;
use crate::seed::Seed;
use indexmap::IndexSet;
use std::alloc::{AllocError, Global};
use std::marker::Model;

/// A set of limit keys and a set of offers, each in the order of insertion. To a contract it is these two lists.
pub struct Cut {
    keys: IndexSet<LimitKey, Seed>,
    offers: IndexSet<OfferNo, Seed>,
}

// By hand, so that a caller's exit drops it with one call.
impl Drop for Cut {
    fn drop(self) {
        let Cut { keys, offers } = self;
        drop(keys);
        drop(offers);
    }
}

impl Model for Cut {
    ghost use Rattle.gu_terms.specs.Cuts.{CutLists};

    ghost Value = { CutLists };

    ghost view = { λ c. record { keys = c.keys.keys; offers = c.offers.keys } };
}

/// Returns the set of these keys, in order.
fn set_of_keys(
    alloc: Global,
    seed: Seed,
    keys: &[LimitKey],
) -> Result<IndexSet<LimitKey, Seed>, AllocError>
    requires { IsDistinct ⟦<LimitKey as PartialEq>⟧.eq keys.now }
    ensures { IfOk result (λ set. set.keys ≡ keys.now) }
{
    let mut set = IndexSet::with_capacity_and_hasher(alloc, keys.len(), seed)?;
    for key in keys {
        set.insert_full(*key)?;
    }
    Ok(set)
}

/// Returns the set of these offers, in order.
fn set_of_offers(
    alloc: Global,
    seed: Seed,
    offers: &[OfferNo],
) -> Result<IndexSet<OfferNo, Seed>, AllocError>
    requires { IsDistinct ⟦<OfferNo as PartialEq>⟧.eq offers.now }
    ensures { IfOk result (λ set. set.keys ≡ offers.now) }
{
    let mut set = IndexSet::with_capacity_and_hasher(alloc, offers.len(), seed)?;
    for offer in offers {
        set.insert_full(*offer)?;
    }
    Ok(set)
}

impl Cut {
    /// Returns an empty cut.
    pub fn new(alloc: Global) -> Self
        ensures { result ≡ record { keys = []; offers = [] } }
    {
        let seed = Seed::new(0);
        Cut {
            keys: IndexSet::with_hasher(alloc, seed),
            offers: IndexSet::with_hasher(alloc, seed),
        }
    }

    /// Returns the cut of these keys and these offers, in order. `seed` is for the hashes of its members and affects no answer.
    pub fn of(
        alloc: Global,
        seed: Seed,
        keys: &[LimitKey],
        offers: &[OfferNo],
    ) -> Result<Self, AllocError>
        requires keys { IsDistinct ⟦<LimitKey as PartialEq>⟧.eq keys.now }
        requires offers { IsDistinct ⟦<OfferNo as PartialEq>⟧.eq offers.now }
        ensures { IfOk result (λ cut. cut ≡ record { keys = keys.now; offers = offers.now }) }
    {
        let keys = set_of_keys(alloc, seed, keys)?;
        let offers = set_of_offers(alloc, seed, offers)?;
        Ok(Cut { keys, offers })
    }

    /// Adds a key after the others, and returns whether it was new.
    pub fn add_key(&mut self, key: LimitKey) -> Result<bool, AllocError>
        ensures added { IfOk result (λ added. added ≡ not (has_key self.old.keys key)) }
        ensures keys { IfOk result (λ added. self.new.keys ≡ (if added then self.old.keys ++ key ∷ [] else self.old.keys)) }
        ensures offers { self.new.offers ≡ self.old.offers }
        ensures refused { OnErr result (self.new ≡ self.old) }
    {
        let (_, added) = self.keys.insert_full(key)?;
        Ok(added)
    }

    /// Adds an offer after the others, and returns whether it was new.
    pub fn add_offer(&mut self, offer: OfferNo) -> Result<bool, AllocError>
        ensures added { IfOk result (λ added. added ≡ not (has_number self.old.offers offer)) }
        ensures offers { IfOk result (λ added. self.new.offers ≡ (if added then self.old.offers ++ offer ∷ [] else self.old.offers)) }
        ensures keys { self.new.keys ≡ self.old.keys }
        ensures refused { OnErr result (self.new ≡ self.old) }
    {
        let (_, added) = self.offers.insert_full(offer)?;
        Ok(added)
    }

    /// Returns the offers, in order.
    pub fn offers(&self) -> &[OfferNo]
        ensures offers { result.now ≡ self.now.offers }
        ensures once { IsDistinct ⟦<OfferNo as PartialEq>⟧.eq result.now }
    {
        self.offers.as_slice()
    }

    /// Returns the keys, in order.
    pub fn keys(&self) -> &[LimitKey]
        ensures keys { result.now ≡ self.now.keys }
        ensures once { IsDistinct ⟦<LimitKey as PartialEq>⟧.eq result.now }
    {
        self.keys.as_slice()
    }

    /// Returns whether a key is in the cut.
    pub fn has_key(&self, key: LimitKey) -> bool
        ensures { result ≡ has_key self.now.keys key }
    {
        self.keys.contains(&key)
    }

    /// Returns a copy.
    pub fn copy(&self) -> Result<Cut, AllocError>
        ensures { IfOk result (λ cut. cut ≡ self.now) }
    {
        let keys = self.keys.clone()?;
        let offers = self.offers.clone()?;
        Ok(Cut { keys, offers })
    }

    /// Returns whether this is the cut of these keys and these offers, each inserted in this order.
    pub(crate) fn is_of(&self, keys: &[LimitKey], offers: &[OfferNo]) -> bool
        ensures { IsTrue result ↔ (self.now ≡ record { keys = keys.now; offers = offers.now }) }
    {
        self.keys() == keys && self.offers() == offers
    }

    /// Returns whether two cuts are the same, with the same order of insertion.
    pub fn is_same(&self, other: &Cut) -> bool
        ensures { IsTrue result ↔ (self.now ≡ other.now) }
    {
        self.is_of(other.keys(), other.offers())
    }

    /// Returns whether an offer is in the cut.
    pub fn has_offer(&self, offer: OfferNo) -> bool
        ensures { result ≡ has_number self.now.offers offer }
    {
        self.offers.contains(&offer)
    }
}
