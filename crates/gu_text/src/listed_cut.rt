//! The cut listed by the lines of a sheet.

ghost use Rattle.std.specs.Prelude.{◌≡◌, ◌++◌, ◌∷◌, [], not, IfOk, if◌then◌else◌};
ghost use Rattle.gu_terms.specs.Cuts.{has_number};
ghost use Rattle.gu_terms.specs.LimitKeys.{has_key};

use crate::listed_key::ListedKey;
use crate::listed_offers::ListedOffers;
use gu_terms::{Cut, LimitKey, OfferNo, Seed};
use indexmap::IndexSet;
use std::alloc::{AllocError, Global};
use std::marker::Model;

/// Keys and offers in the order of their lines, each once. To a contract it is these two lists.
#[derive(Drop)]
pub(crate) struct ListedCut {
    keys: IndexSet<ListedKey, Seed>,
    offers: ListedOffers,
    seed: Seed,
}

impl Model for ListedCut {
    ghost use Rattle.gu_terms.specs.Cuts.{CutLists};

    ghost Value = { CutLists };

    ghost view = { λ c. record { keys = c.keys.keys; offers = c.offers } };
}

/// Returns the keys of a set, in order.
fn keys_in(alloc: Global, set: &IndexSet<ListedKey, Seed>) -> Result<Vec<LimitKey>, AllocError>
    ensures { IfOk result (λ keys. keys.items ≡ set.now.keys) }
{
    let mut keys = Vec::with_capacity(alloc, set.len())?;
    for listed in set.as_slice() {
        keys.push(listed.key)?;
    }
    Ok(keys)
}

impl ListedCut {
    /// Returns an empty cut. The seed is for the hashes of its keys.
    pub(crate) fn new(alloc: Global, seed: Seed) -> Self
        ensures { result ≡ record { keys = []; offers = [] } }
    {
        ListedCut {
            keys: IndexSet::with_hasher(alloc, seed),
            offers: ListedOffers::new(alloc),
            seed,
        }
    }

    /// Adds a key, and returns whether it was new.
    pub(crate) fn add_key(&mut self, key: LimitKey) -> Result<bool, AllocError>
        ensures new { IfOk result (λ new. new ≡ not (has_key self.old.keys key)) }
        ensures keys { IfOk result (λ new. self.new.keys ≡ (if new then self.old.keys ++ key ∷ [] else self.old.keys)) }
        ensures offers { self.new.offers ≡ self.old.offers }
    {
        let (_, new) = self.keys.insert_full(ListedKey { key })?;
        Ok(new)
    }

    /// Adds an offer, and returns whether it was new.
    pub(crate) fn add_offer(&mut self, offer: OfferNo) -> Result<bool, AllocError>
        ensures new { IfOk result (λ new. new ≡ not (has_number self.old.offers offer)) }
        ensures offers { IfOk result (λ new. self.new.offers ≡ (if new then self.old.offers ++ offer ∷ [] else self.old.offers)) }
        ensures keys { self.new.keys ≡ self.old.keys }
    {
        self.offers.add(offer)
    }

    /// Returns the cut. Its tables are made after those used for reading are freed.
    pub(crate) fn into_cut(self, alloc: Global) -> Result<Cut, AllocError>
        ensures { IfOk result (λ cut. cut ≡ self) }
    {
        let ListedCut {
            keys: set,
            offers,
            seed,
        } = self;
        let keys = keys_in(alloc, &set)?;
        drop(set);
        let offers = offers.into_list();
        Cut::of(alloc, seed, &keys, &offers)
    }
}
