//! The takes listed by the lines of a sheet.

ghost use Rattle.std.specs.Prelude.{◌≡◌, ◌++◌, ◌∷◌, [], not, map, nat_eq, IfOk, if◌then◌else◌};
ghost use Rattle.std.specs.List.{IsDistinct};
ghost use Rattle.gu_terms.specs.Cuts.{has_number};

use crate::offer_set::OfferSet;
use gu_terms::Take;
use std::alloc::{AllocError, Global};
use std::marker::Model;

/// Takes in the order of their lines, each from a different offer. To a contract it is their list.
#[derive(Drop)]
pub(crate) struct ListedTakes {
    list: Vec<Take>,
    /// The offers of the takes: a hash table would need three times the memory of the takes.
    offers: OfferSet,
}

impl Model for ListedTakes {
    ghost use Rattle.std.specs.Prelude.{List, map};
    ghost use Rattle.gu_terms.specs.declared.takes.Take.{Take};
    ghost use Rattle.gu_text.specs.OfferSets.{MarksOffers};

    ghost Value = { List Take };

    ghost view = { λ t. t.list.items };

    ghost invariant = { λ t. MarksOffers t.offers (map (λ s. s.offer) t.list.items) };
}

impl ListedTakes {
    #[tactic(auto, using(crate::proofs::OfferSetLemmas::marks_none))]
    /// Returns no takes.
    pub(crate) fn new(alloc: Global) -> Self
        ensures { result ≡ [] }
    {
        ListedTakes {
            list: Vec::new(alloc),
            offers: OfferSet::new(alloc),
        }
    }

    /// Adds a take, and returns whether its offer was new.
    pub(crate) fn add(&mut self, take: Take) -> Result<bool, AllocError>
        ensures new { IfOk result (λ new. new ≡ not (has_number (map (λ t. t.offer) self.old) take.offer)) }
        ensures added { IfOk result (λ new. self.new ≡ (if new then self.old ++ take ∷ [] else self.old)) }
    {
        let offer = take.offer;
        if self.offers.has(offer) {
            return Ok(false);
        }
        self.offers.make_room(offer)?;
        self.list.push(take)?;
        self.offers.add(offer);
        Ok(true)
    }

    /// Returns the takes without the set of their offers.
    pub(crate) fn into_list(self) -> Vec<Take>
        ensures takes { result.items ≡ self }
        ensures apart { IsDistinct nat_eq (map (λ t. t.offer) self) }
    {
        let ListedTakes { list, offers } = self;
        drop(offers);
        list
    }
}
