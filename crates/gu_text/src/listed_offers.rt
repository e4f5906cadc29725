//! The offers that the lines of a sheet list in its cut.

ghost use Rattle.std.specs.Prelude.{◌≡◌, ◌++◌, ◌∷◌, [], not, nat_eq, IfOk, if◌then◌else◌};
ghost use Rattle.std.specs.List.{IsDistinct};
ghost use Rattle.gu_terms.specs.Cuts.{has_number};

use crate::offer_set::OfferSet;
use gu_terms::OfferNo;
use std::alloc::{AllocError, Global};
use std::marker::Model;

/// Offers in the order of their lines, each once. To a contract it is their list.
#[derive(Drop)]
pub(crate) struct ListedOffers {
    list: Vec<OfferNo>,
    /// The offers in the list: a hash table would need four times the memory of the list.
    marks: OfferSet,
}

impl Model for ListedOffers {
    ghost use Rattle.std.specs.Prelude.{ℕ, List};
    ghost use Rattle.gu_text.specs.OfferSets.{MarksOffers};

    ghost Value = { List ℕ };

    ghost view = { λ o. o.list.items };

    ghost invariant = { λ o. MarksOffers o.marks o.list.items };
}

impl ListedOffers {
    #[tactic(auto, using(crate::proofs::OfferSetLemmas::marks_none))]
    /// Returns no offers.
    pub(crate) fn new(alloc: Global) -> Self
        ensures { result ≡ [] }
    {
        ListedOffers {
            list: Vec::new(alloc),
            marks: OfferSet::new(alloc),
        }
    }

    /// Adds an offer, and returns whether it was new.
    pub(crate) fn add(&mut self, offer: OfferNo) -> Result<bool, AllocError>
        ensures new { IfOk result (λ new. new ≡ not (has_number self.old offer)) }
        ensures added { IfOk result (λ new. self.new ≡ (if new then self.old ++ offer ∷ [] else self.old)) }
    {
        if self.marks.has(offer) {
            return Ok(false);
        }
        self.marks.make_room(offer)?;
        self.list.push(offer)?;
        self.marks.add(offer);
        Ok(true)
    }

    /// Returns the offers without their marks.
    pub(crate) fn into_list(self) -> Vec<OfferNo>
        ensures offers { result.items ≡ self }
        ensures apart { IsDistinct nat_eq self }
    {
        let ListedOffers { list, marks } = self;
        drop(marks);
        list
    }
}
