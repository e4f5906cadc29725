//! A set of offers.

ghost use Rattle.std.specs.Prelude.{◌≡◌, ◌==◌, ◌||◌, ◌<◌, ◌/◌, ℕ, false, length, OnOk};
ghost use Rattle.gu_text.specs.OfferSets.{is_marked};

use gu_terms::OfferNo;
use std::alloc::{AllocError, Global};
use std::marker::Model;

/// A set of offers, one bit for each number up to the highest. To a contract it is the words of these bits.
#[derive(Drop)]
pub(crate) struct OfferSet {
    words: Vec<u64>,
}

impl Model for OfferSet {
    ghost use Rattle.std.specs.Prelude.{ℕ, List};

    ghost Value = { List ℕ };

    ghost view = { λ s. s.words.items };
}

impl OfferSet {
    /// Returns an empty set.
    pub(crate) fn new(alloc: Global) -> Self
        ensures { (offer : ℕ) → is_marked result offer ≡ false }
    {
        OfferSet {
            words: Vec::new(alloc),
        }
    }

    /// Returns whether an offer is in the set.
    pub(crate) fn has(&self, offer: OfferNo) -> bool
        ensures { result ≡ is_marked self.now offer }
    {
        let number = offer.get();
        match self.words.get(number as usize / 64) {
            Some(word) => *word >> number % 64 & 1 == 1,
            None => false,
        }
    }

    /// Makes room for an offer.
    pub(crate) fn make_room(&mut self, offer: OfferNo) -> Result<(), AllocError>
        ensures same { (other : ℕ) → is_marked self.new other ≡ is_marked self.old other }
        ensures room { OnOk result (offer / 64 < length self.new) }
    {
        let place = offer.get() as usize / 64;
        if self.words.len() <= place {
            self.words.resize(place + 1, 0)?;
        }
        Ok(())
    }

    /// Adds an offer for which there is room.
    pub(crate) fn add(&mut self, offer: OfferNo)
        requires { offer / 64 < length self.old }
        ensures { (other : ℕ) → is_marked self.new other ≡ (other == offer || is_marked self.old other) }
    {
        let number = offer.get();
        self.words[number as usize / 64] |= 1 << number % 64;
    }
}
