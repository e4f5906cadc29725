//! Offer numbers.

ghost use Rattle.std.specs.Prelude.{◌≡◌, ◌↔◌, IsSome, IfSome};
ghost use Rattle.gu_terms.specs.Numbers.{IsOfferNo};

use crate::bounds::MOST_OFFERS;
use std::marker::Model;

/// The number of an offer in the whole book: 1 to 16,000,000. To a contract it is the number.
#[derive(Clone, Copy, Debug, PartialEq, Eq, PartialOrd, Ord, Hash)]
pub struct OfferNo {
    number: u32,
}

impl Model for OfferNo {
    ghost use Rattle.std.specs.Prelude.{ℕ};
    ghost use Rattle.gu_terms.specs.Numbers.{IsOfferNo};

    ghost Value = { ℕ };

    ghost view = { λ o. o.number };

    ghost invariant = { λ o. IsOfferNo o.number };

    ghost inverse = { λ n. record { number = n } };
}

impl OfferNo {
    /// Returns the offer number with this value.
    pub fn new(number: u64) -> Option<Self>
        ensures sound { IsSome result ↔ IsOfferNo number }
        ensures same { IfSome result (λ o. o ≡ number) }
    {
        if 1 <= number && number <= MOST_OFFERS {
            Some(OfferNo::known(number))
        } else {
            None
        }
    }

    /// Returns the offer number with a value that is known to be valid.
    pub fn known(number: u64) -> Self
        requires { IsOfferNo number }
        ensures { result ≡ number }
    {
        OfferNo {
            number: number as u32,
        }
    }

    /// Returns the number.
    pub fn get(self) -> u64
        ensures number { result ≡ self }
        ensures sound { IsOfferNo self }
    {
        u64::from(self.number)
    }
}
