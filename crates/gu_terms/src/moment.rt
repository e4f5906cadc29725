//! Moments.

ghost use Rattle.std.specs.Prelude.{◌≡◌, ◌↔◌, IsSome, IfSome};
ghost use Rattle.gu_terms.specs.Numbers.{IsMoment};

use std::marker::Model;

/// The last millisecond of 9999.
const LAST_MOMENT: u64 = 253_402_300_799_999;

/// A moment in milliseconds since 1970-01-01 UTC, from 0 to the end of 9999. To a contract it is the number.
#[derive(Clone, Copy, Debug, PartialEq, Eq, PartialOrd, Ord, Hash)]
pub struct Moment {
    number: u64,
}

impl Model for Moment {
    ghost use Rattle.std.specs.Prelude.{ℕ};
    ghost use Rattle.gu_terms.specs.Numbers.{IsMoment};

    ghost Value = { ℕ };

    ghost view = { λ m. m.number };

    ghost invariant = { λ m. IsMoment m.number };

    ghost inverse = { λ n. record { number = n } };
}

impl Moment {
    /// Returns the moment with this number.
    pub fn new(number: u64) -> Option<Self>
        ensures sound { IsSome result ↔ IsMoment number }
        ensures same { IfSome result (λ m. m ≡ number) }
    {
        if number <= LAST_MOMENT {
            Some(Moment::known(number))
        } else {
            None
        }
    }

    /// Returns the moment with a number that is known to be valid.
    pub fn known(number: u64) -> Self
        requires { IsMoment number }
        ensures { result ≡ number }
    {
        Moment { number }
    }

    /// Returns the number.
    pub fn get(self) -> u64
        ensures number { result ≡ self }
        ensures sound { IsMoment self }
    {
        self.number
    }
}
