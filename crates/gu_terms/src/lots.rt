//! Lots.

ghost use Rattle.std.specs.Prelude.{◌≡◌, ◌↔◌, ℕ, List, IsSome, IfSome, IfOk, IsErrOf, MatchOption};
ghost use Rattle.std.specs.Str.Parse.{AllDigits};
ghost use Rattle.gu_terms.specs.Numbers.{IsLots};
ghost use Rattle.gu_terms.specs.NumberText.{IsNumberText, IsTakenApart, MeansLots};

use crate::bounds::MOST_LOTS;
use crate::number_text::{NumberError, NumberText, is_zero, parts_of, short_number, value_of};
use std::marker::Model;

/// A number of lots: 1 to 1,000,000 whole contracts. To a contract it is the number.
#[derive(Clone, Copy, Debug, PartialEq, Eq, PartialOrd, Ord, Hash)]
pub struct Lots {
    number: u32,
}

impl Model for Lots {
    ghost use Rattle.std.specs.Prelude.{ℕ};
    ghost use Rattle.gu_terms.specs.Numbers.{IsLots};

    ghost Value = { ℕ };

    ghost view = { λ l. l.number };

    ghost invariant = { λ l. IsLots l.number };

    ghost inverse = { λ n. record { number = n } };
}

impl Lots {
    /// Returns this number of lots.
    pub fn new(number: u64) -> Option<Self>
        ensures sound { IsSome result ↔ IsLots number }
        ensures same { IfSome result (λ l. l ≡ number) }
    {
        if 1 <= number && number <= MOST_LOTS {
            Some(Lots {
                number: number as u32,
            })
        } else {
            None
        }
    }

    /// Returns the number.
    pub fn get(self) -> u64
        ensures number { result ≡ self }
        ensures sound { IsLots self }
    {
        u64::from(self.number)
    }
}

/// Returns the lots given by the parts of a number text.
fn lots_of(parts: NumberText<'_>) -> Option<Lots>
    requires whole { AllDigits 10 parts.whole.now }
    requires fraction { AllDigits 10 parts.fraction.now }
    ensures { (text : List ℕ) → IsTakenApart text parts.entry.is_negative parts.entry.whole.now parts.entry.fraction.now
        → MatchOption result ((n : ℕ) → MeansLots text n → ⊥) (λ lots. MeansLots text lots) }
{
    if parts.is_negative {
        return None;
    }
    if !is_zero(parts.fraction) {
        return None;
    }
    let Some(number) = value_of(parts.whole, MOST_LOTS) else {
        return None;
    };
    Lots::new(number)
}

/// Returns the lots given by a short number text without a fraction.
#[inline(always)]
fn short_lots(text: &[u8]) -> Option<Lots>
    ensures { IfSome result (MeansLots text.now) }
{
    let number = short_number(text)?;
    if number.places > 0 {
        return None;
    }
    Lots::new(number.digits)
}

/// Returns the lots given by a number text.
#[inline(always)]
pub fn read_lots(text: &[u8]) -> Result<Lots, NumberError>
    ensures lots { IfOk result (MeansLots text.now) }
    ensures bad_number { IsErrOf result NumberError.BadNumber ↔ (¬ IsNumberText text.now) }
    ensures out_of_range { IsErrOf result NumberError.OutOfRange ↔ (IsNumberText text.now × ((n : ℕ) → MeansLots text.now n → ⊥)) }
{
    // Most texts are short.
    match short_lots(text) {
        Some(lots) => Ok(lots),
        None => read_any_lots(text),
    }
}

/// Returns the lots given by a number text of any length.
#[inline(never)]
fn read_any_lots(text: &[u8]) -> Result<Lots, NumberError>
    ensures lots { IfOk result (MeansLots text.now) }
    ensures bad_number { IsErrOf result NumberError.BadNumber ↔ (¬ IsNumberText text.now) }
    ensures out_of_range { IsErrOf result NumberError.OutOfRange ↔ (IsNumberText text.now × ((n : ℕ) → MeansLots text.now n → ⊥)) }
{
    let Some(parts) = parts_of(text) else {
        return Err(NumberError::BadNumber);
    };
    match lots_of(parts) {
        Some(lots) => Ok(lots),
        None => Err(NumberError::OutOfRange),
    }
}
