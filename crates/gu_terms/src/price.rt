//! Prices.

ghost use Rattle.std.specs.Prelude.{◌≡◌, ◌↔◌, ◌<◌, ◌≤◌, ◌^◌, ℕ, ℤ, pos, neg_ℤ, if◌then◌else◌, List, IsSome, IfSome, IfOk, IsErrOf, MatchOption};
ghost use Rattle.std.specs.Str.Parse.{AllDigits};
ghost use Rattle.gu_terms.specs.Numbers.{IsPrice};
ghost use Rattle.gu_terms.specs.NumberText.{CountsMillionths, IsNumberText, IsTakenApart, MeansPrice};

use crate::number_text::{NumberError, NumberText, is_zero, parts_of, short_number, value_of};
use std::marker::Model;

/// The largest price in millionths, of either sign.
const MOST_MILLIONTHS: i64 = 999_999_999_999_999;

/// The number of decimal places in a price.
const PLACES: usize = 6;

/// The largest whole part of a price.
const MOST_UNITS: u64 = 999_999_999;

/// A price in millionths: -999,999,999.999999 to 999,999,999.999999. To a contract it is the number.
#[derive(Clone, Copy, Debug, PartialEq, Eq, PartialOrd, Ord, Hash)]
pub struct Price {
    number: i64,
}

impl Model for Price {
    ghost use Rattle.std.specs.Prelude.{ℤ};
    ghost use Rattle.gu_terms.specs.Numbers.{IsPrice};

    ghost Value = { ℤ };

    ghost view = { λ p. p.number };

    ghost invariant = { λ p. IsPrice p.number };

    ghost inverse = { λ n. record { number = n } };
}

impl Price {
    /// Returns the price with this number of millionths.
    pub fn new(number: i64) -> Option<Self>
        ensures sound { IsSome result ↔ IsPrice number }
        ensures same { IfSome result (λ p. p ≡ number) }
    {
        if -MOST_MILLIONTHS <= number && number <= MOST_MILLIONTHS {
            Some(Price { number })
        } else {
            None
        }
    }

    /// Returns the number.
    pub fn get(self) -> i64
        ensures number { result ≡ self }
        ensures sound { IsPrice self }
    {
        self.number
    }
}

/// Returns ten to a power of at most six, from a table.
fn power_of_ten(power: usize) -> u64
    requires { power ≤ 6 }
    ensures { result ≡ 10 ^ power }
{
    match power {
        0 => 1,
        1 => 10,
        2 => 100,
        3 => 1_000,
        4 => 10_000,
        5 => 100_000,
        _ => 1_000_000,
    }
}

/// Returns the millionths given by the digits after a point, if they are a whole number.
fn millionths_of(fraction: &[u8]) -> Option<u64>
    requires { AllDigits 10 fraction.now }
    ensures { MatchOption result ((n : ℕ) → CountsMillionths fraction.now n → ⊥) (λ n. (n < 1000000) × CountsMillionths fraction.now n) }
{
    let count = fraction.len().min(PLACES);
    if !is_zero(&fraction[count..]) {
        return None;
    }
    let Some(value) = value_of(&fraction[..count], 1_000_000) else {
        return None;
    };
    Some(value * power_of_ten(PLACES - count))
}

/// Returns the price given by the parts of a number text.
fn price_of(parts: NumberText<'_>) -> Option<Price>
    requires whole { AllDigits 10 parts.whole.now }
    requires fraction { AllDigits 10 parts.fraction.now }
    ensures { (text : List ℕ) → IsTakenApart text parts.entry.is_negative parts.entry.whole.now parts.entry.fraction.now
        → MatchOption result ((z : ℤ) → MeansPrice text z → ⊥) (λ price. MeansPrice text price) }
{
    let Some(millionths) = millionths_of(parts.fraction) else {
        return None;
    };
    let Some(units) = value_of(parts.whole, MOST_UNITS) else {
        return None;
    };
    let number = signed(units * 1_000_000 + millionths, parts.is_negative);
    Some(Price { number })
}

/// Returns this number of millionths, negated if `is_negative`.
fn signed(size: u64, is_negative: bool) -> i64
    requires { size ≤ 999999999999999 }
    ensures { result ≡ (if is_negative then neg_ℤ (pos size) else pos size) }
{
    if is_negative {
        -(size as i64)
    } else {
        size as i64
    }
}

/// Returns the price given by a short number text.
#[inline(always)]
fn short_price(text: &[u8]) -> Option<Price>
    ensures { IfSome result (MeansPrice text.now) }
{
    let number = short_number(text)?;
    if number.places > PLACES {
        return None;
    }
    Price::new((number.digits * power_of_ten(PLACES - number.places)) as i64)
}

/// Returns the price given by a number text.
#[inline(always)]
pub fn read_price(text: &[u8]) -> Result<Price, NumberError>
    ensures price { IfOk result (MeansPrice text.now) }
    ensures bad_number { IsErrOf result NumberError.BadNumber ↔ (¬ IsNumberText text.now) }
    ensures out_of_range { IsErrOf result NumberError.OutOfRange ↔ (IsNumberText text.now × ((z : ℤ) → MeansPrice text.now z → ⊥)) }
{
    // Most texts are short.
    match short_price(text) {
        Some(price) => Ok(price),
        None => read_any_price(text),
    }
}

/// Returns the price given by a number text of any length.
#[inline(never)]
fn read_any_price(text: &[u8]) -> Result<Price, NumberError>
    ensures price { IfOk result (MeansPrice text.now) }
    ensures bad_number { IsErrOf result NumberError.BadNumber ↔ (¬ IsNumberText text.now) }
    ensures out_of_range { IsErrOf result NumberError.OutOfRange ↔ (IsNumberText text.now × ((z : ℤ) → MeansPrice text.now z → ⊥)) }
{
    let Some(parts) = parts_of(text) else {
        return Err(NumberError::BadNumber);
    };
    match price_of(parts) {
        Some(price) => Ok(price),
        None => Err(NumberError::OutOfRange),
    }
}
