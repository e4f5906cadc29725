//! Prices as they are written.

ghost use Rattle.std.specs.Prelude.{◌≡◌, ◌≤◌, ◌<◌, ◌++◌, ◌/◌, ◌%◌, [], pos, codes, int_lt, length, if◌then◌else◌, unsigned_abs};
ghost use Rattle.std.specs.Fmt.{decimal};
ghost use Rattle.gu_terms.specs.NumberText.{MeansPrice};
ghost use Rattle.gu_terms.specs.Numbers.{IsPrice};
ghost use Rattle.gu_terms.specs.WrittenNumbers.{fraction_text, price_text};

use crate::digits::{six_digits, trimmed};
use crate::padded::Padded;
use crate::price::Price;
use itoa::Buffer;
use std::marker::Model;

/// The length of the longest price text, that of the lowest price.
const LONGEST_PRICE: usize = 17;

/// The millionths in a unit.
const UNIT: u64 = 1_000_000;

/// A price's text, stored in place. To a contract it is its bytes.
#[derive(Clone, Copy, Debug)]
pub struct PriceText {
    text: Padded<LONGEST_PRICE>,
}

impl Model for PriceText {
    ghost use Rattle.std.specs.Prelude.{ℕ, List};

    ghost Value = { List ℕ };

    ghost view = { λ it. it.text };

    ghost inverse = { λ text. record { text = text } };
}

impl PriceText {
    /// Returns its bytes.
    pub fn get(&self) -> &[u8]
        ensures { result.now ≡ self.now }
    {
        self.text.get()
    }
}

/// Returns the sign of a price's text: `-` if the price is negative, else nothing.
fn sign_text(price: Price) -> &'static [u8]
    ensures text { result.now ≡ (if int_lt price (pos 0) then codes "-" else []) }
    ensures short { length result.now ≤ 1 }
{
    if price.get() < 0 { b"-" } else { b"" }
}

/// Returns the absolute value of a price, in millionths.
fn size_of(price: Price) -> u64
    ensures size { result ≡ unsigned_abs price }
    ensures few { result ≤ 999999999999999 }
    ensures sound { IsPrice price }
{
    price.get().unsigned_abs()
}

/// Returns the start of a price's text: its sign and its whole part.
fn whole_text(price: Price, size: u64) -> Padded<LONGEST_PRICE>
    requires { size ≤ 999999999999999 }
    ensures text { result ≡ (if int_lt price (pos 0) then codes "-" else []) ++ decimal (size / 1000000) }
    ensures short { length result ≤ 10 }
{
    let mut digits = Buffer::new();
    let whole = digits.format(size / UNIT).as_bytes();
    Padded::new(sign_text(price)).with(whole)
}

/// Returns a text followed by a point and the millionths, or by nothing if they are 0.
fn with_fraction(text: Padded<LONGEST_PRICE>, millionths: u32) -> Padded<LONGEST_PRICE>
    requires few { millionths < 1000000 }
    requires short { length text ≤ 10 }
    ensures { result ≡ text ++ fraction_text millionths }
{
    if millionths == 0 {
        return text;
    }
    let digits = six_digits(millionths);
    text.with(b".").with(trimmed(&digits))
}

impl Price {
    /// Returns the price's text: `-` if it is negative, its whole part and, unless the fraction is 0, a point and the fraction without
    /// trailing zeros. Read back, it gives the same price.
    pub fn text(self) -> PriceText
        ensures text { result ≡ price_text self }
        ensures means { MeansPrice result self }
    {
        let size = size_of(self);
        let text = whole_text(self, size);
        PriceText {
            text: with_fraction(text, (size % UNIT) as u32),
        }
    }
}
