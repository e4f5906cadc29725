//! Parsing of number texts.

ghost use Rattle.std.specs.Prelude.{◌≡◌, ◌↔◌, ◌≤◌, ◌<◌, ◌+◌, ◌-◌, ◌^◌, ◌==◌, length, take, IsTrue, IfSome, MatchOption};
ghost use Rattle.std.specs.List.{before_first, after_first, position, position_or_len};
ghost use Rattle.std.specs.Str.Parse.{AllDigits, digits_value, digits_value_after};
ghost use Rattle.gu_terms.specs.NumberText.{unsigned_text, HasDigits, IsNumberText, IsTakenApart};

use std::alloc::Global;
use thiserror::Error;

/// The reason that a text isn't a value of its type.
#[derive(Debug, Drop, Clone, Copy, PartialEq, Eq, Error)]
pub enum NumberError {
    /// The text isn't in the format.
    #[error("BadNumber")]
    BadNumber,
    /// The text is in the format, but the value is out of range.
    #[error("OutOfRange")]
    OutOfRange,
}

/// A number text split into its sign and the digits before and after its point.
#[derive(Clone, Copy)]
pub(crate) struct NumberText<'a> {
    pub(crate) is_negative: bool,
    pub(crate) whole: &'a [u8],
    pub(crate) fraction: &'a [u8],
}

/// Returns whether the bytes are all digits; true if there are none.
pub fn are_digits(bytes: &[u8]) -> bool
    ensures { IsTrue result ↔ AllDigits 10 bytes.now }
{
    for byte in bytes {
        if !byte.is_ascii_digit() {
            return false;
        }
    }
    true
}

/// Returns the text without its sign.
fn unsigned(text: &[u8]) -> &[u8]
    ensures { result.now ≡ unsigned_text text.now }
{
    match text {
        [b'-', rest @ ..] => rest,
        _ => text,
    }
}

/// Returns the value of digits, if it is at most `most`.
pub fn value_of(digits: &[u8], most: u64) -> Option<u64>
    requires digits { AllDigits 10 digits.now }
    requires most { most ≤ 1000000000000000 }
    ensures { MatchOption result (most < digits_value 10 digits.now) (λ n. (n ≡ digits_value 10 digits.now) × (n ≤ most)) }
{
    let mut value = 0;
    for digit in digits {
        value = 10 * value + u64::from(*digit - b'0');
        if value > most {
            return None;
        }
    }
    Some(value)
}

/// Returns whether all the digits are zeros.
pub(crate) fn is_zero(digits: &[u8]) -> bool
    requires { AllDigits 10 digits.now }
    ensures { IsTrue result ↔ (digits_value 10 digits.now ≡ 0) }
{
    match value_of(digits, 0) {
        Some(_) => true,
        None => false,
    }
}

/// The most bytes in a short number text.
const SHORT: usize = 12;

/// The digits of an unsigned number text.
#[derive(Clone, Copy)]
pub(crate) struct ShortNumber {
    /// The digits before and after the point, as one number.
    pub(crate) digits: u64,
    /// The number of digits after the point.
    pub(crate) places: usize,
}

/// Returns a number followed by the leading digits of a text, and the number of those digits.
#[inline(always)]
fn with_digits(number: u64, text: &[u8]) -> (u64, usize)
    requires { (length text.now ≤ 12) × (number < 10 ^ (12 - length text.now)) }
    ensures count { result.1 ≤ length text.now }
    ensures digits { AllDigits 10 (take result.1 text.now) }
    ensures number { result.0 ≡ digits_value_after 10 number (take result.1 text.now) }
    ensures few { result.0 < 10 ^ (12 - length text.now + result.1) }
{
    let mut longer = number;
    for place in 0..text.len() {
        let byte = text[place];
        if !byte.is_ascii_digit() {
            return (longer, place);
        }
        longer = 10 * longer + u64::from(byte - b'0');
    }
    (longer, text.len())
}

/// Returns the digits of a number text that is short and starts with a digit, as most do, or None for any other text. It reads each byte
/// once.
#[inline(always)]
pub(crate) fn short_number(text: &[u8]) -> Option<ShortNumber>
    ensures digits { IfSome result (λ number. HasDigits text.now number.digits number.places) }
    ensures few { IfSome result (λ number. number.digits < 1000000000000) }
{
    if text.len() > SHORT {
        return None;
    }
    let (whole, place) = with_digits(0, text);
    if place == 0 {
        return None;
    }
    if place == text.len() {
        return Some(ShortNumber {
            digits: whole,
            places: 0,
        });
    }
    if text[place] != b'.' {
        return None;
    }
    let fraction = &text[place + 1..];
    let (digits, places) = with_digits(whole, fraction);
    if places < fraction.len() {
        return None;
    }
    Some(ShortNumber { digits, places })
}

/// Returns the parts of the text, if it is a number text.
pub(crate) fn parts_of(text: &[u8]) -> Option<NumberText<'_>>
    ensures { MatchOption result (¬ IsNumberText text.now)
        (λ parts. IsTakenApart text.now parts.is_negative parts.whole.now parts.fraction.now) }
{
    let unsigned = unsigned(text);
    let (whole, fraction) = parted(unsigned);
    if !are_digits(whole) || !are_digits(fraction) || whole.is_empty() && fraction.is_empty() {
        return None;
    }
    Some(NumberText {
        is_negative: text.len() != unsigned.len(),
        whole,
        fraction,
    })
}

/// Returns what is before the point, and what is after it.
fn parted(text: &[u8]) -> (&[u8], &[u8])
    ensures before { result.0.now ≡ before_first (λ b. b == 46) text.now }
    ensures after { result.1.now ≡ after_first (λ b. b == 46) text.now }
{
    let point = point_of(text);
    if point < text.len() {
        (&text[..point], &text[point + 1..])
    } else {
        (text, &[])
    }
}

fn find_point(text: &[u8]) -> Option<usize>
    ensures { result ≡ position (λ b. b == 46) text.now }
{
    text.iter().position(|byte| *byte == b'.')
}

/// Returns the position of the first point, or the end.
fn point_of(text: &[u8]) -> usize
    ensures place { result ≡ position_or_len (λ b. b == 46) text.now }
    ensures within { result ≤ length text.now }
{
    find_point(text).unwrap_or(text.len())
}
