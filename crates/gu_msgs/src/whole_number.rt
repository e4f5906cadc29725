//! Whole numbers as messages write them.

ghost use Rattle.std.specs.Prelude.{◌≡◌, ◌+◌, ◌-◌, ◌*◌, ◌^◌, ◌≤◌, ◌<◌, IfSome, IsTrue, MatchOption};
ghost use Rattle.std.specs.Str.Parse.{AllDigits, digits_value};
ghost use Rattle.gu_msgs.specs.Kinds.{IsNumber};
ghost use Rattle.gu_msgs.specs.Values.{is_numeral};

use gu_terms::are_digits;

/// Returns whether a text consists of digits, at least one.
pub fn is_numeral(text: &[u8]) -> bool
    ensures { result ≡ is_numeral text.now }
{
    !text.is_empty() && are_digits(text)
}

/// Returns the number followed by one more digit.
fn with_digit(number: u64, digit: u8) -> Option<u64>
    requires { 48 ≤ digit }
    ensures { MatchOption result (2 ^ 64 ≤ 10 * number + (digit - 48)) (λ n. n ≡ 10 * number + (digit - 48)) }
{
    match number.checked_mul(10) {
        Some(tens) => tens.checked_add(u64::from(digit - b'0')),
        None => None,
    }
}

/// Returns the value of a numeral, if it fits in 64 bits.
pub fn number_of(text: &[u8]) -> Option<u64>
    requires { IsTrue (is_numeral text.now) }
    ensures { MatchOption result (2 ^ 64 ≤ digits_value 10 text.now) (λ n. n ≡ digits_value 10 text.now) }
{
    let mut number = 0;
    for digit in text {
        match with_digit(number, *digit) {
            Some(longer) => number = longer,
            None => return None,
        }
    }
    Some(number)
}

/// The most digits in a short number.
const FEW: usize = 9;

/// Returns the value of a short numeral, or None if the text isn't one.
pub fn short_number(text: &[u8]) -> Option<u64>
    ensures { IfSome result (IsNumber text.now) }
{
    if text.is_empty() || text.len() > FEW {
        return None;
    }
    let mut number: u64 = 0;
    for byte in text {
        if !byte.is_ascii_digit() {
            return None;
        }
        number = 10 * number + u64::from(*byte - b'0');
    }
    Some(number)
}
