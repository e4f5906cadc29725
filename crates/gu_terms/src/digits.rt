//! Decimal digits of numbers.

ghost use Rattle.std.specs.Prelude.{◌≡◌, ◌<◌, ◌≤◌, [], ◌++◌, length};
ghost use Rattle.gu_terms.specs.WrittenNumbers.{six_digits, trimmed_digits, two_digits};

/// Returns a number below 100 as two digits.
pub fn two_digits(number: u8) -> [u8; 2]
    requires { number < 100 }
    ensures { result ≡ two_digits number }
{
    [b'0' + number / 10, b'0' + number % 10]
}

/// Returns a number below 1,000,000 as six digits.
pub(crate) fn six_digits(number: u32) -> [u8; 6]
    requires { number < 1000000 }
    ensures { result ≡ six_digits number }
{
    let mut digits = [b'0'; 6];
    digits[..2].copy_from_slice(&two_digits((number / 10_000) as u8));
    digits[2..4].copy_from_slice(&two_digits((number / 100 % 100) as u8));
    digits[4..].copy_from_slice(&two_digits((number % 100) as u8));
    digits
}

/// Returns the digits without trailing zeros.
pub(crate) fn trimmed(digits: &[u8]) -> &[u8]
    ensures digits { result.now ≡ trimmed_digits digits.now }
    ensures no_more { length result.now ≤ length digits.now }
{
    let mut end = digits.len();
    while end > 0 {
        if digits[end - 1] != b'0' {
            return &digits[..end];
        }
        end -= 1;
    }
    &[]
}
