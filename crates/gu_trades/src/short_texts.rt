//! Comparison of short texts, several bytes at a time.

ghost use Rattle.std.specs.Prelude.{◌≡◌, ◌+◌, ◌≤◌, drop, length, take};
ghost use Rattle.std.specs.Int.{from_le_bytes, w32, w64};
ghost use Rattle.std.specs.Str.{bytes_eq};

/// Returns the four bytes at a position as one number.
fn four_at(text: &[u8], at: usize) -> u32
    requires { at + 4 ≤ length text.now }
    ensures { result ≡ from_le_bytes w32 (take 4 (drop at text.now)) }
{
    u32::from_le_bytes([text[at], text[at + 1], text[at + 2], text[at + 3]])
}

/// Returns the eight bytes at a position as one number.
fn eight_at(text: &[u8], at: usize) -> u64
    requires { at + 8 ≤ length text.now }
    ensures { result ≡ from_le_bytes w64 (take 8 (drop at text.now)) }
{
    u64::from_le_bytes([
        text[at],
        text[at + 1],
        text[at + 2],
        text[at + 3],
        text[at + 4],
        text[at + 5],
        text[at + 6],
        text[at + 7],
    ])
}

/// Returns whether two texts of the same length, 4 to 8, are equal: compares the first four bytes and the last four.
fn same_by_fours(left: &[u8], right: &[u8]) -> bool
    requires one { length left.now ≡ length right.now }
    requires some { 4 ≤ length left.now }
    requires few { length left.now ≤ 8 }
    ensures { result ≡ bytes_eq left.now right.now }
{
    let rest = left.len() - 4;
    four_at(left, 0) == four_at(right, 0) && four_at(left, rest) == four_at(right, rest)
}

/// Returns whether two texts of the same length, 8 to 16, are equal: compares the first eight bytes and the last eight.
fn same_by_eights(left: &[u8], right: &[u8]) -> bool
    requires one { length left.now ≡ length right.now }
    requires some { 8 ≤ length left.now }
    requires few { length left.now ≤ 16 }
    ensures { result ≡ bytes_eq left.now right.now }
{
    let rest = left.len() - 8;
    eight_at(left, 0) == eight_at(right, 0) && eight_at(left, rest) == eight_at(right, rest)
}

/// Returns whether two texts are equal. Most ids are short and need no loop.
#[inline(always)]
pub(crate) fn same_text(left: &[u8], right: &[u8]) -> bool
    ensures { result ≡ bytes_eq left.now right.now }
{
    if left.len() != right.len() {
        return false;
    }
    match left.len() {
        4..=7 => same_by_fours(left, right),
        8..=16 => same_by_eights(left, right),
        _ => left == right,
    }
}
