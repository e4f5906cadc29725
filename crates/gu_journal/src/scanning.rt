//! The end of a file's text, and the start of its trailing zeros.
ghost use Rattle.std.specs.Prelude.{◌≡◌, ◌≤◌, ◌↔◌, length, take, IsTrue};
ghost use Rattle.gu_journal.specs.Text.{HasNoZero, IsBatch, IsWholeLines, before_zero, text_of, used_length, whole_lines};

use crate::MAX_BATCH;
use memchr::memchr;

/// Returns the position of the first zero, or the length.
fn zero_at(bytes: &[u8]) -> usize
    ensures within { result ≤ length bytes.now }
    ensures before { take result bytes.now ≡ before_zero bytes.now }
{
    match memchr(0, bytes) {
        Some(place) => place,
        None => bytes.len(),
    }
}

/// Returns the position after the last line feed, or 0.
fn lines_end(text: &[u8]) -> usize
    ensures within { result ≤ length text.now }
    ensures lines { take result text.now ≡ whole_lines text.now }
{
    let mut end = text.len();
    'bytes: while end > 0 {
        if text[end - 1] == b'\n' {
            return end;
        }
        end -= 1;
    }
    0
}

/// Returns the end of the text of a file.
pub fn text_end(bytes: &[u8]) -> usize
    ensures within { result ≤ length bytes.now }
    ensures text { take result bytes.now ≡ text_of bytes.now }
{
    lines_end(&bytes[..zero_at(bytes)])
}

/// Returns the length without the zeros at the end.
pub fn used_len(bytes: &[u8]) -> usize
    ensures { result ≡ used_length bytes.now }
{
    let mut used = bytes.len();
    'bytes: while used > 0 {
        if bytes[used - 1] != 0 {
            return used;
        }
        used -= 1;
    }
    0
}

/// Returns whether no byte is 0.
fn has_no_zero(bytes: &[u8]) -> bool
    ensures { IsTrue result ↔ HasNoZero bytes.now }
{
    zero_at(bytes) == bytes.len()
}

/// Returns whether a text is empty or ends with a line feed.
fn ends_with_line(text: &[u8]) -> bool
    ensures { IsTrue result ↔ IsWholeLines text.now }
{
    match text {
        [] => true,
        [.., last] => *last == b'\n',
    }
}

/// Returns whether a sink may append these bytes.
pub fn is_batch(bytes: &[u8]) -> bool
    ensures { IsTrue result ↔ IsBatch bytes.now }
{
    bytes.len() <= MAX_BATCH && has_no_zero(bytes) && ends_with_line(bytes)
}
