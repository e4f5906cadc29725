//! Lines of a text that is still arriving.

ghost use Rattle.std.specs.Prelude.{◌+◌, ◌<◌, ◌↔◌, length, MatchOption, IsTrue};
ghost use Rattle.gu_text.specs.LineFeeds.{HasNoLineFeed, IsParted, IsTooLong};
ghost use Rattle.gu_text.specs.Lines.{longest_line};

use crate::lines::{LONGEST_LINE, end_of_line};

/// Returns the bytes before the first LF, and those after it.
pub fn split_at_line_feed(bytes: &[u8]) -> Option<(&[u8], &[u8])>
    ensures { MatchOption result (HasNoLineFeed bytes.now) (λ parts. IsParted bytes.now parts.0.now parts.1.now) }
{
    match end_of_line(bytes) {
        Some(place) => Some((&bytes[..place], &bytes[place + 1..])),
        None => None,
    }
}

/// Returns whether an unfinished line that starts with these bytes is already longer than any valid line. (The byte after the longest line
/// may be the CR that is dropped.)
pub fn is_too_long(bytes: &[u8]) -> bool
    requires { HasNoLineFeed bytes.now }
    ensures exact { IsTrue result ↔ (longest_line + 1 < length bytes.now) }
    ensures long { IsTrue result → IsTooLong bytes.now }
{
    bytes.len() > LONGEST_LINE + 1
}

/// Returns whether `bytes` and `more` together are longer than the longest line and a CR.
pub(crate) fn goes_past_a_line(bytes: &[u8], more: &[u8]) -> bool
    ensures { IsTrue result ↔ (longest_line + 1 < length bytes.now + length more.now) }
{
    bytes.len() + more.len() > LONGEST_LINE + 1
}
