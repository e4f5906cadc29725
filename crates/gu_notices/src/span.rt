//! Spans of entries to walk over.

ghost use Rattle.std.specs.Prelude.{◌≡◌, ◌+◌, ◌-◌, ◌≤◌, max, min};

/// The most entries that a batch of notices covers, and the number of notices at which it stops: it covers no further entry once it has
/// this many.
pub const LONGEST_STRETCH: usize = 1_024;

/// A span of entries to walk over, by index from 0.
#[derive(Clone, Copy, Debug)]
pub struct Span {
    pub start: usize,
    /// The index after the last one.
    pub end: usize,
    /// The walk continues to a further entry as long as it has no more notices than this.
    pub most: usize,
    ghost ordered: { start ≤ end },
}

impl Span {
    /// Returns the entries from a number on, out of `len`. The first entry has number 1.
    pub fn rest(len: usize, from: u64) -> Self
        ensures start { result.start ≡ max 1 from - 1 }
        ensures end { result.end ≡ max result.start len }
        ensures most { result.most ≡ usize.MAX }
    {
        let start = from.max(1) as usize - 1;
        Span {
            start,
            end: len.max(start),
            most: usize::MAX,
        }
    }

    /// Returns those of them that a batch may cover.
    pub fn stretch(len: usize, from: u64) -> Self
        ensures start { result.start ≡ max 1 from - 1 }
        ensures end { result.end ≡ max result.start (min (result.start + 1024) len) }
        ensures most { result.most ≡ 1023 }
    {
        let rest = Span::rest(len, from);
        let longest = rest.start.saturating_add(LONGEST_STRETCH);
        Span {
            start: rest.start,
            end: rest.end.min(longest),
            most: LONGEST_STRETCH - 1,
        }
    }
}
