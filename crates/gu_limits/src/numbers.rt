//! Limit numbers.

ghost use Rattle.std.specs.Prelude.{◌≡◌, replicate};

/// The most keys in a path.
const MOST_KEYS: usize = 5;

/// The limits of a path's keys, in the order of the path, by number: the first limit set is 1. A limit never set, and any place after the
/// last key, has 0. No limit is removed, so numbers stay valid.
#[derive(Clone, Copy, Debug)]
pub struct PathLimits {
    pub(crate) numbers: [usize; MOST_KEYS],
}

impl PathLimits {
    /// Returns the limits of a path without keys.
    pub fn none() -> Self
        ensures { result.numbers ≡ replicate 5 0 }
    {
        PathLimits {
            numbers: [0; MOST_KEYS],
        }
    }
}
