//! A clock of the tests' own.

ghost use Rattle.std.specs.Prelude.{Some};

use gu_engine::{Clock, ClockFault};
use gu_terms::Moment;

/// A clock that gives these moments, and then fails.
#[derive(Drop)]
pub struct Moments<'a> {
    left: &'a [Moment],
    has_failed: bool,
}

impl<'a> Moments<'a> {
    /// Returns a clock that gives these moments.
    pub fn new(left: &'a [Moment]) -> Self {
        Moments {
            left,
            has_failed: false,
        }
    }
}

impl Clock for Moments<'_> {
    ghost ahead = { λ clock. Some clock.left.now };

    ghost has_failed = { λ clock. clock.has_failed };

    fn now(&mut self) -> Result<Moment, ClockFault> {
        match self.left {
            [now, later @ ..] => {
                self.left = later;
                Ok(*now)
            }
            [] => {
                self.has_failed = true;
                Err(ClockFault)
            }
        }
    }
}
