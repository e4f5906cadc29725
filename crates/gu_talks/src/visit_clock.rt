//! The clock of a connection in one visit.

ghost use Rattle.std.specs.Prelude.{◌≡◌};

use gu_engine::{Clock, ClockFault};
use gu_terms::Moment;

/// The clock of a connection in one visit: the moment of the visit, for a number of turns.
#[derive(Drop)]
pub struct VisitClock {
    moment: Moment,
    left: u32,
}

impl VisitClock {
    /// Creates the clock of a visit at a moment, for this many turns.
    pub fn new(moment: Moment, turns: u32) -> Self
        ensures moment { result.moment ≡ moment }
        ensures turns { result.left ≡ turns }
    {
        VisitClock {
            moment,
            left: turns,
        }
    }
}

impl Clock for VisitClock {
    ghost use Rattle.gu_talks.specs.Moments.{moments_left, is_used_up};

    ghost ahead = { λ clock. moments_left clock.left clock.moment };

    ghost has_failed = { λ clock. is_used_up clock.left };

    fn now(&mut self) -> Result<Moment, ClockFault> {
        let Some(left) = self.left.checked_sub(1) else {
            return Err(ClockFault);
        };
        self.left = left;
        Ok(self.moment)
    }
}
