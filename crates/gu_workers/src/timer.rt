//! The time of a round.

use gu_engine::{Clock, ClockFault, SystemClock};
use gu_terms::Moment;
use std::rt;
use std::time::Instant;

/// The time at which a round of a worker visits connections.
#[derive(Clone, Copy, Debug)]
pub struct Now {
    /// The moment by the machine's clock, which sessions use.
    pub moment: Moment,
    /// The milliseconds since the timer began, which deadlines use. They never decrease.
    pub ms: u64,
}

/// A source of the time.
pub trait Timer {
    /// Returns the current time.
    fn now(&mut self) -> Result<Now, ClockFault>;
}

/// The time of the machine.
#[derive(Drop)]
pub struct MachineTimer<'a, R> {
    rt: &'a R,
    since: Instant,
}

impl<'a, R: rt::Clock> MachineTimer<'a, R> {
    /// Creates a timer that begins now.
    pub fn new(rt: &'a R) -> Result<Self, ClockFault> {
        match Instant::now(rt) {
            Ok(since) => Ok(MachineTimer { rt, since }),
            Err(_) => Err(ClockFault),
        }
    }
}

impl<R: rt::Clock> Timer for MachineTimer<'_, R> {
    fn now(&mut self) -> Result<Now, ClockFault> {
        let Ok(elapsed) = self.since.elapsed(self.rt) else {
            return Err(ClockFault);
        };
        let Ok(ms) = u64::try_from(elapsed.as_millis()) else {
            return Err(ClockFault);
        };
        let moment = SystemClock::new(self.rt).now()?;
        Ok(Now { moment, ms })
    }
}
