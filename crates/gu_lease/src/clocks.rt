//! The two clocks of this machine.

use crate::moment::Moment;
use std::rt::Clock;
use std::time::{Instant, SystemTime, UNIX_EPOCH};

/// A monotonic clock and the system's.
pub trait BothClocks {
    /// Returns the moment by both clocks, unless one fails.
    fn now(&self) -> Option<Moment>;
}

/// The two clocks of this machine. The monotonic one counts from the moment at which this was made.
#[derive(Drop)]
pub struct Clocks<'a, R> {
    rt: &'a R,
    begun: Instant,
}

impl<'a, R: Clock> Clocks<'a, R> {
    /// Returns the clocks of a runtime, unless its monotonic clock fails.
    pub fn new(rt: &'a R) -> Option<Self> {
        let begun = Instant::now(rt).ok()?;
        Some(Clocks { rt, begun })
    }
}

impl<R: Clock> BothClocks for Clocks<'_, R> {
    /// The system's clock fails before 1970, too.
    fn now(&self) -> Option<Moment> {
        let monotonic = self.begun.elapsed(self.rt).ok()?;
        let system = SystemTime::now(self.rt)
            .ok()?
            .duration_since(UNIX_EPOCH)
            .ok()?;
        Some(Moment {
            monotonic_ms: u64::try_from(monotonic.as_millis()).ok()?,
            system_ms: u64::try_from(system.as_millis()).ok()?,
        })
    }
}
