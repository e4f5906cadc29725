//! Clocks.

ghost use Rattle.std.specs.Prelude.{◌≡◌, ◌∷◌, [], true, IfOk, IsErr, OnErr};
ghost use Rattle.std.specs.Io.KnownBytes.{Consumes, Keeps};

use gu_terms::Moment;
use std::rt;
use std::time::{SystemTime, UNIX_EPOCH};

/// A clock failed, or gave a time that isn't a moment.
#[derive(Clone, Copy, Debug, PartialEq, Eq)]
pub struct ClockFault;

/// A clock gives the moment.
pub trait Clock {
    ghost use Rattle.std.specs.Prelude.{Bool, List, Option, ℕ};

    /// The moments that it will give, one after another, if they are known.
    ghost ahead: { Self → Option (List ℕ) };

    /// Whether it failed.
    ghost has_failed: { Self → Bool };

    /// Returns the moment.
    fn now(&mut self) -> Result<Moment, ClockFault>
        ensures given { IfOk result (λ now. Consumes (ahead self.old) (ahead self.new) (now ∷ [])) }
        ensures kept { OnErr result (Keeps (ahead self.old) (ahead self.new)) }
        ensures failed { IsErr result → has_failed self.new ≡ true };
}

/// The system clock.
#[derive(Drop)]
pub struct SystemClock<'a, R> {
    rt: &'a R,
    has_failed: bool,
}

impl<'a, R: rt::Clock> SystemClock<'a, R> {
    /// Returns the clock of this runtime.
    pub fn new(rt: &'a R) -> Self {
        SystemClock {
            rt,
            has_failed: false,
        }
    }

    /// Returns the moment, if it is available.
    fn moment(&self) -> Option<Moment> {
        let time = SystemTime::now(self.rt).ok()?;
        let since = time.duration_since(UNIX_EPOCH).ok()?;
        Moment::new(u64::try_from(since.as_millis()).ok()?)
    }
}

impl<R: rt::Clock> Clock for SystemClock<'_, R> {
    ghost use Rattle.std.specs.Prelude.{None};

    ghost ahead = { λ _. None };

    ghost has_failed = { λ clock. clock.has_failed };

    fn now(&mut self) -> Result<Moment, ClockFault> {
        match self.moment() {
            Some(now) => Ok(now),
            None => {
                self.has_failed = true;
                Err(ClockFault)
            }
        }
    }
}
