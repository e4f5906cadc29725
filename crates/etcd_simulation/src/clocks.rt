//! The two clocks of a desk's machine.
use gu_lease::Moment;

/// The clocks of a machine. They run at a rate of their own, some parts in a thousand away from true time.
#[derive(Clone, Copy)]
pub struct Clocks {
    pub monotonic_ms: u64,
    pub system_ms: u64,
    /// How many milliseconds they go on in a second.
    pub rate: u64,
}

impl Clocks {
    /// Goes on with a machine that is awake.
    pub fn run(&mut self, ms: u64) {
        let passed = ms.saturating_mul(self.rate) / 1_000;
        self.monotonic_ms = self.monotonic_ms.saturating_add(passed);
        self.system_ms = self.system_ms.saturating_add(passed);
    }

    /// Resumes a machine that sleeps: its monotonic clock doesn't move.
    pub fn sleep(&mut self, ms: u64) {
        let passed = ms.saturating_mul(self.rate) / 1_000;
        self.system_ms = self.system_ms.saturating_add(passed);
    }

    /// Returns what the clocks say.
    pub fn moment(&self) -> Moment {
        Moment {
            monotonic_ms: self.monotonic_ms,
            system_ms: self.system_ms,
        }
    }
}
