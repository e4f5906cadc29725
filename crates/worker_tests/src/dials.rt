//! The two clocks of a lease, which a test sets.

use gu_lease::{BothClocks, Gate, Lease, Moment};
use std::cell::Cell;

/// The two clocks of a lease, which a test sets.
#[derive(Drop)]
pub struct Dials {
    now: Cell<Option<Moment>>,
}

/// The moment at which a lease of the tests was asked for.
const BEGUN: Moment = Moment {
    monotonic_ms: 10_000,
    system_ms: 50_000,
};

impl Dials {
    /// Sets both clocks, in milliseconds since the lease was asked for.
    pub fn set(&self, monotonic_ms: usize, system_ms: usize) {
        self.now.set(Some(Moment {
            monotonic_ms: BEGUN.monotonic_ms.saturating_add(monotonic_ms as u64),
            system_ms: BEGUN.system_ms.saturating_add(system_ms as u64),
        }));
    }

    /// Has the clocks fail.
    pub fn fail(&self) {
        self.now.set(None);
    }
}

impl BothClocks for Dials {
    fn now(&self) -> Option<Moment> {
        self.now.get()
    }
}

/// Returns the gate of a lease of 3 s with a margin of 500 ms, whose clocks stand still until a test sets them.
pub fn gate() -> Gate<Dials> {
    let dials = Dials {
        now: Cell::new(Some(BEGUN)),
    };
    Gate::of_lease(dials, Lease::new(BEGUN, 3_000, 500))
}
