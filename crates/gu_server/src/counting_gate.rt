//! The gate for one sweep, which counts its proposals.

use gu_desk::{Direct, Gate};
use gu_flow::Proposal;
use gu_view::View;
use std::alloc::{AllocError, Global};
use std::cell::Cell;

/// Proposes sweeps as the desk's own gate does, and counts them.
#[derive(Drop)]
pub struct CountingGate {
    tries: Cell<u64>,
}

impl CountingGate {
    /// Creates a gate that has proposed nothing yet.
    pub fn new() -> Self {
        CountingGate {
            tries: Cell::new(0),
        }
    }

    /// Returns how many sweeps it has proposed.
    pub fn tries(&self) -> u64 {
        self.tries.get()
    }
}

impl Gate for CountingGate {
    fn propose(&self, alloc: Global, view: View) -> Result<Proposal, (AllocError, View)> {
        self.tries.set(self.tries.get().saturating_add(1));
        Direct.propose(alloc, view)
    }
}
