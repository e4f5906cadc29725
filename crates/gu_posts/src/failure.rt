//! Why a worker couldn't go on.

use std::sync::atomic::{AtomicBool, Ordering};

/// Why a worker couldn't go on.
#[derive(Clone, Copy, Debug, PartialEq, Eq)]
pub enum Failure {
    /// An allocation failed.
    Memory,
    /// Its clock failed.
    Clock,
    /// Its poller failed.
    Poller,
}

/// Which failures have come.
#[derive(Drop)]
pub struct Failures {
    memory: AtomicBool,
    clock: AtomicBool,
    poller: AtomicBool,
}

impl Failures {
    /// Creates those of workers that go on.
    pub fn none() -> Self {
        Failures {
            memory: AtomicBool::new(false),
            clock: AtomicBool::new(false),
            poller: AtomicBool::new(false),
        }
    }

    /// Notes one.
    pub fn note(&self, failure: Failure) {
        let flag = match failure {
            Failure::Memory => &self.memory,
            Failure::Clock => &self.clock,
            Failure::Poller => &self.poller,
        };
        flag.store(true, Ordering::SeqCst);
    }

    /// Returns a failure, if there is any; if there are several, the clock's comes first, then the poller's.
    pub fn any(&self) -> Option<Failure> {
        if self.clock.load(Ordering::SeqCst) {
            Some(Failure::Clock)
        } else if self.poller.load(Ordering::SeqCst) {
            Some(Failure::Poller)
        } else if self.memory.load(Ordering::SeqCst) {
            Some(Failure::Memory)
        } else {
            None
        }
    }
}
