//! A clock that a test sets, and a bell that counts.

use gu_engine::ClockFault;
use gu_posts::Bell;
use gu_terms::Moment;
use gu_workers::{Now, Timer};
use std::cell::Cell;
use std::time::Duration;

/// Nine on 2026-01-05.
pub const NINE: u64 = 1_767_603_600_000;

/// The time that a test sets.
#[derive(Drop)]
pub struct Hands {
    /// The milliseconds since nine.
    ms: Cell<u64>,
    /// Whether the clock fails.
    pub has_failed: Cell<bool>,
}

impl Hands {
    /// Nine.
    pub fn new() -> Self {
        Hands {
            ms: Cell::new(0),
            has_failed: Cell::new(false),
        }
    }

    /// Sets the time.
    pub fn set(&self, moment: Moment) {
        self.ms.set(moment.get().saturating_sub(NINE));
    }

    /// Lets time pass.
    pub fn forward(&self, time: Duration) {
        let ms = u64::try_from(time.as_millis()).unwrap_or(0);
        self.ms.set(self.ms.get().saturating_add(ms));
    }
}

/// The clock of a worker.
#[derive(Drop)]
pub struct Watch<'a> {
    hands: &'a Hands,
}

impl<'a> Watch<'a> {
    /// Returns the clock that shows this time.
    pub fn new(hands: &'a Hands) -> Self {
        Watch { hands }
    }
}

impl Timer for Watch<'_> {
    fn now(&mut self) -> Result<Now, ClockFault> {
        let ms = self.hands.ms.get();
        if self.hands.has_failed.get() {
            return Err(ClockFault);
        }
        match Moment::new(NINE.saturating_add(ms)) {
            Some(moment) => Ok(Now { moment, ms }),
            None => Err(ClockFault),
        }
    }
}

/// A bell that counts how often it is rung.
#[derive(Drop)]
pub struct Ring {
    count: Cell<u64>,
    /// Whether it was rung since its worker waited last.
    is_rung: Cell<bool>,
}

impl Ring {
    /// Returns one that nobody rang.
    pub fn new() -> Self {
        Ring {
            count: Cell::new(0),
            is_rung: Cell::new(false),
        }
    }

    /// Returns whether it was rung since its worker waited last, which waits now.
    pub fn wakes(&self) -> bool {
        self.is_rung.replace(false)
    }

    /// Returns how often it was rung since it was asked last.
    pub fn take(&self) -> u64 {
        self.count.replace(0)
    }
}

impl Bell for Ring {
    fn ring(&self) {
        self.count.set(self.count.get().saturating_add(1));
        self.is_rung.set(true);
    }
}
