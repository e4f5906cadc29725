//! A machine of the tests' own: its clock says what a test sets, and nothing is slept there.

use std::io;
use std::io::{Error, ErrorKind};
use std::rt::Clock;
use std::sync::Wait;
use std::sync::atomic::{AtomicBool, AtomicU64, Ordering};
use std::time::Duration;

/// A machine on which a sleep takes no time, and is counted. Its other clock grows by a minute at each look, so that nothing is waited for.
#[derive(Drop)]
pub struct Machine<'a, R> {
    rt: &'a R,
    minutes: AtomicU64,
    /// The milliseconds since 1970.
    pub now: AtomicU64,
    /// Whether its clock fails.
    pub fails: AtomicBool,
    /// How often the clock was looked at.
    pub looks: AtomicU64,
    /// How many milliseconds were slept.
    pub slept: AtomicU64,
}

impl<'a, R> Machine<'a, R> {
    /// Returns a machine, two milliseconds and a second after nine on 2026-01-05.
    pub fn new(rt: &'a R) -> Self {
        Machine {
            rt,
            minutes: AtomicU64::new(0),
            now: AtomicU64::new(1_767_603_602_001),
            fails: AtomicBool::new(false),
            looks: AtomicU64::new(0),
            slept: AtomicU64::new(0),
        }
    }

    /// Returns how many milliseconds were slept.
    pub fn slept(&self) -> u64 {
        self.slept.load(Ordering::SeqCst)
    }

    /// Returns the runtime under it.
    pub fn under(&self) -> &'a R {
        self.rt
    }
}

impl<R: Wait> Wait for Machine<'_, R> {}

impl<R> Clock for Machine<'_, R> {
    fn monotonic(&self) -> io::Result<Duration> {
        let minutes = self.minutes.fetch_add(1, Ordering::SeqCst);
        Ok(Duration::from_secs(minutes.saturating_mul(60).min(1_000_000_000)))
    }

    fn since_1970(&self) -> io::Result<Duration> {
        let _ = self.looks.fetch_add(1, Ordering::SeqCst);
        if self.fails.load(Ordering::SeqCst) {
            return Err(Error::from(ErrorKind::Unsupported));
        }
        Ok(Duration::from_millis(self.now.load(Ordering::SeqCst)))
    }

    fn sleep(&self, duration: Duration) {
        let ms = u64::try_from(duration.as_millis()).unwrap_or(u64::MAX);
        let _ = self.slept.fetch_add(ms, Ordering::SeqCst);
    }
}
