//! How long to wait for a writer that accepts nothing.

use crate::log::EventLog;
use std::io::ErrorKind;
use std::rt::Clock;
use std::time::Duration;
use std::{io, thread};

/// The length of one wait, in milliseconds.
const WAIT_MS: u64 = 20;

/// The most waits once nothing more is noted: one second in all.
const MOST_WAITS: u32 = 50;

/// Waits for a writer that accepts nothing: as long as the day goes on, and one second after it ends.
#[derive(Drop)]
pub(crate) struct Patience {
    waits_left: u32,
}

impl Patience {
    /// Creates one that hasn't waited yet.
    pub(crate) fn new() -> Self {
        Patience {
            waits_left: MOST_WAITS,
        }
    }

    /// Waits after an error that may pass. Returns whether to try again.
    pub(crate) fn waits<R: Clock>(&mut self, rt: &R, log: &EventLog, error: &io::Error) -> bool {
        if !matches!(error.kind(), ErrorKind::WouldBlock | ErrorKind::Interrupted) {
            return false;
        }
        if log.has_ended() {
            if self.waits_left == 0 {
                return false;
            }
            self.waits_left -= 1;
        }
        thread::sleep(rt, Duration::from_millis(WAIT_MS));
        true
    }
}
