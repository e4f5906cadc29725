//! Counts of a desk's work, for watchers.

use std::sync::atomic::{AtomicU64, Ordering};

/// The number of connections begun, ended, and ended by a fault, the entries that firms and sweepers made, and the lots swept. The counts
/// are only for watchers: nothing else reads them.
#[derive(Drop)]
pub struct Tally {
    begun: AtomicU64,
    ended: AtomicU64,
    failed: AtomicU64,
    entries: AtomicU64,
    lots: AtomicU64,
}

/// The counts at one moment.
#[derive(Clone, Copy, Debug, PartialEq, Eq)]
pub struct Counts {
    pub begun: u64,
    pub ended: u64,
    pub failed: u64,
    pub entries: u64,
    pub lots: u64,
}

impl Tally {
    /// Returns counts of 0.
    pub fn new() -> Self {
        Tally {
            begun: AtomicU64::new(0),
            ended: AtomicU64::new(0),
            failed: AtomicU64::new(0),
            entries: AtomicU64::new(0),
            lots: AtomicU64::new(0),
        }
    }

    /// Counts a connection that begins.
    pub fn begin(&self) {
        let _ = self.begun.fetch_add(1, Ordering::Relaxed);
    }

    /// Counts a connection that ends, by a fault or not.
    pub fn end(&self, has_failed: bool) {
        let _ = self.ended.fetch_add(1, Ordering::Relaxed);
        if has_failed {
            let _ = self.failed.fetch_add(1, Ordering::Relaxed);
        }
    }

    /// Counts one more entry.
    pub fn add_entry(&self) {
        let _ = self.entries.fetch_add(1, Ordering::Relaxed);
    }

    /// Counts one more committed sweep, with this many lots.
    pub fn add_sweep(&self, lots: u64) {
        self.add_entry();
        let _ = self.lots.fetch_add(lots, Ordering::Relaxed);
    }

    /// Returns the counts as they are now.
    pub fn counts(&self) -> Counts {
        Counts {
            begun: self.begun.load(Ordering::Relaxed),
            ended: self.ended.load(Ordering::Relaxed),
            failed: self.failed.load(Ordering::Relaxed),
            entries: self.entries.load(Ordering::Relaxed),
            lots: self.lots.load(Ordering::Relaxed),
        }
    }
}
