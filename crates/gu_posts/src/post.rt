//! What a worker shares with other threads.

use crate::bell::Bell;
use crate::connection_row::ConnectionRow;
use std::alloc::{AllocError, Global};
use std::sync::atomic::{AtomicBool, AtomicU64, Ordering};

/// What a worker shares with other threads.
#[derive(Drop)]
pub struct Post<B> {
    bell: B,
    /// The places of firms that have news, one bit each.
    told: AtomicU64,
    /// Whether any of its connections has been cut.
    has_cuts: AtomicBool,
    /// Whether it holds answers back until more entries are kept.
    holds_back: AtomicBool,
    /// Whether it waits, or is about to.
    is_asleep: AtomicBool,
    /// How many connections it has, with those that are on their way to it.
    connections: AtomicU64,
    rows: Vec<ConnectionRow>,
}

impl<B> Post<B> {
    /// Creates that of a worker with this many places, which are free.
    pub fn new(alloc: Global, bell: B, places: usize) -> Result<Self, AllocError>
    where
        B: Drop,
    {
        let mut rows = Vec::with_capacity(alloc, places)?;
        for _place in 0..places {
            rows.push(ConnectionRow::new())?;
        }
        Ok(Post {
            bell,
            told: AtomicU64::new(0),
            has_cuts: AtomicBool::new(false),
            holds_back: AtomicBool::new(false),
            is_asleep: AtomicBool::new(false),
            connections: AtomicU64::new(0),
            rows,
        })
    }

    /// Returns its bell.
    pub fn bell(&self) -> &B {
        &self.bell
    }

    /// Returns the status of its connections, by place.
    pub fn rows(&self) -> &[ConnectionRow] {
        &self.rows
    }

    /// Returns how many connections it has.
    pub fn connections(&self) -> u64 {
        self.connections.load(Ordering::SeqCst)
    }

    /// Counts a connection that is on its way to it.
    pub fn add_connection(&self) {
        let _ = self.connections.fetch_add(1, Ordering::SeqCst);
    }

    /// Counts one connection less.
    pub fn remove_connection(&self) {
        let _ = self.connections.fetch_sub(1, Ordering::SeqCst);
    }

    /// Notes whether the worker holds answers back until more entries are kept.
    pub fn set_holds_back(&self, holds_back: bool) {
        self.holds_back.store(holds_back, Ordering::SeqCst);
    }

    /// Notes that the worker is about to wait.
    pub fn fall_asleep(&self) {
        self.is_asleep.store(true, Ordering::SeqCst);
    }

    /// Notes that the worker has waited.
    pub fn wake_up(&self) {
        self.is_asleep.store(false, Ordering::SeqCst);
    }

    /// Returns whether the worker has anything to do that its poller doesn't know of.
    pub fn has_news(&self) -> bool {
        self.told.load(Ordering::SeqCst) != 0 || self.has_cuts.load(Ordering::SeqCst)
    }

    /// Returns the places of firms that have news, and clears them.
    pub fn take_told(&self) -> u64 {
        self.told.swap(0, Ordering::SeqCst)
    }

    /// Returns whether any connection has been cut, and clears that.
    pub fn take_cuts(&self) -> bool {
        self.has_cuts.swap(false, Ordering::SeqCst)
    }
}

impl<B: Bell> Post<B> {
    /// Wakes the worker, whether it waits or not.
    pub fn ring(&self) {
        self.bell.ring();
    }

    /// Wakes the worker if it waits, or is about to, and holds answers back.
    pub fn release(&self) {
        if self.holds_back.load(Ordering::SeqCst) {
            self.ring_if_asleep();
        }
    }

    /// Wakes the worker if it waits, or is about to.
    fn ring_if_asleep(&self) {
        if self.is_asleep.swap(false, Ordering::SeqCst) {
            self.bell.ring();
        }
    }

    /// Marks these places of firms as having news.
    pub fn tell(&self, firms: u64) {
        let _ = self.told.fetch_or(firms, Ordering::SeqCst);
        self.ring_if_asleep();
    }

    /// Cuts the connection of this number, if it is here, and returns whether it is.
    pub fn cut(&self, number: u64) -> bool {
        let is_here = self.rows.iter().any(|row| row.cut(number));
        if is_here {
            self.has_cuts.store(true, Ordering::SeqCst);
            self.ring_if_asleep();
        }
        is_here
    }
}
