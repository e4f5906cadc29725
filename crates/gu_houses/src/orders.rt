//! Which of a connection's accepted give-ups are followed by a sweep.

use crossbeam_channel::Sender;
use gu_desk::SweepOrder;
use gu_terms::{Group, Receipt};
use std::alloc::{AllocError, Global};
use std::sync::Wait;
use std::sync::atomic::{AtomicBool, Ordering};

/// A group, and whether an order for it waits for a sweeper.
#[derive(Drop)]
struct OpenOrder {
    group: Group,
    is_waiting: AtomicBool,
}

/// The orders waiting for a sweeper: at most one a group.
///
/// If an order for a group is waiting, a further one isn't needed: since the waiting order was not taken yet, its sweeper will look at the
/// group after the give-up was entered, and see its offers.
#[derive(Drop)]
pub struct OpenOrders {
    rows: Vec<OpenOrder>,
}

impl OpenOrders {
    /// Returns the orders for these groups, none of which is waiting.
    pub fn new(alloc: Global, groups: &[Group]) -> Result<Self, AllocError> {
        let mut rows = Vec::with_capacity(alloc, groups.len())?;
        for group in groups {
            rows.push(OpenOrder {
                group: *group,
                is_waiting: AtomicBool::new(false),
            })?;
        }
        Ok(OpenOrders { rows })
    }

    /// Records that an order for a group is waiting, and returns whether none was.
    pub fn open(&self, group: &Group) -> bool {
        match self.rows.iter().find(|row| row.group == *group) {
            Some(row) => !row.is_waiting.swap(true, Ordering::SeqCst),
            None => false,
        }
    }

    /// Records that no order for a group is waiting. A sweeper that takes one calls this before it looks at the group.
    pub fn close(&self, group: &Group) {
        if let Some(row) = self.rows.iter().find(|row| row.group == *group) {
            row.is_waiting.store(false, Ordering::SeqCst);
        }
    }
}

/// The destination of the order for every K-th accepted give-up of a connection. If K is 0, there are no orders.
#[derive(Drop)]
pub struct Orders<'a> {
    to: &'a Sender<SweepOrder>,
    open: &'a OpenOrders,
    every: u64,
    /// The give-ups accepted since the last one that was due.
    since: u64,
}

impl<'a> Orders<'a> {
    /// Returns the orders of a new connection.
    pub fn new(to: &'a Sender<SweepOrder>, open: &'a OpenOrders, every: u64) -> Self {
        Orders {
            to,
            open,
            every,
            since: 0,
        }
    }

    /// Returns the number of give-ups accepted since the last one that was due.
    pub fn since(&self) -> u64 {
        self.since
    }

    /// Resumes with this number of give-ups accepted since the last one that was due.
    pub fn resume(&mut self, since: u64) {
        self.since = since;
    }

    /// Returns whether a receipt is for a give-up whose order is due.
    fn is_due(&mut self, receipt: &Receipt) -> bool {
        if receipt.offered().is_none() {
            return false;
        }
        self.since = self.since.saturating_add(1);
        if self.every == 0 || self.since < self.every {
            return false;
        }
        self.since = 0;
        true
    }

    /// Sends an order, if none for its group is waiting.
    fn send<R: Wait>(&self, rt: &R, order: SweepOrder) {
        let group = order.group();
        if !self.open.open(&group) {
            return;
        }
        if let Err(refused) = self.to.send(rt, order) {
            drop(refused);
            self.open.close(&group);
        }
    }

    /// Sends the order for a receipt to the sweepers, if it is due and none for its group is waiting. If an allocation for the order fails,
    /// it is left out.
    pub fn note<R: Wait>(&mut self, rt: &R, receipt: &Receipt) {
        if self.is_due(receipt) {
            if let Ok(Some(order)) = SweepOrder::of(receipt) {
                self.send(rt, order);
            }
        }
    }
}
