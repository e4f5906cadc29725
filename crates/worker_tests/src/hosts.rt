//! Who may be connected, as a test says.

use gu_log::{EndCause, LogonFault, Refusal};
use gu_terms::FirmId;
use gu_workers::Admission;
use std::cell::Cell;

/// Counts connections, refuses a firm, and gives no more places than it has.
#[derive(Drop)]
pub struct Host {
    /// The firm that has no place.
    pub refused: Cell<Option<FirmId>>,
    /// How many places firms may have.
    pub most: Cell<u64>,
    begun: Cell<u64>,
    ended: Cell<u64>,
    failed: Cell<u64>,
    /// What was wrong with the last first message that was refused, and which firm it named.
    fault: Cell<Option<(Option<FirmId>, LogonFault)>>,
    /// Why the last connection without a place had none.
    turned_away: Cell<Option<Refusal>>,
    /// Why the last connection ended.
    cause: Cell<Option<EndCause>>,
    /// How many places firms have: at each release of one that no firm has, it is wrong for good.
    places: Cell<u64>,
}

/// Counts one more.
fn count(cell: &Cell<u64>) {
    cell.set(cell.get().wrapping_add(1));
}

impl Host {
    /// Returns one that has seen no connection, and refuses nobody.
    pub fn new() -> Self {
        Host {
            refused: Cell::new(None),
            most: Cell::new(u64::MAX),
            begun: Cell::new(0),
            ended: Cell::new(0),
            failed: Cell::new(0),
            fault: Cell::new(None),
            turned_away: Cell::new(None),
            cause: Cell::new(None),
            places: Cell::new(0),
        }
    }

    /// Returns what was wrong with the last first message that was refused, and which firm it named.
    pub fn fault(&self) -> Option<(Option<FirmId>, LogonFault)> {
        self.fault.get()
    }

    /// Returns why the last connection without a place had none.
    pub fn turned_away(&self) -> Option<Refusal> {
        self.turned_away.get()
    }

    /// Returns why the last connection ended.
    pub fn cause(&self) -> Option<EndCause> {
        self.cause.get()
    }

    /// Returns how many connections have begun, how many have ended, how many of these by a fault, and how many places firms have.
    pub fn counts(&self) -> (u64, u64, u64, u64) {
        (
            self.begun.get(),
            self.ended.get(),
            self.failed.get(),
            self.places.get(),
        )
    }
}

impl Admission for Host {
    fn begin(&self) {
        count(&self.begun);
    }

    fn turn_away(&self, _number: u64, reason: Refusal) {
        self.turned_away.set(Some(reason));
    }

    fn admit(&self, _number: u64, firm: &FirmId) -> bool {
        if self.refused.get() == Some(*firm) || self.most.get() <= self.places.get() {
            return false;
        }
        count(&self.places);
        true
    }

    fn refuse(&self, _number: u64, firm: Option<FirmId>, fault: LogonFault) {
        self.fault.set(Some((firm, fault)));
    }

    fn release(&self, _firm: &FirmId) {
        self.places.set(self.places.get().wrapping_sub(1));
    }

    fn end(&self, _number: u64, _firm: Option<FirmId>, cause: EndCause) {
        self.cause.set(Some(cause));
        count(&self.ended);
        if !matches!(cause, EndCause::Done | EndCause::HungUp) {
            count(&self.failed);
        }
    }
}
