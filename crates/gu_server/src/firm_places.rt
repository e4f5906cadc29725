//! Counts the places that each firm's sessions hold, and records what becomes of connections.

use crate::service::Service;
use gu_houses::Tally;
use gu_log::{EndCause, Event, EventLog, LogonFault, Refusal};
use gu_terms::FirmId;
use gu_workers::Admission;
use std::alloc::{AllocError, Global};
use std::rt::Clock;
use std::sync::Wait;
use std::sync::atomic::{AtomicU64, Ordering};

/// Counts the places that each firm's sessions hold. What becomes of connections is counted and logged.
#[derive(Drop)]
pub struct FirmPlaces<'a, R> {
    rt: &'a R,
    firms: &'a [FirmId],
    tally: &'a Tally,
    log: &'a EventLog,
    counts: Vec<AtomicU64>,
    /// How many places the sessions of one firm may hold.
    most: u64,
}

/// What is informed of connections.
#[derive(Drop)]
pub struct Hearers<'a, R> {
    pub rt: &'a R,
    pub tally: &'a Tally,
    pub log: &'a EventLog,
}

/// Returns whether a connection that ends for this reason has failed, by its own fault, its stream's or for lack of memory.
fn has_failed(cause: EndCause) -> bool {
    !matches!(cause, EndCause::Done | EndCause::HungUp)
}

impl<'a, R> FirmPlaces<'a, R> {
    /// Creates the counts of a day on which nobody is logged on yet.
    pub fn new(
        alloc: Global,
        firms: &'a [FirmId],
        hearers: Hearers<'a, R>,
        service: Service,
    ) -> Result<Self, AllocError> {
        let mut counts = Vec::with_capacity(alloc, firms.len())?;
        for _firm in firms {
            counts.push(AtomicU64::new(0))?;
        }
        Ok(FirmPlaces {
            rt: hearers.rt,
            firms,
            tally: hearers.tally,
            log: hearers.log,
            counts,
            most: service.most_of_a_firm(),
        })
    }

    /// Returns the count of a firm.
    fn count_of(&self, firm: &FirmId) -> Option<&AtomicU64> {
        let at = self.firms.iter().position(|one| one == firm)?;
        self.counts.get(at)
    }

    /// Counts one more place for a firm, if it may have one.
    fn take_place(&self, firm: &FirmId) -> bool {
        let Some(count) = self.count_of(firm) else {
            return false;
        };
        if count.fetch_add(1, Ordering::SeqCst) < self.most {
            return true;
        }
        let _ = count.fetch_sub(1, Ordering::SeqCst);
        false
    }
}

impl<R: Wait + Clock> Admission for FirmPlaces<'_, R> {
    fn begin(&self) {
        self.tally.begin();
    }

    fn turn_away(&self, number: u64, reason: Refusal) {
        self.log.note(self.rt, Event::Refused { number, reason });
    }

    fn admit(&self, number: u64, firm: &FirmId) -> bool {
        let firm = *firm;
        let has_place = self.take_place(&firm);
        let event = if has_place {
            Event::LoggedOn { number, firm }
        } else {
            Event::LogonRefused {
                number,
                firm: Some(firm),
                fault: LogonFault::Places,
            }
        };
        self.log.note(self.rt, event);
        has_place
    }

    fn refuse(&self, number: u64, firm: Option<FirmId>, fault: LogonFault) {
        let event = Event::LogonRefused {
            number,
            firm,
            fault,
        };
        self.log.note(self.rt, event);
    }

    fn release(&self, firm: &FirmId) {
        if let Some(count) = self.count_of(firm) {
            let _ = count.fetch_sub(1, Ordering::SeqCst);
        }
    }

    fn end(&self, number: u64, firm: Option<FirmId>, cause: EndCause) {
        self.tally.end(has_failed(cause));
        let event = Event::Ended {
            number,
            firm,
            cause,
        };
        self.log.note(self.rt, event);
    }
}
