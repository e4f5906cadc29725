//! A desk: what it knows of its leadership and of the log.
use crate::clocks::Clocks;
use crate::cluster::{DeskId, Seat};
use gu_lease::Lease;

/// How much earlier a desk takes its lease as ended.
pub const MARGIN_MS: u64 = 500;

/// What goes wrong with a machine's clocks. Not both at once: a clock that is set back while the machine sleeps deceives any desk.
#[derive(Clone, Copy, PartialEq, Eq)]
pub enum Trouble {
    /// The machine sleeps.
    Sleeps,
    /// The system's clock is set.
    ClockIsSet,
}

/// A machine with a desk.
#[derive(Clone, Copy)]
pub struct Desk {
    pub id: DeskId,
    /// How many entries of the log it knows.
    pub count: u64,
    /// How many batches it has begun to append.
    pub batches: u64,
    pub lease: Option<Lease>,
    /// The moment of its monotonic clock from which it serves: a desk that claimed the leadership waits, since the former one may answer yet.
    pub serves_ms: u64,
    /// It has stopped: it appends nothing more and answers nothing more under this name.
    pub is_stopped: bool,
    pub clocks: Clocks,
    pub trouble: Trouble,
    pub is_asleep: bool,
}

impl Desk {
    /// Creates a machine with a desk that has never led.
    pub fn new(seat: Seat, rate: u64, trouble: Trouble) -> Self {
        Desk {
            id: DeskId { seat, term: 0 },
            count: 0,
            batches: 0,
            lease: None,
            serves_ms: 0,
            is_stopped: true,
            clocks: Clocks {
                monotonic_ms: 1_000_000,
                system_ms: 1_700_000_000_000,
                rate,
            },
            trouble,
            is_asleep: false,
        }
    }

    /// Goes on for some time.
    pub fn pass(&mut self, ms: u64) {
        if self.is_asleep {
            self.clocks.sleep(ms);
        } else {
            self.clocks.run(ms);
        }
    }

    /// Returns whether it serves by now.
    pub fn serves(&self) -> bool {
        !self.is_stopped && self.serves_ms <= self.clocks.monotonic_ms
    }

    /// Asks the desk's gate whether an answer may leave.
    pub fn may_answer(&mut self) -> bool {
        let moment = self.clocks.moment();
        self.lease = match self.lease {
            Some(lease) => lease.at(moment),
            None => None,
        };
        self.lease.is_some() && self.serves()
    }
}
