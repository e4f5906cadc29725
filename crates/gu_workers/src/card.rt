//! What a worker knows about a connection apart from its exchange.

use gu_log::LogonFault;
use gu_terms::{FirmId, Moment};

/// The admitted firm of a connection.
#[derive(Clone, Copy, Debug)]
pub struct Admitted {
    pub firm: FirmId,
    /// Its place in the reference's list, from 1 on.
    pub index: u64,
}

/// What a worker knows about a connection apart from its exchange.
#[derive(Clone, Copy, Debug)]
pub struct Card {
    /// The number of the connection.
    pub number: u64,
    /// The port of its peer.
    pub port: u64,
    /// When it came.
    pub since: Moment,
    /// When bytes last came.
    pub heard: Moment,
    /// How many bytes had come by then.
    pub bytes: u64,
    /// Its firm, from its admission to the end of its session.
    pub firm: Option<Admitted>,
    /// The firm that was admitted, also after the end of its session.
    pub caller: Option<FirmId>,
    /// The fault of its first message if its session refuses it, if the message was looked at.
    pub fault: Option<LogonFault>,
    /// How many give-ups it has made since it last ordered a sweep.
    pub give_ups: u64,
}

impl Card {
    /// Creates the card of a connection that comes at this moment.
    pub fn new(number: u64, port: u64, now: Moment) -> Self {
        Card {
            number,
            port,
            since: now,
            heard: now,
            bytes: 0,
            firm: None,
            caller: None,
            fault: None,
            give_ups: 0,
        }
    }

    /// Returns its firm, once it is logged on and admitted.
    pub fn firm(&self) -> Option<FirmId> {
        match self.firm {
            Some(admitted) => Some(admitted.firm),
            None => None,
        }
    }

    /// Notes how many bytes have come up to this moment.
    pub fn note_bytes(&mut self, bytes: u64, now: Moment) {
        if bytes != self.bytes {
            self.bytes = bytes;
            self.heard = now;
        }
    }
}
