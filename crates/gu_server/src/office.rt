//! What operators ask a server apart from its book.

use crate::floor::Floor;
use gu_console::{Office, Places};
use gu_desk::{EntryLedger, LotLedger};
use gu_engine::{Clock, SystemClock};
use gu_log::Event;
use gu_posts::ConnectionStatus;
use gu_terms::{FirmId, Moment};
use std::alloc::{AllocError, Global};
use std::rt;
use std::sync::Wait;

impl<E: EntryLedger, S: LotLedger, R: Wait + rt::Clock> Office for Floor<'_, E, S, R> {
    fn connections(&self, alloc: Global) -> Result<Vec<ConnectionStatus>, AllocError> {
        self.posts.status(alloc)
    }

    fn places(&self) -> Places {
        Places {
            now: self.posts.connections(),
            most: self.service.connections as u64,
            all: self.tally.counts().begun,
        }
    }

    fn firms(&self) -> &[FirmId] {
        self.firms
    }

    fn now(&self) -> Option<Moment> {
        SystemClock::new(self.rt).now().ok()
    }

    fn cut(&self, number: u64) -> bool {
        let is_there = self.posts.cut(number);
        if is_there {
            self.note(Event::OperatorCut { number });
        }
        is_there
    }

    fn close(&self) -> bool {
        Floor::close(self)
    }

    fn is_closing(&self) -> bool {
        self.posts.is_closing()
    }

    fn leads_log(&self) -> bool {
        self.gate.needs_lease()
    }
}
