//! A seat at the desk as the house of a worker.

ghost use Rattle.std.specs.Prelude.{◌≡◌};

use gu_desk::{EntryLedger, LotLedger};
use gu_engine::{Answered, Ask, House};
use gu_houses::{Informs, Part, SeatReceipts, WithinShares};
use gu_log::{Event, EventLog};
use gu_session::{Failure, Outcome};
use gu_terms::{FirmId, Stretch};
use gu_workers::AnswersMany;
use std::alloc::AllocError;
use std::marker::Model;
use std::rt::Clock;
use std::sync::Wait;

/// Returns the firm that asks.
fn firm_of(ask: &Ask) -> FirmId {
    ask.firm
}

/// A seat at the desk as the house of a worker. To a contract it is the seat, and whether the firms have shares.
pub struct DeskHouse<'a, 'o, E: EntryLedger, S: LotLedger, R: Wait, I: Informs> {
    desk: WithinShares<'a, 'o, E, S, R, I>,
    rt: &'a R,
    log: &'a EventLog,
    /// The connection that it answers.
    connection: u64,
    /// Whether the last request failed because memory ran out.
    lacks_memory: bool,
}

impl<'a, 'o, E: EntryLedger, S: LotLedger, R: Wait, I: Informs> Drop
    for DeskHouse<'a, 'o, E, S, R, I> {
    fn drop(self) {
        let DeskHouse {
            desk,
            rt: _,
            log: _,
            connection: _,
            lacks_memory: _,
        } = self;
        drop(desk);
    }
}

impl<'a, 'o, E: EntryLedger, S: LotLedger, R: Wait, I: Informs> Model
    for DeskHouse<'a, 'o, E, S, R, I> {
    ghost use Rattle.gu_houses.specs.SharedHouse.{SharedSeat};

    ghost Value = { SharedSeat };

    ghost view = { λ h. h.desk };
}

impl<'a, 'o, E: EntryLedger, S: LotLedger, R: Wait, I: Informs> DeskHouse<'a, 'o, E, S, R, I> {
    /// Creates the house of a seat. It answers connection 0 until `resume` names another.
    pub fn new(desk: WithinShares<'a, 'o, E, S, R, I>, rt: &'a R, log: &'a EventLog) -> Self
        ensures { result ≡ desk.entry }
    {
        DeskHouse {
            desk,
            rt,
            log,
            connection: 0,
            lacks_memory: false,
        }
    }

    /// Returns the seat, with its receipts.
    pub fn into_seat(self) -> SeatReceipts<E, S>
        ensures { result ≡ self.entry.seat }
    {
        let DeskHouse {
            desk,
            rt: _,
            log: _,
            connection: _,
            lacks_memory: _,
        } = self;
        desk.into_seat()
    }
}

impl<'a, 'o, E: EntryLedger, S: LotLedger, R: Wait + Clock, I: Informs> DeskHouse<
    'a,
    'o,
    E,
    S,
    R,
    I,
> {
    /// Logs that a firm has used up its share, if that was just found.
    fn note_share(&mut self, firm: &FirmId)
        ensures { self.new ≡ self.old }
    {
        if let Some(part) = self.desk.take_full() {
            let event = Event::ShareFull {
                number: self.connection,
                firm: *firm,
                is_of_entries: part == Part::Entries,
            };
            self.log.note(self.rt, event);
        }
    }

    /// Logs that a command of a firm failed because memory ran out, unless the request before it failed for the same reason.
    fn note_memory(&mut self, firm: &FirmId, answered: &Answered)
        ensures { self.new ≡ self.old }
    {
        let lacked_memory = self.lacks_memory;
        self.lacks_memory = matches!(&answered.outcome, Outcome::Failed(Failure::Memory));
        if self.lacks_memory && !lacked_memory {
            let event = Event::MemoryRefused {
                number: self.connection,
                firm: *firm,
            };
            self.log.note(self.rt, event);
        }
    }
}

impl<'a, 'o, E: EntryLedger, S: LotLedger, R: Wait + Clock, I: Informs> AnswersMany
    for DeskHouse<'a, 'o, E, S, R, I> {
    fn resume(&mut self, connection: u64, give_ups: u64) {
        self.connection = connection;
        self.desk.resume(connection, give_ups);
    }

    fn give_ups(&self) -> u64 {
        self.desk.give_ups()
    }

    fn seen(&self) -> u64 {
        self.desk.seen()
    }
}

impl<'a, 'o, E: EntryLedger, S: LotLedger, R: Wait + Clock, I: Informs> House
    for DeskHouse<'a, 'o, E, S, R, I> {
    ghost use Rattle.gu_houses.specs.SharedHouse.{rules_within};

    ghost rules = { rules_within E.reference };

    fn answer(&mut self, ask: Ask, from: u64) -> Result<Answered, AllocError> {
        let firm = firm_of(&ask);
        let answered = self.desk.answer(ask, from)?;
        self.note_share(&firm);
        self.note_memory(&firm, &answered);
        Ok(answered)
    }

    fn notices(&mut self, firm: &FirmId, from: u64) -> Result<Stretch, AllocError> {
        self.desk.notices(firm, from)
    }
}
