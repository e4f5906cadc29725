//! A seat at a desk, as a house whose firms may have shares.

ghost use Rattle.std.specs.Prelude.{◌≡◌, None, IfSome, is_some, length};
ghost use Rattle.gu_session.specs.declared.input.Failure.{Failure as FailureOf};
ghost use Rattle.gu_desk.specs.Holds.{Looks};
ghost use Rattle.gu_houses.specs.SeatHouse.{SeatTells};
ghost use Rattle.gu_houses.specs.SharedHouse.{AnswersByShare};

use crate::at_desk::{Asking, AtDesk};
use crate::informs::Informs;
use crate::seat_receipts::SeatReceipts;
use crate::shares::{FirmShare, OffersAsked, Part, Shares};
use gu_desk::{EntryLedger, LotLedger};
use gu_engine::{Answered, Ask, House};
use gu_msgs::Request;
use gu_session::{Failure, Outcome};
use gu_terms::{Command, FirmId, Stretch};
use std::alloc::AllocError;
use std::marker::Model;
use std::sync::{Mutex, Wait};

/// A seat at a desk, as a house whose firms may have shares. To a contract it is the seat, and whether they have shares.
///
/// If its firm has used up its share, a command fails as if the book were full. The sessions of one firm then wait for each other, and no
/// other firm waits for them.
pub struct WithinShares<'a, 'o, E: EntryLedger, S: LotLedger, R: Wait, I: Informs> {
    house: AtDesk<'a, 'o, E, S, R, I>,
    shares: Option<&'a Shares>,
    /// The quota that its firm was found to have used up, not yet reported.
    full: Option<Part>,
}

impl<'a, 'o, E: EntryLedger, S: LotLedger, R: Wait, I: Informs> Drop
    for WithinShares<'a, 'o, E, S, R, I> {
    fn drop(self) {
        let WithinShares {
            house,
            shares: _,
            full: _,
        } = self;
        drop(house);
    }
}

impl<'a, 'o, E: EntryLedger, S: LotLedger, R: Wait, I: Informs> Model
    for WithinShares<'a, 'o, E, S, R, I> {
    ghost use Rattle.std.specs.Prelude.{is_some};
    ghost use Rattle.gu_houses.specs.SharedHouse.{SharedSeat};

    ghost Value = { SharedSeat };

    ghost view = { λ w. record { seat = w.house; has_shares = is_some w.shares } };
}

/// The reason that a command is withheld.
enum Withheld {
    /// An allocation failed.
    Memory,
    /// Its firm has used up this quota.
    Full(Part),
}

impl From<AllocError> for Withheld {
    fn from(_error: AllocError) -> Self {
        Withheld::Memory
    }
}

/// Returns the answer to a command that isn't entered.
fn failed(failure: Failure) -> Answered
    ensures outcome { result.outcome ≡ Outcome.Failed failure }
    ensures none { result.stretch ≡ None }
{
    Answered {
        outcome: Outcome::Failed(failure),
        stretch: None,
    }
}

impl<'a, 'o, E: EntryLedger, S: LotLedger, R: Wait, I: Informs> WithinShares<'a, 'o, E, S, R, I> {
    /// Returns the house of a seat whose firms have these shares, if there are any.
    pub fn new(house: AtDesk<'a, 'o, E, S, R, I>, shares: Option<&'a Shares>) -> Self
        ensures seat { result.seat ≡ house.entry }
        ensures shares { result.has_shares ≡ is_some shares.entry }
    {
        WithinShares {
            house,
            shares,
            full: None,
        }
    }

    /// Returns the seat, with its receipts.
    pub fn into_seat(self) -> SeatReceipts<E, S>
        ensures { result ≡ self.entry.seat }
    {
        let WithinShares {
            house,
            shares: _,
            full: _,
        } = self;
        house.into_seat()
    }

    /// Returns the number of its connection's give-ups accepted since the last one whose order was due.
    pub fn give_ups(&self) -> u64 {
        self.house.give_ups()
    }

    /// Resumes the connection with this number, with this many give-ups accepted since the last one whose order was due.
    pub fn resume(&mut self, connection: u64, give_ups: u64)
        ensures { self.new ≡ self.old }
    {
        self.house.resume(connection, give_ups);
    }

    /// Returns the number of entries that the seat has seen.
    pub fn seen(&self) -> u64
        ensures { result ≡ length self.now.seat.front }
    {
        self.house.seen()
    }

    /// Returns the quota that a firm was newly found to have used up since the last call, if there is one.
    pub fn take_full(&mut self) -> Option<Part>
        ensures { self.new ≡ self.old }
    {
        self.full.take()
    }

    /// Checks whether a firm may make the entry of a command, and its offers.
    fn look(&mut self, share: &mut FirmShare, command: &Command) -> Result<(), Withheld>
        ensures looks { Looks E.reference self.old.seat self.new.seat }
        ensures shares { self.new.has_shares ≡ self.old.has_shares }
    {
        if !share.has_entry() {
            return Err(Withheld::Full(Part::Entries));
        }
        let Command::GiveUp(give_up) = command else {
            return Ok(());
        };
        let mut asked = OffersAsked {
            share,
            firm: give_up.firm,
            report: give_up.report,
            lines: give_up.lines.as_slice().len(),
            has_offers: false,
        };
        self.house.put(&mut asked)?;
        if asked.has_offers {
            Ok(())
        } else {
            Err(Withheld::Full(Part::Offers))
        }
    }

    /// Returns the answer to a command that is withheld.
    fn withhold(&mut self, share: &mut FirmShare, why: Withheld) -> Answered
        ensures outcome { (failure : FailureOf) × (result.outcome ≡ Outcome.Failed failure) }
        ensures none { result.stretch ≡ None }
        ensures same { self.new ≡ self.old }
    {
        match why {
            Withheld::Memory => failed(Failure::Memory),
            Withheld::Full(part) => {
                if share.refuse(part) {
                    self.full = Some(part);
                }
                failed(Failure::Full)
            }
        }
    }

    /// Returns the share of a firm, if it has one.
    fn share_of(&self, firm: &FirmId) -> Option<&'a Mutex<FirmShare>> {
        self.shares?.of(firm)
    }

    /// Enters a command requested by a message, if its firm may make the entry and its offers.
    fn enter(&mut self, command: Command, asking: Asking, from: u64) -> Answered
        ensures outcome { AnswersByShare E.reference self.old.seat (Request.Enter command) result.outcome self.new.seat }
        ensures told { IfSome result.stretch (λ stretch. SeatTells E.reference self.new.seat asking.firm from stretch self.new.seat) }
        ensures shares { self.new.has_shares ≡ self.old.has_shares }
    {
        let Some(share) = self.share_of(&asking.firm) else {
            return self.house.enter(command, asking, from);
        };
        let mut share = share.lock(self.house.rt());
        match self.look(&mut share, &command) {
            Ok(()) => {
                let answered = self.house.enter(command, asking, from);
                if let Outcome::Replied(reply) = &answered.outcome {
                    share.count(*reply);
                }
                answered
            }
            Err(why) => {
                drop(command);
                self.withhold(&mut share, why)
            }
        }
    }
}

impl<'a, 'o, E: EntryLedger, S: LotLedger, R: Wait, I: Informs> House
    for WithinShares<'a, 'o, E, S, R, I> {
    ghost use Rattle.gu_houses.specs.SharedHouse.{rules_within};

    ghost rules = { rules_within E.reference };

    fn answer(&mut self, ask: Ask, from: u64) -> Result<Answered, AllocError> {
        let Some(_) = self.shares else {
            return self.house.answer(ask, from);
        };
        match ask {
            Ask {
                firm,
                number,
                now,
                request: Request::Enter(command),
            } => Ok(self.enter(command, Asking { now, firm, number }, from)),
            ask => self.house.answer(ask, from),
        }
    }

    fn notices(&mut self, firm: &FirmId, from: u64) -> Result<Stretch, AllocError> {
        self.house.notices(firm, from)
    }
}
