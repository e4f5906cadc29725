//! A seat at a desk, as a house.

ghost use Rattle.std.specs.Prelude.{◌≡◌, Some, length, IfOk, IfSome, OnErr, OnOk};
ghost use Rattle.gu_desk.specs.Holds.{book_seen, Sees};
ghost use Rattle.gu_houses.specs.SeatHouse.{SeatAnswers, SeatTells, failure_of};

use crate::informs::Informs;
use crate::orders::Orders;
use crate::seat_receipts::{DeskAccess, SeatReceipts};
use crate::tally::Tally;
use gu_book::{Answer, AskError, EnterError};
use gu_desk::{EntryLedger, FirmMessage, LotLedger, Origin, Question};
use gu_engine::{Answered, Ask, House};
use gu_msgs::Request;
use gu_session::{Failure, Outcome};
use gu_terms::{Command, FirmId, Moment, Query, Stretch};
use std::alloc::AllocError;
use std::marker::Model;
use std::sync::Wait;

/// Returns the failure of a command that the desk doesn't enter: Full only if the desk says that the book is.
fn failure_of(error: EnterError) -> Failure
    ensures { result ≡ failure_of error }
{
    match error {
        EnterError::Full => Failure::Full,
        EnterError::Memory => Failure::Memory,
    }
}

/// A firm's message that asks for an entry: the moment it arrived, its firm, and its MsgSeqNum (34).
#[derive(Clone, Copy)]
pub(crate) struct Asking {
    pub(crate) now: Moment,
    pub(crate) firm: FirmId,
    pub(crate) number: u64,
}

/// Returns the origin of an entry requested by a message of a connection.
fn origin_of(connection: u64, asking: Asking) -> Origin
    ensures { result ≡ record {
      moment = asking.now;
      message = Some (record { firm = asking.firm; connection = connection; number = asking.number });
    } }
{
    let Asking { now, firm, number } = asking;
    Origin {
        moment: now,
        message: Some(FirmMessage {
            firm,
            connection,
            number,
        }),
    }
}

/// What a seat works with: access to its desk, the counts of what is done there, and what informs firms of its entries.
#[derive(Drop)]
pub struct DeskTools<'a, E: EntryLedger, S: LotLedger, R, I> {
    pub access: DeskAccess<'a, E, S, R>,
    pub tally: &'a Tally,
    pub informs: &'a I,
}

/// A seat at a desk, as a house. To a contract it is the seat.
///
/// The notices that follow a command are fetched with it, in one hold of the lock. After the hold, other firms are informed of the entry.
pub struct AtDesk<'a, 'o, E: EntryLedger, S: LotLedger, R: Wait, I: Informs> {
    tools: DeskTools<'a, E, S, R, I>,
    /// The connection that it answers.
    connection: u64,
    seat: SeatReceipts<E, S>,
    orders: Orders<'o>,
}

impl<'a, 'o, E: EntryLedger, S: LotLedger, R: Wait, I: Informs> Drop
    for AtDesk<'a, 'o, E, S, R, I> {
    fn drop(self) {
        drop(self.into_seat());
    }
}

impl<'a, 'o, E: EntryLedger, S: LotLedger, R: Wait, I: Informs> Model
    for AtDesk<'a, 'o, E, S, R, I> {
    ghost use Rattle.gu_desk.specs.Seats.{SeatState};

    ghost Value = { SeatState };

    ghost view = { λ a. a.seat };
}

impl<'a, 'o, E: EntryLedger, S: LotLedger, R: Wait, I: Informs> AtDesk<'a, 'o, E, S, R, I> {
    /// Returns the house of a seat at a desk, which counts its give-ups towards these orders. It answers connection 0 until it resumes
    /// another.
    pub fn new(
        tools: DeskTools<'a, E, S, R, I>,
        seat: SeatReceipts<E, S>,
        orders: Orders<'o>,
    ) -> Self
        ensures { result ≡ seat }
    {
        AtDesk {
            tools,
            connection: 0,
            seat,
            orders,
        }
    }

    /// Returns the seat, with its receipts.
    pub fn into_seat(self) -> SeatReceipts<E, S>
        ensures { result ≡ self.entry }
    {
        let AtDesk {
            tools: _,
            connection: _,
            seat,
            orders,
        } = self;
        drop(orders);
        seat
    }

    /// Returns the number of its connection's give-ups accepted since the last one whose order was due.
    pub fn give_ups(&self) -> u64 {
        self.orders.since()
    }

    /// Resumes the connection with this number, with this many give-ups accepted since the last one whose order was due.
    pub fn resume(&mut self, connection: u64, give_ups: u64)
        ensures { self.new ≡ self.old }
    {
        self.connection = connection;
        self.orders.resume(give_ups);
    }

    /// Returns the number of entries that the seat has seen.
    pub fn seen(&self) -> u64
        ensures { result ≡ length self.now.front }
    {
        self.seat.seen()
    }

    /// Returns the runtime.
    pub(crate) fn rt(&self) -> &'a R {
        self.tools.access.rt
    }

    /// Puts a question to the book, as the seat sees it then. The desk's lock is held meanwhile.
    pub(crate) fn put<Q: Question>(&mut self, question: &mut Q) -> Result<(), AllocError>
        ensures tells { OnOk result (Q.tells question.old (book_seen E.reference self.new) question.new) }
        ensures sees { OnOk result (Sees E.reference self.old self.new) }
        ensures refused { OnErr result (self.new ≡ self.old) }
    {
        self.seat.put(&self.tools.access, question)
    }

    /// Sends the order for the last entry, if it is due.
    fn order(&mut self)
        ensures { self.new ≡ self.old }
    {
        if let Some(receipt) = self.seat.last() {
            self.orders.note(self.tools.access.rt, receipt);
        }
    }

    /// Enters a command requested by a message, and returns its outcome, with a batch of its firm's notices from a number on.
    pub(crate) fn enter(&mut self, command: Command, asking: Asking, from: u64) -> Answered
        ensures outcome { SeatAnswers E.reference self.old (Request.Enter command) result.outcome self.new }
        ensures told { IfSome result.stretch (λ stretch. SeatTells E.reference self.new asking.firm from stretch self.new) }
    {
        let tell = Some((asking.firm, from));
        match self.seat.enter(&self.tools.access, command, tell) {
            Ok(entered) => {
                self.tools.tally.add_entry();
                let origin = origin_of(self.connection, asking);
                self.tools
                    .informs
                    .inform(entered.number, entered.informs, origin);
                self.order();
                Answered {
                    outcome: Outcome::Replied(entered.reply),
                    stretch: entered.stretch,
                }
            }
            Err(error) => Answered {
                outcome: Outcome::Failed(failure_of(error)),
                stretch: None,
            },
        }
    }

    /// Answers a question for positions. A session asks no other questions.
    fn tell(&mut self, query: Query) -> Result<Outcome, AllocError>
        ensures { IfOk result (λ outcome. SeatAnswers E.reference self.old (Request.Ask query) outcome self.new) }
    {
        let Query::Positions { .. } = query else {
            return Ok(Outcome::Positions(None));
        };
        match self.seat.ask(&self.tools.access, query) {
            Ok(Answer::Positions(rows)) => Ok(Outcome::Positions(rows)),
            Err(AskError::Memory) => Err(AllocError),
            Ok(_) | Err(AskError::UnknownGroup) => Ok(Outcome::Positions(None)),
        }
    }
}

impl<'a, 'o, E: EntryLedger, S: LotLedger, R: Wait, I: Informs> House
    for AtDesk<'a, 'o, E, S, R, I> {
    ghost use Rattle.gu_houses.specs.SeatHouse.{rules_of_seat};

    ghost rules = { rules_of_seat E.reference };

    fn answer(&mut self, ask: Ask, from: u64) -> Result<Answered, AllocError> {
        let Ask {
            firm,
            number,
            now,
            request,
        } = ask;
        let asking = Asking { now, firm, number };
        match request {
            Request::Enter(command) => Ok(self.enter(command, asking, from)),
            Request::Ask(query) => Ok(Answered {
                outcome: self.tell(query)?,
                stretch: None,
            }),
        }
    }

    fn notices(&mut self, firm: &FirmId, from: u64) -> Result<Stretch, AllocError> {
        self.seat.stretch(&self.tools.access, *firm, from)
    }
}
