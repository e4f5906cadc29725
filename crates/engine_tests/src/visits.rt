//! A connection that is turned over a house that it borrows, and a stream that has room for a few bytes.

ghost use Rattle.std.specs.Prelude.{None, Some};

use gu_engine::{
    Answered, Ask, Backlog, Clock, ClockFault, Connection, Conversation, Gate, House, Turned,
    close, turn,
};
use gu_session::{Failure, Outcome};
use gu_streams::{CountedReads, LONGEST_READ};
use gu_terms::{
    AccountId, Day, FirmId, Lots, Moment, Notice, Notices, OfferEvent, OfferNo, OfferNotice, Price,
    Side, Stretch, Symbol,
};
use std::alloc::{AllocError, Global};
use std::io::{self, ErrorKind, Read, Write};
use std::process::Abort;

/// The entries of the house of these tests.
const ENTRIES: u64 = 2_000;

/// How many notices a stretch has.
const STRETCH: u64 = 250;

/// A house that enters nothing more, and has a notice of each of 2,000 entries for any firm.
#[derive(Drop)]
pub struct FullHouse {
    pub alloc: Global,
}

/// Returns the notice of each entry.
fn notice() -> Option<Notice> {
    Some(Notice::Offer(OfferNotice {
        offer: OfferNo::new(1)?,
        event: OfferEvent::Offered,
        lots: Lots::new(10)?,
        account: AccountId::new(b"A1")?,
        symbol: Symbol::new(b"XF6")?,
        side: Side::Buy,
        price: Price::new(101_500_000)?,
        day: Day::new(2026, 1, 5)?,
    }))
}

impl House for FullHouse {
    ghost use Rattle.gu_engine.specs.Houses.{HouseRules};

    ghost rules = { record { answers = λ old request outcome new. Unit {0}; tells = λ old firm from stretch new. Unit {0} } };

    fn answer(&mut self, ask: Ask, _from: u64) -> Result<Answered, AllocError> {
        drop(ask);
        Ok(Answered {
            outcome: Outcome::Failed(Failure::Full),
            stretch: None,
        })
    }

    fn notices(&mut self, _firm: &FirmId, from: u64) -> Result<Stretch, AllocError> {
        let mut list = Vec::new(self.alloc);
        let count = if from <= ENTRIES { STRETCH } else { 0 };
        for _ in 0..count {
            list.push(notice().ok_or(AllocError)?)?;
        }
        let is_last = from > ENTRIES - STRETCH;
        let next = from.saturating_add(count);
        Ok(Stretch {
            notices: Notices { next, list },
            is_last,
        })
    }
}

/// A clock that is at nine.
#[derive(Drop)]
pub struct Nine;

impl Clock for Nine {
    ghost use Rattle.std.specs.Prelude.{true};

    ghost ahead = { λ _. None };

    ghost has_failed = { λ _. true };

    fn now(&mut self) -> Result<Moment, ClockFault> {
        Moment::new(1_767_603_600_000).ok_or(ClockFault)
    }
}

/// A stream that has room for this many bytes, and then would block.
#[derive(Drop)]
pub struct Narrow {
    pub taken: Vec<u8>,
    room: usize,
    /// The longest text that it was asked to write at once.
    pub longest: usize,
}

impl Write for Narrow {
    ghost contents = { λ narrow. Some narrow.taken.items };

    fn write(&mut self, buf: &[u8]) -> io::Result<usize> {
        self.longest = self.longest.max(buf.len());
        let count = self.room.min(buf.len());
        if count == 0 {
            return Err(io::Error::from(ErrorKind::WouldBlock));
        }
        self.taken.extend_from_slice(&buf[..count])?;
        self.room -= count;
        Ok(count)
    }

    fn flush(&mut self) -> io::Result<()> {
        Ok(())
    }
}

/// Returns a conversation of E1.
pub fn conversation(rt: &impl Abort, alloc: Global) -> Conversation {
    let firm = FirmId::new(b"E1").expect(rt, "a firm");
    let firms = Vec::from_slice(alloc, &[firm]).expect(rt, "memory");
    Conversation::new(alloc, firms)
}

/// A conversation, the house that answers it, what it keeps between two turns, and the stream that it writes to.
pub struct Visit {
    conversation: Option<Conversation>,
    house: FullHouse,
    pub backlog: Backlog<Gate>,
    pub stream: Narrow,
}

// By hand, so that each exit of a caller drops a visit by one call.
impl Drop for Visit {
    fn drop(self) {
        let Visit {
            conversation,
            house: _,
            backlog,
            stream,
        } = self;
        drop(conversation);
        drop(backlog);
        drop(stream);
    }
}

impl Visit {
    /// Returns a visit before its first turn, whose answers go out by this gate.
    pub fn new(rt: &impl Abort, alloc: Global, gate: Gate) -> Self {
        Visit {
            conversation: Some(conversation(rt, alloc)),
            house: FullHouse { alloc },
            backlog: Backlog::new(alloc, gate),
            stream: Narrow {
                taken: Vec::new(alloc),
                room: 0,
                longest: 0,
            },
        }
    }

    /// Returns the conversation.
    pub fn conversation(&mut self, rt: &impl Abort) -> &mut Conversation {
        self.conversation.as_mut().expect(rt, "a conversation")
    }

    /// Makes a turn, at which the stream has room for this many bytes. Then the room of what is empty is given back.
    pub fn turn<R: Read>(
        &mut self,
        rt: &impl Abort,
        reads: &mut CountedReads<R>,
        room: usize,
    ) -> Turned {
        let mut buffer = [0; LONGEST_READ];
        self.stream.room = room;
        let conversation = self.conversation.take().expect(rt, "a conversation");
        let mut connection = Connection::resume(conversation, &mut self.house, Nine);
        let turned = turn(
            reads,
            &mut self.stream,
            &mut connection,
            &mut self.backlog,
            &mut buffer,
        )
        .expect(rt, "a turn");
        self.conversation = Some(connection.rest());
        self.backlog.release();
        turned
    }

    /// Makes turns until all was sent, but at most this many, and returns whether all was sent.
    pub fn turns<R: Read>(
        &mut self,
        rt: &impl Abort,
        reads: &mut CountedReads<R>,
        room: usize,
        most: u32,
    ) -> bool {
        for _ in 0..most {
            let turned = self.turn(rt, reads, room);
            if turned.is_last() && self.backlog.is_sent() {
                return turned != Turned::Stopped;
            }
        }
        false
    }

    /// Closes the conversation's house.
    pub fn close(&mut self, rt: &impl Abort) {
        assert!(rt; self.backlog.is_idle(), "nothing is left to be answered");
        let conversation = self.conversation.take().expect(rt, "a conversation");
        let mut connection = Connection::resume(conversation, &mut self.house, Nine);
        close(&mut connection, &mut self.backlog).expect(rt, "memory");
        self.conversation = Some(connection.rest());
    }
}
