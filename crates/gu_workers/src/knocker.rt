//! A connection at its place before there is a session, whose first message is looked at.

ghost use Rattle.std.specs.Prelude.{◌≡◌, [], IfErr, IfOk, IsSomeAnd};
ghost use Rattle.std.specs.Option.{option_map};
ghost use Rattle.gu_workers.specs.Knockers.{BecomesAfter, EndsBy, IsEndAfter, IsVisited, end_cause_of, firms_at};

use crate::card::Card;
use crate::stage::{Deadline, HANG_UP_MS, LOGON_WAIT_MS};
use crate::timer::Now;
use gu_knocks::{Glance, Guard, Listened, Listening};
use gu_log::{EndCause, LogonFault};
use gu_posts::ConnectionStatus;
use gu_talks::{Halves, Ready, TurnBuffer};
use gu_terms::FirmId;
use std::alloc::Global;
use std::io::Read;
use std::slice;

/// What a worker knows about a connection whose firm isn't known yet.
#[derive(Drop)]
pub struct Stand<O> {
    pub(crate) outgoing: O,
    /// The firm whose door it came by, if it came by one.
    pub(crate) door: Option<FirmId>,
    pub(crate) card: Card,
    /// When it is dropped, in milliseconds.
    pub(crate) until: u64,
}

/// A connection whose firm isn't known yet.
#[derive(Drop)]
pub struct Knocker<I, O> {
    /// What it has said, until it is turned away.
    listening: Option<Listening<I>>,
    stand: Stand<O>,
}

/// A connection that is let in.
#[derive(Drop)]
pub struct LetIn<I, O> {
    /// The firm whose secret fitted, if there are secrets.
    pub firm: Option<FirmId>,
    /// The firm whose door it came by, if it came by one.
    pub door: Option<FirmId>,
    /// Its two halves, and all that it has said.
    pub halves: Halves<I, O>,
    pub card: Card,
}

/// What became of a connection after it was listened to.
#[derive(Drop)]
pub enum Knocked<I, O> {
    /// Its firm isn't known yet, or it was turned away.
    Stays(Knocker<I, O>),
    /// It is turned away, for this reason.
    TurnedAway(Knocker<I, O>, Glance),
    /// It is let in.
    Enters(LetIn<I, O>),
}

impl<O> Stand<O> {
    /// Creates it for a connection that came by the door of this firm, or by the port.
    pub fn new(outgoing: O, door: Option<FirmId>, card: Card, now: &Now) -> Self
        ensures { result.door ≡ door }
    {
        Stand {
            outgoing,
            door,
            card,
            until: now.ms.saturating_add(LOGON_WAIT_MS),
        }
    }

    /// Returns the firms that may be let in here, given those that may come by the port.
    fn guard<'a>(&'a self, guard: Guard<'a>) -> Guard<'a>
        ensures secrets { option_map (λ secrets. secrets.now) result.secrets ≡ option_map (λ secrets. secrets.now) guard.entry.secrets }
        ensures firms { result.firms.now ≡ firms_at self.now.door guard.entry.firms.now }
    {
        match &self.door {
            Some(firm) => Guard {
                secrets: guard.secrets,
                firms: slice::from_ref(firm),
            },
            None => guard,
        }
    }

    /// Returns the fault of a first message. One that names another firm at a firm's door came by the wrong door.
    fn fault_of(&self, fault: LogonFault) -> LogonFault {
        match fault {
            LogonFault::Sender if self.door.is_some() => LogonFault::Door,
            _ => fault,
        }
    }

    /// Returns what becomes of it, given what listening to it found.
    fn after<I>(mut self, listened: Listened<I>, now: &Now) -> Result<Knocked<I, O>, EndCause>
    where
        I: Drop,
        O: Drop,
        ensures ok { IfOk result (BecomesAfter listened self.door) }
        ensures ended { IfErr result (IsEndAfter listened) }
    {
        match listened {
            Listened::Waits(listening) => {
                self.card.note_bytes(listening.len() as u64, now.moment);
                Ok(Knocked::Stays(Knocker {
                    listening: Some(listening),
                    stand: self,
                }))
            }
            Listened::LetsIn {
                glance,
                said,
                stream,
            } => {
                let fault = self.fault_of(glance.fault);
                let Stand {
                    outgoing,
                    door,
                    mut card,
                    ..
                } = self;
                card.fault = Some(fault);
                Ok(Knocked::Enters(LetIn {
                    firm: glance.firm,
                    door,
                    halves: Halves {
                        said,
                        incoming: stream,
                        outgoing,
                    },
                    card,
                }))
            }
            Listened::Refuses { glance, stream } => {
                drop(stream);
                let fault = self.fault_of(glance.fault);
                self.until = now.ms.saturating_add(HANG_UP_MS);
                let knocker = Knocker {
                    listening: None,
                    stand: self,
                };
                let firm = glance.firm;
                Ok(Knocked::TurnedAway(knocker, Glance { firm, fault }))
            }
            Listened::Ends => Err(EndCause::Done),
            Listened::Fails => Err(EndCause::Stream),
        }
    }
}

impl<I, O> Knocker<I, O> {
    /// Creates it for a connection that has just come.
    pub fn new(alloc: Global, incoming: I, stand: Stand<O>) -> Self
        ensures door { result.stand.door ≡ stand.door }
        ensures new { IsSomeAnd result.listening (λ listening. (listening.stream ≡ incoming) × (listening.knock ≡ [])) }
    {
        Knocker {
            listening: Some(Listening::new(alloc, incoming)),
            stand,
        }
    }

    /// Notes what its streams are ready for.
    pub fn note(&mut self, ready: Ready) {
        if ready.is_readable || ready.is_ending {
            if let Some(listening) = &mut self.listening {
                listening.note(ready.is_ending);
            }
        }
    }

    /// Returns its card.
    pub fn card(&self) -> Card {
        self.stand.card
    }

    /// Returns when it is to be visited even if nothing happens.
    pub fn deadline(&self) -> Deadline {
        Deadline {
            ms: self.stand.until,
            moment: u64::MAX,
        }
    }

    /// Returns whether it wants a visit at once.
    pub fn wants_visit(&self) -> bool {
        match &self.listening {
            Some(listening) => listening.is_readable(),
            None => false,
        }
    }

    /// Returns the reason for which it ends once its time is up.
    fn end_cause(&self) -> EndCause
        ensures { result ≡ end_cause_of self.now.listening }
    {
        match &self.listening {
            Some(_) => EndCause::NoLogon,
            None => EndCause::Refused,
        }
    }

    /// Returns its row in STATUS.
    pub fn status(&self) -> ConnectionStatus {
        let card = self.stand.card;
        ConnectionStatus {
            number: card.number,
            firm: 0,
            port: card.port,
            since: card.since.get(),
            heard: card.heard.get(),
            expected: 1,
            next: 1,
            bytes_in: card.bytes,
            bytes_out: 0,
            held: 0,
        }
    }
}

impl<I: Read + Drop, O: Drop> Knocker<I, O> {
    /// Listens to it once, unless it was turned away. A connection that is turned away is closed silently after a second, and one that
    /// sends no whole message within 30 seconds is closed too.
    pub fn visit(
        self,
        alloc: Global,
        guard: Guard<'_>,
        buffer: &mut TurnBuffer,
        now: &Now,
    ) -> Result<Knocked<I, O>, EndCause>
        ensures visited { IfOk result (IsVisited I.remaining (option_map (λ secrets. secrets.now) guard.entry.secrets) guard.entry.firms.now self) }
        ensures ended { IfErr result (EndsBy I.remaining now.now.ms self) }
    {
        if self.stand.until <= now.ms {
            return Err(self.end_cause());
        }
        let Knocker { listening, stand } = self;
        let Some(listening) = listening else {
            return Ok(Knocked::Stays(Knocker {
                listening: None,
                stand,
            }));
        };
        match listening.listen(alloc, stand.guard(guard), buffer) {
            Ok(listened) => stand.after(listened, now),
            Err(_) => Err(EndCause::Memory),
        }
    }
}
