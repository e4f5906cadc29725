//! A worker: its places, what watches them, and the house that answers them.

ghost use Rattle.std.specs.Prelude.{◌≡◌, Some, IfErr, IfOk};
ghost use Rattle.std.specs.Option.{option_map};
ghost use Rattle.std.specs.Fmt.{option_append};
ghost use Rattle.gu_talks.specs.Visits.{IsNewTalk};
ghost use Rattle.gu_workers.specs.Guests.{BeginsAt};
ghost use Rattle.gu_workers.specs.Places.{LeavesByPermit};
ghost use Rattle.gu_workers.specs.Knockers.{firms_at, firms_let_in};

use crate::admission::Admission;
use crate::admitting_house::AdmittingHouse;
use crate::answers_many::AnswersMany;
use crate::card::{Admitted, Card};
use crate::error::WorkerError;
use crate::firms_here::FirmsHere;
use crate::guest::Guest;
use crate::knocker::{Knocked, Knocker, LetIn, Stand};
use crate::place::{Place, cause_of};
use crate::shared::Shared;
use crate::slots::Slots;
use crate::stage::Deadline;
use crate::timer::{Now, Timer};
use crossbeam_channel::Receiver;
use gu_engine::House;
use gu_knocks::Guard;
use gu_lease::BothClocks;
use gu_log::{EndCause, Refusal};
use gu_notices::FirmPlace;
use gu_posts::{Bell, Call, ConnectionStatus};
use gu_streams::{LONGEST_READ, MOST_READS, StreamError};
use gu_talks::{Halves, Poller, Ready, Talk, TurnBuffer};
use gu_terms::FirmId;
use std::alloc::{AllocError, Global};
use std::sync::Wait;

/// How many connections are noted as ready at once, as a rule.
const MOST_READY: usize = 256;

/// How a worker serves its connections.
#[derive(Clone, Copy, Debug)]
pub struct WorkerSettings {
    /// Which worker it is, from 0 on.
    pub worker: usize,
    /// How many places it has.
    pub places: usize,
    /// How many milliseconds answers may be held of which none goes out.
    pub write_wait_ms: u64,
    /// Whether a connection ends after 1,000,000 reads.
    pub keeps_count: bool,
}

/// What a worker works with.
pub struct WorkerTools<P: Poller, T, H> {
    /// What watches its connections.
    pub poller: P,
    /// What gives it the time.
    pub timer: T,
    /// What answers its connections.
    pub house: H,
    /// Where its connections come from.
    pub calls: Receiver<Call<P::Call>>,
}

/// What became of a round.
#[derive(Clone, Copy, Debug, PartialEq, Eq)]
pub enum Round {
    /// There is or may be more to do.
    GoesOn,
    /// No more connections come, and the last has ended.
    Over,
}

/// A worker, which turns many connections. It opens nothing and starts nothing: what it reads, writes and waits for is what its poller
/// gives.
pub struct Worker<'a, P: Poller, T, H, A, B, C> {
    pub(crate) alloc: Global,
    pub(crate) shared: Shared<'a, A, B, C>,
    pub(crate) settings: WorkerSettings,
    pub(crate) poller: P,
    pub(crate) timer: T,
    pub(crate) house: AdmittingHouse<'a, H, A>,
    pub(crate) calls: Receiver<Call<P::Call>>,
    /// Whether no more connections come.
    pub(crate) has_all_calls: bool,
    pub(crate) slots: Slots<P::Incoming, P::Outgoing>,
    pub(crate) firms_here: FirmsHere,
    /// The connections that are ready, as the poller says.
    pub(crate) ready: Vec<Ready>,
    /// Where turns put what they read.
    pub(crate) buffer: TurnBuffer,
    /// No deadline of a place comes before this one.
    pub(crate) earliest: Deadline,
    /// The milliseconds at which it saw that the day is being closed.
    pub(crate) closing: Option<u64>,
    /// How many entries were kept in this round: no answer goes out that shows more.
    pub(crate) kept: u64,
}

impl<'a, P: Poller + Drop, T: Drop, H: Drop, A, B, C> Drop for Worker<'a, P, T, H, A, B, C> {
    fn drop(self) {
        let Worker {
            alloc: _,
            shared: _,
            settings: _,
            poller,
            timer,
            house,
            calls,
            has_all_calls: _,
            slots,
            firms_here,
            ready,
            buffer: _,
            earliest: _,
            closing: _,
            kept: _,
        } = self;
        drop(poller);
        drop(timer);
        drop(house);
        drop(calls);
        drop(slots);
        drop(firms_here);
        drop(ready);
    }
}

impl<
    'a,
    P: Poller + Drop,
    T: Timer + Drop,
    H: House + AnswersMany + Drop,
    A: Admission,
    B: Bell,
    C: BothClocks,
> Worker<'a, P, T, H, A, B, C> {
    /// Creates a worker whose places are free. Where an allocation fails, the house comes back.
    pub fn new(
        alloc: Global,
        shared: Shared<'a, A, B, C>,
        settings: WorkerSettings,
        tools: WorkerTools<P, T, H>,
    ) -> Result<Self, H>
        ensures { IfErr result (λ house. house ≡ tools.house) }
    {
        let WorkerTools {
            poller,
            timer,
            house,
            calls,
        } = tools;
        let Ok(slots) = Slots::new(alloc, settings.places) else {
            return Err(house);
        };
        let Ok(ready) = Vec::with_capacity(alloc, MOST_READY) else {
            return Err(house);
        };
        Ok(Worker {
            alloc,
            shared,
            settings,
            poller,
            timer,
            house: AdmittingHouse::new(house, shared.admission),
            calls,
            has_all_calls: false,
            slots,
            firms_here: FirmsHere::new(),
            ready,
            buffer: [0; LONGEST_READ],
            earliest: Deadline::never(),
            closing: None,
            kept: shared.posts.kept(),
        })
    }

    /// Returns the house, which outlives it.
    pub fn into_house(self) -> H
        ensures { result ≡ self.entry.house.house }
    {
        let Worker {
            alloc: _,
            shared: _,
            settings: _,
            poller,
            timer,
            house,
            calls,
            has_all_calls: _,
            slots,
            firms_here,
            ready,
            buffer: _,
            earliest: _,
            closing: _,
            kept: _,
        } = self;
        drop(poller);
        drop(timer);
        drop(calls);
        drop(slots);
        drop(firms_here);
        drop(ready);
        house.into_house()
    }

    /// Returns the place of a firm in the reference's list, from 1 on; 0 if it isn't there.
    fn index_of(&self, firm: &FirmId) -> u64 {
        match self.shared.firms.iter().position(|one| one == firm) {
            Some(index) => (index as u64).saturating_add(1),
            None => 0,
        }
    }

    /// Notes the firm of a connection, if it was admitted in this visit: from now on the worker is woken for what informs it.
    fn note_firm(&mut self, card: &mut Card) {
        let Some(firm) = self.house.firm() else {
            return;
        };
        if card.firm.is_some() {
            return;
        }
        card.fault = None;
        card.caller = Some(firm);
        card.firm = Some(Admitted {
            firm,
            index: self.index_of(&firm),
        });
        let firm_place = FirmPlace::of(&firm);
        self.firms_here.add(firm_place);
        self.shared
            .posts
            .set_firm(self.settings.worker, firm_place, true);
    }

    /// Goes on with a session, over the house of this worker. Its firm is admitted before it gets any answer or notice; if it isn't
    /// admitted, the connection ends.
    fn turn(
        &mut self,
        place: PlaceOf<P>,
        card: &mut Card,
        now: &Now,
    ) -> Result<PlaceOf<P>, StreamError> {
        self.house.resume(card);
        let went = place.go_on_admitted(
            self.alloc,
            &mut self.house,
            &mut self.buffer,
            now,
            self.closing.is_some(),
        );
        card.give_ups = self.house.give_ups();
        self.note_firm(card);
        went
    }

    /// Sends what a connection holds and may go, by a permit that the gate gives now. If the desk doesn't lead, nothing leaves.
    fn send<R: Wait>(&self, rt: &R, place: PlaceOf<P>, now: &Now) -> Result<PlaceOf<P>, EndCause>
        ensures { IfOk result (LeavesByPermit P.Outgoing.contents self.now.kept place) }
    {
        let Some(permit) = self.shared.gate.ask(rt, self.kept) else {
            return Ok(place);
        };
        match place.send(permit, now) {
            Ok(sent) => Ok(sent),
            Err(error) => Err(cause_of(error)),
        }
    }

    /// Goes on with the end of a connection whose session is over.
    fn leave<R: Wait>(
        &mut self,
        rt: &R,
        place: PlaceOf<P>,
        now: &Now,
    ) -> Result<PlaceOf<P>, EndCause> {
        if place.stage.is_hanging_up() {
            return place.drain(&mut self.buffer);
        }
        self.send(rt, place, now)
    }

    /// Makes a visit: the session goes on, and what is held goes out.
    fn go_on<R: Wait>(
        &mut self,
        rt: &R,
        place: PlaceOf<P>,
        card: &mut Card,
        now: &Now,
    ) -> Result<PlaceOf<P>, EndCause> {
        if let Some(cause) = place.overdue(self.closing, self.settings.write_wait_ms, now) {
            return Err(cause);
        }
        if place.stage.is_leaving() {
            return self.leave(rt, place, now);
        }
        let was_admitted = card.firm.is_some();
        let mut place = match self.turn(place, card, now) {
            Ok(place) => place,
            Err(_) if self.house.has_refused() => return Err(EndCause::Refused),
            Err(error) => return Err(cause_of(error)),
        };
        if let Some(firm) = card.firm()
            && !was_admitted
        {
            place.log_on();
            place.tell(self.shared.posts.number(FirmPlace::of(&firm)));
        }
        place.mark(self.house.seen());
        self.send(rt, place, now)
    }

    /// Sends what a connection has held back and may go now, and puts it back at its place.
    pub(crate) fn release<R: Wait>(
        &mut self,
        rt: &R,
        at: usize,
        guest: GuestOf<P>,
        now: &Now,
    ) -> Result<(), AllocError> {
        let place = match guest {
            Guest::Talks(place) => place,
            Guest::Knocks(knocker) => return self.keep_knocker(at, knocker),
        };
        let card = place.card;
        match self.send(rt, place, now) {
            Ok(place) => self.keep(at, place, card, now),
            Err(cause) => self.end(at, card, cause),
        }
    }

    /// Visits a connection, and puts it back at its place unless it has ended.
    pub(crate) fn visit<R: Wait>(
        &mut self,
        rt: &R,
        at: usize,
        guest: GuestOf<P>,
        now: &Now,
    ) -> Result<(), AllocError> {
        match guest {
            Guest::Talks(place) => self.visit_place(rt, at, place, now),
            Guest::Knocks(knocker) => self.visit_knocker(rt, at, knocker, now),
        }
    }

    /// Visits a connection that has a session.
    fn visit_place<R: Wait>(
        &mut self,
        rt: &R,
        at: usize,
        place: PlaceOf<P>,
        now: &Now,
    ) -> Result<(), AllocError> {
        let mut card = place.card;
        let went = self.go_on(rt, place, &mut card, now);
        match went {
            Ok(place) => self.keep(at, place, card, now),
            Err(cause) => self.end(at, card, cause),
        }
    }

    /// Visits a connection whose firm isn't known yet. Once the day is closing, nobody is let in.
    fn visit_knocker<R: Wait>(
        &mut self,
        rt: &R,
        at: usize,
        knocker: KnockerOf<P>,
        now: &Now,
    ) -> Result<(), AllocError> {
        let card = knocker.card();
        if self.closing.is_some() {
            drop(knocker);
            return self.end(at, card, EndCause::Closing);
        }
        let guard = Guard {
            secrets: self.shared.secrets,
            firms: self.shared.firms,
        };
        match knocker.visit(self.alloc, guard, &mut self.buffer, now) {
            Ok(Knocked::Stays(knocker)) => self.keep_knocker(at, knocker),
            Ok(Knocked::TurnedAway(knocker, shown)) => {
                let admission = self.shared.admission;
                admission.refuse(card.number, shown.firm, shown.fault);
                self.keep_knocker(at, knocker)
            }
            Ok(Knocked::Enters(let_in)) => self.enter(rt, at, let_in, now),
            Err(cause) => self.end(at, card, cause),
        }
    }

    /// Puts a connection whose firm isn't known yet at its place, and lists it if it wants another visit.
    fn keep_knocker(&mut self, at: usize, knocker: KnockerOf<P>) -> Result<(), AllocError> {
        self.show(at, &knocker.status());
        self.earliest = self.earliest.min(knocker.deadline());
        let wants_visit = knocker.wants_visit();
        self.slots.put(at, Guest::Knocks(knocker));
        if wants_visit {
            self.slots.list(at)?;
        }
        Ok(())
    }

    /// Returns the place of a connection that is let in. Its session begins: the firm that is let in may log on, and the session reads all
    /// that was said and then what comes.
    fn seat(&self, let_in: LetInOf<P>, now: &Now) -> Result<PlaceOf<P>, EndCause>
        ensures { IfOk result (λ place. IsNewTalk place.talk (firms_let_in let_in.firm let_in.door self.now.shared.firms.now)
            (option_append (Some let_in.halves.said.items) (P.Incoming.remaining let_in.halves.incoming)) P.Incoming.remaining) }
    {
        let LetIn {
            firm,
            door,
            halves,
            card,
        } = let_in;
        let Ok(firms) = self.firms_at(firm.or(door)) else {
            return Err(EndCause::Memory);
        };
        let talk = Talk::new(self.alloc, firms, halves, self.reads());
        Ok(Place::new(talk, card, now))
    }

    /// Begins the session of a connection that is let in, and visits it.
    fn enter<R: Wait>(
        &mut self,
        rt: &R,
        at: usize,
        let_in: LetInOf<P>,
        now: &Now,
    ) -> Result<(), AllocError> {
        let card = let_in.card;
        match self.seat(let_in, now) {
            Ok(place) => self.visit_place(rt, at, place, now),
            Err(cause) => self.end(at, card, cause),
        }
    }

    /// Releases the firm of a connection, if one was admitted: the connection gets no more notices, and the firm may have one more place.
    fn let_go(&mut self, card: &mut Card) {
        let Some(admitted) = card.firm else {
            return;
        };
        card.firm = None;
        let firm_place = FirmPlace::of(&admitted.firm);
        if self.firms_here.remove(firm_place) {
            self.shared
                .posts
                .set_firm(self.settings.worker, firm_place, false);
        }
        self.shared.admission.release(&admitted.firm);
    }

    /// Reports why a connection's session refused its first message, if it did and the message was looked at.
    fn note_refusal(&self, card: &mut Card) {
        if let Some(fault) = card.fault {
            card.fault = None;
            self.shared.admission.refuse(card.number, None, fault);
        }
    }

    /// Puts a connection at its place, and lists it if it wants another visit or holds answers back. One whose session is over no longer
    /// counts for its firm, so an engine that logs out finds a place again at once.
    fn keep(
        &mut self,
        at: usize,
        mut place: PlaceOf<P>,
        mut card: Card,
        now: &Now,
    ) -> Result<(), AllocError> {
        card.note_bytes(place.talk.bytes_in(), now.moment);
        if place.stage.is_leaving() {
            self.note_refusal(&mut card);
            self.let_go(&mut card);
        }
        place.card = card;
        self.show(at, &place.status());
        let deadline = place.deadline(self.closing, self.settings.write_wait_ms);
        self.earliest = self.earliest.min(deadline);
        let wants_visit = place.wants_visit(self.closing.is_some());
        let holds_back = place.talk.is_held_back(self.kept);
        self.slots.put(at, Guest::Talks(place));
        if wants_visit {
            self.slots.list(at)?;
        }
        if holds_back {
            self.slots.hold_back(at)?;
        }
        Ok(())
    }

    /// Updates the row of a connection in STATUS.
    fn show(&self, at: usize, status: &ConnectionStatus) {
        if let Some(post) = self.shared.posts.post(self.settings.worker) {
            if let Some(row) = post.rows().get(at) {
                row.write(status);
            }
        }
    }

    /// Frees the place of a connection that has ended.
    pub(crate) fn end(
        &mut self,
        at: usize,
        mut card: Card,
        cause: EndCause,
    ) -> Result<(), AllocError> {
        self.let_go(&mut card);
        let posts = self.shared.posts;
        let worker = self.settings.worker;
        self.shared.admission.end(card.number, card.caller, cause);
        if let Some(post) = posts.post(worker) {
            if let Some(row) = post.rows().get(at) {
                row.clear();
            }
        }
        posts.end_connection(worker);
        self.slots.give_back(at)
    }

    /// Returns how many reads a connection may make.
    fn reads(&self) -> u64 {
        if self.settings.keeps_count {
            u64::from(MOST_READS)
        } else {
            u64::MAX
        }
    }

    /// Returns a copy of the firms that may log on at this door.
    fn firms_at(&self, door: Option<FirmId>) -> Result<Vec<FirmId>, AllocError>
        ensures { IfOk result (λ firms. firms.items ≡ firms_at door self.now.shared.firms.now) }
    {
        match door {
            Some(firm) => Vec::from_slice(self.alloc, &[firm]),
            None => Vec::from_slice(self.alloc, self.shared.firms),
        }
    }

    /// Begins to serve a connection at a place. If its first message is looked at, it is listened to before there is a session.
    fn open(&mut self, call: Call<P::Call>, at: usize, now: &Now) -> Result<GuestOf<P>, EndCause>
        ensures { IfOk result (BeginsAt self.old.shared.firms.now call.door (option_map (λ secrets. secrets.now) self.old.shared.secrets)) }
    {
        let Call {
            stream,
            number,
            port,
            door,
        } = call;
        let card = Card::new(number, port, now.moment);
        let Ok((incoming, outgoing)) = self.poller.watch(stream, at) else {
            return Err(EndCause::Stream);
        };
        if self.shared.secrets.is_some() || self.shared.looks {
            let stand = Stand::new(outgoing, door, card, now);
            return Ok(Guest::Knocks(Knocker::new(self.alloc, incoming, stand)));
        }
        let Ok(firms) = self.firms_at(door) else {
            return Err(EndCause::Memory);
        };
        let halves = Halves {
            said: Vec::new(self.alloc),
            incoming,
            outgoing,
        };
        let talk = Talk::new(self.alloc, firms, halves, self.reads());
        Ok(Guest::Talks(Place::new(talk, card, now)))
    }

    /// Takes a connection that has come. If no place is free, or the day is closing, it is closed silently.
    pub(crate) fn take_call(&mut self, call: Call<P::Call>, now: &Now) -> Result<(), AllocError> {
        let free = if self.closing.is_none() {
            self.slots.take_free()
        } else {
            None
        };
        let Some(at) = free else {
            let reason = if self.closing.is_some() {
                Refusal::Closing
            } else {
                Refusal::Full
            };
            self.shared.admission.turn_away(call.number, reason);
            drop(call);
            self.shared.posts.end_connection(self.settings.worker);
            return Ok(());
        };
        self.shared.admission.begin();
        let card = Card::new(call.number, call.port, now.moment);
        match self.open(call, at, now) {
            Ok(Guest::Talks(place)) => self.keep(at, place, card, now),
            Ok(Guest::Knocks(knocker)) => self.keep_knocker(at, knocker),
            Err(cause) => self.end(at, card, cause),
        }
    }
}

/// The connection at a place, over the streams of its worker's poller.
pub type GuestOf<P> = Guest<<P as Poller>::Incoming, <P as Poller>::Outgoing>;

/// A connection with a session, over the streams of its worker's poller.
pub type PlaceOf<P> = Place<<P as Poller>::Incoming, <P as Poller>::Outgoing>;

/// A connection whose firm isn't known yet, over the streams of its worker's poller.
pub type KnockerOf<P> = Knocker<<P as Poller>::Incoming, <P as Poller>::Outgoing>;

/// A connection that is let in, over the streams of its worker's poller.
pub type LetInOf<P> = LetIn<<P as Poller>::Incoming, <P as Poller>::Outgoing>;
