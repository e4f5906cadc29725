//! A connection at its place in a worker: its exchange, its stage, and what waits.

ghost use Rattle.std.specs.Prelude.{◌≡◌, ◌≤◌, true, false, length, IfOk};
ghost use Rattle.gu_lease.specs.Permits.{MayLeave};
ghost use Rattle.gu_talks.specs.Marks.{MarksAll};
ghost use Rattle.gu_workers.specs.Admitting.{inside};

use crate::admission::Admission;
use crate::admitting_house::AdmittingHouse;
use crate::card::Card;
use crate::stage::{Deadline, HANG_UP_MS, LOGOUT_MS, Stage};
use crate::timer::Now;
use gu_engine::{House, Turned};
use gu_lease::Permit;
use gu_log::EndCause;
use gu_posts::ConnectionStatus;
use gu_streams::StreamError;
use gu_talks::{EndsWriting, Ready, Talk, TurnBuffer};
use std::alloc::Global;
use std::io::{Read, Write};

/// Returns why a connection ends if its exchange failed.
pub fn cause_of(error: StreamError) -> EndCause {
    match error {
        StreamError::Memory => EndCause::Memory,
        _ => EndCause::Stream,
    }
}

/// A connection at its place.
#[derive(Drop)]
pub struct Place<I, O> {
    pub(crate) talk: Talk<I, O>,
    pub(crate) stage: Stage,
    pub(crate) card: Card,
    /// Since when, in milliseconds, answers may go and none has gone out.
    pub(crate) held_since: Option<u64>,
    /// Whether entries inform its firm whose notices no turn has sent yet.
    pub(crate) is_told: bool,
}

impl<I: Read + Drop, O: Write + EndsWriting + Drop> Place<I, O> {
    ghost use Rattle.gu_talks.specs.Talks.{HasNothingLeft};
    ghost use Rattle.gu_talks.specs.Visits.{StaysAsItIs};
    ghost use Rattle.gu_workers.specs.Places.{ClosesPlace, GoesOn, GoesOnOrCloses, SendsPlace};
    ghost use Rattle.gu_workers.specs.Stages.{is_leaving};

    /// Creates the place of a connection that begins now.
    pub fn new(talk: Talk<I, O>, card: Card, now: &Now) -> Self
        ensures talk { result.talk ≡ talk }
        ensures card { result.card ≡ card }
        ensures stage { is_leaving result.stage ≡ false }
    {
        Place {
            talk,
            stage: Stage::begin(now),
            card,
            held_since: None,
            is_told: false,
        }
    }

    /// Notes what its streams are ready for.
    pub fn note(&mut self, ready: Ready)
        ensures talk { StaysAsItIs I.remaining self.old.talk self.new.talk }
        ensures same { self.new ≡ record self.old { talk = self.new.talk } }
    {
        self.talk.note(ready);
    }

    /// Notes that its firm is logged on.
    pub fn log_on(&mut self) {
        if matches!(self.stage, Stage::LoggingOn { .. }) {
            self.stage = Stage::Talking;
        }
    }

    /// Notes that nothing more is to be read for its session.
    pub fn stop_reading(&mut self)
        ensures conversation { self.new.talk.conversation ≡ self.old.talk.conversation }
        ensures same { self.new ≡ record self.old { talk = self.new.talk } }
    {
        if !self.stage.is_leaving() {
            self.talk.stop_reading();
        }
    }

    /// Notes that entries up to this number may inform its firm, and returns whether any of them is new to it.
    pub fn tell(&mut self, number: u64) -> bool
        ensures told { result ≡ true → (self.new.talk.conversation.is_behind ≡ true) × (self.new.is_told ≡ true) }
        ensures new { is_leaving self.old.stage ≡ false → self.old.talk.conversation.next ≤ number → result ≡ true }
        ensures old { result ≡ false → self.new ≡ self.old }
    {
        let is_new = !self.stage.is_leaving() && self.talk.tell(number);
        if is_new {
            self.is_told = true;
        }
        is_new
    }

    /// Returns when it is to be visited even if nothing happens, given when the close began, if it did, and how long held answers may wait.
    pub fn deadline(&self, closing: Option<u64>, write_wait_ms: u64) -> Deadline {
        let mut ms = self.stage.drops_at(closing);
        if let Some(since) = self.held_since {
            ms = ms.min(since.saturating_add(write_wait_ms));
        }
        let dropped = Deadline {
            ms,
            moment: u64::MAX,
        };
        if self.stage.is_leaving() || self.talk.is_full() {
            return dropped;
        }
        dropped.min(Deadline::of_session(self.talk.due_at()))
    }

    /// Returns why it ends now if its time is up.
    pub fn overdue(&self, closing: Option<u64>, write_wait_ms: u64, now: &Now) -> Option<EndCause> {
        let since = self.held_since.unwrap_or(u64::MAX);
        if since.saturating_add(write_wait_ms) <= now.ms {
            return Some(EndCause::Silent);
        }
        if self.stage.drops_at(closing) <= now.ms {
            return Some(self.stage.end_cause());
        }
        None
    }

    /// Returns whether it wants a visit at once.
    pub fn wants_visit(&self, is_closing: bool) -> bool {
        match self.stage {
            Stage::GoingOut { .. } => false,
            Stage::HangingUp { .. } => self.talk.is_readable(),
            Stage::LoggingOn { .. } | Stage::Talking => {
                let has_notices = self.is_told && !self.talk.is_full();
                has_notices || self.talk.wants_turn() || (is_closing && !self.talk.has_work())
            }
        }
    }

    /// Makes turns. If its session is over after them, what is held is to go out.
    fn turn<H: House>(
        self,
        alloc: Global,
        house: &mut H,
        buffer: &mut TurnBuffer,
        now: &Now,
    ) -> Result<Self, StreamError>
        ensures { IfOk result (λ gone. GoesOn H.rules I.remaining now.now.moment self house.old gone) }
    {
        let Place {
            mut talk,
            stage,
            card,
            held_since,
            is_told,
        } = self;
        if Deadline::of_session(talk.due_at()).has_come(now) {
            talk.try_read();
        }
        let (talk, turned) = talk.turn(alloc, house, buffer, now.moment)?;
        if matches!(turned, Turned::Stopped) {
            return Err(StreamError::Read);
        }
        let stage = stage.after(turned);
        Ok(Place {
            talk,
            stage,
            card,
            held_since,
            is_told: is_told && turned == Turned::Full,
        })
    }

    /// Ends its session because the house closes.
    fn close<H: House>(self, house: &mut H, now: &Now) -> Result<Self, StreamError>
        requires { HasNothingLeft self.talk }
        ensures { IfOk result (λ closed. ClosesPlace now.now.moment self house.old closed) }
    {
        let Place {
            talk,
            stage: _,
            card,
            held_since,
            is_told: _,
        } = self;
        let wait_ms = if talk.firm().is_some() {
            LOGOUT_MS
        } else {
            HANG_UP_MS
        };
        Ok(Place {
            talk: talk.close(house, now.moment)?,
            stage: Stage::GoingOut { wait_ms },
            card,
            held_since,
            is_told: false,
        })
    }

    /// Makes turns, or ends its session once the house closes and nothing is left to be answered. What there is to send is held.
    pub fn go_on<H: House>(
        self,
        alloc: Global,
        house: &mut H,
        buffer: &mut TurnBuffer,
        now: &Now,
        is_closing: bool,
    ) -> Result<Self, StreamError>
        ensures { IfOk result (λ gone. GoesOnOrCloses H.rules I.remaining now.now.moment is_closing self house.old gone) }
    {
        if is_closing && !self.is_told && !self.talk.has_work() {
            return self.close(house, now);
        }
        self.turn(alloc, house, buffer, now)
    }

    /// Makes turns over a house that admits firms. If its firm has logged on and gets no place, the connection is lost.
    pub fn go_on_admitted<H: House, A: Admission>(
        self,
        alloc: Global,
        house: &mut AdmittingHouse<'_, H, A>,
        buffer: &mut TurnBuffer,
        now: &Now,
        is_closing: bool,
    ) -> Result<Self, StreamError>
        ensures { IfOk result (λ gone. GoesOnOrCloses (inside H.rules) I.remaining now.now.moment is_closing self house.old gone) }
    {
        let place = self.go_on(alloc, house, buffer, now, is_closing)?;
        match place.talk.firm() {
            Some(firm) if !house.admit(&firm) => Err(StreamError::Memory),
            _ => Ok(place),
        }
    }

    /// Marks the answers that were added: none of them shows an entry above this number.
    pub fn mark(&mut self, number: u64)
        ensures conversation { self.new.talk.conversation ≡ self.old.talk.conversation }
        ensures held { self.new.talk.backlog ≡ self.old.talk.backlog }
        ensures marked { MarksAll (length self.old.talk.backlog.held.bytes.items) number self.old.talk.marks self.new.talk.marks }
        ensures same { self.new ≡ record self.old { talk = self.new.talk } }
    {
        self.talk.mark(number);
    }

    /// Returns since when answers may go and none has gone out, given how many bytes had gone out before the last send.
    fn waits_since(&self, kept: u64, before: u64, now: &Now) -> Option<u64> {
        if self.talk.free(kept) == 0 {
            return None;
        }
        match self.held_since {
            Some(since) if self.talk.bytes_out() == before => Some(since),
            _ => Some(now.ms),
        }
    }

    /// Sends by a permit of the desk's gate: as much of what is held as its stream takes and as may go while the permit's number of entries
    /// is kept. If its session is over and all has gone out, it ends its half of the stream.
    pub fn send(mut self, permit: Permit, now: &Now) -> Result<Self, StreamError>
        ensures sends { IfOk result (λ sent. SendsPlace O.contents permit.kept self sent) }
        ensures led { MayLeave permit.lease }
    {
        let before = self.talk.bytes_out();
        let kept = permit.kept();
        self.talk.send(permit)?;
        self.held_since = self.waits_since(kept, before, now);
        match self.stage {
            Stage::GoingOut { wait_ms } if self.talk.held() == 0 => {
                Ok(self.hang_up(now.ms.saturating_add(wait_ms)))
            }
            _ => Ok(self),
        }
    }

    /// Ends its half of the stream, and drops what comes until this time.
    fn hang_up(self, until: u64) -> Self
        ensures conversation { result.talk.conversation ≡ self.talk.conversation }
        ensures backlog { result.talk.backlog ≡ self.talk.backlog }
        ensures marks { result.talk.marks ≡ self.talk.marks }
        ensures card { result.card ≡ self.card }
    {
        let Place {
            talk,
            stage: _,
            card,
            held_since,
            is_told: _,
        } = self;
        Place {
            talk: talk.hang_up(),
            stage: Stage::HangingUp { until },
            card,
            held_since,
            is_told: false,
        }
    }

    /// Drops what comes after all has gone out. It ends once its peer has ended or failed.
    pub fn drain(mut self, buffer: &mut TurnBuffer) -> Result<Self, EndCause>
        ensures conversation { IfOk result (λ left. left.talk.conversation ≡ self.talk.conversation) }
        ensures unsent { IfOk result (λ left. left.talk.writer ≡ self.talk.writer) }
        ensures card { IfOk result (λ left. left.card ≡ self.card) }
    {
        if self.talk.drain(buffer) {
            return Err(EndCause::Done);
        }
        Ok(self)
    }

    /// Returns its row in STATUS.
    pub fn status(&self) -> ConnectionStatus {
        let (expected, next) = self.talk.numbers();
        ConnectionStatus {
            number: self.card.number,
            firm: match self.card.firm {
                Some(firm) => firm.index,
                None => 0,
            },
            port: self.card.port,
            since: self.card.since.get(),
            heard: self.card.heard.get(),
            expected,
            next,
            bytes_in: self.talk.bytes_in(),
            bytes_out: self.talk.bytes_out(),
            held: self.talk.held() as u64,
        }
    }
}
