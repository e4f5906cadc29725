//! A firm's connection: its session, the house that answers it, and a clock.

ghost use Rattle.std.specs.Prelude.{◌≡◌, ◌<◌, ◌^◌, ◌++◌, ◌||◌, [], not, List, Option, ℕ, true, IfOk, OnErr, OnOk};
ghost use Rattle.gu_engine.specs.Exchange.{AnswersAny, AnswersAsked, AnswersFrame, ClosesSession, EndsSession, IsNew, SendsAny, SendsNotice, SendsStretch, TakesInput, TellsStretch, Ticks, Waits, conversation_of, is_due, resumed};
ghost use Rattle.gu_engine.specs.Running.{AnswersEach};
ghost use Rattle.gu_session.specs.declared.input.Input.TheVariants.{Answer as AnswerOf, Frame as FrameOf};
ghost use Rattle.gu_session.specs.declared.output.Asked.{Asked as AskedOf};

use crate::answerer::Answerer;
use crate::clock::{Clock, ClockFault};
use crate::conversation::Conversation;
use crate::event::Event;
use crate::house::{Answered, Ask, House};
use gu_fix::Frame;
use gu_session::{AskRef, Asked, Outcome, Session, Taken};
use gu_terms::{FirmId, Moment, Notice, Stretch};
use std::alloc::{AllocError, Global};

/// A connection of a firm.
#[derive(Drop)]
pub struct Connection<H, C> {
    house: H,
    session: Session,
    /// The first entry whose notices the firm hasn't received.
    next: u64,
    /// Whether there may be such notices.
    is_behind: bool,
    clock: C,
    /// Whether the session has ended.
    is_over: bool,
}

impl<H, C> Connection<H, C> {
    /// Returns a connection in which one of these firms may log on. Its notices begin with the first entry.
    pub fn new(alloc: Global, firms: Vec<FirmId>, house: H, clock: C) -> Self
        ensures { IsNew result firms.items house clock }
    {
        Connection::resume(Conversation::new(alloc, firms), house, clock)
    }

    /// Returns a connection that resumes a conversation with this house and this clock.
    pub fn resume(conversation: Conversation, house: H, clock: C) -> Self
        ensures { result ≡ resumed conversation house clock }
    {
        let Conversation {
            session,
            next,
            is_behind,
            is_over,
        } = conversation;
        Connection {
            house,
            session,
            next,
            is_behind,
            clock,
            is_over,
        }
    }

    /// Returns the conversation, to be resumed later.
    pub fn rest(self) -> Conversation
    where
        H: Drop,
        C: Drop,
        ensures { result ≡ conversation_of self }
    {
        let Connection {
            house,
            session,
            next,
            is_behind,
            clock,
            is_over,
        } = self;
        drop(house);
        drop(clock);
        Conversation {
            session,
            next,
            is_behind,
            is_over,
        }
    }

    /// Returns its house.
    pub fn house(&self) -> &H
        ensures { result.now ≡ self.now.house }
    {
        &self.house
    }

    /// Returns its house by value.
    pub fn into_house(self) -> H
    where
        C: Drop,
        ensures { result ≡ self.house }
    {
        let Connection {
            house,
            session,
            next: _,
            is_behind: _,
            clock,
            is_over: _,
        } = self;
        drop(session);
        drop(clock);
        house
    }

    /// Records the outputs of a step apart from its messages, and returns its request to the house.
    fn note(&mut self, taken: Taken) -> Option<Asked>
        ensures asked { result ≡ taken.handed }
        ensures over { self.new ≡ record self.old { is_over = self.old.is_over || taken.is_closed } }
    {
        let Taken { handed, is_closed } = taken;
        self.is_over = self.is_over || is_closed;
        handed
    }

    /// Records that notices may be due.
    fn wait(&mut self)
        ensures { Waits self.old [] self.new }
    {
        self.is_behind = true;
    }

    /// Gives the session a frame, appends the bytes that it sends, and returns its request to the house.
    fn hear(
        &mut self,
        frame: Frame,
        now: Moment,
        output: &mut Vec<u8>,
    ) -> Result<Option<Asked>, AllocError>
        ensures { IfOk result (λ asked. (text : List ℕ) × (output.new.items ≡ output.old.items ++ text)
            × TakesInput self.old (FrameOf frame) now asked text self.new) }
    {
        let taken = self.session.frame_onto(frame, now, output)?;
        Ok(self.note(taken))
    }

    /// Sends a notice.
    fn send_one(
        &mut self,
        notice: &Notice,
        now: Moment,
        output: &mut Vec<u8>,
    ) -> Result<(), AllocError>
        ensures sent { OnOk result ((text : List ℕ) × (output.new.items ≡ output.old.items ++ text)
            × SendsNotice now self.old notice.now text self.new) }
    {
        let taken = self.session.notice_onto(notice, now, output)?;
        drop(self.note(taken));
        Ok(())
    }

    /// Sends notices.
    fn send_all(
        &mut self,
        notices: Vec<Notice>,
        now: Moment,
        output: &mut Vec<u8>,
    ) -> Result<(), AllocError>
        ensures sent { OnOk result ((text : List ℕ) × (output.new.items ≡ output.old.items ++ text)
            × AnswersEach (SendsNotice now) self.old notices.items text self.new) }
        ensures place { OnOk result ((self.new.next ≡ self.old.next) × (self.new.is_behind ≡ self.old.is_behind)) }
    {
        for notice in notices {
            self.send_one(&notice, now, output)?;
        }
        Ok(())
    }

    /// Sends a batch of notices. More are due unless it is the last.
    fn send_stretch(
        &mut self,
        stretch: Stretch,
        now: Moment,
        output: &mut Vec<u8>,
    ) -> Result<(), AllocError>
        ensures sent { OnOk result ((text : List ℕ) × (output.new.items ≡ output.old.items ++ text)
            × SendsStretch now self.old stretch text self.new) }
        ensures place { OnOk result (self.new.next ≡ stretch.notices.next) }
        ensures more { OnOk result (self.new.is_behind ≡ not stretch.is_last) }
    {
        let Stretch { notices, is_last } = stretch;
        self.next = notices.next;
        self.is_behind = !is_last;
        self.send_all(notices.list, now, output)
    }

    /// Sends the notices that the house added to its answer. If it added none, some may be due.
    fn send_any(
        &mut self,
        stretch: Option<Stretch>,
        now: Moment,
        output: &mut Vec<u8>,
    ) -> Result<(), AllocError>
        ensures { OnOk result ((text : List ℕ) × (output.new.items ≡ output.old.items ++ text)
            × SendsAny now self.old stretch text self.new) }
    {
        match stretch {
            Some(stretch) => self.send_stretch(stretch, now, output),
            None => Ok(self.wait()),
        }
    }

    /// Gives the session the answer to its request.
    fn reply(
        &mut self,
        reference: AskRef,
        outcome: &Outcome,
        now: Moment,
        output: &mut Vec<u8>,
    ) -> Result<(), AllocError>
        ensures { OnOk result ((text : List ℕ) × (output.new.items ≡ output.old.items ++ text)
            × (further : Option AskedOf) × TakesInput self.old (AnswerOf reference outcome.now) now further text self.new) }
    {
        let taken = self.session.answer_onto(reference, outcome, now, output)?;
        drop(self.note(taken));
        Ok(())
    }

    /// Gives the session a tick.
    fn tick(&mut self, now: Moment, output: &mut Vec<u8>) -> Result<(), AllocError>
        ensures { OnOk result ((text : List ℕ) × (output.new.items ≡ output.old.items ++ text)
            × Ticks now self.old text self.new) }
    {
        let taken = self.session.tick_onto(now, output)?;
        drop(self.note(taken));
        Ok(())
    }

    /// Closes the session, as the house closes: a logged-on firm is sent a Logout. After an error nothing has changed.
    pub fn close(&mut self, now: Moment, output: &mut Vec<u8>) -> Result<(), AllocError>
        ensures closed { OnOk result ((text : List ℕ) × (output.new.items ≡ output.old.items ++ text)
            × ClosesSession now self.old text self.new) }
        ensures refused { OnErr result (self.new ≡ self.old) }
        ensures kept { OnErr result (output.new.items ≡ output.old.items) }
    {
        let taken = self.session.close_onto(now, output)?;
        drop(self.note(taken));
        Ok(())
    }

    /// Ends the session's input. It sends nothing then, at any moment.
    pub fn end(&mut self)
        ensures { EndsSession self.old self.new }
    {
        let taken = self.session.end();
        drop(self.note(taken));
    }
}

impl<H: House, C> Connection<H, C> {
    /// Gets the house's answer to a request, gives it to the session, and then sends the notices that the house added.
    fn answer_asked(
        &mut self,
        asked: Asked,
        now: Moment,
        output: &mut Vec<u8>,
    ) -> Result<(), AllocError>
        ensures { OnOk result ((text : List ℕ) × (output.new.items ≡ output.old.items ++ text)
            × AnswersAsked H.rules now self.old asked text self.new) }
    {
        let Asked { what, reference } = asked;
        let ask = Ask {
            firm: what.firm(),
            number: reference.get(),
            now,
            request: what.into_inner(),
        };
        let Answered { outcome, stretch } = self.house.answer(ask, self.next)?;
        self.reply(reference, &outcome, now, output)?;
        self.send_any(stretch, now, output)
    }

    /// Answers the request, if there is one. If not, notices may be due all the same.
    fn answer_any(
        &mut self,
        asked: Option<Asked>,
        now: Moment,
        output: &mut Vec<u8>,
    ) -> Result<(), AllocError>
        ensures { OnOk result ((text : List ℕ) × (output.new.items ≡ output.old.items ++ text)
            × AnswersAny H.rules now self.old asked text self.new) }
    {
        match asked {
            Some(asked) => self.answer_asked(asked, now, output),
            None => Ok(self.wait()),
        }
    }

    /// Answers a frame.
    fn answer_frame(
        &mut self,
        frame: Frame,
        now: Moment,
        output: &mut Vec<u8>,
    ) -> Result<(), AllocError>
        ensures { OnOk result ((text : List ℕ) × (output.new.items ≡ output.old.items ++ text)
            × AnswersFrame H.rules now self.old frame text self.new) }
    {
        let asked = self.hear(frame, now, output)?;
        self.answer_any(asked, now, output)
    }

    /// Sends the logged-on firm a batch of the notices that it hasn't received.
    fn tell_stretch(&mut self, now: Moment, output: &mut Vec<u8>) -> Result<(), AllocError>
        requires { is_due self.old ≡ true }
        ensures told { OnOk result ((text : List ℕ) × (output.new.items ≡ output.old.items ++ text)
            × TellsStretch H.rules now self.old text self.new) }
        ensures onwards { OnOk result (self.new.is_behind ≡ true → self.old.next < self.new.next) }
        ensures within { OnOk result (self.old.next < 2 ^ 64) }
    {
        let Some(firm) = self.session.firm() else {
            return Ok(());
        };
        let stretch = self.house.notices(&firm, self.next)?;
        self.send_stretch(stretch, now, output)
    }
}

impl<H: House, C: Clock> Answerer for Connection<H, C> {
    ghost use Rattle.std.specs.Prelude.{◌-◌, if◌then◌else◌};
    ghost use Rattle.gu_engine.specs.Exchange.{exchange, is_due};

    ghost engine = { exchange H.rules C.ahead C.has_failed };

    ghost parts_left = { λ connection. if is_due connection then 2 ^ 64 - connection.next else 0 };

    fn is_done(&self) -> bool {
        self.is_over
    }

    fn is_due(&self) -> bool {
        self.is_behind && !self.is_over && self.session.firm().is_some()
    }

    fn begin_turn(&mut self) -> Result<Moment, ClockFault> {
        self.clock.now()
    }

    fn answer(
        &mut self,
        event: Event,
        now: Moment,
        output: &mut Vec<u8>,
    ) -> Result<(), AllocError> {
        match event {
            Event::Frame(frame) => self.answer_frame(frame, now, output),
            Event::Silence => Ok(self.wait()),
            Event::More => self.tell_stretch(now, output),
            Event::Over => self.tick(now, output),
        }
    }
}
