//! A session.

ghost use Rattle.std.specs.Prelude.{◌≡◌, [], ◌∷◌, List, ℕ, false, IfOk, OnOk, OnErr};
ghost use Rattle.std.specs.Option.{option_map};
ghost use Rattle.gu_session.specs.Dues.{ActsAt, RestsUntil, expected_of};
ghost use Rattle.gu_session.specs.Encoded.{AreOutputs, Closes};
ghost use Rattle.gu_session.specs.Following.{Follows, FollowsOnto, one_message_course, request_course};
ghost use Rattle.gu_session.specs.Outputs.{StepsOnto};
ghost use Rattle.gu_session.specs.Sending.{closed};
ghost use Rattle.gu_session.specs.States.{new_session};
ghost use Rattle.gu_session.specs.Steps.{StepsWith, frame_course};
ghost use Rattle.gu_session.specs.declared.plan.Course.TheVariants.{Go};
ghost use Rattle.gu_session.specs.declared.logged_on.LoggedOn.{LoggedOn as LoggedOnOf};

use crate::answer::Answer;
use crate::answers::{answer_to, report_answer};
use crate::ask_ref::AskRef;
use crate::carrying::is_over;
use crate::course::{
    answer_course, at_frame, close_course, frame_course, heard_course, message_course, tick_course,
};
use crate::heard::Heard;
use crate::hearing::Reader;
use crate::heartbeat::due_at;
use crate::input::{Input, Outcome};
use crate::logged_on::LoggedOn;
use crate::output::{Output, Taken};
use crate::plan::{Course, Plan};
use crate::sending::{Pen, close, push_taken};
use crate::seq_num::{GREATEST, SeqNum};
use crate::sequence::in_turn;
use crate::state::State;
use gu_fix::Frame;
use gu_msgs::outbound::Body;
use gu_msgs::{Asking, Inbound, OutboundRef, notice_body};
use gu_terms::{FirmId, Moment, Notice};
use std::alloc::{AllocError, Global};
use std::marker::Model;

/// A firm's session with the house. To a contract it is its state.
pub struct Session {
    alloc: Global,
    state: State,
    reader: Reader,
    pen: Pen,
}

impl Drop for Session {
    fn drop(self) {
        let Session {
            alloc: _,
            state,
            reader,
            pen,
        } = self;
        drop(state);
        drop(reader);
        drop(pen);
    }
}

impl Model for Session {
    ghost use Rattle.gu_session.specs.States.{SessionState};

    ghost Value = { SessionState };

    ghost use Rattle.gu_session.specs.Readiness.{IsSoundState, seen};

    ghost view = { λ s. seen s.state };

    ghost invariant = { λ s. IsSoundState s.state };
}

impl Session {
    /// Returns a session in which one of these firms may log on.
    pub fn new(alloc: Global, firms: Vec<FirmId>) -> Self
        ensures { result ≡ new_session firms.items }
    {
        Session {
            alloc,
            state: State::new(alloc, firms),
            reader: Reader::new(alloc),
            pen: Pen::new(alloc),
        }
    }

    /// Returns the firm that logged on.
    pub fn firm(&self) -> Option<FirmId>
        ensures { result ≡ option_map (λ (at : LoggedOnOf). at.firm) self.now.at }
    {
        match &self.state.at {
            Some(at) => Some(at.firm),
            None => None,
        }
    }

    /// Returns the expected MsgSeqNum (34) of the firm's next message (1 before its Logon), and that of the next message to send.
    pub fn numbers(&self) -> (u64, u64)
        ensures expected { result.0 ≡ expected_of self.now }
        ensures next { result.1 ≡ self.now.next }
    {
        match &self.state.at {
            Some(at) => (at.expected, self.state.next),
            None => (1, self.state.next),
        }
    }

    /// Returns the next moment at which a tick does something if no other input comes first, or None if it never does: nobody is logged on,
    /// the session is closed, or there are no heartbeats.
    pub fn due_at(&self) -> Option<Moment>
        ensures rests { RestsUntil self.now result }
        ensures acts { ActsAt self.now result }
    {
        let state = &self.state;
        if state.is_closed {
            return None;
        }
        match &state.at {
            Some(at) => due_at(at, state.sent_at),
            None => None,
        }
    }

    /// Ends the session, and returns that output.
    fn leave(&mut self) -> Result<Vec<Output>, AllocError>
        ensures given { IfOk result (λ outputs. AreOutputs (Closes ∷ []) outputs.items) }
        ensures closed { OnOk result (self.new ≡ closed self.old) }
        ensures refused { OnErr result (self.new ≡ self.old) }
    {
        let outputs = close(self.alloc)?;
        let _ = self.state.close();
        Ok(outputs)
    }

    /// Carries out a plan, and returns its outputs.
    fn give(&mut self, plan: Plan<'_>, now: Moment) -> Result<Vec<Output>, AllocError>
        ensures done { IfOk result (λ outputs. Follows self.old (Go plan.entry) now outputs.items self.new) }
        ensures refused { OnErr result (self.new ≡ self.old) }
    {
        if is_over(self.state.next, &plan) {
            return self.leave();
        }
        self.state.waiting.reserve(1)?;
        let ready = self.state.make_ready(self.alloc, &plan, now)?;
        let mut outputs = self.pen.outputs(&plan, &ready, self.state.next, now)?;
        push_taken(&mut outputs, self.state.commit(plan, ready, now));
        Ok(outputs)
    }

    /// Carries out a course, and returns its outputs.
    fn perform(&mut self, course: Course<'_>, now: Moment) -> Result<Vec<Output>, AllocError>
        ensures done { IfOk result (λ outputs. Follows self.old course.entry now outputs.items self.new) }
        ensures refused { OnErr result (self.new ≡ self.old) }
    {
        match course {
            Course::Stay => Ok(Vec::new(self.alloc)),
            Course::Leave => self.leave(),
            Course::Go(plan) => self.give(plan, now),
        }
    }

    /// Takes an input at a moment, and returns the outputs. If an allocation fails, the session is unchanged.
    pub fn step(&mut self, input: Input, now: Moment) -> Result<Vec<Output>, AllocError>
        ensures steps { IfOk result (λ outputs. StepsWith self.old input now outputs.items self.new) }
        ensures refused { OnErr result (self.new ≡ self.old) }
    {
        let state = &self.state;
        if state.is_closed {
            return Ok(Vec::new(self.alloc));
        }
        match input {
            Input::Frame(frame) => {
                let reader = &mut self.reader;
                let course = frame_course(reader, &state.firms, &state.at, frame, now)?;
                self.perform(course, now)
            }
            Input::Notice(notice) => {
                let body = notice_body(&notice);
                let course = message_course(&state.at, &body);
                self.perform(course, now)
            }
            Input::Answer(reference, outcome) => {
                let answer = answer_to(self.alloc, &state.waiting, reference, &outcome)?;
                let course = answer_course(&state.at, reference, &answer);
                self.perform(course, now)
            }
            Input::Tick => {
                let course = tick_course(self.alloc, &state.at, state.sent_at, now)?;
                self.perform(course, now)
            }
            Input::End => self.perform(Course::Leave, now),
            Input::Close => {
                let course = close_course(self.alloc, &state.at)?;
                self.perform(course, now)
            }
        }
    }

    /// Carries out a plan, and appends the bytes to send.
    fn carry_out(
        &mut self,
        plan: Plan<'_>,
        now: Moment,
        output: &mut Vec<u8>,
    ) -> Result<Taken, AllocError>
        ensures done { IfOk result (λ taken. FollowsOnto self.old (Go plan.entry) now output.old.items output.new.items taken self.new) }
        ensures refused { OnErr result (self.new ≡ self.old) }
        ensures kept { OnErr result (output.new.items ≡ output.old.items) }
    {
        if is_over(self.state.next, &plan) {
            return Ok(self.state.close());
        }
        self.state.waiting.reserve(1)?;
        let ready = self.state.make_ready(self.alloc, &plan, now)?;
        self.pen
            .append(output, &plan, &ready, self.state.next, now)?;
        Ok(self.state.commit(plan, ready, now))
    }

    /// Carries out a course, and appends the bytes to send.
    #[inline(always)]
    fn follow(
        &mut self,
        course: Course<'_>,
        now: Moment,
        output: &mut Vec<u8>,
    ) -> Result<Taken, AllocError>
        ensures done { IfOk result (λ taken. FollowsOnto self.old course.entry now output.old.items output.new.items taken self.new) }
        ensures refused { OnErr result (self.new ≡ self.old) }
        ensures kept { OnErr result (output.new.items ≡ output.old.items) }
    {
        match course {
            Course::Stay => Ok(Taken::nothing()),
            Course::Leave => Ok(self.state.close()),
            Course::Go(plan) => self.carry_out(plan, now, output),
        }
    }

    /// Sends a message once a firm is logged on. It may answer a request.
    fn send(
        &mut self,
        body: &Body,
        answered: Option<AskRef>,
        now: Moment,
        output: &mut Vec<u8>,
    ) -> Result<Taken, AllocError>
        requires { self.old.is_closed ≡ false }
        ensures done { IfOk result (λ taken. FollowsOnto self.old (one_message_course self.old.at body.now answered) now output.old.items output.new.items taken self.new) }
        ensures refused { OnErr result (self.new ≡ self.old) }
        ensures kept { OnErr result (output.new.items ≡ output.old.items) }
    {
        let Some(at) = &self.state.at else {
            return Ok(Taken::nothing());
        };
        if self.state.next > GREATEST {
            return Ok(self.state.close());
        }
        let message = OutboundRef {
            firm: at.firm,
            msg_seq_num: self.state.next,
            sending_time: now,
            orig_sending_time: None,
            body,
        };
        self.pen.push(output, &message)?;
        self.state.note_sent(&message, answered);
        Ok(Taken::nothing())
    }

    /// Hands out the request in a message with the expected number. Nothing is sent.
    fn hand_out(&mut self, number: SeqNum, asking: Asking, now: Moment) -> Result<Taken, AllocError>
        requires { self.old.is_closed ≡ false }
        ensures done { IfOk result (λ taken. (text : List ℕ) → FollowsOnto self.old (request_course self.old.at number asking now) now text text taken self.new) }
        ensures refused { OnErr result (self.new ≡ self.old) }
    {
        let Some(at) = &self.state.at else {
            return Ok(Taken::nothing());
        };
        let after = LoggedOn {
            expected: number.get() + 1,
            ..at_frame(at, now)
        };
        self.state.waiting.reserve(1)?;
        Ok(self.state.hand_out(&after, number, asking))
    }

    /// Carries out what a frame with this content asks for, and appends the bytes to send.
    #[inline(never)]
    fn take_any(
        &mut self,
        heard: Heard,
        now: Moment,
        output: &mut Vec<u8>,
    ) -> Result<Taken, AllocError>
        ensures done { IfOk result (λ taken. FollowsOnto self.old (frame_course self.old.firms self.old.at heard now) now output.old.items output.new.items taken self.new) }
        ensures refused { OnErr result (self.new ≡ self.old) }
        ensures kept { OnErr result (output.new.items ≡ output.old.items) }
    {
        let course = heard_course(self.alloc, &self.state.firms, &self.state.at, heard, now)?;
        self.follow(course, now, output)
    }

    /// Does the same. Most frames bring a request whose number was expected, which is handed out without a plan.
    #[inline(always)]
    fn take_in(
        &mut self,
        heard: Heard,
        now: Moment,
        output: &mut Vec<u8>,
    ) -> Result<Taken, AllocError>
        requires { self.old.is_closed ≡ false }
        ensures done { IfOk result (λ taken. FollowsOnto self.old (frame_course self.old.firms self.old.at heard now) now output.old.items output.new.items taken self.new) }
        ensures refused { OnErr result (self.new ≡ self.old) }
        ensures kept { OnErr result (output.new.items ≡ output.old.items) }
    {
        let Some(number) = in_turn(&self.state.at, &heard.heading) else {
            return self.take_any(heard, now, output);
        };
        let Heard { heading, content } = heard;
        match content {
            Ok(Inbound::TradeCaptureReport(m)) => Ok(self.hand_out(
                number,
                Asking::Report(m),
                now,
            )?),
            Ok(Inbound::AllocationInstruction(m)) => Ok(self.hand_out(
                number,
                Asking::GiveUp(m),
                now,
            )?),
            content => self.take_any(Heard { heading, content }, now, output),
        }
    }

    /// Takes a frame at a moment as `step` does, and appends the bytes to send. If an allocation fails, the session and the output are
    /// unchanged.
    pub fn frame_onto(
        &mut self,
        frame: Frame,
        now: Moment,
        output: &mut Vec<u8>,
    ) -> Result<Taken, AllocError>
        ensures steps { IfOk result (λ taken. StepsOnto self.old (Input.Frame frame) now output.old.items output.new.items taken self.new) }
        ensures refused { OnErr result (self.new ≡ self.old) }
        ensures kept { OnErr result (output.new.items ≡ output.old.items) }
    {
        let state = &self.state;
        if state.is_closed {
            return Ok(Taken::nothing());
        }
        let heard = self.reader.hear(frame)?;
        self.take_in(heard, now, output)
    }

    /// Takes a notice in the same way.
    pub fn notice_onto(
        &mut self,
        notice: &Notice,
        now: Moment,
        output: &mut Vec<u8>,
    ) -> Result<Taken, AllocError>
        ensures steps { IfOk result (λ taken. StepsOnto self.old (Input.Notice notice.now) now output.old.items output.new.items taken self.new) }
        ensures refused { OnErr result (self.new ≡ self.old) }
        ensures kept { OnErr result (output.new.items ≡ output.old.items) }
    {
        let state = &self.state;
        if state.is_closed {
            return Ok(Taken::nothing());
        }
        let body = notice_body(notice);
        self.send(&body, None, now, output)
    }

    /// Sends the messages that answer the request with this reference.
    #[inline(never)]
    fn answer_any(
        &mut self,
        reference: AskRef,
        outcome: &Outcome,
        now: Moment,
        output: &mut Vec<u8>,
    ) -> Result<Taken, AllocError>
        requires { self.old.is_closed ≡ false }
        ensures steps { IfOk result (λ taken. StepsOnto self.old (Input.Answer reference outcome.now) now output.old.items output.new.items taken self.new) }
        ensures refused { OnErr result (self.new ≡ self.old) }
        ensures kept { OnErr result (output.new.items ≡ output.old.items) }
    {
        let answer = answer_to(self.alloc, &self.state.waiting, reference, outcome)?;
        match &answer {
            Answer::One(body) => self.send(body, Some(reference), now, output),
            _ => {
                let course = answer_course(&self.state.at, reference, &answer);
                self.follow(course, now, output)
            }
        }
    }

    /// Takes the answer to the request with this reference in the same way. Most acknowledge a report.
    pub fn answer_onto(
        &mut self,
        reference: AskRef,
        outcome: &Outcome,
        now: Moment,
        output: &mut Vec<u8>,
    ) -> Result<Taken, AllocError>
        ensures steps { IfOk result (λ taken. StepsOnto self.old (Input.Answer reference outcome.now) now output.old.items output.new.items taken self.new) }
        ensures refused { OnErr result (self.new ≡ self.old) }
        ensures kept { OnErr result (output.new.items ≡ output.old.items) }
    {
        let state = &self.state;
        if state.is_closed {
            return Ok(Taken::nothing());
        }
        match report_answer(&state.waiting, reference, outcome) {
            Some(body) => self.send(&body, Some(reference), now, output),
            None => self.answer_any(reference, outcome, now, output),
        }
    }

    /// Takes a tick in the same way.
    pub fn tick_onto(&mut self, now: Moment, output: &mut Vec<u8>) -> Result<Taken, AllocError>
        ensures steps { IfOk result (λ taken. StepsOnto self.old Input.Tick now output.old.items output.new.items taken self.new) }
        ensures refused { OnErr result (self.new ≡ self.old) }
        ensures kept { OnErr result (output.new.items ≡ output.old.items) }
    {
        let state = &self.state;
        if state.is_closed {
            return Ok(Taken::nothing());
        }
        let course = tick_course(self.alloc, &state.at, state.sent_at, now)?;
        self.follow(course, now, output)
    }

    /// Takes the closing of the house in the same way: a firm that is logged on is sent a Logout, and the session ends.
    pub fn close_onto(&mut self, now: Moment, output: &mut Vec<u8>) -> Result<Taken, AllocError>
        ensures steps { IfOk result (λ taken. StepsOnto self.old Input.Close now output.old.items output.new.items taken self.new) }
        ensures refused { OnErr result (self.new ≡ self.old) }
        ensures kept { OnErr result (output.new.items ≡ output.old.items) }
    {
        let state = &self.state;
        if state.is_closed {
            return Ok(Taken::nothing());
        }
        let course = close_course(self.alloc, &state.at)?;
        self.follow(course, now, output)
    }

    /// Takes the end of the input, at any moment. Nothing is sent.
    pub fn end(&mut self) -> Taken
        ensures { (now : ℕ) (text : List ℕ) → StepsOnto self.old Input.End now text text result self.new }
    {
        if self.state.is_closed {
            return Taken::nothing();
        }
        self.state.close()
    }
}
