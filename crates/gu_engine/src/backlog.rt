//! The state that an engine keeps between two turns, apart from its answerer's.

ghost use Rattle.std.specs.Prelude.{◌≡◌, ◌↔◌, ◌<◌, ◌≤◌, ◌+◌, [], List, ℕ, false, length, take, IfErr, IfNone, IfOk, IfSome, IsTrue, OnErr, OnOk, true};
ghost use Rattle.gu_engine.specs.Backlogs.{TakesEvent, TakesIn, TakesLast, steps_left};
ghost use Rattle.gu_engine.specs.Closings.{HoldsTheSame, IsIdle, KeepsInput};
ghost use Rattle.gu_engine.specs.Running.{is_more};
ghost use Rattle.gu_engine.specs.Sends.{Gives};
ghost use Rattle.gu_engine.specs.Turns.{IsEmpty, Reads};
ghost use Rattle.gu_streams.specs.Written.{WrotePart};

use crate::counted_intake::CountedIntake;
use crate::event::Event;
use crate::held::Held;
use crate::turned::Turned;
use gu_streams::{CountedReads, Outlet, StreamError, Turn};
use std::alloc::{AllocError, Global};
use std::io::{Read, Write};

/// The events that a turn left unanswered.
#[derive(Clone, Copy)]
pub enum Left {
    /// Nothing.
    Nothing,
    /// Silence, and the end of the turn.
    Silence,
    /// The whole frames, and the end of the turn.
    Frames,
    /// No events: only parts of what is due, if any.
    Due,
}

/// The state that an engine keeps between two turns, apart from its answerer's: bytes from which no frame was taken yet, what a cut turn
/// left unanswered, and answers still held.
#[derive(Drop)]
pub struct Backlog<O> {
    intake: CountedIntake,
    left: Left,
    pub(crate) held: Held<O>,
}

impl<O> Backlog<O> {
    /// Returns the backlog before the first turn, whose answers go out through this outlet.
    pub fn new(alloc: Global, outlet: O) -> Self
        ensures { IsEmpty result }
    {
        Backlog {
            intake: CountedIntake::new(alloc),
            left: Left::Nothing,
            held: Held::new(alloc, outlet),
        }
    }

    /// Returns whether no answer is held.
    pub fn is_sent(&self) -> bool
        ensures { IsTrue result ↔ (self.now.held.bytes.items ≡ []) }
    {
        self.held.bytes.is_empty()
    }

    /// Returns the number of bytes of answers held.
    pub fn held(&self) -> usize
        ensures { result ≡ length self.now.held.bytes.items }
    {
        self.held.bytes.len()
    }

    /// Returns whether no turn left anything unanswered.
    pub fn is_idle(&self) -> bool
        ensures { IsTrue result ↔ IsIdle self.now }
    {
        matches!(self.left, Left::Nothing)
    }

    /// Releases unused memory. The backlog stays the same.
    pub fn release(&mut self)
        ensures same { HoldsTheSame self.old self.new }
        ensures outlet { self.new.held.outlet ≡ self.old.held.outlet }
    {
        self.intake.release();
        self.held.release();
    }

    /// Sends at most this many of the first bytes of held answers, whatever the outlet.
    pub fn send_first<W: Write>(&mut self, most: usize, writer: &mut W) -> Result<(), StreamError>
        ensures given { OnOk result (Gives [] self.old.held.bytes.items self.new.held.bytes.items (W.contents writer.old) (W.contents writer.new)) }
        ensures most { OnOk result (length self.old.held.bytes.items ≤ length self.new.held.bytes.items + most) }
        ensures part { OnErr result (WrotePart (take most self.old.held.bytes.items) (W.contents writer.old) (W.contents writer.new)) }
        ensures kept { OnErr result (self.new.held.bytes.items ≡ self.old.held.bytes.items) }
        ensures fault { IfErr result (λ error. error ≡ StreamError.Write) }
        ensures input { KeepsInput self.old self.new }
        ensures outlet { self.new.held.outlet ≡ self.old.held.outlet }
    {
        self.held.let_go_first(most, writer)
    }

    /// Takes the first frame, or returns the end of the turn if there is none yet.
    fn next_frame(&mut self) -> Result<Event, AllocError>
        requires { self.old.left ≡ Left.Frames }
        ensures event { IfOk result (λ event. TakesEvent self.old event self.new) }
        ensures brought { IfOk result (λ event. is_more event ≡ false) }
        ensures fewer { OnOk result (steps_left self.new.left self.new.intake < steps_left self.old.left self.old.intake) }
        ensures held { self.new.held ≡ self.old.held }
    {
        let Ok(next) = self.intake.next_frame() else {
            return Err(AllocError);
        };
        match next {
            Some(frame) => Ok(Event::Frame(frame)),
            None => {
                self.left = Left::Due;
                Ok(Event::Over)
            }
        }
    }

    /// Takes the next event left unanswered, if there is one.
    pub(crate) fn next_event(&mut self) -> Result<Option<Event>, AllocError>
        ensures event { IfOk result (λ next. IfSome next (λ event. TakesEvent self.old event self.new)) }
        ensures none { IfOk result (λ next. IfNone next (TakesLast self.old self.new)) }
        ensures brought { IfOk result (λ next. IfSome next (λ event. is_more event ≡ false)) }
        ensures fewer { IfOk result (λ next. IfSome next (λ event. steps_left self.new.left self.new.intake < steps_left self.old.left self.old.intake)) }
        ensures held { self.new.held ≡ self.old.held }
    {
        match self.left {
            Left::Nothing => Ok(None),
            Left::Silence => {
                self.left = Left::Frames;
                Ok(Some(Event::Silence))
            }
            Left::Frames => Ok(Some(self.next_frame()?)),
            Left::Due => {
                self.left = Left::Nothing;
                Ok(None)
            }
        }
    }

    /// Reads once, unless a turn left something unanswered.
    pub(crate) fn take_in<R: Read>(
        &mut self,
        reads: &mut CountedReads<R>,
        buffer: &mut [u8],
    ) -> Result<Turned, StreamError>
        requires { 0 < length buffer.old }
        ensures taken { IfOk result (λ turned. TakesIn R.remaining reads.old reads.new self.old self.new turned) }
        ensures unheld { OnErr result ((bytes : List ℕ) × Reads R.remaining reads.old reads.new (Some bytes)) }
        ensures fault { IfErr result (λ error. error ≡ StreamError.Memory) }
        ensures held { self.new.held ≡ self.old.held }
    {
        if !self.is_idle() {
            return Ok(Turned::Again);
        }
        match reads.turn(buffer) {
            Turn::Stopped => Ok(Turned::Stopped),
            Turn::Bytes(0) => Ok(Turned::End),
            Turn::Bytes(count) => {
                let Ok(()) = self.intake.push(&buffer[..count]) else {
                    return Err(StreamError::Memory);
                };
                self.left = Left::Frames;
                Ok(Turned::Again)
            }
            Turn::Nothing => {
                self.left = Left::Silence;
                Ok(Turned::Waits)
            }
        }
    }
}

impl<O: Drop> Backlog<O> {
    /// Sends answers through another outlet from now on.
    pub fn set_outlet(&mut self, outlet: O)
        ensures same { HoldsTheSame self.old self.new }
        ensures outlet { self.new.held.outlet ≡ outlet }
    {
        self.held.set_outlet(outlet);
    }
}

impl<O: Outlet> Backlog<O> {
    /// Sends the first of the held answers.
    pub fn send<W: Write>(&mut self, writer: &mut W) -> Result<(), StreamError>
        ensures given { OnOk result (Gives [] self.old.held.bytes.items self.new.held.bytes.items (W.contents writer.old) (W.contents writer.new)) }
        ensures all { OnOk result (O.takes_all ≡ true → self.new.held.bytes.items ≡ []) }
        ensures part { OnErr result (WrotePart self.old.held.bytes.items (W.contents writer.old) (W.contents writer.new)) }
        ensures fault { IfErr result (λ error. error ≡ StreamError.Write) }
        ensures input { KeepsInput self.old self.new }
    {
        self.held.let_go(writer)
    }
}
