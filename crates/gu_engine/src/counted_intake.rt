//! An intake that knows when it is empty.

ghost use Rattle.std.specs.Prelude.{◌≡◌, ◌++◌, ◌<◌, [], length, IfNone, IfOk, IfSome, OnErr, OnOk};
ghost use Rattle.gu_fix.specs.Stream.{AreFrames, IsFirstFrame, IsOpen, LeadsOn};

use gu_fix::{FeedError, Frame, Intake};
use std::alloc::Global;
use std::marker::Model;

/// A reader's bytes from which no frame was taken yet, counted. To a contract it is those bytes.
#[derive(Drop)]
pub struct CountedIntake {
    alloc: Global,
    intake: Intake,
    /// An upper bound on the bytes stored. Garbled bytes that were dropped still count.
    most: usize,
}

impl Model for CountedIntake {
    ghost use Rattle.std.specs.Prelude.{◌≤◌, List, ℕ, length};

    ghost Value = { List ℕ };

    ghost view = { λ it. it.intake };

    ghost invariant = { λ it. length it.intake ≤ it.most };
}

impl CountedIntake {
    /// Returns an empty intake.
    pub fn new(alloc: Global) -> Self
        ensures { result ≡ [] }
    {
        CountedIntake {
            alloc,
            intake: Intake::new(alloc),
            most: 0,
        }
    }

    /// Appends the next piece of the stream.
    pub fn push(&mut self, piece: &[u8]) -> Result<(), FeedError>
        ensures taken { OnOk result (self.new ≡ self.old ++ piece.now) }
        ensures refused { OnErr result (self.new ≡ self.old) }
    {
        let Some(most) = self.most.checked_add(piece.len()) else {
            return Err(FeedError::Memory);
        };
        self.intake.push(piece)?;
        self.most = most;
        Ok(())
    }

    /// Takes the first frame, as an intake does.
    pub fn next_frame(&mut self) -> Result<Option<Frame>, FeedError>
        ensures first { IfOk result (λ next. IfSome next (λ frame. IsFirstFrame self.old frame self.new)) }
        ensures none { IfOk result (λ next. IfNone next (AreFrames self.old [])) }
        ensures stays_open { IfOk result (λ next. IfNone next (IsOpen self.new)) }
        ensures leads_on { IfOk result (λ next. IfNone next (LeadsOn self.old [] self.new)) }
        ensures refused { OnErr result (self.new ≡ self.old) }
    {
        let next = self.intake.next_frame()?;
        match &next {
            Some(frame) => self.most -= frame.bytes().len(),
            None => {}
        }
        Ok(next)
    }

    /// Releases the memory for bytes, if none are stored.
    pub fn release(&mut self)
        ensures { self.new ≡ self.old }
    {
        if self.most == 0 {
            self.intake = Intake::new(self.alloc);
        }
    }
}
