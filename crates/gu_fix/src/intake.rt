//! A stream whose frames are taken one at a time.
ghost use Rattle.std.specs.Prelude.{◌≡◌, List, ℕ, [], ◌++◌, ◌<◌, length, IfNone, IfOk, IfSome, OnErr, OnOk};
ghost use Rattle.gu_fix.specs.Stream.{AreFrames, IsFirstFrame, IsOpen, LeadsOn};

use crate::error::FeedError;
use crate::frame::Frame;
use crate::scan::{Next, next_from};
use crate::window::Window;
use std::alloc::Global;
use std::marker::Model;

/// An intake: stores the bytes of a stream whose frames weren't taken yet. To a contract it is those bytes.
#[derive(Drop)]
pub struct Intake {
    alloc: Global,
    kept: Window,
}

impl Model for Intake {
    ghost Value = { List ℕ };

    ghost view = { λ i. i.kept };
}

impl Intake {
    /// Returns an empty intake.
    pub fn new(alloc: Global) -> Self
        ensures { result ≡ [] }
    {
        Intake {
            alloc,
            kept: Window::new(alloc),
        }
    }

    /// Appends the next piece of the stream.
    pub fn push(&mut self, piece: &[u8]) -> Result<(), FeedError>
        ensures taken { OnOk result (self.new ≡ self.old ++ piece.now) }
        ensures refused { OnErr result (self.new ≡ self.old) }
    {
        self.kept.push(piece)?;
        Ok(())
    }

    /// Takes the first frame, which is copied only now, or returns None if there is none yet.
    pub fn next_frame(&mut self) -> Result<Option<Frame>, FeedError>
        ensures first { IfOk result (λ next. IfSome next (λ frame. IsFirstFrame self.old frame self.new)) }

        // If there is none yet, what is stored leads on, and is shorter than the longest message.
        ensures none { IfOk result (λ next. IfNone next (AreFrames self.old [])) }
        ensures stays_open { IfOk result (λ next. IfNone next (IsOpen self.new)) }
        ensures leads_on { IfOk result (λ next. IfNone next (LeadsOn self.old [] self.new)) }
        ensures short { IfOk result (λ next. IfNone next (length self.new < 65536)) }

        ensures refused { OnErr result (self.new ≡ self.old) }
    {
        let next = next_from(&mut self.kept, 0)?;
        match next {
            Next::Whole(start, end) => {
                let frame = Frame::new(self.alloc, &self.kept.bytes()[start..end])?;
                self.kept.consume(end);
                Ok(Some(frame))
            }
            Next::Open(place) => {
                self.kept.consume(place);
                Ok(None)
            }
        }
    }
}
