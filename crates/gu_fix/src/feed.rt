//! A stream in pieces.
ghost use Rattle.std.specs.Prelude.{◌≡◌, List, ℕ, [], ◌++◌, ◌<◌, length, IfOk, OnErr};
ghost use Rattle.gu_fix.specs.Stream.{AreFrames, IsOpen, LeadsOn};

use crate::error::FeedError;
use crate::frame::Frame;
use crate::scan::scan;
use crate::window::Window;
use std::alloc::Global;
use std::marker::Model;

/// A feed: stores the bytes of a stream that aren't decided yet. To a contract it is those bytes.
///
/// The program takes its frames one at a time, with an `Intake`.
#[derive(Drop)]
pub struct Feed {
    alloc: Global,
    kept: Window,
}

impl Model for Feed {
    ghost Value = { List ℕ };

    ghost view = { λ f. f.kept };

    ghost invariant = { λ f. IsOpen f.kept };
}

impl Feed {
    /// Returns an empty feed.
    pub fn new(alloc: Global) -> Self
        ensures { result ≡ [] }
    {
        Feed {
            alloc,
            kept: Window::new(alloc),
        }
    }

    /// Takes the next piece of the stream, and returns the frames that it completes.
    pub fn push(&mut self, piece: &[u8]) -> Result<Vec<Frame>, FeedError>
        ensures given { IfOk result (λ given. AreFrames (self.old ++ piece.now) given.items) }
        ensures leads_on { IfOk result (λ given. LeadsOn (self.old ++ piece.now) given.items self.new) }
        ensures short { length self.new < 65536 }
        ensures refused { OnErr result (self.new ≡ self.old) }
    {
        let had = self.kept.bytes().len();
        self.kept.push(piece)?;
        match scan(self.alloc, &mut self.kept) {
            Ok((given, taken)) => {
                self.kept.consume(taken);
                Ok(given)
            }
            Err(_) => {
                self.kept.truncate(had);
                Err(FeedError::Memory)
            }
        }
    }
}
