//! The bell of a thread that waits on a poll.

use gu_posts::Bell;
use mio::{Registry, Token, Waker};
use std::io;

/// The token of the bell. No place and no listener has it.
pub const BELL: Token = Token(usize::MAX);

/// The bell of a thread that waits on a poll.
#[derive(Drop)]
pub struct PollBell {
    waker: Waker,
}

impl PollBell {
    /// Creates the bell of a poll.
    pub(crate) fn new(registry: &Registry) -> io::Result<Self> {
        Ok(PollBell {
            waker: Waker::new(registry, BELL)?,
        })
    }
}

impl Bell for PollBell {
    fn ring(&self) {
        let _ = self.waker.wake();
    }
}
