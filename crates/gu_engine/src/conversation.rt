//! A firm's connection between its turns.

ghost use Rattle.std.specs.Prelude.{◌≡◌, true};
ghost use Rattle.gu_engine.specs.Exchange.{firm_of, new_conversation};
ghost use Rattle.gu_session.specs.Dues.{ActsAt, RestsUntil, expected_of};

use gu_session::Session;
use gu_terms::{FirmId, Moment};
use std::alloc::Global;

/// A firm's connection between its turns: without the house that answers it, and without a clock.
#[derive(Drop)]
pub struct Conversation {
    pub(crate) session: Session,
    /// The first entry whose notices the firm hasn't received.
    pub(crate) next: u64,
    /// Whether there may be such notices.
    pub(crate) is_behind: bool,
    /// Whether the session has ended.
    pub(crate) is_over: bool,
}

impl Conversation {
    /// Returns a conversation in which one of these firms may log on. Its notices begin with the first entry.
    pub fn new(alloc: Global, firms: Vec<FirmId>) -> Self
        ensures { result ≡ new_conversation firms.items }
    {
        Conversation {
            session: Session::new(alloc, firms),
            next: 1,
            is_behind: false,
            is_over: false,
        }
    }

    /// Returns the firm after it logs on, even after the end.
    pub fn firm(&self) -> Option<FirmId>
        ensures { result ≡ firm_of self.now.session }
    {
        self.session.firm()
    }

    /// Returns the first entry whose notices the firm hasn't received.
    pub fn next(&self) -> u64
        ensures { result ≡ self.now.next }
    {
        self.next
    }

    /// Returns whether the session has ended.
    pub fn is_over(&self) -> bool
        ensures { result ≡ self.now.is_over }
    {
        self.is_over
    }

    /// Returns the next moment at which a tick does something if no other input comes first, or None if it never does.
    pub fn due_at(&self) -> Option<Moment>
        ensures rests { RestsUntil self.now.session result }
        ensures acts { ActsAt self.now.session result }
    {
        self.session.due_at()
    }

    /// Returns the expected MsgSeqNum (34) of the firm's next message (1 before its Logon), and that of the next message to send.
    pub fn numbers(&self) -> (u64, u64)
        ensures expected { result.0 ≡ expected_of self.now.session }
        ensures next { result.1 ≡ self.now.session.next }
    {
        self.session.numbers()
    }

    /// Records that notices may be due.
    pub fn expect_notices(&mut self)
        ensures { self.new ≡ record self.old { is_behind = true } }
    {
        self.is_behind = true;
    }
}
