//! Outputs of a session.

ghost use Rattle.std.specs.Prelude.{◌≡◌, None, true, false};

use crate::ask_ref::AskRef;
use crate::plan::BoxedRequest;

/// A request that a session hands out.
#[derive(Drop)]
pub struct Asked {
    /// A command to enter, or a question.
    pub what: BoxedRequest,
    /// The reference to give with the answer.
    pub reference: AskRef,
}

/// An output of a session.
#[derive(Drop)]
pub enum Output {
    /// Bytes to send: a whole message.
    Send(Vec<u8>),
    /// A request to the house.
    Hand(Asked),
    /// The end. Nothing follows it.
    Close,
}

/// The outputs of a step apart from its messages.
#[derive(Drop)]
pub struct Taken {
    /// The request to the house, if there is one.
    pub handed: Option<Asked>,
    /// Whether the session has ended.
    pub is_closed: bool,
}

impl Taken {
    /// Returns no output.
    pub fn nothing() -> Self
        ensures handed { result.handed ≡ None }
        ensures close { result.is_closed ≡ false }
    {
        Taken {
            handed: None,
            is_closed: false,
        }
    }

    /// Returns the end alone.
    pub fn end() -> Self
        ensures handed { result.handed ≡ None }
        ensures close { result.is_closed ≡ true }
    {
        Taken {
            handed: None,
            is_closed: true,
        }
    }
}
