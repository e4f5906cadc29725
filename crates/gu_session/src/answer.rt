//! The messages that answer a request handed out.

ghost use Rattle.std.specs.Prelude.{◌≡◌};

use crate::messages::Messages;
use gu_msgs::outbound::Body;
use std::slice;

/// The messages that answer a request.
#[derive(Drop)]
pub enum Answer {
    /// The session does nothing: no request has the reference, or the outcome isn't of its kind.
    Nothing,
    /// No message: the notice of what was done is the answer.
    Silence,
    /// One message.
    One(Body),
    /// An account's positions.
    Positions(Vec<Body>),
}

impl Answer {
    ghost use Rattle.gu_session.specs.Given.{messages_in};

    /// Returns the messages, if the session answers.
    pub fn messages(&self) -> Option<Messages<'_>>
        ensures { result ≡ messages_in self.now }
    {
        match self {
            Answer::Nothing => None,
            Answer::Silence => Some(Messages::none()),
            Answer::One(body) => Some(Messages::borrowed(slice::from_ref(body))),
            Answer::Positions(bodies) => Some(Messages::borrowed(bodies)),
        }
    }
}
