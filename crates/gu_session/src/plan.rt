//! What a step does, before numbers are assigned.

ghost use Rattle.std.specs.Prelude.{◌≡◌, ◌+◌, ◌<◌, ◌≤◌, ◌∷◌, [], length, slice_get, Some, IfOk};
ghost use Rattle.gu_msgs.specs.Written.{outbound_of};
ghost use Rattle.gu_session.specs.Outputs.{IsAskedBy};
ghost use Rattle.gu_session.specs.Plans.{answers, hands, leaves, quiet, repeats, says};
ghost use Rattle.gu_session.specs.Sending.{asked_of, numbered};

use crate::ask_ref::AskRef;
use crate::logged_on::LoggedOn;
use crate::messages::Messages;
use crate::output::Asked;
use crate::seq_num::SeqNum;
use gu_msgs::inbound::ResendRequest;
use gu_msgs::outbound::Body;
use gu_msgs::{Asking, OutboundRef, Request};
use gu_terms::{FirmId, Moment};
use std::alloc::{AllocError, Global};
use std::marker::Model;

/// A request to hand out.
#[derive(Drop)]
pub struct Handed {
    /// The firm that asks.
    pub firm: FirmId,
    pub reference: AskRef,
    pub asking: Asking,
}

impl Handed {
    /// Returns it as a request to the house.
    pub fn into_asked(self) -> Asked
        ensures { result ≡ asked_of self }
    {
        Asked {
            what: BoxedRequest {
                firm: self.firm,
                asking: self.asking,
            },
            reference: self.reference,
        }
    }
}

/// A request as read, with its parts still boxed. To a contract it is the request.
#[derive(Drop)]
pub struct BoxedRequest {
    firm: FirmId,
    asking: Asking,
}

impl Model for BoxedRequest {
    ghost use Rattle.gu_msgs.specs.Asking.{request_of};
    ghost use Rattle.gu_msgs.specs.declared.asking.Request.{Request};

    ghost Value = { Request };

    ghost view = { λ b. request_of b.firm b.asking };
}

impl BoxedRequest {
    /// Returns the firm that asks.
    pub fn firm(&self) -> FirmId
        ensures { IsAskedBy result self.now }
    {
        self.firm
    }

    /// Returns the request, taken out of its box.
    pub fn into_inner(self) -> Request
        ensures { result ≡ self }
    {
        self.asking.into_request(self.firm)
    }
}

/// A plan: what a step does in a session with a firm logged on.
#[derive(Drop)]
pub struct Plan<'a> {
    /// The state of the session after it.
    pub after: LoggedOn,
    /// The messages to send again first.
    pub again: Option<ResendRequest>,
    /// The new messages, which get the next numbers.
    pub messages: Messages<'a>,
    /// The request to hand out after that.
    pub handed: Option<Handed>,
    /// The request that it answers.
    pub answered: Option<AskRef>,
    /// Whether the session ends.
    pub ends: bool,
}

/// A course: what a step does.
#[derive(Drop)]
pub enum Course<'a> {
    /// Nothing happens.
    Stay,
    /// The session ends silently.
    Leave,
    /// A plan is carried out.
    Go(Plan<'a>),
}

impl<'a> Plan<'a> {
    /// Returns a plan that sends nothing.
    pub fn quiet(at: &LoggedOn) -> Self
        ensures { result ≡ quiet at.now }
    {
        Plan {
            after: *at,
            again: None,
            messages: Messages::none(),
            handed: None,
            answered: None,
            ends: false,
        }
    }

    /// Returns a plan with new messages.
    pub fn sends(at: &LoggedOn, messages: Messages<'a>) -> Self
        ensures { result ≡ says at.now messages.entry }
    {
        Plan {
            after: *at,
            again: None,
            messages,
            handed: None,
            answered: None,
            ends: false,
        }
    }

    /// Returns a plan with one new message.
    pub fn says(alloc: Global, at: &LoggedOn, body: Body) -> Result<Self, AllocError>
        ensures { IfOk result (λ plan. plan ≡ says at.now (body ∷ [])) }
    {
        let messages = Messages::one(alloc, body)?;
        Ok(Plan::sends(at, messages))
    }

    /// Returns a plan with new messages that ends the session.
    pub fn leaves(at: &LoggedOn, messages: Messages<'a>) -> Self
        ensures { result ≡ leaves at.now messages.entry }
    {
        Plan {
            after: *at,
            again: None,
            messages,
            handed: None,
            answered: None,
            ends: true,
        }
    }

    /// Returns a plan with one message, such as a Logout, that ends the session.
    pub fn leaves_with(alloc: Global, at: &LoggedOn, body: Body) -> Result<Self, AllocError>
        ensures { IfOk result (λ plan. plan ≡ leaves at.now (body ∷ [])) }
    {
        let messages = Messages::one(alloc, body)?;
        Ok(Plan::leaves(at, messages))
    }

    /// Returns a plan that sends the requested messages again, and then new ones.
    pub fn repeats(at: &LoggedOn, again: Option<ResendRequest>, messages: Messages<'a>) -> Self
        ensures { result ≡ repeats at.now again messages.entry }
    {
        Plan {
            after: *at,
            again,
            messages,
            handed: None,
            answered: None,
            ends: false,
        }
    }

    /// Returns a plan that hands out the request in the message with this number.
    pub fn hands(at: &LoggedOn, number: SeqNum, asking: Asking) -> Self
        ensures { result ≡ hands at.now number asking }
    {
        let handed = Handed {
            firm: at.firm,
            reference: AskRef::new(number),
            asking,
        };
        Plan {
            after: *at,
            again: None,
            messages: Messages::none(),
            handed: Some(handed),
            answered: None,
            ends: false,
        }
    }

    /// Returns a plan with the messages that answer a question.
    pub fn answers(at: &LoggedOn, reference: AskRef, messages: Messages<'a>) -> Self
        ensures { result ≡ answers at.now reference messages.entry }
    {
        Plan {
            after: *at,
            again: None,
            messages,
            handed: None,
            answered: Some(reference),
            ends: false,
        }
    }

    /// Returns the new message at an index, given the number of the first.
    pub fn new_message(&self, first: u64, now: Moment, place: usize) -> OutboundRef<'_>
        requires place { place < length self.now.messages }
        requires most { first + length self.now.messages ≤ 1000000001 }
        ensures message { slice_get (numbered self.now.after.firm now first self.now.messages) place ≡ Some (outbound_of result) }
        ensures number { result.msg_seq_num ≡ first + place }
    {
        OutboundRef {
            firm: self.after.firm,
            msg_seq_num: first + place as u64,
            sending_time: now,
            orig_sending_time: None,
            body: self.messages.get(place),
        }
    }
}
