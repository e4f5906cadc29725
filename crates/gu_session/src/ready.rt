//! Preparation of a plan: everything that allocates.

ghost use Rattle.std.specs.Prelude.{◌≡◌, ◌+◌, ◌<◌, ◌≤◌, length, slice_get, Some};
ghost use Rattle.gu_msgs.specs.Written.{outbound_of};
ghost use Rattle.gu_session.specs.Readiness.{sent_with};

use crate::plan::Plan;
use crate::sent_ring::SentRing;
use gu_msgs::{Outbound, OutboundRef};
use gu_terms::Moment;

/// Everything in carrying out a plan that allocates.
#[derive(Drop)]
pub struct Ready {
    /// The messages to send again.
    pub again: Vec<Outbound>,
    /// Room for the messages to keep, if a firm logs on.
    pub room: Option<SentRing>,
}

impl Ready {
    /// Returns the number of messages sent.
    pub fn len(&self, plan: &Plan<'_>) -> usize
        ensures { result ≡ length self.now.again.items + length plan.now.messages }
    {
        self.again.len() + plan.messages.len()
    }

    /// Returns the message at an index among all that are sent, given the number of the first new one.
    pub fn message<'a>(
        &'a self,
        plan: &'a Plan<'a>,
        first: u64,
        now: Moment,
        place: usize,
    ) -> OutboundRef<'a>
        requires place { place < length self.now.again.items + length plan.now.messages }
        requires most { first + length plan.now.messages ≤ 1000000001 }
        ensures { slice_get (sent_with plan.now self.now first now) place ≡ Some (outbound_of result) }
    {
        if place < self.again.len() {
            return self.again[place].as_ref();
        }
        plan.new_message(first, now, place - self.again.len())
    }
}
