//! Writing a session's outputs.

ghost use Rattle.std.specs.Prelude.{◌≡◌, ◌+◌, ◌≤◌, ◌∷◌, ◌++◌, [], List, ℕ, length, map, vec_len, vec_capacity, IfOk, OnOk, OnErr};
ghost use Rattle.gu_msgs.specs.Written.{outbound_of};
ghost use Rattle.gu_session.specs.Appending.{FollowText, FollowsText};
ghost use Rattle.gu_session.specs.Encoded.{AreOutputs, Closes, Sends};
ghost use Rattle.gu_session.specs.Given.{end_outputs, handed_outputs};
ghost use Rattle.gu_session.specs.Readiness.{sent_with};

use crate::output::{Output, Taken};
use crate::plan::Plan;
use crate::ready::Ready;
use crate::state::beginning;
use gu_fix::encode_onto;
use gu_msgs::{Draft, OutboundRef, Stamp, write_over};
use gu_terms::Moment;
use std::alloc::{AllocError, Global};

/// A writer of messages, which reuses memory for their fields. It makes a moment's text once for all messages at that moment.
pub struct Pen {
    alloc: Global,
    draft: Draft,
    stamp: Stamp,
}

impl Drop for Pen {
    fn drop(self) {
        let Pen {
            alloc: _,
            draft,
            stamp: _,
        } = self;
        drop(draft);
    }
}

impl Pen {
    /// Returns a pen without capacity.
    pub fn new(alloc: Global) -> Self {
        Pen {
            alloc,
            draft: Draft::new(alloc),
            stamp: Stamp::new(beginning()),
        }
    }

    /// Uses the text of this moment from now on.
    fn set_moment(&mut self, moment: Moment)
        ensures { self.new.stamp ≡ moment }
    {
        if self.stamp.moment() != moment {
            self.stamp = Stamp::new(moment);
        }
    }

    /// Appends a message.
    pub fn push(
        &mut self,
        output: &mut Vec<u8>,
        message: &OutboundRef<'_>,
    ) -> Result<(), AllocError>
        ensures pushed { OnOk result (FollowsText (outbound_of message.now) output.old.items output.new.items) }
        ensures refused { OnErr result (output.new.items ≡ output.old.items) }
    {
        self.set_moment(message.sending_time);
        write_over(&mut self.draft, message, &self.stamp)?;
        encode_onto(output, self.draft.fields())
    }

    /// Appends all messages of a prepared plan, given the number of the first new one; if an allocation fails, perhaps only some.
    fn push_all<'a>(
        &mut self,
        output: &mut Vec<u8>,
        plan: &'a Plan<'a>,
        ready: &'a Ready,
        first: u64,
        now: Moment,
    ) -> Result<(), AllocError>
        requires { first + length plan.now.messages ≤ 1000000001 }
        ensures pushed { OnOk result (FollowText (sent_with plan.now ready.now first now) output.old.items output.new.items) }
        ensures refused { OnErr result ((tail : List ℕ) × (output.new.items ≡ output.old.items ++ tail)) }
    {
        for place in 0..ready.len(plan) {
            self.push(output, &ready.message(plan, first, now, place))?;
        }
        Ok(())
    }

    /// Appends all messages of a prepared plan, given the number of the first new one, or nothing.
    pub fn append<'a>(
        &mut self,
        output: &mut Vec<u8>,
        plan: &'a Plan<'a>,
        ready: &'a Ready,
        first: u64,
        now: Moment,
    ) -> Result<(), AllocError>
        requires { first + length plan.now.messages ≤ 1000000001 }
        ensures pushed { OnOk result (FollowText (sent_with plan.now ready.now first now) output.old.items output.new.items) }
        ensures refused { OnErr result (output.new.items ≡ output.old.items) }
    {
        let start = output.len();
        let pushed = self.push_all(output, plan, ready, first, now);
        if pushed.is_err() {
            output.truncate(start);
        }
        pushed
    }

    /// Returns a message as an output.
    fn output(&mut self, message: &OutboundRef<'_>) -> Result<Output, AllocError>
        ensures { IfOk result (λ output. AreOutputs (Sends (outbound_of message.now) ∷ []) (output ∷ [])) }
    {
        let mut bytes = Vec::new(self.alloc);
        self.push(&mut bytes, message)?;
        Ok(Output::Send(bytes))
    }

    /// Returns all messages of a prepared plan as outputs, given the number of the first new one, with room for two more outputs.
    pub fn outputs<'a>(
        &mut self,
        plan: &'a Plan<'a>,
        ready: &'a Ready,
        first: u64,
        now: Moment,
    ) -> Result<Vec<Output>, AllocError>
        requires { first + length plan.now.messages ≤ 1000000001 }
        ensures outputs { IfOk result (λ outputs. AreOutputs (map Sends (sent_with plan.now ready.now first now)) outputs.items) }
        ensures room { IfOk result (λ outputs. vec_len outputs + 2 ≤ vec_capacity outputs) }
    {
        let mut outputs = Vec::new(self.alloc);
        for place in 0..ready.len(plan) {
            let output = self.output(&ready.message(plan, first, now, place))?;
            outputs.push(output)?;
        }
        outputs.reserve(2)?;
        Ok(outputs)
    }
}

/// Appends a step's outputs apart from its messages. There is room for them.
pub fn push_taken(outputs: &mut Vec<Output>, taken: Taken)
    requires { vec_len outputs.old + 2 ≤ vec_capacity outputs.old }
    ensures { outputs.new.items ≡ (outputs.old.items ++ handed_outputs taken.handed) ++ end_outputs taken.is_closed }
{
    let Taken { handed, is_closed } = taken;
    if let Some(asked) = handed {
        outputs.push_reserved(Output::Hand(asked));
    }
    if is_closed {
        outputs.push_reserved(Output::Close);
    }
}

/// Returns the end alone.
pub fn close(alloc: Global) -> Result<Vec<Output>, AllocError>
    ensures { IfOk result (λ outputs. AreOutputs (Closes ∷ []) outputs.items) }
{
    let mut outputs = Vec::with_capacity(alloc, 1)?;
    outputs.push(Output::Close)?;
    Ok(outputs)
}
