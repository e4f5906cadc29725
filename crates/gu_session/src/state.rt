//! The state of a session between its inputs.

ghost use Rattle.std.specs.Prelude.{◌≡◌, ◌<◌, ◌≤◌, ℕ, [], true, false, None, Some, vec_len, vec_capacity, IfOk, IfSome, IsSome};
ghost use Rattle.gu_session.specs.Following.{firm_of, one_message};
ghost use Rattle.gu_session.specs.Given.{asked_in};
ghost use Rattle.gu_session.specs.Plans.{hands};
ghost use Rattle.gu_session.specs.Readiness.{IsReady, IsSoundState, seen};
ghost use Rattle.gu_session.specs.Sending.{behind, closed, is_over};
ghost use Rattle.gu_session.specs.States.{new_session};

use crate::ask_ref::AskRef;
use crate::carrying::{forget, keep, move_to, repeats, room_for, sent_at_after, settle};
use crate::logged_on::{LoggedOn, Waiting};
use crate::output::{Asked, Taken};
use crate::plan::{Handed, Plan};
use crate::ready::Ready;
use crate::sent_ring::SentRing;
use crate::seq_num::SeqNum;
use gu_msgs::{Asking, OutboundRef};
use gu_terms::{FirmId, Moment};
use std::alloc::{AllocError, Global};

/// The state of a session between its inputs.
pub struct State {
    pub firms: Vec<FirmId>,
    pub at: Option<LoggedOn>,
    pub next: u64,
    pub sent_at: Moment,
    pub kept: SentRing,
    pub waiting: Vec<Waiting>,
    pub is_closed: bool,
}

impl Drop for State {
    fn drop(self) {
        let State {
            firms,
            at: _,
            next: _,
            sent_at: _,
            kept,
            waiting,
            is_closed: _,
        } = self;
        drop(firms);
        drop(kept);
        drop(waiting);
    }
}

/// Returns the first moment.
pub fn beginning() -> Moment
    ensures { result ≡ 0 }
{
    Moment::new(0).unwrap()
}

/// Returns the request to the house, if there is one.
fn asked_in(handed: Option<Handed>) -> Option<Asked>
    ensures { result ≡ asked_in handed }
{
    Some(handed?.into_asked())
}

impl State {
    /// Returns the state before the first input; one of these firms may log on.
    pub fn new(alloc: Global, firms: Vec<FirmId>) -> Self
        ensures seen { seen result ≡ new_session firms.items }
        ensures sound { IsSoundState result }
    {
        State {
            firms,
            at: None,
            next: 1,
            sent_at: beginning(),
            kept: SentRing::new(),
            waiting: Vec::new(alloc),
            is_closed: false,
        }
    }

    /// Returns everything that allocates in carrying out a plan whose numbers suffice.
    pub fn make_ready(
        &self,
        alloc: Global,
        plan: &Plan<'_>,
        now: Moment,
    ) -> Result<Ready, AllocError>
        requires numbers { is_over self.now.next plan.now ≡ false }
        requires sound { IsSoundState self.now }
        ensures { IfOk result (IsReady (seen self.now) now plan.now) }
    {
        let firm = &plan.after.firm;
        let again = repeats(alloc, firm, &now, &self.kept, self.next, &plan.again)?;
        let room = room_for(alloc, &self.at)?;
        Ok(Ready { again, room })
    }

    /// Ends the session.
    pub fn close(&mut self) -> Taken
        ensures closed { seen self.new ≡ closed (seen self.old) }
        ensures sound { IsSoundState self.old → IsSoundState self.new }
        ensures handed { result.handed ≡ None }
        ensures close { result.is_closed ≡ true }
    {
        self.is_closed = true;
        Taken::end()
    }

    /// Carries out a prepared plan. It allocates nothing.
    pub fn commit(&mut self, plan: Plan<'_>, ready: Ready, now: Moment) -> Taken
        requires ready { IsReady (seen self.old) now plan ready }
        requires place { vec_len self.old.waiting < vec_capacity self.old.waiting }
        requires sound { IsSoundState self.old }
        ensures behind { seen self.new ≡ behind (seen self.old) now plan.entry }
        ensures sound { IsSoundState self.new }
        ensures handed { result.handed ≡ asked_in plan.entry.handed }
        ensures close { result.is_closed ≡ plan.entry.ends }
    {
        self.sent_at = sent_at_after(self.sent_at, now, ready.len(&plan));
        let Ready { again, room } = ready;
        drop(again);
        move_to(&mut self.kept, room);
        keep(&mut self.kept, &plan, self.next, now);
        let Plan {
            after,
            again: _,
            messages,
            handed,
            answered,
            ends,
        } = plan;
        settle(&mut self.waiting, &handed, answered);
        self.next += messages.len() as u64;
        self.at = Some(after);
        self.is_closed = ends;
        Taken {
            handed: asked_in(handed),
            is_closed: ends,
        }
    }

    /// Changes as a plan with this message alone does, after the message was sent. It allocates nothing.
    pub fn note_sent(&mut self, message: &OutboundRef<'_>, answered: Option<AskRef>)
        requires sound { IsSoundState self.old }
        requires number { message.now.msg_seq_num ≡ self.old.next }
        requires most { self.old.next ≤ 1000000000 }
        requires first { message.now.orig_sending_time ≡ None }
        requires firm { firm_of self.old.at ≡ Some message.now.firm }
        requires is_open { self.old.is_closed ≡ false }
        ensures behind { IfSome self.old.at (λ at. seen self.new ≡ behind (seen self.old) message.now.sending_time (one_message at message.now.body.now answered)) }
        ensures sound { IsSoundState self.new }
    {
        self.sent_at = message.sending_time;
        self.kept.keep(message);
        forget(&mut self.waiting, answered);
        self.next += 1;
    }

    /// Changes as a plan that hands out a request does, and returns the request. It allocates nothing.
    pub fn hand_out(&mut self, after: &LoggedOn, number: SeqNum, asking: Asking) -> Taken
        requires place { vec_len self.old.waiting < vec_capacity self.old.waiting }
        requires sound { IsSoundState self.old }
        requires logged_on { IsSome self.old.at }
        requires is_open { self.old.is_closed ≡ false }
        ensures behind { (now : ℕ) → seen self.new ≡ behind (seen self.old) now (hands after.now number asking) }
        ensures sound { IsSoundState self.new }
        ensures handed { result.handed ≡ asked_in (hands after.now number asking).handed }
        ensures close { result.is_closed ≡ false }
    {
        let reference = AskRef::new(number);
        let question = asking.question();
        self.waiting.push_reserved(Waiting {
            reference,
            question,
        });
        self.at = Some(*after);
        let handed = Handed {
            firm: after.firm,
            reference,
            asking,
        };
        Taken {
            handed: Some(handed.into_asked()),
            is_closed: false,
        }
    }
}
