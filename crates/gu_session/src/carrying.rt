//! The effects of a plan.

ghost use Rattle.std.specs.Prelude.{◌≡◌, ◌≤◌, ◌<◌, ◌+◌, ◌++◌, [], Some, None, is_some, length, vec_len, vec_capacity, if◌then◌else◌, IfOk};
ghost use Rattle.std.specs.List.{filter_map};
ghost use Rattle.std.specs.Option.{option_map, option_map_or, option_to_list};
ghost use Rattle.circular_buffer.specs.Buffer.{buffer};
ghost use Rattle.gu_msgs.specs.declared.inbound.ResendRequest.{ResendRequest as RequestOf};
ghost use Rattle.gu_session.specs.Ascending.{IsAscending};
ghost use Rattle.gu_session.specs.Resending.{resent};
ghost use Rattle.gu_session.specs.Sending.{is_over, numbered, sent_at_after, sent_in, unanswered, waiting_for};
ghost use Rattle.gu_session.specs.Sound.{extended};

use crate::ask_ref::AskRef;
use crate::logged_on::{LoggedOn, Waiting};
use crate::plan::{Handed, Plan};
use crate::resending::resent;
use crate::sent_ring::SentRing;
use crate::seq_num::GREATEST;
use gu_msgs::Outbound;
use gu_msgs::inbound::ResendRequest;
use gu_terms::{FirmId, Moment};
use std::alloc::{AllocError, Global};

/// Returns whether a plan needs a number above the greatest, given the next number.
pub fn is_over(next: u64, plan: &Plan<'_>) -> bool
    requires { next ≤ 1000000001 }
    ensures { result ≡ is_over next plan.now }
{
    let left = GREATEST + 1 - next;
    left < plan.messages.len() as u64
}

/// Returns the messages sent again, if any are requested.
pub fn repeats(
    alloc: Global,
    firm: &FirmId,
    now: &Moment,
    kept: &SentRing,
    next: u64,
    again: &Option<ResendRequest>,
) -> Result<Vec<Outbound>, AllocError>
    requires { IsAscending kept.now.items }
    ensures { IfOk result (λ messages. messages.items ≡ option_map_or (λ (request : RequestOf). resent firm.now kept.now.items next now.now request) again.now []) }
{
    match again {
        Some(request) => resent(alloc, firm, now, kept, next, request),
        None => Ok(Vec::new(alloc)),
    }
}

/// Returns room for the messages to keep, if a firm logs on.
pub fn room_for(alloc: Global, at: &Option<LoggedOn>) -> Result<Option<SentRing>, AllocError>
    ensures { IfOk result (λ room. room ≡ (if is_some at.now then None else Some (buffer [] 4096))) }
{
    match at {
        Some(_) => Ok(None),
        None => Ok(Some(SentRing::with_room(alloc)?)),
    }
}

/// Moves to new room, if there is some.
pub fn move_to(kept: &mut SentRing, room: Option<SentRing>)
    ensures { kept.new ≡ option_map_or (λ room. room) room kept.old }
{
    if let Some(room) = room {
        *kept = room;
    }
}

/// Keeps the new messages of a plan, the first of which has this number.
pub fn keep(kept: &mut SentRing, plan: &Plan<'_>, first: u64, now: Moment)
    requires some { 1 ≤ first }
    requires most { first + length plan.now.messages ≤ 1000000001 }
    requires few { length kept.old.items ≤ kept.old.capacity }
    ensures { kept.new ≡ extended kept.old (filter_map sent_in (numbered plan.now.after.firm now first plan.now.messages)) }
{
    for place in 0..plan.messages.len() {
        kept.keep(&plan.new_message(first, now, place));
    }
}

/// Removes what was answered.
pub fn forget(waiting: &mut Vec<Waiting>, answered: Option<AskRef>)
    ensures { waiting.new.items ≡ unanswered answered waiting.old.items }
{
    if let Some(reference) = answered {
        waiting.retain(|one| one.reference != reference);
    }
}

/// Adds what was handed out, and removes what was answered.
pub fn settle(waiting: &mut Vec<Waiting>, handed: &Option<Handed>, answered: Option<AskRef>)
    requires { vec_len waiting.old < vec_capacity waiting.old }
    ensures { waiting.new.items ≡ unanswered answered (waiting.old.items ++ option_to_list (option_map waiting_for handed.now)) }
{
    if let Some(handed) = handed {
        let question = handed.asking.question();
        waiting.push_reserved(Waiting {
            reference: handed.reference,
            question,
        });
    }
    forget(waiting, answered);
}

/// Returns the time of the last sending after this many messages are sent.
pub fn sent_at_after(before: Moment, now: Moment, count: usize) -> Moment
    ensures { result ≡ sent_at_after before now count }
{
    if count > 0 { now } else { before }
}
