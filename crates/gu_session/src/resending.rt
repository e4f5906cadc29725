//! Sending messages again.

ghost use Rattle.std.specs.Prelude.{◌≡◌, ◌+◌, ◌&&◌, ◌++◌, ◌∷◌, [], nat_le, nat_lt, OnOk, IfOk};
ghost use Rattle.gu_session.specs.Ascending.{IsAscending};
ghost use Rattle.gu_session.specs.Resending.{again, behind_last, gap, gap_fill, resent, sent_within, with_gaps};
ghost use Rattle.gu_session.specs.Walks.{asked_now, at_after};

use crate::sent_ring::{Sent, SentRing};
use gu_msgs::Outbound;
use gu_msgs::inbound::ResendRequest;
use gu_msgs::outbound::Body;
use gu_terms::{FirmId, Moment};
use std::alloc::{AllocError, Global};

/// Returns a kept message to send again.
fn again(firm: FirmId, now: Moment, sent: &Sent) -> Outbound
    ensures { result ≡ again firm now sent.now }
{
    Outbound {
        firm,
        msg_seq_num: sent.number.get(),
        sending_time: now,
        orig_sending_time: Some(sent.time),
        body: Body::Application(sent.message),
    }
}

/// Returns a gap fill for the numbers from one up to another.
fn gap_fill(firm: FirmId, now: Moment, from: u64, to: u64) -> Outbound
    ensures { result ≡ gap_fill firm now from to }
{
    let sent_at = &now;
    Outbound {
        firm,
        msg_seq_num: from,
        sending_time: *sent_at,
        orig_sending_time: Some(*sent_at),
        body: Body::SequenceReset(to),
    }
}

/// Appends a gap fill for the numbers from one up to another, if there are any.
fn push_gap(
    messages: &mut Vec<Outbound>,
    firm: &FirmId,
    now: &Moment,
    from: u64,
    to: u64,
) -> Result<(), AllocError>
    ensures { OnOk result (messages.new.items ≡ messages.old.items ++ gap firm.now now.now from to) }
{
    if from < to {
        messages.push(gap_fill(*firm, *now, from, to))?;
    }
    Ok(())
}

/// Appends a kept message, after a gap fill for the numbers before it; returns the number after it.
fn push_again(
    messages: &mut Vec<Outbound>,
    firm: &FirmId,
    now: &Moment,
    from: u64,
    sent: &Sent,
) -> Result<u64, AllocError>
    ensures pushed { OnOk result (messages.new.items ≡ messages.old.items ++ gap firm.now now.now from sent.now.number ++ again firm.now now.now sent.now ∷ []) }
    ensures behind { IfOk result (λ behind. behind ≡ sent.now.number + 1) }
{
    push_gap(messages, firm, now, from, sent.number.get())?;
    messages.push(again(*firm, *now, sent))?;
    Ok(sent.number.get() + 1)
}

/// Returns the number after the last requested one.
fn behind_last(next: u64, last: u64) -> u64
    ensures { result ≡ behind_last next last }
{
    if last == 0 || next <= last {
        next
    } else {
        last + 1
    }
}

/// Returns whether a message has a number from one up to another.
fn is_within(sent: &Sent, from: u64, to: u64) -> bool
    ensures { result ≡ (nat_le from sent.now.number && nat_lt sent.now.number to) }
{
    from <= sent.number.get() && sent.number.get() < to
}

/// A range of numbers from one up to another.
#[derive(Drop)]
struct Range {
    from: u64,
    to: u64,
}

/// Appends a kept message as `push_again` does, if it is in the requested range.
fn push_asked(
    messages: &mut Vec<Outbound>,
    firm: &FirmId,
    now: &Moment,
    range: &Range,
    at: u64,
    sent: &Sent,
) -> Result<u64, AllocError>
    ensures pushed { OnOk result (messages.new.items ≡ messages.old.items ++ asked_now firm.now now.now range.now.from range.now.to at sent.now) }
    ensures behind { IfOk result (λ behind. behind ≡ at_after range.now.from range.now.to at sent.now) }
{
    if is_within(sent, range.from, range.to) {
        push_again(messages, firm, now, at, sent)
    } else {
        Ok(at)
    }
}

/// Returns the messages sent again for a request. Numbers ascend, so only the requested messages are looked at.
pub fn resent(
    alloc: Global,
    firm: &FirmId,
    now: &Moment,
    kept: &SentRing,
    next: u64,
    request: &ResendRequest,
) -> Result<Vec<Outbound>, AllocError>
    requires { IsAscending kept.now.items }
    ensures { IfOk result (λ messages. messages.items ≡ resent firm.now kept.now.items next now.now request.now) }
{
    let range = Range {
        from: request.begin_seq_no,
        to: behind_last(next, request.end_seq_no),
    };
    let mut messages = Vec::new(alloc);
    let mut at = range.from;
    for place in kept.place_of(range.from)..kept.place_of(range.to) {
        if let Some(sent) = kept.get(place) {
            at = push_asked(&mut messages, firm, now, &range, at, sent)?;
        }
    }
    push_gap(&mut messages, firm, now, at, range.to)?;
    Ok(messages)
}
