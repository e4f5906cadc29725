//! Frames by number: expected, too high or too low.

ghost use Rattle.std.specs.Prelude.{◌≡◌, ◌+◌, codes, IfOk, IfSome};
ghost use Rattle.gu_session.specs.FrameRules.{again_in, by_number, frame_plan, on_number, on_reset, reject, reset_to, too_high, too_low};
ghost use Rattle.gu_session.specs.Following.{IsInTurn};
ghost use Rattle.gu_session.specs.Hearing.{is_given};

use crate::content::{as_expected, wrong_party};
use crate::heard::{Heading, Heard};
use crate::logged_on::LoggedOn;
use crate::messages::Messages;
use crate::plan::Plan;
use crate::rejecting::reject;
use crate::seq_num::SeqNum;
use gu_msgs::inbound::ResendRequest;
use gu_msgs::outbound::Body;
use gu_msgs::{Fault, Inbound, LogoutReason, NEW_SEQ_NO, SessionRejectReason, TypeCode};
use std::alloc::{AllocError, Global};

/// Returns whether the type is Logout.
fn is_logout(msg_type: &Option<TypeCode>) -> bool
    ensures { result ≡ is_given (codes "5") msg_type.now }
{
    match msg_type {
        Some(code) => code.get() == b"5".as_slice(),
        None => false,
    }
}

/// Returns the number in a reset that is no gap fill.
fn reset_to(content: &Result<Inbound, Fault>) -> Option<u64>
    ensures { result ≡ reset_to content.now }
{
    match content {
        Ok(Inbound::SequenceReset(m)) if !m.is_gap_fill => Some(m.new_seq_no),
        _ => None,
    }
}

/// Returns the ResendRequest in a message, if it is one.
fn again_in(content: &Result<Inbound, Fault>) -> Option<ResendRequest>
    ensures { result ≡ again_in content.now }
{
    match content {
        Ok(Inbound::ResendRequest(m)) => Some(*m),
        _ => None,
    }
}

/// Returns the plan for a reset to a number.
fn on_reset(
    alloc: Global,
    at: &LoggedOn,
    heading: &Heading,
    number: SeqNum,
    to: u64,
) -> Result<Plan<'static>, AllocError>
    ensures { IfOk result (λ plan. plan ≡ on_reset at.now heading.now number to) }
{
    if at.expected <= to {
        let after = LoggedOn {
            expected: to,
            ..*at
        };
        return Ok(Plan::quiet(&after));
    }
    let reason = SessionRejectReason::ValueIsIncorrect;
    Plan::says(alloc, at, reject(heading, number, NEW_SEQ_NO, reason))
}

/// Returns the plan for a frame before which messages are missing.
fn too_high(alloc: Global, at: &LoggedOn, heard: &Heard) -> Result<Plan<'static>, AllocError>
    ensures { IfOk result (λ plan. plan ≡ too_high at.now heard.now) }
{
    if is_logout(&heard.heading.msg_type) {
        return Plan::leaves_with(alloc, at, Body::Logout(None));
    }
    let messages = Messages::one(alloc, Body::ResendRequest(at.expected))?;
    Ok(Plan::repeats(at, again_in(&heard.content), messages))
}

/// Returns the plan for a frame whose number was already used.
fn too_low(alloc: Global, at: &LoggedOn, heading: &Heading) -> Result<Plan<'static>, AllocError>
    ensures { IfOk result (λ plan. plan ≡ too_low at.now heading.now) }
{
    if heading.is_poss_dup {
        return Ok(Plan::quiet(at));
    }
    Plan::leaves_with(alloc, at, Body::Logout(Some(LogoutReason::SeqTooLow)))
}

/// Returns the number of a frame, if it was expected and the parties are right.
#[inline(always)]
pub fn in_turn(at: &Option<LoggedOn>, heading: &Heading) -> Option<SeqNum>
    ensures { IfSome result (λ number. IsInTurn at.now heading.now number) }
{
    let (Some(at), Some(number)) = (at, heading.number) else {
        return None;
    };
    if number.get() != at.expected || wrong_party(&at.firm, heading).is_some() {
        return None;
    }
    Some(number)
}

/// Returns the plan for a frame that isn't a reset.
fn by_number(
    alloc: Global,
    at: &LoggedOn,
    heard: Heard,
    number: SeqNum,
) -> Result<Plan<'static>, AllocError>
    ensures { IfOk result (λ plan. plan ≡ by_number at.now heard number) }
{
    let place = number.get();
    if at.expected < place {
        return too_high(alloc, at, &heard);
    }
    if place < at.expected {
        return too_low(alloc, at, &heard.heading);
    }
    let after = LoggedOn {
        expected: place + 1,
        ..*at
    };
    as_expected(alloc, &after, heard, number)
}

/// Returns the plan for a frame with a number.
fn on_number(
    alloc: Global,
    at: &LoggedOn,
    heard: Heard,
    number: SeqNum,
) -> Result<Plan<'static>, AllocError>
    ensures { IfOk result (λ plan. plan ≡ on_number at.now heard number) }
{
    match reset_to(&heard.content) {
        Some(to) => on_reset(alloc, at, &heard.heading, number, to),
        None => by_number(alloc, at, heard, number),
    }
}

/// Returns the plan for a frame.
pub fn frame_plan(alloc: Global, at: &LoggedOn, heard: Heard) -> Result<Plan<'static>, AllocError>
    ensures { IfOk result (λ plan. plan ≡ frame_plan at.now heard) }
{
    match heard.heading.number {
        Some(number) => on_number(alloc, at, heard, number),
        None => Plan::leaves_with(alloc, at, Body::Logout(Some(LogoutReason::BadSeqNum))),
    }
}
