//! Messages whose number was expected, by content.

ghost use Rattle.std.specs.Prelude.{◌≡◌, IfOk};
ghost use Rattle.gu_msgs.specs.declared.coded_values.BusinessRejectReason.TheVariants.{UnsupportedMessageType};
ghost use Rattle.gu_msgs.specs.declared.outbound.Application.TheVariants as application;
ghost use Rattle.gu_msgs.specs.declared.outbound.Body.TheVariants as body;
ghost use Rattle.gu_session.specs.FrameRules.{as_expected, is_sender, on_gap_fill, on_message, on_wrong_party, wrong_party};

use crate::heard::{Heading, Heard};
use crate::logged_on::LoggedOn;
use crate::messages::Messages;
use crate::plan::Plan;
use crate::rejecting::reject;
use crate::seq_num::SeqNum;
use gu_msgs::outbound::{Application, Body, BusinessMessageReject};
use gu_msgs::{
    Asking, BusinessRejectReason, Inbound, LogoutReason, NEW_SEQ_NO, SENDER_COMP_ID,
    SessionRejectReason, TARGET_COMP_ID, TypeCode,
};
use gu_terms::FirmId;
use std::alloc::{AllocError, Global};

/// Returns whether this firm is the sender.
pub fn is_sender(firm: &FirmId, sender: &Option<FirmId>) -> bool
    ensures { result ≡ is_sender firm.now sender.now }
{
    match sender {
        Some(named) => named == firm,
        None => false,
    }
}

/// Returns the tag of the first wrong party, if there is one.
pub fn wrong_party(firm: &FirmId, heading: &Heading) -> Option<u32>
    ensures { result ≡ wrong_party firm.now heading.now }
{
    if !is_sender(firm, &heading.sender) {
        return Some(SENDER_COMP_ID);
    }
    if heading.is_to_house {
        None
    } else {
        Some(TARGET_COMP_ID)
    }
}

/// Returns the plan for a gap fill up to a number.
fn on_gap_fill(
    alloc: Global,
    at: &LoggedOn,
    heading: &Heading,
    number: SeqNum,
    to: u64,
) -> Result<Plan<'static>, AllocError>
    ensures { IfOk result (λ plan. plan ≡ on_gap_fill at.now heading.now number to) }
{
    if number.get() < to {
        let after = LoggedOn {
            expected: to,
            ..*at
        };
        return Ok(Plan::quiet(&after));
    }
    let reason = SessionRejectReason::ValueIsIncorrect;
    Plan::says(alloc, at, reject(heading, number, NEW_SEQ_NO, reason))
}

/// Returns the answer to a message of a type that isn't read.
fn unsupported(number: SeqNum, code: TypeCode) -> Body
    ensures { result ≡ body.Application (application.BusinessMessageReject (record { ref_seq_num = number; reason = UnsupportedMessageType code })) }
{
    Body::Application(Application::BusinessMessageReject(BusinessMessageReject {
        ref_seq_num: number.get(),
        reason: BusinessRejectReason::UnsupportedMessageType(code),
    }))
}

/// Returns the plan for a sound message.
fn on_message(
    alloc: Global,
    at: &LoggedOn,
    heading: &Heading,
    number: SeqNum,
    message: Inbound,
) -> Result<Plan<'static>, AllocError>
    ensures { IfOk result (λ plan. plan ≡ on_message at.now heading.now number message) }
{
    match message {
        Inbound::Heartbeat | Inbound::Reject => Ok(Plan::quiet(at)),
        Inbound::TestRequest(m) => { Plan::says(alloc, at, Body::Heartbeat(Some(m.test_req_id))) }
        Inbound::ResendRequest(m) => Ok(Plan::repeats(at, Some(m), Messages::none())),
        Inbound::SequenceReset(m) => on_gap_fill(alloc, at, heading, number, m.new_seq_no),
        Inbound::Logout => Plan::leaves_with(alloc, at, Body::Logout(None)),
        Inbound::Logon(_) => {
            Plan::leaves_with(alloc, at, Body::Logout(Some(LogoutReason::LoggedOn)))
        }
        Inbound::Unread(code) => Plan::says(alloc, at, unsupported(number, code)),
        Inbound::TradeCaptureReport(m) => Ok(Plan::hands(at, number, Asking::Report(m))),
        Inbound::AllocationInstruction(m) => Ok(Plan::hands(at, number, Asking::GiveUp(m))),
        Inbound::RequestForPositions(m) => { Ok(Plan::hands(at, number, Asking::Positions(m))) }
        Inbound::AllocationReportAck(m) => match m.asked() {
            Some(asking) => Ok(Plan::hands(at, number, asking)),
            None => Ok(Plan::quiet(at)),
        },
    }
}

/// Returns the plan for a message in which the party with this tag is wrong.
fn on_wrong_party(
    alloc: Global,
    at: &LoggedOn,
    heading: &Heading,
    number: SeqNum,
    tag: u32,
) -> Result<Plan<'static>, AllocError>
    ensures { IfOk result (λ plan. plan ≡ on_wrong_party at.now heading.now number tag) }
{
    let first = reject(heading, number, tag, SessionRejectReason::CompIdProblem);
    let second = Body::Logout(Some(LogoutReason::CompId));
    let messages = Messages::two(alloc, first, second)?;
    Ok(Plan::leaves(at, messages))
}

/// Returns the plan for a message whose number was expected.
pub fn as_expected(
    alloc: Global,
    at: &LoggedOn,
    heard: Heard,
    number: SeqNum,
) -> Result<Plan<'static>, AllocError>
    ensures { IfOk result (λ plan. plan ≡ as_expected at.now heard number) }
{
    let Heard { heading, content } = heard;
    if let Some(tag) = wrong_party(&at.firm, &heading) {
        return on_wrong_party(alloc, at, &heading, number, tag);
    }
    match content {
        Ok(message) => on_message(alloc, at, &heading, number, message),
        Err(fault) => Plan::says(alloc, at, reject(&heading, number, fault.tag, fault.reason)),
    }
}
