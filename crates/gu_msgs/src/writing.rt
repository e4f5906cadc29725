//! Writing messages as fields.

ghost use Rattle.std.specs.Prelude.{◌≡◌, ◌∷◌, ◌++◌, [], List, None, IfOk, IsTrue, OnOk, codes};
ghost use Rattle.gu_fix.specs.Encoding.{fault_of, fields_of_message, message_of};
ghost use Rattle.gu_fix.specs.Fields.{HasFields};
ghost use Rattle.gu_fix.specs.TagValue.{TagValue, tag_value};
ghost use Rattle.gu_fix.specs.WholeMessage.{IsWhole};
ghost use Rattle.gu_msgs.specs.Encodable.{is_plain};
ghost use Rattle.gu_msgs.specs.WrittenBodies.{number_field};
ghost use Rattle.gu_msgs.specs.Written.{IsWritten, MarksResend, application_code, application_fields, body_code, body_fields, outbound_of};

use crate::answer_fields::{
    push_instruction_ack, push_position, push_report_ack, push_request_ack,
};
use crate::draft::Draft;
use crate::notice_fields::{push_allocation, push_report};
use crate::outbound::{Application, Body, Outbound, OutboundRef};
use crate::session_fields::{push_business_reject, push_logon, push_reject};
use crate::stamp::Stamp;
use crate::tags::{
    BEGIN_SEQ_NO, END_SEQ_NO, GAP_FILL_FLAG, MSG_SEQ_NUM, NEW_SEQ_NO, ORIG_SENDING_TIME,
    POSS_DUP_FLAG, SENDER_COMP_ID, SENDING_TIME, TARGET_COMP_ID, TEST_REQ_ID, TEXT,
};
use gu_fix::{Fields, MSG_TYPE};
use gu_terms::Moment;
use std::alloc::{AllocError, Global};

/// The house's name as a sender.
const HOUSE: &[u8] = b"GIVEUP";

impl Application {
    /// Returns the code of its type.
    fn code(&self) -> &'static str
        ensures code { result.now ≡ application_code self.now }
        ensures plain { IsTrue (is_plain result.now) }
    {
        match self {
            Application::BusinessMessageReject(_) => "j",
            Application::TradeCaptureReportAck(_) => "AR",
            Application::AllocationInstructionAck(_) => "P",
            Application::TradeCaptureReport(_) => "AE",
            Application::AllocationReport(_) => "AS",
            Application::RequestForPositionsAck(_) => "AO",
            Application::PositionReport(_) => "AP",
        }
    }
}

impl Body {
    /// Returns the code of its type.
    fn code(&self) -> &'static str
        ensures code { result.now ≡ body_code self.now }
        ensures plain { IsTrue (is_plain result.now) }
    {
        match self {
            Body::Logon { .. } => "A",
            Body::Heartbeat(_) => "0",
            Body::TestRequest => "1",
            Body::ResendRequest(_) => "2",
            Body::Reject(_) => "3",
            Body::SequenceReset(_) => "4",
            Body::Logout(_) => "5",
            Body::Application(message) => message.code(),
        }
    }
}

/// Appends a request for all messages from a number on.
fn push_resend_request(draft: &mut Draft, from: u64) -> Result<(), AllocError>
    ensures { OnOk result (draft.new ≡ draft.old ++ number_field BEGIN_SEQ_NO from ∷ number_field END_SEQ_NO 0 ∷ []) }
{
    draft.push_number(BEGIN_SEQ_NO, from)?;
    draft.push_number(END_SEQ_NO, 0)
}

/// Appends a gap fill for the messages up to a number.
fn push_gap_fill(draft: &mut Draft, to: u64) -> Result<(), AllocError>
    ensures { OnOk result (draft.new ≡ draft.old ++ tag_value GAP_FILL_FLAG (codes "Y") ∷ number_field NEW_SEQ_NO to ∷ []) }
{
    draft.push(GAP_FILL_FLAG, b"Y")?;
    draft.push_number(NEW_SEQ_NO, to)
}

/// Appends the body of an application message.
fn push_application(draft: &mut Draft, message: &Application) -> Result<(), AllocError>
    ensures { OnOk result (draft.new ≡ draft.old ++ application_fields message.now) }
{
    match message {
        Application::BusinessMessageReject(message) => push_business_reject(draft, message),
        Application::TradeCaptureReportAck(message) => push_report_ack(draft, message),
        Application::AllocationInstructionAck(message) => push_instruction_ack(draft, message),
        Application::TradeCaptureReport(message) => push_report(draft, message),
        Application::AllocationReport(message) => push_allocation(draft, message),
        Application::RequestForPositionsAck(message) => push_request_ack(draft, message),
        Application::PositionReport(message) => push_position(draft, message),
    }
}

/// Appends the body of a message.
#[inline(always)]
fn push_body(draft: &mut Draft, body: &Body) -> Result<(), AllocError>
    ensures { OnOk result (draft.new ≡ draft.old ++ body_fields body.now) }
{
    match body {
        Body::Logon {
            heart_bt_int,
            resets_seq_num,
        } => push_logon(draft, *heart_bt_int, *resets_seq_num),
        Body::Heartbeat(Some(id)) => draft.push(TEST_REQ_ID, id.get()),
        Body::Heartbeat(None) | Body::Logout(None) => Ok(()),
        Body::TestRequest => draft.push(TEST_REQ_ID, b"TEST"),
        Body::ResendRequest(from) => push_resend_request(draft, *from),
        Body::Reject(message) => push_reject(draft, message),
        Body::SequenceReset(to) => push_gap_fill(draft, *to),
        Body::Logout(Some(reason)) => draft.push(TEXT, reason.text().as_bytes()),
        Body::Application(message) => push_application(draft, message),
    }
}

/// Appends the marks of a message that is sent again.
#[inline(always)]
fn push_marks(draft: &mut Draft, first: Option<Moment>) -> Result<(), AllocError>
    ensures { OnOk result ((marks : List TagValue) × MarksResend first marks × (draft.new ≡ draft.old ++ marks)) }
{
    if let Some(moment) = first {
        draft.push(POSS_DUP_FLAG, b"Y")?;
        draft.push_moment(ORIG_SENDING_TIME, &Stamp::new(moment))?;
    }
    Ok(())
}

/// Appends the fields of a message, in order, to an empty draft.
#[inline(always)]
fn push_message(
    draft: &mut Draft,
    message: &OutboundRef<'_>,
    stamp: &Stamp,
) -> Result<(), AllocError>
    requires none { draft.old ≡ [] }
    requires time { stamp.now ≡ message.now.sending_time }
    ensures { OnOk result (IsWritten (outbound_of message.now) draft.new) }
{
    draft.push(MSG_TYPE, message.body.code().as_bytes())?;
    draft.push(SENDER_COMP_ID, HOUSE)?;
    draft.push_name(TARGET_COMP_ID, message.firm.get())?;
    draft.push_number(MSG_SEQ_NUM, message.msg_seq_num)?;
    draft.push_moment(SENDING_TIME, stamp)?;
    push_marks(draft, message.orig_sending_time)?;
    push_body(draft, message.body)
}

/// Replaces the contents of a draft by a message with its sending time. Its fields can be encoded as a whole message of at most 65,536
/// bytes, and are read back.
pub fn write_over(
    draft: &mut Draft,
    message: &OutboundRef<'_>,
    stamp: &Stamp,
) -> Result<(), AllocError>
    requires { stamp.now ≡ message.now.sending_time }
    ensures written { OnOk result (IsWritten (outbound_of message.now) draft.new) }
    ensures encodable { OnOk result (fault_of draft.new ≡ None) }
    ensures whole { OnOk result (IsWhole (message_of draft.new)) }
    ensures read_back { OnOk result (HasFields (message_of draft.new) (fields_of_message draft.new) None) }
{
    draft.clear();
    push_message(draft, message, stamp)?;
    // Shows the prover: each value can be encoded.
    let _ = draft.fields();
    Ok(())
}

/// Returns the fields of a message. They can be encoded as a whole message of at most 65,536 bytes, and are read back.
pub fn write(alloc: Global, message: &Outbound) -> Result<Fields, AllocError>
    ensures written { IfOk result (λ fields. IsWritten message.now fields) }
    ensures encodable { IfOk result (λ fields. fault_of fields ≡ None) }
    ensures whole { IfOk result (λ fields. IsWhole (message_of fields)) }
    ensures read_back { IfOk result (λ fields. HasFields (message_of fields) (fields_of_message fields) None) }
{
    let mut draft = Draft::with_room(alloc)?;
    let stamp = Stamp::new(message.sending_time);
    write_over(&mut draft, &message.as_ref(), &stamp)?;
    Ok(draft.into_fields())
}
