//! Reading messages from their fields.

ghost use Rattle.std.specs.Prelude.{◌≡◌, Some, IfErr, IfOk, MatchResult};
ghost use Rattle.gu_fix.specs.declared.tag.TheConstants.{MSG_TYPE};
ghost use Rattle.gu_msgs.specs.Faults.{IsFaultOf, IsRefusal, untyped_fault};
ghost use Rattle.gu_msgs.specs.Messages.{Says};
ghost use Rattle.gu_msgs.specs.MsgTypes.{code_of};
ghost use Rattle.gu_msgs.specs.Outlines.{AreJudged, IsShaped, IsTypedRefusal};
ghost use Rattle.gu_msgs.specs.StandardHeader.{IsHeaderIn};
ghost use Rattle.gu_msgs.specs.Values.{first_value};

use crate::allocation_instruction::read_allocation_instruction;
use crate::allocation_report_ack::read_allocation_report_ack;
use crate::fault::{Fault, MsgFault};
use crate::field_values::first_value;
use crate::header_reading::header_in;
use crate::inbound::Inbound;
use crate::msg_type::MsgType;
use crate::outline::Outline;
use crate::reject_reason::SessionRejectReason;
use crate::request_for_positions::read_request_for_positions;
use crate::run::Run;
use crate::session_messages::{
    read_logon, read_resend_request, read_sequence_reset, read_test_request,
};
use crate::shape::{fault_at, shape_fault};
use crate::standard_header::HeaderRef;
use crate::standings::{NONE_STANDS, standings};
use crate::tables::header_rows;
use crate::trade_capture_report::read_trade_capture_report;
use crate::type_code::TypeCode;
use gu_fix::{Fields, MSG_TYPE};
use std::alloc::{AllocError, Global};

/// A message as read: its contents or its first fault, and its header.
#[derive(Drop)]
pub struct ReadMessage<'a> {
    pub content: Result<Inbound, Fault>,
    pub header: HeaderRef<'a>,
}

/// A message without a fault, and its header.
#[derive(Drop)]
struct SoundMessage<'a> {
    message: Inbound,
    header: HeaderRef<'a>,
}

/// Returns a message of this type of sound shape, and its header, unless some value isn't allowed.
#[inline(always)]
fn read_outlined(
    alloc: Global,
    outline: &Outline<'_, '_>,
    msg_type: MsgType,
) -> Result<Inbound, MsgFault>
    requires shaped { IsShaped msg_type outline.now }
    requires judged { AreJudged outline.now 10 }
    ensures { MatchResult result (Says outline.now.fields) (IsTypedRefusal msg_type outline.now.fields) }
{
    match msg_type {
        MsgType::Heartbeat => Ok(Inbound::Heartbeat),
        MsgType::TestRequest => read_test_request(alloc, outline),
        MsgType::ResendRequest => read_resend_request(outline),
        MsgType::Reject => Ok(Inbound::Reject),
        MsgType::SequenceReset => read_sequence_reset(outline),
        MsgType::Logout => Ok(Inbound::Logout),
        MsgType::Logon => read_logon(outline),
        MsgType::TradeCaptureReport => read_trade_capture_report(alloc, outline),
        MsgType::AllocationInstruction => read_allocation_instruction(alloc, outline),
        MsgType::AllocationReportAck => read_allocation_report_ack(outline),
        MsgType::RequestForPositions => read_request_for_positions(alloc, outline),
    }
}

/// Returns a message of this type.
#[inline(always)]
fn read_typed<'a>(
    alloc: Global,
    fields: Run<'a>,
    msg_type: MsgType,
) -> Result<SoundMessage<'a>, MsgFault>
    requires { first_value MSG_TYPE fields ≡ Some (code_of msg_type) }
    ensures read { MatchResult result (λ sound. Says fields.entry sound.message) (IsTypedRefusal msg_type fields.entry) }
    ensures header { IfOk result (λ sound. IsHeaderIn fields.entry sound.header) }
{
    let mut numbers = NONE_STANDS;
    if let Some(fault) = shape_fault(&fields, msg_type, &mut numbers) {
        return Err(MsgFault::Rejected(fault));
    }
    let outline = Outline::new(fields, msg_type, &numbers);
    outline.header()?;
    let message = read_outlined(alloc, &outline, msg_type)?;
    let header = outline.header_in();
    Ok(SoundMessage { message, header })
}

/// Returns the fault of fields without a type.
fn untyped_fault(fields: &Run<'_>) -> Fault
    ensures { result ≡ untyped_fault fields.now }
{
    let mut numbers = NONE_STANDS;
    match standings(fields, header_rows(), None, &mut numbers) {
        Some(tag) => fault_at(SessionRejectReason::TagAppearsMoreThanOnce, tag),
        None => fault_at(SessionRejectReason::RequiredTagMissing, MSG_TYPE),
    }
}

/// Returns a message without a fault, or the first fault of its fields.
fn read_sound(alloc: Global, fields: &Fields) -> Result<SoundMessage<'_>, MsgFault>
    ensures says { IfOk result (λ sound. Says fields.now sound.message) }
    ensures header { IfOk result (λ sound. IsHeaderIn fields.now sound.header) }
    ensures refused { IfErr result (IsRefusal fields.now) }
{
    let all = Run::of(fields);
    let Some(text) = first_value(&all, MSG_TYPE) else {
        return Err(MsgFault::Rejected(untyped_fault(&all)));
    };
    if let Some(msg_type) = MsgType::of_code(text) {
        return read_typed(alloc, all, msg_type);
    }
    match TypeCode::new(text) {
        Some(code) => Ok(SoundMessage {
            message: Inbound::Unread(code),
            header: header_in(fields),
        }),
        None => Err(MsgFault::Rejected(fault_at(SessionRejectReason::InvalidMsgType, MSG_TYPE))),
    }
}

/// Returns the message in these fields, or their first fault.
pub fn read(alloc: Global, fields: &Fields) -> Result<Inbound, MsgFault>
    ensures says { IfOk result (Says fields.now) }
    ensures refused { IfErr result (IsRefusal fields.now) }
{
    match read_sound(alloc, fields) {
        Ok(sound) => Ok(sound.message),
        Err(fault) => Err(fault),
    }
}

/// Returns the same, with the header, whether or not there is a fault.
pub fn read_with_header(alloc: Global, fields: &Fields) -> Result<ReadMessage<'_>, AllocError>
    ensures content { IfOk result (λ read. MatchResult read.content (Says fields.now) (IsFaultOf fields.now)) }
    ensures header { IfOk result (λ read. IsHeaderIn fields.now read.header) }
{
    match read_sound(alloc, fields) {
        Ok(sound) => Ok(ReadMessage {
            content: Ok(sound.message),
            header: sound.header,
        }),
        Err(MsgFault::Rejected(fault)) => Ok(ReadMessage {
            content: Err(fault),
            header: header_in(fields),
        }),
        Err(MsgFault::Memory) => Err(AllocError),
    }
}
