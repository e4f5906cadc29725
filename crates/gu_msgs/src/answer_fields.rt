//! The fields of answers to a firm.

ghost use Rattle.std.specs.Prelude.{◌≡◌, ◌++◌, OnOk, IfOk, IsTrue};
ghost use Rattle.std.specs.Fmt.{decimal};
ghost use Rattle.gu_msgs.specs.Encodable.{is_plain};
ghost use Rattle.gu_msgs.specs.WrittenBodies.{answer_id, answer_ids, give_up_status, instruction_ack_fields, position_fields, quantity_fields, report_ack_fields, report_status, request_ack_fields};

use crate::alloc_status::AllocStatus;
use crate::draft::Draft;
use crate::outbound::{
    AllocationInstructionAck, PositionReport, RequestForPositionsAck, TradeCaptureReportAck,
};
use crate::rejection::Rejection;
use crate::tags::{
    ACCOUNT, ALLOC_ID, ALLOC_REJ_CODE, ALLOC_STATUS, CLEARING_BUSINESS_DATE, LONG_QTY,
    NO_POSITIONS, POS_MAINT_RPT_ID, POS_REQ_ID, POS_REQ_RESULT, POS_REQ_STATUS, POS_TYPE,
    SHORT_QTY, SYMBOL, TOTAL_NUM_POS_REPORTS, TRADE_REPORT_ID, TRADE_REPORT_REJECT_REASON,
    TRD_MATCH_ID, TRD_RPT_STATUS,
};
use gu_terms::{AllocReject, Id};
use itoa::Buffer;
use std::alloc::{AllocError, Global};

/// The only code for a rejected give-up (FIX: AllocRejCode, tag 88): its text has the reason.
const OTHER: u64 = 99;

/// The most bytes in a 64-bit number and `-`.
const LONGEST_PLACE: usize = 21;

/// Appends whether a report was accepted, and if not, why.
fn push_report_status(draft: &mut Draft, rejection: &Option<Rejection>) -> Result<(), AllocError>
    ensures { OnOk result (draft.new ≡ draft.old ++ report_status rejection.now) }
{
    let Some(rejection) = rejection else {
        return draft.push_number(TRD_RPT_STATUS, 0);
    };
    draft.push_number(TRD_RPT_STATUS, 1)?;
    draft.push_number(TRADE_REPORT_REJECT_REASON, rejection.reason().number())?;
    draft.push_rejection(rejection)
}

/// Appends the body of a TradeCaptureReportAck.
#[inline(always)]
pub fn push_report_ack(draft: &mut Draft, message: &TradeCaptureReportAck) -> Result<(), AllocError>
    ensures { OnOk result (draft.new ≡ draft.old ++ report_ack_fields message.now) }
{
    draft.push_id(TRADE_REPORT_ID, message.trade_report_id)?;
    draft.push_id(TRD_MATCH_ID, message.trd_match_id)?;
    push_report_status(draft, &message.rejection)
}

/// Appends whether a give-up was accepted, and if not, why.
fn push_give_up_status(draft: &mut Draft, rejection: &Option<Rejection>) -> Result<(), AllocError>
    ensures { OnOk result (draft.new ≡ draft.old ++ give_up_status rejection.now) }
{
    let Some(rejection) = rejection else {
        return draft.push_number(ALLOC_STATUS, AllocStatus::Accepted.number());
    };
    let refused = AllocStatus::Rejected(AllocReject::BlockLevel);
    draft.push_number(ALLOC_STATUS, refused.number())?;
    draft.push_number(ALLOC_REJ_CODE, OTHER)?;
    draft.push_rejection(rejection)
}

/// Appends the body of an AllocationInstructionAck.
pub fn push_instruction_ack(
    draft: &mut Draft,
    message: &AllocationInstructionAck,
) -> Result<(), AllocError>
    ensures { OnOk result (draft.new ≡ draft.old ++ instruction_ack_fields message.now) }
{
    draft.push_id(ALLOC_ID, message.alloc_id)?;
    push_give_up_status(draft, &message.rejection)
}

/// Appends a number.
fn push_decimal(text: &mut Vec<u8>, number: u64) -> Result<(), AllocError>
    ensures { OnOk result (text.new.items ≡ text.old.items ++ decimal number) }
{
    let mut digits = Buffer::new();
    text.extend_from_slice(digits.format(number).as_bytes())
}

/// Returns the id of an answer to a question: the question's id and the answer's place.
fn answer_id(alloc: Global, id: Id, place: u64) -> Result<Vec<u8>, AllocError>
    ensures text { IfOk result (λ text. text.items ≡ answer_id id place) }
    ensures plain { IfOk result (λ text. IsTrue (is_plain text.items)) }
{
    let bytes = id.get();
    let mut text = Vec::with_capacity(alloc, bytes.len() + LONGEST_PLACE)?;
    text.extend_from_slice(bytes)?;
    text.push(b'-')?;
    push_decimal(&mut text, place)?;
    Ok(text)
}

/// Appends the ids of an answer to a question: its own and the question's.
fn push_answer_ids(draft: &mut Draft, id: Id, place: u64) -> Result<(), AllocError>
    ensures { OnOk result (draft.new ≡ draft.old ++ answer_ids id place) }
{
    let own = answer_id(draft.alloc(), id, place)?;
    draft.push(POS_MAINT_RPT_ID, &own)?;
    draft.push_id(POS_REQ_ID, id)
}

/// Appends the body of a RequestForPositionsAck.
pub fn push_request_ack(
    draft: &mut Draft,
    message: &RequestForPositionsAck,
) -> Result<(), AllocError>
    ensures { OnOk result (draft.new ≡ draft.old ++ request_ack_fields message.now) }
{
    push_answer_ids(draft, message.pos_req_id, 0)?;
    draft.push_number(POS_REQ_RESULT, message.outcome.number())?;
    draft.push_number(POS_REQ_STATUS, message.outcome.status())?;
    draft.push_number(TOTAL_NUM_POS_REPORTS, message.outcome.reports())?;
    draft.push_name(ACCOUNT, message.account.get())
}

/// Appends the quantities of a position.
fn push_quantities(draft: &mut Draft, message: &PositionReport) -> Result<(), AllocError>
    ensures { OnOk result (draft.new ≡ draft.old ++ quantity_fields message.now) }
{
    draft.push_number(NO_POSITIONS, 1)?;
    draft.push(POS_TYPE, b"TQ")?;
    draft.push_number(LONG_QTY, message.long_qty)?;
    draft.push_number(SHORT_QTY, message.short_qty)
}

/// Appends the body of a PositionReport.
pub fn push_position(draft: &mut Draft, message: &PositionReport) -> Result<(), AllocError>
    ensures { OnOk result (draft.new ≡ draft.old ++ position_fields message.now) }
{
    push_answer_ids(draft, message.pos_req_id, message.place)?;
    draft.push_number(POS_REQ_RESULT, 0)?;
    draft.push_day(CLEARING_BUSINESS_DATE, message.clearing_business_date)?;
    draft.push_name(ACCOUNT, message.account.get())?;
    draft.push_name(SYMBOL, message.symbol.get())?;
    push_quantities(draft, message)
}
