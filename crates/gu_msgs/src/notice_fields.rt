//! The fields of notices.

ghost use Rattle.std.specs.Prelude.{◌≡◌, ◌∷◌, ◌++◌, [], OnOk};
ghost use Rattle.std.specs.Fmt.{decimal};
ghost use Rattle.gu_fix.specs.TagValue.{tag_value};
ghost use Rattle.gu_msgs.specs.CodedValues.{side_letter};
ghost use Rattle.gu_msgs.specs.WrittenBodies.{allocation_fields, offer_fields, offered_fields, report_fields, trade_fields};

use crate::alloc_status::AllocStatus;
use crate::coded_values::{AllocReportType, side_letter, side_number};
use crate::draft::Draft;
use crate::outbound::{AllocationReport, TradeCaptureReport};
use crate::tags::{
    ACCOUNT, ALLOC_ACCOUNT, ALLOC_QTY, ALLOC_REPORT_ID, ALLOC_REPORT_TYPE, ALLOC_STATUS,
    ALLOC_TRANS_TYPE, AVG_PX, LAST_PX, LAST_QTY, MATCH_STATUS, NO_ALLOCS, NO_SIDES, QUANTITY, SIDE,
    SYMBOL, TRADE_DATE, TRADE_REPORT_ID, TRADE_REPORT_REF_ID, TRD_MATCH_ID,
};
use gu_terms::Side;
use itoa::Buffer;
use std::alloc::AllocError;

/// Appends the id of a side of a trade: the number of the entry that made the trade, and the side's letter.
fn push_side_id(draft: &mut Draft, entry: u64, side: Side) -> Result<(), AllocError>
    ensures { OnOk result (draft.new ≡ draft.old ++ tag_value TRADE_REPORT_ID (decimal entry ++ 45 ∷ side_letter side ∷ []) ∷ []) }
{
    let mut digits = Buffer::new();
    let number = digits.format(entry).as_bytes();
    draft.push_joined(TRADE_REPORT_ID, &[number, &[b'-', side_letter(side)]])
}

/// Appends the trade of a side.
fn push_trade(draft: &mut Draft, message: &TradeCaptureReport) -> Result<(), AllocError>
    ensures { OnOk result (draft.new ≡ draft.old ++ trade_fields message.now) }
{
    draft.push_number(MATCH_STATUS, 0)?;
    draft.push_id(TRD_MATCH_ID, message.trd_match_id)?;
    draft.push_name(SYMBOL, message.symbol.get())?;
    draft.push_number(LAST_QTY, message.last_qty.get())?;
    draft.push_price(LAST_PX, message.last_px)?;
    draft.push_day(TRADE_DATE, message.trade_date)
}

/// Appends the body of a TradeCaptureReport.
pub fn push_report(draft: &mut Draft, message: &TradeCaptureReport) -> Result<(), AllocError>
    ensures { OnOk result (draft.new ≡ draft.old ++ report_fields message.now) }
{
    push_side_id(draft, message.entry, message.side)?;
    draft.push_id(TRADE_REPORT_REF_ID, message.trade_report_ref_id)?;
    push_trade(draft, message)?;
    draft.push_number(NO_SIDES, 1)?;
    draft.push_number(SIDE, side_number(message.side))?;
    draft.push_name(ACCOUNT, message.account.get())
}

/// Appends the offer that a report is for, and the event.
fn push_offer(draft: &mut Draft, message: &AllocationReport) -> Result<(), AllocError>
    ensures { OnOk result (draft.new ≡ draft.old ++ offer_fields message.now) }
{
    let report_type = AllocReportType::of_event(message.event);
    let status = AllocStatus::of_event(message.event);
    draft.push_number(ALLOC_REPORT_ID, message.alloc_report_id.get())?;
    draft.push_number(ALLOC_TRANS_TYPE, 0)?;
    draft.push_number(ALLOC_REPORT_TYPE, report_type.number())?;
    draft.push_number(ALLOC_STATUS, status.number())
}

/// Appends the trade that an offer gives up.
fn push_offered(draft: &mut Draft, message: &AllocationReport) -> Result<(), AllocError>
    ensures { OnOk result (draft.new ≡ draft.old ++ offered_fields message.now) }
{
    draft.push_name(SYMBOL, message.symbol.get())?;
    draft.push_number(SIDE, side_number(message.side))?;
    draft.push_number(QUANTITY, message.quantity.get())?;
    draft.push_price(AVG_PX, message.avg_px)?;
    draft.push_day(TRADE_DATE, message.trade_date)
}

/// Appends the body of an AllocationReport.
pub fn push_allocation(draft: &mut Draft, message: &AllocationReport) -> Result<(), AllocError>
    ensures { OnOk result (draft.new ≡ draft.old ++ allocation_fields message.now) }
{
    push_offer(draft, message)?;
    push_offered(draft, message)?;
    draft.push_number(NO_ALLOCS, 1)?;
    draft.push_name(ALLOC_ACCOUNT, message.account.get())?;
    draft.push_number(ALLOC_QTY, message.quantity.get())
}
