//! Reports of one side of a trade (FIX: TradeCaptureReport).

ghost use Rattle.std.specs.Prelude.{◌≡◌, MatchResult, None};
ghost use Rattle.gu_msgs.specs.Messages.{Says};
ghost use Rattle.gu_msgs.specs.Outlines.{AreJudged, HasSide, IsShaped, IsTypedRefusal, ReadsEntry, ReadsTo, SaysSide};
ghost use Rattle.gu_msgs.specs.Shape.{tags_fault};
ghost use Rattle.gu_msgs.specs.Tables.{entry_rows};
ghost use Rattle.gu_msgs.specs.declared.msg_type.MsgType.TheVariants as kind;

use crate::boxed::Boxed;
use crate::fault::{Fault, MsgFault};
use crate::groups::{text_at, value_at};
use crate::inbound::{Inbound, TradeCaptureReport};
use crate::kinds;
use crate::outline::Outline;
use crate::run::Run;
use crate::tags::{ACCOUNT, NO_SIDES, SIDE};
use gu_terms::{AccountId, Id, Side};
use std::alloc::Global;

/// The indexes of the rows in its table.
const TRADE_REPORT_ID_ROW: usize = 10;

const TRADE_REPORT_TRANS_TYPE_ROW: usize = 11;

const TRADE_REPORT_TYPE_ROW: usize = 12;

const TRD_MATCH_ID_ROW: usize = 13;

const SYMBOL_ROW: usize = 14;

const LAST_QTY_ROW: usize = 15;

const LAST_PX_ROW: usize = 16;

const TRADE_DATE_ROW: usize = 17;

pub const NO_SIDES_ROW: usize = 18;

/// Returns the side and the account in an entry.
fn entry_side(entry: &Run<'_>) -> Result<(Side, AccountId), Fault>
    requires { tags_fault (entry_rows NO_SIDES) entry.now ≡ None }
    ensures { ReadsEntry (entry_rows NO_SIDES) entry.now (λ s. SaysSide entry.now s.0 s.1) result }
{
    let side = value_at(SIDE, kinds::side(text_at(entry, SIDE)))?;
    let account = value_at(ACCOUNT, kinds::account(text_at(entry, ACCOUNT)))?;
    Ok((side, account))
}

/// Returns the side of a report and its account.
#[tactic(auto, unfolding(crate::specs::Tables::header_rows, crate::specs::Tables::body_rows, crate::specs::Tables::entry_rows))]
fn one_side(outline: &Outline<'_, '_>) -> Result<(Side, AccountId), Fault>
    requires kind { outline.now.kind ≡ kind.TradeCaptureReport }
    requires judged { AreJudged outline.now 18 }
    ensures { ReadsTo outline.now 19 (λ s. HasSide outline.now.fields s.0 s.1) result }
{
    entry_side(&outline.only_entry(NO_SIDES_ROW, SIDE)?)
}

/// Returns the report in a message.
#[tactic(auto, using(crate::proofs::OutlineLemmas::of_type), unfolding(crate::specs::Tables::header_rows, crate::specs::Tables::body_rows, crate::specs::Tables::entry_rows))]
pub fn read_trade_capture_report(
    alloc: Global,
    outline: &Outline<'_, '_>,
) -> Result<Inbound, MsgFault>
    requires shaped { IsShaped kind.TradeCaptureReport outline.now }
    requires judged { AreJudged outline.now 10 }
    ensures { MatchResult result (Says outline.now.fields) (IsTypedRefusal kind.TradeCaptureReport outline.now.fields) }
{
    let trade_report_id = outline.id_text(TRADE_REPORT_ID_ROW)?;
    outline.may_number(TRADE_REPORT_TRANS_TYPE_ROW, 0, 0)?;
    outline.may_number(TRADE_REPORT_TYPE_ROW, 0, 0)?;
    let trd_match_id = outline.id_text(TRD_MATCH_ID_ROW)?;
    let symbol = outline.symbol(SYMBOL_ROW)?;
    let last_qty = outline.lots(LAST_QTY_ROW)?;
    let last_px = outline.price(LAST_PX_ROW)?;
    let trade_date = outline.day(TRADE_DATE_ROW)?;
    let (side, account) = one_side(outline)?;
    let report = TradeCaptureReport {
        trade_report_id: Id::known(trade_report_id),
        trd_match_id: Id::known(trd_match_id),
        symbol,
        last_qty,
        last_px,
        trade_date,
        side,
        account,
    };
    Ok(Inbound::TradeCaptureReport(Boxed::new(alloc, report)?))
}
