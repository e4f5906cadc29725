//! The indexes of tags in tables.

ghost use Rattle.std.specs.Prelude.{◌≡◌, false, IfSome, MatchOption};
ghost use Rattle.gu_msgs.specs.Rows.{is_listed};
ghost use Rattle.gu_msgs.specs.Standings.{IsRowOf};
ghost use Rattle.gu_msgs.specs.Tables.{outer_rows};
ghost use Rattle.gu_msgs.specs.declared.msg_type.MsgType.TheVariants as kind;

use crate::msg_type::MsgType;
use crate::row::Row;
use crate::tables::outer_rows;
use crate::tags::{
    ALLOC_ID, ALLOC_TRANS_TYPE, LAST_PX, LAST_QTY, MSG_SEQ_NUM, NO_ALLOCS, NO_EXECS, NO_SIDES,
    ORIG_SENDING_TIME, POSS_DUP_FLAG, QUANTITY, SENDER_COMP_ID, SENDING_TIME, SYMBOL,
    TARGET_COMP_ID, TRADE_DATE, TRADE_REPORT_ID, TRADE_REPORT_TRANS_TYPE, TRADE_REPORT_TYPE,
    TRD_MATCH_ID,
};
use gu_fix::{BEGIN_STRING, BODY_LENGTH, CHECK_SUM, MSG_TYPE};

/// Returns the index of the row with a tag.
fn place_of(rows: &[Row], tag: u32) -> Option<usize>
    ensures { MatchOption result (is_listed rows.now tag ≡ false) (λ place. IsRowOf rows.now tag place) }
{
    for (place, row) in rows.iter().enumerate() {
        if row.tag() == tag {
            return Some(place);
        }
    }
    None
}

/// The index of a tag in a table: among the header's tags and CheckSum, or else among a type's own.
macro_rules! place_in {
    ($tag:expr, $($own:pat => $place:expr),* $(,)?) => {
        match $tag {
            BEGIN_STRING => Some(0),
            BODY_LENGTH => Some(1),
            MSG_TYPE => Some(2),
            SENDER_COMP_ID => Some(3),
            TARGET_COMP_ID => Some(4),
            MSG_SEQ_NUM => Some(5),
            SENDING_TIME => Some(6),
            POSS_DUP_FLAG => Some(7),
            ORIG_SENDING_TIME => Some(8),
            CHECK_SUM => Some(9),
            $($own => Some($place),)*
            _ => None,
        }
    };
}

/// Returns the index of a tag in the table of reports, which are more frequent than all other messages.
#[tactic(auto, unfolding(crate::specs::Tables::header_rows, crate::specs::Tables::body_rows))]
#[inline(always)]
fn report_place(tag: u32) -> Option<usize>
    ensures { MatchOption result (is_listed (outer_rows kind.TradeCaptureReport) tag ≡ false)
        (λ place. IsRowOf (outer_rows kind.TradeCaptureReport) tag place) }
{
    place_in!(
        tag,
        TRADE_REPORT_ID => 10,
        TRADE_REPORT_TRANS_TYPE => 11,
        TRADE_REPORT_TYPE => 12,
        TRD_MATCH_ID => 13,
        SYMBOL => 14,
        LAST_QTY => 15,
        LAST_PX => 16,
        TRADE_DATE => 17,
        NO_SIDES => 18,
    )
}

/// Returns the index of a tag in the table of give-ups, in which groups are looked up often.
#[tactic(auto, unfolding(crate::specs::Tables::header_rows, crate::specs::Tables::body_rows))]
#[inline(always)]
fn give_up_place(tag: u32) -> Option<usize>
    ensures { MatchOption result (is_listed (outer_rows kind.AllocationInstruction) tag ≡ false)
        (λ place. IsRowOf (outer_rows kind.AllocationInstruction) tag place) }
{
    place_in!(
        tag,
        ALLOC_ID => 10,
        ALLOC_TRANS_TYPE => 11,
        QUANTITY => 12,
        NO_EXECS => 13,
        NO_ALLOCS => 14,
    )
}

/// Returns the index of a tag among those read at the outer level of a message of this type.
#[inline(always)]
pub fn outer_place(msg_type: MsgType, tag: u32) -> Option<usize>
    ensures { MatchOption result (is_listed (outer_rows msg_type) tag ≡ false) (λ place. IsRowOf (outer_rows msg_type) tag place) }
{
    match msg_type {
        MsgType::TradeCaptureReport => report_place(tag),
        MsgType::AllocationInstruction => give_up_place(tag),
        _ => place_of(outer_rows(msg_type), tag),
    }
}

/// Returns the index of a tag among rows. If a type is given, the rows are those of the outer level of its messages.
#[inline(always)]
pub fn row_of(rows: &[Row], outer: Option<MsgType>, tag: u32) -> Option<usize>
    requires { IfSome outer (λ msg_type. rows.now ≡ outer_rows msg_type) }
    ensures { MatchOption result (is_listed rows.now tag ≡ false) (λ place. IsRowOf rows.now tag place) }
{
    match outer {
        Some(msg_type) => outer_place(msg_type, tag),
        None => place_of(rows, tag),
    }
}
