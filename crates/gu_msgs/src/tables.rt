//! The table of messages that are read.

ghost use Rattle.std.specs.Prelude.{◌≡◌};
ghost use Rattle.gu_msgs.specs.Tables.{entry_rows, header_rows, outer_rows};

use crate::msg_type::MsgType;
use crate::row::Kind::{Date, Id, Lots, Name, Number, Price, Status, TestReqId, Text, YesOrNo};
use crate::row::Row;
use crate::row::Row::{Optional, Required};
use crate::tags::{
    ACCOUNT, ALLOC_ACCOUNT, ALLOC_ID, ALLOC_QTY, ALLOC_REPORT_ID, ALLOC_STATUS, ALLOC_TRANS_TYPE,
    BEGIN_SEQ_NO, DEFAULT_APPL_VER_ID, ENCRYPT_METHOD, END_SEQ_NO, EXEC_ID, GAP_FILL_FLAG,
    HEART_BT_INT, LAST_PX, LAST_QTY, MSG_SEQ_NUM, NEW_SEQ_NO, NO_ALLOCS, NO_EXECS, NO_SIDES,
    ORIG_SENDING_TIME, POS_REQ_ID, POS_REQ_TYPE, POSS_DUP_FLAG, QUANTITY, RESET_SEQ_NUM_FLAG,
    SENDER_COMP_ID, SENDING_TIME, SIDE, SYMBOL, TARGET_COMP_ID, TEST_REQ_ID, TRADE_DATE,
    TRADE_REPORT_ID, TRADE_REPORT_TRANS_TYPE, TRADE_REPORT_TYPE, TRD_MATCH_ID,
};
use gu_fix::{BEGIN_STRING, BODY_LENGTH, CHECK_SUM, MSG_TYPE};

/// The greatest whole number in a message.
pub const GREATEST: u64 = 1_000_000_000;

/// Makes a table: the rows of the header and CheckSum, followed by a type's own.
macro_rules! table {
    ($($row:expr),* $(,)?) => {
        [
            Required(BEGIN_STRING, Text),
            Required(BODY_LENGTH, Text),
            Required(MSG_TYPE, Text),
            Required(SENDER_COMP_ID, Text),
            Required(TARGET_COMP_ID, Text),
            Required(MSG_SEQ_NUM, Number(0, GREATEST)),
            Required(SENDING_TIME, Text),
            Optional(POSS_DUP_FLAG, YesOrNo),
            Optional(ORIG_SENDING_TIME, Text),
            Required(CHECK_SUM, Text),
            $($row),*
        ]
    };
}

/// The number of rows in the header.
pub const HEADER_ROWS: usize = 10;

const HEADER: [Row; HEADER_ROWS] = table![];

const HEARTBEAT: [Row; 11] = table![Optional(TEST_REQ_ID, Text)];

const TEST_REQUEST: [Row; 11] = table![Required(TEST_REQ_ID, TestReqId)];

const RESEND_REQUEST: [Row; 12] = table![
    Required(BEGIN_SEQ_NO, Number(1, GREATEST)),
    Required(END_SEQ_NO, Number(0, GREATEST)),
];

const SEQUENCE_RESET: [Row; 12] = table![
    Optional(GAP_FILL_FLAG, YesOrNo),
    Required(NEW_SEQ_NO, Number(1, GREATEST)),
];

const LOGON: [Row; 14] = table![
    Required(ENCRYPT_METHOD, Number(0, 0)),
    Required(HEART_BT_INT, Number(0, 3600)),
    Required(DEFAULT_APPL_VER_ID, Number(9, 9)),
    Optional(RESET_SEQ_NUM_FLAG, YesOrNo),
];

const TRADE_CAPTURE_REPORT: [Row; 19] = table![
    Required(TRADE_REPORT_ID, Id),
    Optional(TRADE_REPORT_TRANS_TYPE, Number(0, 0)),
    Optional(TRADE_REPORT_TYPE, Number(0, 0)),
    Required(TRD_MATCH_ID, Id),
    Required(SYMBOL, Name),
    Required(LAST_QTY, Lots),
    Required(LAST_PX, Price),
    Optional(TRADE_DATE, Date),
    Required(NO_SIDES, Number(1, 1)),
];

const ALLOCATION_INSTRUCTION: [Row; 15] = table![
    Required(ALLOC_ID, Id),
    Optional(ALLOC_TRANS_TYPE, Number(0, 0)),
    Required(QUANTITY, Lots),
    Required(NO_EXECS, Number(1, 1)),
    Required(NO_ALLOCS, Number(1, 16)),
];

const ALLOCATION_REPORT_ACK: [Row; 12] = table![
    Required(ALLOC_REPORT_ID, Number(1, 16_000_000)),
    Required(ALLOC_STATUS, Status),
];

const REQUEST_FOR_POSITIONS: [Row; 13] = table![
    Required(POS_REQ_ID, Id),
    Required(POS_REQ_TYPE, Number(0, 0)),
    Required(ACCOUNT, Name),
];

const SIDES: [Row; 2] = [Required(SIDE, Number(1, 2)), Required(ACCOUNT, Name)];

const EXECS: [Row; 1] = [Required(EXEC_ID, Id)];

const ALLOCS: [Row; 2] = [Required(ALLOC_ACCOUNT, Name), Required(ALLOC_QTY, Lots)];

/// Returns the tags of the header and CheckSum.
#[tactic(auto, unfolding(crate::specs::Tables::header_rows))]
pub fn header_rows() -> &'static [Row]
    ensures { result.now ≡ header_rows }
{
    &HEADER
}

/// Returns the tags of the header, followed by the type's own.
#[tactic(auto, unfolding(crate::specs::Tables::header_rows, crate::specs::Tables::body_rows))]
#[inline(always)]
pub fn outer_rows(msg_type: MsgType) -> &'static [Row]
    ensures { result.now ≡ outer_rows msg_type }
{
    match msg_type {
        MsgType::Heartbeat => &HEARTBEAT,
        MsgType::TestRequest => &TEST_REQUEST,
        MsgType::ResendRequest => &RESEND_REQUEST,
        MsgType::SequenceReset => &SEQUENCE_RESET,
        MsgType::Logon => &LOGON,
        MsgType::TradeCaptureReport => &TRADE_CAPTURE_REPORT,
        MsgType::AllocationInstruction => &ALLOCATION_INSTRUCTION,
        MsgType::AllocationReportAck => &ALLOCATION_REPORT_ACK,
        MsgType::RequestForPositions => &REQUEST_FOR_POSITIONS,
        MsgType::Reject | MsgType::Logout => &HEADER,
    }
}

/// Returns the tags of an entry of the group with this counter; none if the tag counts nothing.
#[tactic(auto, unfolding(crate::specs::Tables::entry_rows))]
#[inline(always)]
pub fn entry_rows(counter: u32) -> &'static [Row]
    ensures { result.now ≡ entry_rows counter }
{
    match counter {
        NO_SIDES => &SIDES,
        NO_EXECS => &EXECS,
        NO_ALLOCS => &ALLOCS,
        _ => &[],
    }
}
