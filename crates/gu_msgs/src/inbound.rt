//! Messages that are read, and their contents.

use crate::alloc_status::AllocStatus;
use crate::boxed::Boxed;
use crate::test_req_id::TestReqId;
use crate::type_code::TypeCode;
use gu_terms::{AccountId, Day, Id, Lines, Lots, OfferNo, Price, Side, Symbol};

/// A test of whether the session is alive (FIX: TestRequest, MsgType 1).
#[derive(Drop)]
pub struct TestRequest {
    pub test_req_id: TestReqId,
}

/// A request to send messages again (FIX: ResendRequest, MsgType 2).
#[derive(Clone, Copy)]
pub struct ResendRequest {
    pub begin_seq_no: u64,
    /// The last number requested, or 0 for all.
    pub end_seq_no: u64,
}

/// A new expected number (FIX: SequenceReset, MsgType 4).
#[derive(Clone, Copy)]
pub struct SequenceReset {
    /// Whether it replaces messages that aren't sent again.
    pub is_gap_fill: bool,
    pub new_seq_no: u64,
}

/// The start of a session (FIX: Logon, MsgType A).
#[derive(Clone, Copy)]
pub struct Logon {
    /// The seconds between heartbeats, or 0 for none.
    pub heart_bt_int: u64,
    pub resets_seq_num: bool,
}

/// A report of one side of a trade (FIX: TradeCaptureReport, MsgType AE).
#[derive(Clone, Copy)]
pub struct TradeCaptureReport {
    pub trade_report_id: Id,
    pub trd_match_id: Id,
    pub symbol: Symbol,
    pub last_qty: Lots,
    pub last_px: Price,
    pub trade_date: Option<Day>,
    pub side: Side,
    pub account: AccountId,
}

/// A give-up of a reported trade (FIX: AllocationInstruction, MsgType J). Its quantity is the sum of its lines.
#[derive(Drop)]
pub struct AllocationInstruction {
    pub alloc_id: Id,
    /// The id of the report.
    pub exec_id: Id,
    pub lines: Lines,
}

/// A carrying firm's response to an offer (FIX: AllocationReportAck, MsgType AT).
#[derive(Clone, Copy)]
pub struct AllocationReportAck {
    pub alloc_report_id: OfferNo,
    pub alloc_status: AllocStatus,
}

/// A question for the positions of an account (FIX: RequestForPositions, MsgType AN).
#[derive(Clone, Copy, Debug)]
pub struct RequestForPositions {
    pub pos_req_id: Id,
    pub account: AccountId,
}

/// A message read, by its type.
#[derive(Drop)]
pub enum Inbound {
    /// A heartbeat (FIX: Heartbeat, MsgType 0). The id of the TestRequest that it answers isn't returned.
    Heartbeat,
    TestRequest(TestRequest),
    ResendRequest(ResendRequest),
    /// A rejection of a malformed or misplaced message of the house (FIX: Reject, MsgType 3).
    Reject,
    SequenceReset(SequenceReset),
    /// The end of the session (FIX: Logout, MsgType 5).
    Logout,
    Logon(Logon),
    TradeCaptureReport(Boxed<TradeCaptureReport>),
    AllocationInstruction(Boxed<AllocationInstruction>),
    AllocationReportAck(AllocationReportAck),
    RequestForPositions(Boxed<RequestForPositions>),
    /// A message of another type, with this code.
    Unread(TypeCode),
}
