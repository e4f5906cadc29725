//! Messages that are written, and their contents.

ghost use Rattle.std.specs.Prelude.{◌≡◌};

use crate::coded_values::{BusinessRejectReason, LogoutReason, PosReqResult};
use crate::reject_reason::SessionRejectReason;
use crate::rejection::Rejection;
use crate::test_req_id::TestReqId;
use crate::type_code::TypeCode;
use gu_terms::{
    AccountId, Day, FirmId, Id, Lots, Moment, OfferEvent, OfferNo, Price, Side, Symbol,
};

/// A rejection of a malformed or misplaced message (FIX: Reject, MsgType 3).
#[derive(Clone, Copy)]
pub struct Reject {
    /// The number of the message.
    pub ref_seq_num: u64,
    /// The tag at fault, or 0 if none can be read.
    pub ref_tag_id: u32,
    /// The type of the message, if it has the form of one.
    pub ref_msg_type: Option<TypeCode>,
    pub reason: SessionRejectReason,
}

/// A rejection of a message that no other answer fits (FIX: BusinessMessageReject, MsgType j).
#[derive(Clone, Copy)]
pub struct BusinessMessageReject {
    /// The number of the message.
    pub ref_seq_num: u64,
    pub reason: BusinessRejectReason,
}

/// The answer to a report (FIX: TradeCaptureReportAck, MsgType AR).
#[derive(Clone, Copy)]
pub struct TradeCaptureReportAck {
    pub trade_report_id: Id,
    pub trd_match_id: Id,
    pub rejection: Option<Rejection>,
}

/// The answer to a give-up (FIX: AllocationInstructionAck, MsgType P).
#[derive(Clone, Copy)]
pub struct AllocationInstructionAck {
    pub alloc_id: Id,
    pub rejection: Option<Rejection>,
}

/// One side of a trade that was made (FIX: TradeCaptureReport, MsgType AE).
#[derive(Clone, Copy)]
pub struct TradeCaptureReport {
    /// The number of the entry that made the trade.
    pub entry: u64,
    /// The firm's own id for its report.
    pub trade_report_ref_id: Id,
    pub trd_match_id: Id,
    pub symbol: Symbol,
    pub last_qty: Lots,
    pub last_px: Price,
    pub trade_date: Day,
    pub side: Side,
    pub account: AccountId,
}

/// An event of an offer (FIX: AllocationReport, MsgType AS).
#[derive(Clone, Copy)]
pub struct AllocationReport {
    pub alloc_report_id: OfferNo,
    pub event: OfferEvent,
    pub symbol: Symbol,
    pub side: Side,
    pub quantity: Lots,
    pub avg_px: Price,
    pub trade_date: Day,
    pub account: AccountId,
}

/// The answer to a question for positions (FIX: RequestForPositionsAck, MsgType AO).
#[derive(Clone, Copy)]
pub struct RequestForPositionsAck {
    pub pos_req_id: Id,
    pub outcome: PosReqResult,
    pub account: AccountId,
}

/// A position (FIX: PositionReport, MsgType AP).
#[derive(Clone, Copy)]
pub struct PositionReport {
    pub pos_req_id: Id,
    /// Its place among the reports for the question, counted from 1.
    pub place: u64,
    pub clearing_business_date: Day,
    pub account: AccountId,
    pub symbol: Symbol,
    pub long_qty: u64,
    pub short_qty: u64,
}

/// The body of an application message, by its type: any message that doesn't serve the session itself (FIX: MsgType j, AR, P, AE, AS, AO,
/// AP).
#[derive(Clone, Copy)]
pub enum Application {
    BusinessMessageReject(BusinessMessageReject),
    TradeCaptureReportAck(TradeCaptureReportAck),
    AllocationInstructionAck(AllocationInstructionAck),
    TradeCaptureReport(TradeCaptureReport),
    AllocationReport(AllocationReport),
    RequestForPositionsAck(RequestForPositionsAck),
    PositionReport(PositionReport),
}

/// The body of a message, by its type.
#[derive(Drop)]
pub enum Body {
    Logon {
        heart_bt_int: u64,
        resets_seq_num: bool,
    },
    /// A heartbeat, with the id of the TestRequest that it answers, if it answers one.
    Heartbeat(Option<TestReqId>),
    TestRequest,
    /// A request for messages from this number on.
    ResendRequest(u64),
    Reject(Reject),
    /// A gap fill up to this number.
    SequenceReset(u64),
    Logout(Option<LogoutReason>),
    Application(Application),
}

/// A message to a firm.
#[derive(Drop)]
pub struct Outbound {
    pub firm: FirmId,
    pub msg_seq_num: u64,
    pub sending_time: Moment,
    /// The time when it was first sent, if it is sent again.
    pub orig_sending_time: Option<Moment>,
    pub body: Body,
}

/// A message to a firm with its body borrowed.
#[derive(Clone, Copy)]
pub struct OutboundRef<'a> {
    pub firm: FirmId,
    pub msg_seq_num: u64,
    pub sending_time: Moment,
    /// The time when it was first sent, if it is sent again.
    pub orig_sending_time: Option<Moment>,
    pub body: &'a Body,
}

impl Outbound {
    ghost use Rattle.gu_msgs.specs.Written.{outbound_of};

    /// Returns the same message with its body borrowed.
    pub fn as_ref(&self) -> OutboundRef<'_>
        ensures { outbound_of result ≡ self.now }
    {
        OutboundRef {
            firm: self.firm,
            msg_seq_num: self.msg_seq_num,
            sending_time: self.sending_time,
            orig_sending_time: self.orig_sending_time,
            body: &self.body,
        }
    }
}
