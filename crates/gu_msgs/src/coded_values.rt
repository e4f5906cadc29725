//! Values that messages write as numbers or as words of the house.

ghost use Rattle.std.specs.Prelude.{◌≡◌, IsTrue};
ghost use Rattle.gu_msgs.specs.CodedValues.{business_number, logout_text, report_type_number, report_type_of, request_result, request_status, reports_count, side_letter};
ghost use Rattle.gu_msgs.specs.Encodable.{is_plain};
ghost use Rattle.gu_msgs.specs.Messages.{side_number};

use crate::rejection::Rejection;
use crate::type_code::TypeCode;
use gu_terms::{OfferEvent, OfferNo, Side};

/// The reason that the house ends a session.
#[derive(Clone, Copy, Debug)]
pub enum LogoutReason {
    /// The number of a message is missing or invalid.
    BadSeqNum,
    /// The number of a message was already used.
    SeqTooLow,
    /// The sender of a message isn't the firm, or its target isn't the house.
    CompId,
    /// The firm is already logged on.
    LoggedOn,
    /// Nothing was received from the firm.
    Silent,
    /// The house is closing.
    Closing,
}

impl LogoutReason {
    /// Returns its text.
    pub fn text(self) -> &'static str
        ensures text { result.now ≡ logout_text self }
        ensures plain { IsTrue (is_plain result.now) }
    {
        match self {
            LogoutReason::BadSeqNum => "BadSeqNum",
            LogoutReason::SeqTooLow => "SeqTooLow",
            LogoutReason::CompId => "CompId",
            LogoutReason::LoggedOn => "LoggedOn",
            LogoutReason::Silent => "Silent",
            LogoutReason::Closing => "Closing",
        }
    }
}

/// The reason for a BusinessMessageReject (FIX: BusinessRejectReason, tag 380).
#[derive(Clone, Copy, Debug)]
pub enum BusinessRejectReason {
    /// A carrying firm's response to an offer (FIX: AllocationReportAck) isn't in the book.
    Other {
        offer: OfferNo,
        rejection: Rejection,
    },
    /// Messages of this type aren't read.
    UnsupportedMessageType(TypeCode),
}

impl BusinessRejectReason {
    /// Returns its value on the wire.
    pub fn number(&self) -> u64
        ensures { result ≡ business_number self.now }
    {
        match self {
            BusinessRejectReason::Other { .. } => 0,
            BusinessRejectReason::UnsupportedMessageType(_) => 3,
        }
    }
}

/// The purpose of an allocation report (FIX: AllocReportType, tag 794).
#[derive(Clone, Copy, Debug)]
pub enum AllocReportType {
    /// An offer is made.
    RequestToIntermediary,
    /// Lots of an offer are claimed or moved back.
    Accept,
    /// An offer is refused.
    Reject,
}

impl AllocReportType {
    /// Returns the purpose of a report of an event of an offer.
    pub fn of_event(event: OfferEvent) -> AllocReportType
        ensures { result ≡ report_type_of event }
    {
        match event {
            OfferEvent::Offered => AllocReportType::RequestToIntermediary,
            OfferEvent::Claimed | OfferEvent::Reversed => AllocReportType::Accept,
            OfferEvent::Refused(_) => AllocReportType::Reject,
        }
    }

    /// Returns its value on the wire.
    pub fn number(self) -> u64
        ensures { result ≡ report_type_number self }
    {
        match self {
            AllocReportType::RequestToIntermediary => 8,
            AllocReportType::Accept => 9,
            AllocReportType::Reject => 10,
        }
    }
}

/// The result of a question for positions (FIX: PosReqResult, tag 728).
#[derive(Clone, Copy, Debug)]
pub enum PosReqResult {
    /// This many reports follow.
    ValidRequest(u64),
    NoPositionsFound,
    NotAuthorized,
}

impl PosReqResult {
    /// Returns its value on the wire.
    pub fn number(self) -> u64
        ensures { result ≡ request_result self }
    {
        match self {
            PosReqResult::ValidRequest(_) => 0,
            PosReqResult::NoPositionsFound => 2,
            PosReqResult::NotAuthorized => 3,
        }
    }

    /// Returns whether the question is answered or refused (FIX: PosReqStatus, tag 729).
    pub fn status(self) -> u64
        ensures { result ≡ request_status self }
    {
        match self {
            PosReqResult::ValidRequest(_) | PosReqResult::NoPositionsFound => 0,
            PosReqResult::NotAuthorized => 2,
        }
    }

    /// Returns the number of reports that follow (FIX: TotalNumPosReports, tag 727).
    pub fn reports(self) -> u64
        ensures { result ≡ reports_count self }
    {
        match self {
            PosReqResult::ValidRequest(count) => count,
            PosReqResult::NoPositionsFound | PosReqResult::NotAuthorized => 0,
        }
    }
}

/// Returns the number of a side (FIX: Side, tag 54).
pub fn side_number(side: Side) -> u64
    ensures { result ≡ side_number side }
{
    match side {
        Side::Buy => 1,
        Side::Sell => 2,
    }
}

/// Returns the letter of a side.
pub fn side_letter(side: Side) -> u8
    ensures { result ≡ side_letter side }
{
    match side {
        Side::Buy => b'B',
        Side::Sell => b'S',
    }
}
