//! Why a firm's request isn't in the book.

ghost use Rattle.std.specs.Prelude.{◌≡◌};
ghost use Rattle.gu_msgs.specs.Rejections.{reason_number, reason_of};

use gu_terms::Refusal;

/// The reason that a firm's command isn't in the book.
#[derive(Clone, Copy, Debug)]
pub enum Rejection {
    /// The house refused it.
    Refused(Refusal),
    /// An allocation failed.
    Memory,
    /// The book is full.
    Full,
}

/// The kind of a rejection (FIX: TradeReportRejectReason, tag 751).
#[derive(Clone, Copy, Debug)]
pub enum TradeReportRejectReason {
    InvalidPartyInformation,
    UnknownInstrument,
    Other,
}

impl TradeReportRejectReason {
    /// Returns its value on the wire.
    pub fn number(self) -> u64
        ensures { result ≡ reason_number self }
    {
        match self {
            TradeReportRejectReason::InvalidPartyInformation => 1,
            TradeReportRejectReason::UnknownInstrument => 2,
            TradeReportRejectReason::Other => 99,
        }
    }
}

impl Rejection {
    /// Returns its kind.
    pub fn reason(&self) -> TradeReportRejectReason
        ensures { result ≡ reason_of self.now }
    {
        match self {
            Rejection::Refused(Refusal::UnknownInstrument) => {
                TradeReportRejectReason::UnknownInstrument
            }
            Rejection::Refused(Refusal::UnknownAccount | Refusal::NotYours) => {
                TradeReportRejectReason::InvalidPartyInformation
            }
            Rejection::Refused(_) | Rejection::Memory | Rejection::Full => {
                TradeReportRejectReason::Other
            }
        }
    }
}
