//! Requests in a firm's messages, and what their answers need.

ghost use Rattle.std.specs.Prelude.{◌≡◌};
ghost use Rattle.gu_msgs.specs.Asking.{asked_on, question_of, report_in, request_of, side_of};

use crate::alloc_status::AllocStatus;
use crate::boxed::Boxed;
use crate::inbound::{
    AllocationInstruction, AllocationReportAck, Inbound, RequestForPositions, TradeCaptureReport,
};
use gu_terms::{
    AllocReject, Claim, Command, FirmId, GiveUp, Id, OfferNo, Query, Refuse, ReportSide, Reverse,
};

/// A request of a firm.
#[derive(Drop)]
pub enum Request {
    /// A command to enter.
    Enter(Command),
    /// A query.
    Ask(Query),
}

/// The parts of a request's message that the answer needs.
#[derive(Clone, Copy, Debug)]
pub enum Question {
    /// The ids of a report.
    Report { id: Id, match_id: Id },
    /// The id of a give-up.
    GiveUp { id: Id },
    /// The offer that is claimed.
    Claim { offer: OfferNo },
    /// The offer that is refused.
    Refusal { offer: OfferNo },
    /// The offer for which a claim is reversed.
    Reversal { offer: OfferNo },
    /// The question for positions.
    Positions(RequestForPositions),
}

/// A request as read from a message.
#[derive(Drop)]
pub enum Asking {
    /// A side of a trade to enter.
    Report(Boxed<TradeCaptureReport>),
    /// A give-up to enter.
    GiveUp(Boxed<AllocationInstruction>),
    /// An offer to claim.
    Claim(OfferNo),
    /// An offer to refuse.
    Refusal(OfferNo, AllocReject),
    /// An offer for which a claim is to be reversed.
    Reversal(OfferNo),
    /// A question for an account's positions.
    Positions(Boxed<RequestForPositions>),
}

impl TradeCaptureReport {
    /// Returns the side of a trade as a report of this firm.
    pub fn side_of(&self, firm: FirmId) -> ReportSide
        ensures { result ≡ side_of firm self.now }
    {
        ReportSide {
            firm,
            id: self.trade_report_id,
            match_id: self.trd_match_id,
            symbol: self.symbol,
            lots: self.last_qty,
            price: self.last_px,
            day: self.trade_date,
            side: self.side,
            account: self.account,
        }
    }
}

impl AllocationReportAck {
    /// Returns the request in a carrying firm's response to an offer, if it has one.
    pub fn asked(&self) -> Option<Asking>
        ensures { result ≡ asked_on self.now.alloc_report_id self.now.alloc_status }
    {
        let offer = self.alloc_report_id;
        match self.alloc_status {
            AllocStatus::Accepted => Some(Asking::Claim(offer)),
            AllocStatus::Rejected(why) => Some(Asking::Refusal(offer, why)),
            AllocStatus::Reversed => Some(Asking::Reversal(offer)),
            AllocStatus::AllocationPending => None,
        }
    }
}

impl Inbound {
    /// Returns the report, if the message is one.
    pub fn into_report(self) -> Option<Boxed<TradeCaptureReport>>
        ensures { result ≡ report_in self }
    {
        match self {
            Inbound::TradeCaptureReport(report) => Some(report),
            _ => None,
        }
    }
}

impl Asking {
    /// Returns the request as this firm's.
    pub fn into_request(self, firm: FirmId) -> Request
        ensures { result ≡ request_of firm self }
    {
        match self {
            Asking::Report(report) => {
                Request::Enter(Command::ReportSide(report.get().side_of(firm)))
            }
            Asking::GiveUp(give_up) => {
                let give_up = give_up.into_inner();
                Request::Enter(Command::GiveUp(GiveUp {
                    firm,
                    id: give_up.alloc_id,
                    report: give_up.exec_id,
                    lines: give_up.lines,
                }))
            }
            Asking::Claim(offer) => Request::Enter(Command::Claim(Claim { firm, offer })),
            Asking::Refusal(offer, why) => Request::Enter(Command::Refuse(Refuse {
                firm,
                offer,
                why,
            })),
            Asking::Reversal(offer) => Request::Enter(Command::Reverse(Reverse { firm, offer })),
            Asking::Positions(question) => {
                let account = question.get().account;
                Request::Ask(Query::Positions { firm, account })
            }
        }
    }

    /// Returns what the answer to it needs.
    pub fn question(&self) -> Question
        ensures { result ≡ question_of self.now }
    {
        match self {
            Asking::Report(report) => {
                let report = report.get();
                Question::Report {
                    id: report.trade_report_id,
                    match_id: report.trd_match_id,
                }
            }
            Asking::GiveUp(give_up) => Question::GiveUp {
                id: give_up.get().alloc_id,
            },
            Asking::Claim(offer) => Question::Claim { offer: *offer },
            Asking::Refusal(offer, _) => Question::Refusal { offer: *offer },
            Asking::Reversal(offer) => Question::Reversal { offer: *offer },
            Asking::Positions(question) => Question::Positions(*question.get()),
        }
    }
}
