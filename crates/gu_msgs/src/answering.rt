//! The house's answers to a firm's messages, and the messages that it sends unsolicited.

ghost use Rattle.std.specs.Prelude.{◌≡◌, ◌∷◌, ◌++◌, [], IfOk, OnOk};
ghost use Rattle.gu_msgs.specs.Answering.{answer_to, command_answer, give_up_ack, is_done, matched_body, notice_body, offer_answer, offer_body, position_report, positions_ack, positions_answer, rejection_of, report_ack, reports_from, reports_on};

use crate::asking::Question;
use crate::coded_values::{BusinessRejectReason, PosReqResult};
use crate::inbound::{RequestForPositions, TradeCaptureReport};
use crate::outbound::{
    AllocationInstructionAck, AllocationReport, Application, Body, BusinessMessageReject,
    PositionReport, RequestForPositionsAck, TradeCaptureReport as MatchedReport,
    TradeCaptureReportAck,
};
use crate::rejection::Rejection;
use gu_terms::{
    Day, Done, Id, Notice, OfferNo, OfferNotice, PositionRow, PositionRows, Reply, Report,
};
use std::alloc::{AllocError, Global};

impl Rejection {
    /// Returns the reason that a command is refused, given the reply to it, if it is refused.
    pub fn of_reply(reply: Reply) -> Option<Rejection>
        ensures { result ≡ rejection_of reply }
    {
        match reply {
            Reply::Accepted(_) => None,
            Reply::Denied(refusal) => Some(Rejection::Refused(refusal)),
        }
    }
}

/// Returns the acknowledgement of a report that was accepted, or was rejected for this reason.
pub fn answer_to(report: &TradeCaptureReport, rejection: Option<Rejection>) -> Body
    ensures { result ≡ answer_to report.now rejection }
{
    report_ack(report.trade_report_id, report.trd_match_id, rejection)
}

/// Returns the acknowledgement of a report with these ids.
#[inline(always)]
pub fn report_ack(id: Id, match_id: Id, rejection: Option<Rejection>) -> Body
    ensures { result ≡ report_ack id match_id rejection }
{
    Body::Application(Application::TradeCaptureReportAck(TradeCaptureReportAck {
        trade_report_id: id,
        trd_match_id: match_id,
        rejection,
    }))
}

/// Returns the acknowledgement of a give-up with this id.
fn give_up_ack(id: Id, rejection: Option<Rejection>) -> Body
    ensures { result ≡ give_up_ack id rejection }
{
    Body::Application(Application::AllocationInstructionAck(AllocationInstructionAck {
        alloc_id: id,
        rejection,
    }))
}

/// Returns the answer to a carrying firm's response in the message with this number, if it was rejected.
fn offer_answer(offer: OfferNo, number: u64, rejection: Option<Rejection>) -> Option<Body>
    ensures { result ≡ offer_answer offer number rejection }
{
    let Some(rejection) = rejection else {
        return None;
    };
    Some(Body::Application(Application::BusinessMessageReject(BusinessMessageReject {
        ref_seq_num: number,
        reason: BusinessRejectReason::Other { offer, rejection },
    })))
}

impl Question {
    /// Returns whether an accepted command had the effect asked for.
    pub fn is_done(&self, done: Done) -> bool
        ensures { result ≡ is_done self.now done }
    {
        match self {
            Question::Report { .. } => matches!(done, Done::Reported { .. }),
            Question::GiveUp { .. } => matches!(done, Done::Offered { .. }),
            Question::Claim { .. } => matches!(done, Done::Claimed { .. }),
            Question::Refusal { .. } => matches!(done, Done::Refused { .. }),
            Question::Reversal { .. } => matches!(done, Done::Reversed { .. }),
            Question::Positions(_) => false,
        }
    }

    /// Returns the answer to the message with this number, if one is due, given whether its command was rejected. An accepted response to
    /// an offer is answered only by its notice, and a question for positions has no command.
    pub fn answer(&self, number: u64, rejection: Option<Rejection>) -> Option<Body>
        ensures { result ≡ command_answer self.now number rejection }
    {
        match self {
            Question::Report { id, match_id } => Some(report_ack(*id, *match_id, rejection)),
            Question::GiveUp { id } => Some(give_up_ack(*id, rejection)),
            Question::Claim { offer }
            | Question::Refusal { offer }
            | Question::Reversal { offer } => offer_answer(*offer, number, rejection),
            Question::Positions(_) => None,
        }
    }
}

/// Returns the acknowledgement of a question for positions.
fn positions_ack(question: &RequestForPositions, outcome: PosReqResult) -> Body
    ensures { result ≡ positions_ack question.now outcome }
{
    Body::Application(Application::RequestForPositionsAck(RequestForPositionsAck {
        pos_req_id: question.pos_req_id,
        outcome,
        account: question.account,
    }))
}

/// Returns the report of a position, at its place among those for the question.
fn position_report(question: &RequestForPositions, day: Day, place: u64, row: &PositionRow) -> Body
    ensures { result ≡ position_report question.now day place row.now }
{
    Body::Application(Application::PositionReport(PositionReport {
        pos_req_id: question.pos_req_id,
        place,
        clearing_business_date: day,
        account: question.account,
        symbol: row.symbol,
        long_qty: row.long,
        short_qty: row.short,
    }))
}

/// Appends a report for each row.
fn push_reports(
    bodies: &mut Vec<Body>,
    question: &RequestForPositions,
    day: Day,
    rows: &[PositionRow],
) -> Result<(), AllocError>
    ensures { OnOk result (bodies.new.items ≡ bodies.old.items ++ reports_from question.now day 1 rows.now) }
{
    let mut place = 1;
    for row in rows {
        bodies.push(position_report(question, day, place, row))?;
        place += 1;
    }
    Ok(())
}

/// Returns the answer if there are positions on this day: the number of reports, and the reports.
fn reports(
    alloc: Global,
    question: &RequestForPositions,
    day: Day,
    rows: &[PositionRow],
) -> Result<Vec<Body>, AllocError>
    ensures { IfOk result (λ bodies. bodies.items ≡ reports_on question.now day rows.now) }
{
    let outcome = PosReqResult::ValidRequest(rows.len() as u64);
    let mut bodies = Vec::with_capacity(alloc, rows.len() + 1)?;
    bodies.push(positions_ack(question, outcome))?;
    push_reports(&mut bodies, question, day, rows)?;
    Ok(bodies)
}

/// Returns an answer that consists of an acknowledgement alone.
fn no_reports(
    alloc: Global,
    question: &RequestForPositions,
    outcome: PosReqResult,
) -> Result<Vec<Body>, AllocError>
    ensures { IfOk result (λ bodies. bodies.items ≡ positions_ack question.now outcome ∷ []) }
{
    let mut bodies = Vec::with_capacity(alloc, 1)?;
    bodies.push(positions_ack(question, outcome))?;
    Ok(bodies)
}

/// Returns the answer to a question for positions. Without rows, the account isn't the firm's. Rows are reported only if a day is open.
pub fn positions_answer(
    alloc: Global,
    question: &RequestForPositions,
    rows: &Option<PositionRows>,
) -> Result<Vec<Body>, AllocError>
    ensures { IfOk result (λ bodies. bodies.items ≡ positions_answer question.now rows.now) }
{
    let Some(told) = rows else {
        return no_reports(alloc, question, PosReqResult::NotAuthorized);
    };
    match told.day {
        Some(day) if !told.rows.is_empty() => reports(alloc, question, day, &told.rows),
        _ => no_reports(alloc, question, PosReqResult::NoPositionsFound),
    }
}

/// Returns the notice that a report became a side of a trade with this entry.
fn matched_body(entry: u64, report: &Report) -> Body
    ensures { result ≡ matched_body entry report.now }
{
    Body::Application(Application::TradeCaptureReport(MatchedReport {
        entry,
        trade_report_ref_id: report.id,
        trd_match_id: report.match_id,
        symbol: report.symbol,
        last_qty: report.lots,
        last_px: report.price,
        trade_date: report.day,
        side: report.side,
        account: report.account,
    }))
}

/// Returns the notice of an event of an offer.
fn offer_body(notice: &OfferNotice) -> Body
    ensures { result ≡ offer_body notice.now }
{
    Body::Application(Application::AllocationReport(AllocationReport {
        alloc_report_id: notice.offer,
        event: notice.event,
        symbol: notice.symbol,
        side: notice.side,
        quantity: notice.lots,
        avg_px: notice.price,
        trade_date: notice.day,
        account: notice.account,
    }))
}

/// Returns the message for a notice.
pub fn notice_body(notice: &Notice) -> Body
    ensures { result ≡ notice_body notice.now }
{
    match notice {
        Notice::Matched { entry, report } => matched_body(*entry, report),
        Notice::Offer(notice) => offer_body(notice),
    }
}
