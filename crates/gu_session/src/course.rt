//! What a session does on an input.

ghost use Rattle.std.specs.Prelude.{◌≡◌, IfOk};
ghost use Rattle.std.specs.Option.{option_map_or};
ghost use Rattle.gu_session.specs.AnswerRules.{answer_course, message_course};
ghost use Rattle.gu_session.specs.Given.{messages_in};
ghost use Rattle.gu_session.specs.Hearing.{Hears};
ghost use Rattle.gu_session.specs.Steps.{IsFrameCourse, at_frame, frame_course, on_close};
ghost use Rattle.gu_session.specs.TimeRules.{on_tick};
ghost use Rattle.gu_session.specs.declared.plan.Course.TheVariants.{Leave, Stay};
ghost use Rattle.gu_session.specs.declared.logged_on.LoggedOn.{LoggedOn as LoggedOnOf};

use crate::answer::Answer;
use crate::ask_ref::AskRef;
use crate::heard::Heard;
use crate::hearing::Reader;
use crate::heartbeat::on_tick;
use crate::logged_on::LoggedOn;
use crate::logon::logon_course;
use crate::messages::Messages;
use crate::plan::{Course, Plan};
use crate::sequence::frame_plan;
use gu_fix::Frame;
use gu_msgs::LogoutReason;
use gu_msgs::outbound::Body;
use gu_terms::{FirmId, Moment};
use std::alloc::{AllocError, Global};
use std::slice;

/// Returns the session's state after a frame arrives.
pub fn at_frame(at: &LoggedOn, now: Moment) -> LoggedOn
    ensures { result ≡ at_frame at.now now }
{
    LoggedOn {
        heard_at: now,
        is_tested: false,
        ..*at
    }
}

/// Returns what the session does on a frame with this content.
pub fn heard_course(
    alloc: Global,
    firms: &[FirmId],
    at: &Option<LoggedOn>,
    heard: Heard,
    now: Moment,
) -> Result<Course<'static>, AllocError>
    ensures { IfOk result (λ course. course ≡ frame_course firms.now at.now heard now) }
{
    match at {
        Some(at) => Ok(Course::Go(frame_plan(alloc, &at_frame(at, now), heard)?)),
        None => logon_course(alloc, firms, &heard, now),
    }
}

/// Returns what the session does on a frame.
pub fn frame_course(
    reader: &mut Reader,
    firms: &[FirmId],
    at: &Option<LoggedOn>,
    frame: Frame,
    now: Moment,
) -> Result<Course<'static>, AllocError>
    ensures { IfOk result (IsFrameCourse firms.now at.now frame now) }
{
    let heard = reader.hear(frame)?;
    heard_course(reader.alloc(), firms, at, heard, now)
}

/// Returns what the session does to send this message.
pub fn message_course<'a>(at: &Option<LoggedOn>, body: &'a Body) -> Course<'a>
    ensures { result ≡ option_map_or (λ (at : LoggedOnOf). message_course at body.now) at.now Stay }
{
    match at {
        Some(at) => Course::Go(Plan::sends(at, Messages::borrowed(slice::from_ref(body)))),
        None => Course::Stay,
    }
}

/// Returns what the session does to answer the request with this reference.
pub fn answer_course<'a>(at: &Option<LoggedOn>, reference: AskRef, answer: &'a Answer) -> Course<'a>
    ensures { result ≡ option_map_or (λ (at : LoggedOnOf). answer_course at reference (messages_in answer.now)) at.now Stay }
{
    match (at, answer.messages()) {
        (Some(at), Some(messages)) => Course::Go(Plan::answers(at, reference, messages)),
        _ => Course::Stay,
    }
}

/// Returns what the session does on a tick.
pub fn tick_course(
    alloc: Global,
    at: &Option<LoggedOn>,
    sent_at: Moment,
    now: Moment,
) -> Result<Course<'static>, AllocError>
    ensures { IfOk result (λ course. course ≡ option_map_or (λ (at : LoggedOnOf). on_tick at sent_at now) at.now Stay) }
{
    match at {
        Some(at) => on_tick(alloc, at, sent_at, now),
        None => Ok(Course::Stay),
    }
}

/// Returns what the session does when the house closes.
pub fn close_course(alloc: Global, at: &Option<LoggedOn>) -> Result<Course<'static>, AllocError>
    ensures { IfOk result (λ course. course ≡ option_map_or (λ (at : LoggedOnOf). on_close at) at.now Leave) }
{
    match at {
        Some(at) => {
            let body = Body::Logout(Some(LogoutReason::Closing));
            Ok(Course::Go(Plan::leaves_with(alloc, at, body)?))
        }
        None => Ok(Course::Leave),
    }
}
