//! Heartbeats, and silence of the firm.

ghost use Rattle.std.specs.Prelude.{◌≡◌, ◌≢◌, ◌<◌, ◌≤◌, ℕ, false, true, IfOk, IfSome};
ghost use Rattle.gu_terms.specs.Numbers.{IsMoment};
ghost use Rattle.gu_session.specs.declared.plan.Course.TheVariants.{Stay};
ghost use Rattle.gu_session.specs.TimeRules.{have_passed, on_tick};

use crate::logged_on::LoggedOn;
use crate::plan::{Course, Plan};
use gu_msgs::LogoutReason;
use gu_msgs::outbound::Body;
use gu_terms::Moment;
use std::alloc::{AllocError, Global};

/// The milliseconds in a second.
const SECOND: u64 = 1000;

/// Returns whether at least this many intervals have passed.
fn have_passed(count: u64, at: &LoggedOn, from: Moment, now: Moment) -> bool
    requires { count ≤ 3 }
    ensures { result ≡ have_passed count at.now from now }
{
    let passed = now.get().saturating_sub(from.get());
    match at.heart_bt_int.checked_mul(SECOND * count) {
        Some(wanted) => wanted <= passed,
        None => false,
    }
}

/// Returns what the session does on a tick.
pub fn on_tick(
    alloc: Global,
    at: &LoggedOn,
    sent_at: Moment,
    now: Moment,
) -> Result<Course<'static>, AllocError>
    ensures { IfOk result (λ course. course ≡ on_tick at.now sent_at now) }
{
    if at.heart_bt_int == 0 {
        return Ok(Course::Stay);
    }
    if have_passed(3, at, at.heard_at, now) {
        let body = Body::Logout(Some(LogoutReason::Silent));
        return Ok(Course::Go(Plan::leaves_with(alloc, at, body)?));
    }
    if have_passed(2, at, at.heard_at, now) && !at.is_tested {
        let after = LoggedOn {
            is_tested: true,
            ..*at
        };
        return Ok(Course::Go(Plan::says(alloc, &after, Body::TestRequest)?));
    }
    if have_passed(1, at, sent_at, now) {
        return Ok(Course::Go(Plan::says(alloc, at, Body::Heartbeat(None))?));
    }
    Ok(Course::Stay)
}

/// Returns the first moment, as a number, at which this many intervals have passed; it may be after the last moment.
fn after(at: &LoggedOn, count: u64, from: Moment) -> u64
    requires some { 0 < count }
    requires few { count ≤ 3 }
    requires beats { 0 < at.now.heart_bt_int }
    ensures not_before { (now : ℕ) → now < result → have_passed count at.now from now ≡ false }
    ensures then { IsMoment result → have_passed count at.now from result ≡ true }
{
    match at.heart_bt_int.checked_mul(SECOND * count) {
        Some(wait) => from.get().saturating_add(wait),
        None => u64::MAX,
    }
}

/// Returns the first moment, as a number, at which a tick does something, given that there are heartbeats.
fn due_number(at: &LoggedOn, sent_at: Moment) -> u64
    requires { 0 < at.now.heart_bt_int }
    ensures rests { (now : ℕ) → now < result → on_tick at.now sent_at now ≡ Stay }
    ensures acts { IsMoment result → on_tick at.now sent_at result ≢ Stay }
{
    let silent = after(at, 3, at.heard_at);
    let unheard = after(at, 2, at.heard_at);
    let unsent = after(at, 1, sent_at);
    if at.is_tested {
        silent.min(unsent)
    } else {
        silent.min(unheard).min(unsent)
    }
}

/// Returns the first moment at which a tick does something, if it ever does.
pub fn due_at(at: &LoggedOn, sent_at: Moment) -> Option<Moment>
    ensures rests { (now : ℕ) → IsMoment now → IfSome result (λ due. now < due) → on_tick at.now sent_at now ≡ Stay }
    ensures acts { IfSome result (λ due. on_tick at.now sent_at due ≢ Stay) }
{
    if at.heart_bt_int == 0 {
        return None;
    }
    Moment::new(due_number(at, sent_at))
}
