//! Frames before a firm is logged on.

ghost use Rattle.std.specs.Prelude.{◌≡◌, find, IfOk};
ghost use Rattle.gu_terms.specs.declared.firm.FirmId.{FirmId as FirmOf};
ghost use Rattle.gu_msgs.specs.declared.outbound.Body.TheVariants as body;
ghost use Rattle.gu_session.specs.FrameRules.{is_sender};
ghost use Rattle.gu_session.specs.Logons.{caller, logged_on, logon_course, logon_in, on_logon};

use crate::content::is_sender;
use crate::heard::{Heading, Heard};
use crate::logged_on::LoggedOn;
use crate::messages::Messages;
use crate::plan::{Course, Plan};
use crate::seq_num::SeqNum;
use gu_msgs::inbound::Logon;
use gu_msgs::outbound::Body;
use gu_msgs::{Fault, Inbound};
use gu_terms::{FirmId, Moment};
use std::alloc::{AllocError, Global};

/// Returns the Logon in a frame, if it is one.
fn logon_in(content: &Result<Inbound, Fault>) -> Option<Logon>
    ensures { result ≡ logon_in content.now }
{
    match content {
        Ok(Inbound::Logon(m)) => Some(*m),
        _ => None,
    }
}

/// Returns the firm with the sender's name.
fn find_firm(firms: &[FirmId], sender: &Option<FirmId>) -> Option<FirmId>
    ensures { result ≡ find (λ (firm : FirmOf). is_sender firm sender.now) firms.now }
{
    for firm in firms {
        if is_sender(firm, sender) {
            return Some(*firm);
        }
    }
    None
}

/// Returns the firm that sends a frame to the house.
fn caller(firms: &[FirmId], heading: &Heading) -> Option<FirmId>
    ensures { result ≡ caller firms.now heading.now }
{
    if heading.is_to_house {
        find_firm(firms, &heading.sender)
    } else {
        None
    }
}

/// Returns the Logon that answers this one.
fn answer(logon: &Logon) -> Body
    ensures { result ≡ body.Logon logon.now.heart_bt_int logon.now.resets_seq_num }
{
    Body::Logon {
        heart_bt_int: logon.heart_bt_int,
        resets_seq_num: logon.resets_seq_num,
    }
}

/// Returns the plan for a firm that logs on.
fn logged_on(
    alloc: Global,
    firm: FirmId,
    number: SeqNum,
    logon: &Logon,
    now: Moment,
) -> Result<Plan<'static>, AllocError>
    ensures { IfOk result (λ plan. plan ≡ logged_on firm number logon.now now) }
{
    let mut after = LoggedOn {
        firm,
        heart_bt_int: logon.heart_bt_int,
        expected: 2,
        heard_at: now,
        is_tested: false,
    };
    if number.get() == 1 {
        return Plan::says(alloc, &after, answer(logon));
    }
    after.expected = 1;
    let messages = Messages::two(alloc, answer(logon), Body::ResendRequest(1))?;
    Ok(Plan::repeats(&after, None, messages))
}

/// Returns what the session does on a frame before a firm is logged on.
pub fn logon_course(
    alloc: Global,
    firms: &[FirmId],
    heard: &Heard,
    now: Moment,
) -> Result<Course<'static>, AllocError>
    ensures { IfOk result (λ course. course ≡ logon_course firms.now heard.now now) }
{
    let Some(number) = heard.heading.number else {
        return Ok(Course::Leave);
    };
    let Some(firm) = caller(firms, &heard.heading) else {
        return Ok(Course::Leave);
    };
    let Some(logon) = logon_in(&heard.content) else {
        return Ok(Course::Leave);
    };
    Ok(Course::Go(logged_on(alloc, firm, number, &logon, now)?))
}
