//! Following a log until the desk leads it.

ghost use Rattle.std.specs.Prelude.{IfOk, IfSome, OnOk};
ghost use Rattle.gu_ref.specs.Tables.{Tables};
ghost use Rattle.gu_standby.specs.Following.{HasPlayed};
ghost use Rattle.gu_standby.specs.Leading.{Finds, IsEnd, Settles};

use crate::attendance::{Attendance, LeadAnswer, Wish};
use crate::error::FollowError;
use crate::follower::{Follower, Reading};
use crate::succession::{Challenge, Succession};
use gu_etcd::{Exchange, Gateway, NodeError};
use std::alloc::Global;
use std::sync::{Wait, WaitMethods};

/// How many milliseconds come between two looks at a log that hasn't grown.
const PAUSE_MS: u64 = 500;

/// How often a claim is made, each time after the log was read to its end.
const CLAIMS: u32 = 3;

/// What became of a desk that followed a log.
#[derive(Drop)]
pub enum Followed<L> {
    /// It leads, and has played all that the log has.
    Leads(L),
    /// The log is that of an ended day.
    Closed,
    /// An operator ended it. The log goes on without it.
    Dismissed,
}

/// What a look at a log found.
#[derive(Drop)]
enum Look<L> {
    /// The desk follows it no longer.
    Ends(Followed<L>),
    /// It follows on at once, since more of the log is there.
    GoesOn,
    /// It follows on after a pause.
    Waits { is_answered: bool },
}

/// What became of the claim to a lead.
#[derive(Drop)]
enum Claimed<L> {
    /// The desk follows the log no longer.
    Ends(Followed<L>),
    /// It follows on.
    Refused(LeadAnswer),
}

/// Returns what is to be made of a lead that was just taken: from now on no other desk appends, so what is read now is all that the log
/// has. If that can't be read, the lead is dropped, and ends with its lease.
fn taken<X: Exchange, L: Drop>(
    alloc: Global,
    follower: &mut Follower,
    gateway: &mut Gateway<X>,
    lead: L,
) -> Result<Option<Followed<L>>, FollowError>
    ensures end { IfOk result (λ found. IfSome found (λ followed. IsEnd followed follower.new)) }
    ensures played { (reference : Tables) → HasPlayed reference follower.old → OnOk result (HasPlayed reference follower.new) }
{
    let is_all = follower.read_led(alloc, gateway, &lead)?;
    if is_all && !follower.is_closed() {
        return Ok(Some(Followed::Leads(lead)));
    }
    drop(lead);
    Ok(if is_all { Some(Followed::Closed) } else { None })
}

/// Tries to take the lead over a log of which all is played.
fn try_once<X: Exchange, S: Succession>(
    alloc: Global,
    follower: &mut Follower,
    gateway: &mut Gateway<X>,
    succession: &mut S,
) -> Result<Look<S::Lead>, FollowError>
    ensures end { IfOk result (λ look. Finds look follower.new) }
    ensures played { (reference : Tables) → HasPlayed reference follower.old → OnOk result (HasPlayed reference follower.new) }
{
    match succession.try_lead(alloc) {
        Ok(Challenge::Leads(lead)) => Ok(match taken(alloc, follower, gateway, lead)? {
            Some(followed) => Look::Ends(followed),
            None => Look::Waits { is_answered: false },
        }),
        Ok(Challenge::IsLed(claim)) => {
            drop(claim);
            Ok(Look::Waits { is_answered: true })
        }
        Err(NodeError::Unanswered) => Ok(Look::Waits { is_answered: false }),
        Err(NodeError::Memory) => Err(FollowError::Memory),
    }
}

/// Plays the next page of the log, and tries to take the lead once all is played.
fn look_once<X: Exchange, S: Succession>(
    alloc: Global,
    follower: &mut Follower,
    gateway: &mut Gateway<X>,
    succession: &mut S,
) -> Result<Look<S::Lead>, FollowError>
    ensures end { IfOk result (λ look. Finds look follower.new) }
    ensures played { (reference : Tables) → HasPlayed reference follower.old → OnOk result (HasPlayed reference follower.new) }
{
    match follower.read_page(alloc, gateway)? {
        Reading::Unanswered => Ok(Look::Waits { is_answered: false }),
        Reading::More => Ok(Look::GoesOn),
        Reading::Whole if follower.is_closed() => Ok(Look::Ends(Followed::Closed)),
        Reading::Whole => try_once(alloc, follower, gateway, succession),
    }
}

/// Makes a claim once: plays what the log has, and claims the lead over just that. Returns nothing if the claim was refused.
fn claim_once<X: Exchange, S: Succession>(
    alloc: Global,
    follower: &mut Follower,
    gateway: &mut Gateway<X>,
    succession: &mut S,
    claim: &mut S::Claim,
) -> Result<Option<Claimed<S::Lead>>, FollowError>
    ensures end { IfOk result (λ found. IfSome found (λ claimed. Settles claimed follower.new)) }
    ensures played { (reference : Tables) → HasPlayed reference follower.old → OnOk result (HasPlayed reference follower.new) }
{
    let unanswered = Claimed::Refused(LeadAnswer::NotLeading);
    if !follower.read(alloc, gateway)? {
        return Ok(Some(unanswered));
    }
    if follower.is_closed() {
        drop(unanswered);
        return Ok(Some(Claimed::Ends(Followed::Closed)));
    }
    match succession.claim(alloc, claim, follower.count() + 1) {
        Ok(Some(lead)) => Ok(match taken(alloc, follower, gateway, lead)? {
            Some(followed) => Some(Claimed::Ends(followed)),
            None => Some(unanswered),
        }),
        Ok(None) => Ok(None),
        Err(NodeError::Unanswered) => Ok(Some(unanswered)),
        Err(NodeError::Memory) => Err(FollowError::Memory),
    }
}

/// Makes a claim until it isn't refused, a few times at most.
fn claim_few<X: Exchange, S: Succession>(
    alloc: Global,
    follower: &mut Follower,
    gateway: &mut Gateway<X>,
    succession: &mut S,
    mut claim: S::Claim,
) -> Result<Claimed<S::Lead>, FollowError>
    ensures end { IfOk result (λ claimed. Settles claimed follower.new) }
    ensures played { (reference : Tables) → HasPlayed reference follower.old → OnOk result (HasPlayed reference follower.new) }
{
    for _claim in 0..CLAIMS {
        if let Some(claimed) = claim_once(alloc, follower, gateway, succession, &mut claim)? {
            return Ok(claimed);
        }
    }
    Ok(Claimed::Refused(LeadAnswer::Stale))
}

/// Takes the lead as an operator wishes: from the desk that has it, if one does.
fn take_over<X: Exchange, S: Succession>(
    alloc: Global,
    follower: &mut Follower,
    gateway: &mut Gateway<X>,
    succession: &mut S,
) -> Result<Claimed<S::Lead>, FollowError>
    ensures end { IfOk result (λ claimed. Settles claimed follower.new) }
    ensures played { (reference : Tables) → HasPlayed reference follower.old → OnOk result (HasPlayed reference follower.new) }
{
    let unanswered = Claimed::Refused(LeadAnswer::NotLeading);
    match succession.try_lead(alloc) {
        Ok(Challenge::Leads(lead)) => Ok(match taken(alloc, follower, gateway, lead)? {
            Some(followed) => Claimed::Ends(followed),
            None => unanswered,
        }),
        Ok(Challenge::IsLed(claim)) => claim_few(alloc, follower, gateway, succession, claim),
        Err(NodeError::Unanswered) => Ok(unanswered),
        Err(NodeError::Memory) => Err(FollowError::Memory),
    }
}

/// Returns what an operator is answered who wished that the desk takes the lead.
fn answer_to<L>(claimed: &Claimed<L>) -> LeadAnswer {
    match claimed {
        Claimed::Ends(Followed::Leads(_)) => LeadAnswer::Leading,
        Claimed::Ends(_) => LeadAnswer::NotLeading,
        Claimed::Refused(answer) => *answer,
    }
}

/// Attends to operators for this many milliseconds, or once, and does what they wish. Returns what became of the desk, if it follows the log
/// no longer.
fn attend_once<X: Exchange, S: Succession, A: Attendance>(
    alloc: Global,
    follower: &mut Follower,
    gateway: &mut Gateway<X>,
    succession: &mut S,
    attendance: &mut A,
    milliseconds: u64,
) -> Result<Option<Followed<S::Lead>>, FollowError>
    ensures end { IfOk result (λ found. IfSome found (λ followed. IsEnd followed follower.new)) }
    ensures played { (reference : Tables) → HasPlayed reference follower.old → OnOk result (HasPlayed reference follower.new) }
{
    match attendance.attend(follower, milliseconds) {
        None => Ok(None),
        Some(Wish::Close) => Ok(Some(Followed::Dismissed)),
        Some(Wish::Lead) => {
            let claimed = take_over(alloc, follower, gateway, succession)?;
            attendance.answer_lead(answer_to(&claimed));
            Ok(match claimed {
                Claimed::Ends(followed) => Some(followed),
                Claimed::Refused(_) => None,
            })
        }
    }
}

/// Follows a log until this desk leads it and has played all of it, its day is ended, or an operator ends the desk. Operators are answered
/// from before the first page on.
pub fn follow<X: Exchange, S: Succession, A: Attendance, R: Wait>(
    rt: &R,
    alloc: Global,
    follower: &mut Follower,
    gateway: &mut Gateway<X>,
    succession: &mut S,
    attendance: &mut A,
) -> Result<Followed<S::Lead>, FollowError>
    // It leads only if it has read the log to its end after it took the lead, and the day isn't ended.
    ensures end { IfOk result (λ followed. IsEnd followed follower.new) }
    ensures played { (reference : Tables) → HasPlayed reference follower.old → OnOk result (HasPlayed reference follower.new) }
{
    for _look in rt.forever() {
        let pause = match look_once(alloc, follower, gateway, succession)? {
            Look::Ends(followed) => return Ok(followed),
            Look::GoesOn => 0,
            Look::Waits { is_answered } if succession.goes_on(is_answered) => PAUSE_MS,
            Look::Waits { .. } => break,
        };
        if let Some(followed) = attend_once(
            alloc, follower, gateway, succession, attendance, pause,
        )? {
            return Ok(followed);
        }
    }
    Err(FollowError::Unanswered)
}
