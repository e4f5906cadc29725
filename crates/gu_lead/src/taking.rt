//! Taking the lead over a log.

ghost use Rattle.std.specs.Prelude.{◌≡◌, IfOk, IfSome};
ghost use Rattle.gu_lead.specs.Leads.{CountsFromSome};

use crate::Candidate;
use crate::claim::Claim;
use crate::lead::{LEASE_SECONDS, Lead, lease_from};
use gu_etcd::{Exchange, Granted, LeadAnswer, NodeError, TRIES};
use gu_lease::BothClocks;
use std::alloc::Global;

/// Whether a desk has the lead.
#[derive(Debug, Drop)]
pub enum Taking {
    /// It has the lead.
    Leads(Lead),
    /// Another desk has it, from which this one may claim it.
    IsLed(Claim),
}

/// Returns who leads, once etcd says so, after a candidate has asked for the lead by a lease: the candidate if it is none. The same question
/// is asked again if no answer comes.
fn leader_by<X: Exchange>(
    alloc: Global,
    candidate: &mut Candidate<X>,
    lease: u64,
) -> Result<Option<Vec<u8>>, NodeError> {
    for _attempt in 0..TRIES {
        match candidate.lead(alloc, lease) {
            Ok(LeadAnswer::Leads) => return Ok(None),
            Ok(LeadAnswer::IsLed(name)) => return Ok(other_than(candidate, name)),
            Err(NodeError::Memory) => return Err(NodeError::Memory),
            Err(NodeError::Unanswered) => {}
        }
    }
    Err(NodeError::Unanswered)
}

/// Returns the name of the desk that leads, unless that is the candidate itself: then an answer to an earlier question got lost, since no
/// other desk has its name.
fn other_than<X: Exchange>(candidate: &Candidate<X>, name: Vec<u8>) -> Option<Vec<u8>> {
    if name.as_slice() == candidate.desk() {
        drop(name);
        None
    } else {
        Some(name)
    }
}

/// Returns a lease for a candidate, which is asked for at each endpoint until one answers.
fn granted_to<X: Exchange>(
    alloc: Global,
    candidate: &mut Candidate<X>,
) -> Result<Granted, NodeError> {
    for _endpoint in 0..candidate.endpoints() {
        match candidate.grant(alloc, LEASE_SECONDS) {
            Err(NodeError::Unanswered) => {}
            heard => return heard,
        }
    }
    Err(NodeError::Unanswered)
}

/// Takes the lead for a candidate, if no other desk has it. The candidate's lease counts from before it was asked for; after an error the
/// candidate is not to be used again, since its lease may lead yet.
pub fn take_lead<X: Exchange, C: BothClocks>(
    alloc: Global,
    candidate: &mut Candidate<X>,
    clocks: &C,
) -> Result<Taking, NodeError>
    ensures { IfOk result CountsFromSome }
{
    let Some(asked) = clocks.now() else {
        return Err(NodeError::Unanswered);
    };
    let granted = granted_to(alloc, candidate)?;
    let leader = leader_by(alloc, candidate, granted.lease)?;
    let lead = Lead {
        number: granted.lease,
        lease: lease_from(asked, granted.seconds),
    };
    Ok(match leader {
        None => Taking::Leads(lead),
        Some(former) => Taking::IsLed(Claim { lead, former }),
    })
}
