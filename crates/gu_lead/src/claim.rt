//! Claiming the lead over a log from the desk that has it.

ghost use Rattle.std.specs.Prelude.{◌≡◌, IfOk, IfSome};

use crate::Candidate;
use crate::lead::Lead;
use gu_etcd::{Exchange, LeadAnswer, NodeError, TRIES};
use std::alloc::Global;

/// A claim of the lead that another desk has: the lead that its candidate would have, and the name of that desk.
#[derive(Debug, Drop)]
pub struct Claim {
    pub lead: Lead,
    pub former: Vec<u8>,
}

impl Claim {
    /// Makes the claim for its candidate, which has played all entries before this number: the candidate has the lead if the desk that had it
    /// still did, and the log had no entry at the number, both in one transaction; and nothing if that had moved, after which it may be made
    /// again for a later number. The same question is asked again if no answer comes.
    ///
    /// The former desk may let answers leave until its lease has ended by its own clocks, so the candidate has to wait `LEASE_SECONDS` before
    /// it lets any leave.
    pub fn make<X: Exchange>(
        &self,
        alloc: Global,
        candidate: &mut Candidate<X>,
        number: u64,
    ) -> Result<Option<Lead>, NodeError>
        ensures { IfOk result (λ lead. IfSome lead (λ it. it ≡ self.now.lead)) }
    {
        for _attempt in 0..TRIES {
            match candidate.claim(alloc, self.lead.number, &self.former, number) {
                Ok(LeadAnswer::Leads) => return Ok(Some(self.lead)),
                Ok(LeadAnswer::IsLed(name)) => {
                    // If it is the candidate's own, an answer to an earlier question got lost.
                    let is_own = name.as_slice() == candidate.desk();
                    return Ok(if is_own { Some(self.lead) } else { None });
                }
                Err(NodeError::Memory) => return Err(NodeError::Memory),
                Err(NodeError::Unanswered) => {}
            }
        }
        Err(NodeError::Unanswered)
    }
}
