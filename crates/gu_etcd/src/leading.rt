//! What etcd answers to a desk that wants to lead.

ghost use Rattle.std.specs.Prelude.{◌≡◌, Some, IfOk};
ghost use Rattle.serde_json.specs.Data.{Data};
ghost use Rattle.serde_json.specs.Read.{read};
ghost use Rattle.gu_etcd.specs.Answers.{SaysLead};

use crate::{NodeError, PutAnswer, read_put};
use std::alloc::Global;

/// What etcd answers to a desk that wants to lead.
#[derive(Drop)]
pub enum LeadAnswer {
    /// The desk leads from now on.
    Leads,
    /// The desk with this name leads. If the name is the desk's own, an answer to it got lost.
    IsLed(Vec<u8>),
}

/// Returns what the answer to a transaction that takes the leadership says. An answer that can't be read is none.
pub fn read_lead(alloc: Global, answer: &[u8]) -> Result<LeadAnswer, NodeError>
    ensures { IfOk result (λ said. (json : Data) × (read answer.now ≡ Some json) × SaysLead json said) }
{
    match read_put(alloc, answer)? {
        PutAnswer::Kept => Ok(LeadAnswer::Leads),
        PutAnswer::Holds(name) => Ok(LeadAnswer::IsLed(name)),
        PutAnswer::NotLeading => Err(NodeError::Unanswered),
    }
}
