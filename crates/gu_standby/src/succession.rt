//! How a follower comes to lead.

use gu_etcd::NodeError;
use std::alloc::Global;

/// What a desk finds that wants the lead.
#[derive(Drop)]
pub enum Challenge<L, C> {
    /// It leads, since no other desk did.
    Leads(L),
    /// Another desk leads, from which it may claim the lead.
    IsLed(C),
}

/// How a desk that follows a log tries to take the lead over it.
pub trait Succession {
    /// The lead that it takes.
    type Lead: Drop;

    /// A claim to the lead of another desk.
    type Claim: Drop;

    /// Tries once, under a name that no desk had before. Returns the lead if no other desk has it, and otherwise a claim to it.
    fn try_lead(&mut self, alloc: Global) -> Result<Challenge<Self::Lead, Self::Claim>, NodeError>;

    /// Makes a claim for a desk that has played all entries before this number. Returns the lead if the desk has it now, and nothing if the log
    /// has an entry at the number, or another desk has taken the lead.
    fn claim(
        &mut self,
        alloc: Global,
        claim: &mut Self::Claim,
        number: u64,
    ) -> Result<Option<Self::Lead>, NodeError>;

    /// Returns whether there is to be another look, given whether etcd answered in this one.
    fn goes_on(&mut self, is_answered: bool) -> bool;
}
