//! An etcd in memory.

ghost use Rattle.std.specs.Prelude.{◌≡◌, ◌∷◌, [], ◌++◌, ◌+◌, ◌<◌, ◌≤◌, ◌^◌, ◌-◌, ℕ, List, IfOk, OnOk, OnErr, length, map, take, true, false};
ghost use Rattle.std.proofs.Common.{◌∙◌};
ghost use Rattle.std.proofs.lemmas.List.{take_all};
ghost use Rattle.gu_etcd.specs.InMemory.{HadSince, WentUp, log_of};

use crate::{Node, NodeError, PutAnswer};
use std::alloc::{AllocError, Global};

/// What becomes of a call.
#[derive(Clone, Copy, Debug, PartialEq, Eq)]
pub enum Fate {
    /// It is carried out and answered.
    Answered,
    /// It gets lost.
    RequestLost,
    /// It is carried out, and the answer gets lost.
    AnswerLost,
}

/// An etcd in memory. It answers each call at once, or loses it, as its fates say. One desk asks it, which may have lost the
/// leadership, and which knows some first entries of the log.
#[derive(Drop)]
pub struct MemoryNode {
    leader: Vec<u8>,
    leads: bool,
    log: Vec<Vec<u8>>,
    known: usize,
    /// What becomes of the next calls, of which the last one comes first. Those after them are answered.
    fates: Vec<Fate>,
    failures: u64,
    refusals: u64,
    shortages: u64,
    ghost within: { known ≤ length log.items },
}

impl MemoryNode {
    ghost use Rattle.gu_etcd.specs.declared.node.NodeError.TheVariants.{Memory, Unanswered};
    ghost use Rattle.gu_etcd.specs.Steps.{Answers, Steps, log_in};

    /// Creates an etcd with a log, of which a desk that leads under a name knows this number of entries.
    pub fn new(leader: Vec<u8>, log: Vec<Vec<u8>>, known: usize) -> Self
        requires { known ≤ length log.items }
        ensures leader { result.leader ≡ leader }
        ensures leads { result.leads ≡ true }
        ensures log { result.log ≡ log }
        ensures known { result.known ≡ known }
        ensures fates { result.fates.items ≡ [] }
    {
        let fates = Vec::new(*log.allocator());
        MemoryNode {
            leader,
            leads: true,
            log,
            known,
            fates,
            failures: 0,
            refusals: 0,
            shortages: 0,
        }
    }

    /// Returns the entries of its log, in order.
    pub fn log(&self) -> &[Vec<u8>]
        ensures { result.now ≡ self.now.log.items }
    {
        &self.log
    }

    /// Has another desk lead.
    pub fn lose_leadership(&mut self)
        ensures { self.new ≡ record self.old { leads = false } }
    {
        self.leads = false;
    }

    /// Sets what becomes of the next calls, the last of them first.
    pub fn set_fates(&mut self, fates: Vec<Fate>)
        ensures { self.new ≡ record self.old { fates = fates } }
    {
        self.fates = fates;
    }

    /// Carries a transaction out, and returns whether it put the entry.
    fn carry_out(&mut self, alloc: Global, entry: &[u8]) -> Result<bool, AllocError>
        ensures leader { self.new.leader ≡ self.old.leader }
        ensures known { self.new.known ≡ self.old.known }
        ensures failures { self.new.failures ≡ self.old.failures }
        ensures refusals { self.new.refusals ≡ self.old.refusals }
        ensures shortages { self.new.shortages ≡ self.old.shortages }
        ensures put { IfOk result (λ is_put. is_put ≡ true
            → (self.old.known ≡ length self.old.log.items) × (log_in self.new ≡ log_in self.old ++ entry.now ∷ [])) }
        ensures not_put { IfOk result (λ is_put. is_put ≡ false → log_in self.new ≡ log_in self.old) }
        ensures err { OnErr result (log_in self.new ≡ log_in self.old) }
    {
        if !self.leads || self.known < self.log.len() {
            return Ok(false);
        }
        let copy = Vec::from_slice(alloc, entry)?;
        self.log.push(copy)?;
        Ok(true)
    }

    /// Returns what is at the number after those that are known, which the desk knows from then on.
    fn find(&mut self, alloc: Global) -> Result<PutAnswer, AllocError>
        ensures leader { self.new.leader ≡ self.old.leader }
        ensures log { self.new.log ≡ self.old.log }
        ensures failures { self.new.failures ≡ self.old.failures }
        ensures shortages { self.new.shortages ≡ self.old.shortages }
        ensures answer { (entry : List ℕ) → IfOk result (Answers entry self.old.known self.new) }
        ensures refused { OnOk result (WentUp self.old.refusals self.new.refusals) }
        ensures refusals { self.old.refusals ≤ self.new.refusals }
        ensures err { OnErr result (self.new.known ≡ self.old.known) }
    {
        let Some(there) = self.log.get(self.known) else {
            self.refusals = self.refusals.saturating_add(1);
            return Ok(PutAnswer::NotLeading);
        };
        let there = Vec::from_slice(alloc, there)?;
        self.known += 1;
        self.refusals = self.refusals.saturating_add(1);
        Ok(PutAnswer::Holds(there))
    }

    /// Counts a call that gets lost.
    fn lose(&mut self) -> NodeError
        ensures error { result ≡ Unanswered }
        ensures others { self.new ≡ record self.old { failures = self.new.failures } }
        ensures failures { self.old.failures ≤ self.new.failures }
        ensures went_up { WentUp self.old.failures self.new.failures }
    {
        self.failures = self.failures.saturating_add(1);
        NodeError::Unanswered
    }

    /// Counts an allocation that failed.
    fn run_short(&mut self) -> NodeError
        ensures error { result ≡ Memory }
        ensures others { self.new ≡ record self.old { shortages = self.new.shortages } }
        ensures shortages { self.old.shortages ≤ self.new.shortages }
        ensures went_up { WentUp self.old.shortages self.new.shortages }
    {
        self.shortages = self.shortages.saturating_add(1);
        NodeError::Memory
    }

    /// Carries a call out, and loses the answer.
    fn put_unheard(&mut self, alloc: Global, entry: &[u8]) -> Result<PutAnswer, NodeError>
        ensures { Steps entry.now self.old self.new result }
    {
        match self.carry_out(alloc, entry) {
            Ok(_) => Err(self.lose()),
            Err(_) => Err(self.run_short()),
        }
    }

    /// Carries a call out, and answers it.
    fn put_heard(&mut self, alloc: Global, entry: &[u8]) -> Result<PutAnswer, NodeError>
        ensures { Steps entry.now self.old self.new result }
    {
        let Ok(is_put) = self.carry_out(alloc, entry) else {
            return Err(self.run_short());
        };
        if is_put {
            self.known += 1;
            return Ok(PutAnswer::Kept);
        }
        match self.find(alloc) {
            Ok(answer) => Ok(answer),
            Err(_) => Err(self.run_short()),
        }
    }

    /// Has the next fate come upon a call.
    fn step(&mut self, alloc: Global, entry: &[u8]) -> Result<PutAnswer, NodeError>
        ensures { Steps entry.now self.old self.new result }
    {
        match self.fates.pop() {
            Some(Fate::RequestLost) => Err(self.lose()),
            Some(Fate::AnswerLost) => self.put_unheard(alloc, entry),
            Some(Fate::Answered) | None => self.put_heard(alloc, entry),
        }
    }
}

/// It is honest as long as none of its counts is at its end, so what the premises say of an etcd can be met together: by one that
/// keeps entries, refuses them, and loses questions and answers.
impl Node for MemoryNode {
    ghost is_honest = { λ node. (node.failures < 2 ^ 64 - 1) × (node.refusals < 2 ^ 64 - 1) × (node.shortages < 2 ^ 64 - 1) };

    ghost leader = { λ node. node.leader.items };

    ghost known = { λ node. take node.known (log_of node.log.items) };

    ghost may_hold = { λ node log. log ≡ log_of node.log.items };

    ghost moment = { λ node. length (log_of node.log.items) };

    ghost held_since = { λ node. HadSince (log_of node.log.items) };

    ghost counts = { record { failures = λ node. node.failures; refusals = λ node. node.refusals; shortages = λ node. node.shortages } };

    ghost only_now = { λ node log had. had.3 ∙ take_all had.0 (log_of node.log.items) had.1 };

    fn put(&mut self, alloc: Global, _number: u64, entry: &[u8]) -> Result<PutAnswer, NodeError> {
        // The number is the one after those that are known, as the call requires.
        self.step(alloc, entry)
    }
}
