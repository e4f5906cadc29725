//! What became of an entry.

ghost use Rattle.std.specs.Prelude.{◌≡◌, ◌+◌, ◌≤◌, ◌<◌, ◌++◌, ◌∷◌, [], ℕ, List, length, IfErr, IfOk, IsErrOf, OnOk};
ghost use Rattle.gu_journal.specs.Crashes.{LeavesOnly};
ghost use Rattle.gu_etcd.specs.declared.appender.AppendError.TheVariants.{Failed, Fenced, Full, Memory};
ghost use Rattle.gu_etcd.specs.Log.{HasBegun, IsOf, IsSettled};
ghost use Rattle.gu_etcd.specs.Node.{HasCause, Says, known_after};
ghost use Rattle.gu_etcd.specs.Outcome.{IsIn, IsNotIn};

use crate::{AppendError, LAST_NUMBER, MAX_ENTRY, Node, NodeError, PutAnswer};
use std::alloc::Global;

/// How often an entry is asked for at most, until there is an answer.
pub const TRIES: u32 = 16;

/// Asks for an entry at a number until there is an answer. Each question is the same transaction, so an entry that an earlier one put
/// is found at its number, and is not put twice.
fn put_until_answered<N: Node>(
    node: &mut N,
    alloc: Global,
    number: u64,
    entry: &[u8],
) -> Result<PutAnswer, NodeError>
    requires number { number ≤ LAST_NUMBER }
    requires short { length entry.now ≤ MAX_ENTRY }
    requires next { N.is_honest node.old → number ≡ length (N.known node.old) + 1 }
    requires own { N.is_honest node.old → IsOf (N.leader node.old) entry.now }
    requires settled { N.is_honest node.old → (log : List (List ℕ)) → N.may_hold node.old log → IsSettled (N.known node.old) (N.leader node.old) log }
    ensures before { N.is_honest node.new → N.is_honest node.old }
    ensures leader { N.is_honest node.new → N.leader node.new ≡ N.leader node.old }
    ensures begun { N.is_honest node.new → (log : List (List ℕ)) → N.may_hold node.new log → HasBegun (N.known node.old) (N.leader node.old) entry.now log }
    ensures answer { IfOk result (λ answer. N.is_honest node.new
        → (log : List (List ℕ)) → N.may_hold node.new log → Says (N.leader node.old) number entry.now answer log) }
    ensures known { IfOk result (λ answer. N.is_honest node.new → N.known node.new ≡ known_after (N.known node.old) entry.now answer) }
    ensures any_moment { N.is_honest node.new
        → LeavesOnly N.moment N.held_since node.old node.new (HasBegun (N.known node.old) (N.leader node.old) entry.now) }
    ensures cause { N.is_honest node.new → HasCause N.counts node.old node.new result }
{
    for _attempt in 0..TRIES {
        match node.put(alloc, number, entry) {
            Ok(answer) => return Ok(answer),
            Err(NodeError::Memory) => return Err(NodeError::Memory),
            Err(NodeError::Unanswered) => {}
        }
    }
    Err(NodeError::Unanswered)
}

/// Returns what an answer means for an entry: it is in the log, or another desk leads.
fn outcome_of(answer: PutAnswer, entry: &[u8]) -> Result<(), AppendError>
    ensures kept { OnOk result (IsIn answer entry.now) }
    ensures fenced { IfErr result (λ error. (error ≡ Fenced) × IsNotIn answer entry.now) }
{
    match answer {
        PutAnswer::Kept => Ok(()),
        PutAnswer::Holds(there) => {
            if there.as_slice() == entry {
                Ok(())
            } else {
                Err(AppendError::Fenced)
            }
        }
        PutAnswer::NotLeading => Err(AppendError::Fenced),
    }
}

/// Asks for an entry at a number until it is known whether it is in the log.
pub(crate) fn put_until_settled<N: Node>(
    node: &mut N,
    alloc: Global,
    number: u64,
    entry: &[u8],
) -> Result<(), AppendError>
    requires number { number ≤ LAST_NUMBER }
    requires short { length entry.now ≤ MAX_ENTRY }
    requires next { N.is_honest node.old → number ≡ length (N.known node.old) + 1 }
    requires own { N.is_honest node.old → IsOf (N.leader node.old) entry.now }
    requires settled { N.is_honest node.old → (log : List (List ℕ)) → N.may_hold node.old log → IsSettled (N.known node.old) (N.leader node.old) log }
    ensures before { N.is_honest node.new → N.is_honest node.old }
    ensures leader { N.is_honest node.new → N.leader node.new ≡ N.leader node.old }
    ensures kept { OnOk result (N.is_honest node.new → N.known node.new ≡ N.known node.old ++ entry.now ∷ []) }
    ensures settles { OnOk result (N.is_honest node.new
        → (log : List (List ℕ)) → N.may_hold node.new log → IsSettled (N.known node.old ++ entry.now ∷ []) (N.leader node.old) log) }
    ensures fenced { IsErrOf result Fenced → N.is_honest node.new
        → (log : List (List ℕ)) → N.may_hold node.new log → IsSettled (N.known node.old) (N.leader node.old) log }
    ensures any_moment { N.is_honest node.new
        → LeavesOnly N.moment N.held_since node.old node.new (HasBegun (N.known node.old) (N.leader node.old) entry.now) }
    ensures failed { IsErrOf result Failed → N.is_honest node.new → N.counts.failures node.old < N.counts.failures node.new }
    ensures refused { IsErrOf result Fenced → N.is_honest node.new → N.counts.refusals node.old < N.counts.refusals node.new }
    ensures memory { IsErrOf result Memory → N.is_honest node.new → N.counts.shortages node.old < N.counts.shortages node.new }
    ensures not_full { ¬ IsErrOf result Full }
{
    match put_until_answered(node, alloc, number, entry) {
        Ok(answer) => outcome_of(answer, entry),
        Err(NodeError::Memory) => Err(AppendError::Memory),
        Err(NodeError::Unanswered) => Err(AppendError::Failed),
    }
}
