//! Appends entries to a log, one number after the other.

ghost use Rattle.std.specs.Prelude.{◌≡◌, ◌+◌, ◌≤◌, ◌<◌, ◌++◌, ◌∷◌, [], ℕ, List, length, IfOk, IfErr};
ghost use Rattle.gu_journal.specs.Crashes.{LeavesOnly};
ghost use Rattle.gu_etcd.specs.declared.appender.AppendError.TheVariants.{Fenced};
ghost use Rattle.gu_etcd.specs.declared.node.TheConstants.{LAST_NUMBER};
ghost use Rattle.gu_etcd.specs.Log.{HasBegun, IsOf, IsSettled};
ghost use Rattle.gu_etcd.specs.Appending.{HasReason};

use crate::outcome::put_until_settled;
use crate::{LAST_NUMBER, MAX_ENTRY, Node};
use gu_journal::Stopped;
use std::alloc::Global;
use thiserror::Error;

/// Why an appender stopped.
#[derive(Clone, Copy, Debug, PartialEq, Eq, Error)]
pub enum AppendError {
    /// An allocation failed. Whether the entry is in the log is unknown.
    #[error("out of memory")]
    Memory,
    /// No answer came. Whether the entry is in the log is unknown.
    #[error("no answer")]
    Failed,
    /// Another desk leads. The entry is not in the log, and never will be.
    #[error("fenced")]
    Fenced,
    /// No number is left.
    #[error("no number left")]
    Full,
}

/// Appends entries to a log, each at the next number.
#[derive(Drop)]
pub struct Appender<N: Node> {
    node: N,
    /// How many entries are kept.
    count: u64,
    ghost within: { count ≤ LAST_NUMBER },
    ghost counted: { N.is_honest node → count ≡ length (N.known node) },
    ghost settled: { N.is_honest node → (log : List (List ℕ)) → N.may_hold node log → IsSettled (N.known node) (N.leader node) log },
}

impl<N: Node> Appender<N> {
    ghost use Rattle.gu_etcd.specs.Kept.{kept_by, leader_of, node_of};

    /// Creates an appender to a log of which this number of entries is known, and in which this desk has put nothing else.
    pub fn new(node: N, count: u64) -> Self
        requires within { count ≤ LAST_NUMBER }
        requires counted { N.is_honest node → count ≡ length (N.known node) }
        requires settled { N.is_honest node → (log : List (List ℕ)) → N.may_hold node log → IsSettled (N.known node) (N.leader node) log }
        ensures { node_of result ≡ node }
    {
        Appender { node, count }
    }

    /// Returns a reference to its node.
    pub fn node(&self) -> &N
        ensures { result.now ≡ node_of self.now }
    {
        &self.node
    }

    /// Returns how many entries are kept.
    pub fn count(&self) -> u64
        ensures { N.is_honest (node_of self.now) → result ≡ length (kept_by self.now) }
    {
        self.count
    }

    /// Appends an entry of this desk at the next number, and returns once it is kept. After an error nothing more can be appended,
    /// since the appender is spent.
    pub fn append(self, alloc: Global, entry: &[u8]) -> Result<Self, Stopped<N, AppendError>>
        requires short { length entry.now ≤ MAX_ENTRY }
        requires own { N.is_honest (node_of self) → IsOf (leader_of self) entry.now }
        ensures before { IfOk result (λ appender. N.is_honest (node_of appender) → N.is_honest (node_of self)) }
        ensures before_stopped { IfErr result (λ stopped. N.is_honest stopped.place → N.is_honest (node_of self)) }

        // The entry names its desk, so another desk's batch is never taken for it, even one of the same text.
        ensures kept { IfOk result (λ appender. N.is_honest (node_of appender) → kept_by appender ≡ kept_by self ++ entry.now ∷ []) }
        ensures leader { IfOk result (λ appender. N.is_honest (node_of appender) → leader_of appender ≡ leader_of self) }
        ensures leader_stopped { IfErr result (λ stopped. N.is_honest stopped.place → N.leader stopped.place ≡ leader_of self) }

        // At any moment of the call the log has what was kept, and of this desk nothing after it, or this entry next.
        ensures any_moment { IfOk result (λ appender. N.is_honest (node_of appender)
            → LeavesOnly N.moment N.held_since (node_of self) (node_of appender) (HasBegun (kept_by self) (leader_of self) entry.now)) }
        ensures any_moment_stopped { IfErr result (λ stopped. N.is_honest stopped.place
            → LeavesOnly N.moment N.held_since (node_of self) stopped.place (HasBegun (kept_by self) (leader_of self) entry.now)) }

        // A desk that is fenced has not put the entry, and never will have.
        ensures fenced { IfErr result (λ stopped. N.is_honest stopped.place → stopped.error ≡ Fenced
            → (log : List (List ℕ)) → N.may_hold stopped.place log → IsSettled (kept_by self) (leader_of self) log) }

        // It doesn't give up by itself.
        ensures reason { IfErr result (λ stopped. N.is_honest stopped.place
            → HasReason N.counts (kept_by self) (node_of self) stopped) }
    {
        let Appender { mut node, count } = self;
        if count == LAST_NUMBER {
            return Err(Stopped::new(node, AppendError::Full));
        }
        match put_until_settled(&mut node, alloc, count + 1, entry) {
            Ok(()) => Ok(Appender {
                node,
                count: count + 1,
            }),
            Err(error) => Err(Stopped::new(node, error)),
        }
    }
}
