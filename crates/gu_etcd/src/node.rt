//! etcd as an appender sees it: what it answers, and what its log may have.

ghost use Rattle.std.specs.Prelude.{◌≡◌, ◌+◌, ◌≤◌, ◌<◌, List, ℕ, length, IfOk, OnErr};
ghost use Rattle.gu_journal.specs.Crashes.{Elapses};
ghost use Rattle.gu_etcd.specs.Counts.{Counts};
ghost use Rattle.gu_etcd.specs.Log.{IsOf};
ghost use Rattle.gu_etcd.specs.Node.{Follows, HasCause, Puts, Says, known_after};

use gu_journal::MAX_BATCH;
use std::alloc::{AllocError, AllocFailed, Global};
use thiserror::Error;

/// The most bytes that an entry may have: a batch of a journal, under the name of a desk.
pub const MAX_ENTRY: usize = MAX_BATCH + 128;

/// The last number that an entry may have: numbers are written with ten digits.
pub const LAST_NUMBER: u64 = 9_999_999_999;

/// What etcd answers to an entry that is to be put at a number.
#[derive(Drop)]
pub enum PutAnswer {
    /// The entry has been put at the number, and is kept.
    Kept,
    /// This entry was at the number before.
    Holds(Vec<u8>),
    /// The number is free, but this desk doesn't lead any more.
    NotLeading,
}

/// Why there is no answer.
#[derive(Clone, Copy, Debug, PartialEq, Eq, Error)]
pub enum NodeError {
    /// No memory was left.
    #[error("out of memory")]
    Memory,
    /// No answer came, or none that could be read. The entry may be put at any later moment.
    #[error("no answer")]
    Unanswered,
}

impl From<AllocError> for NodeError {
    ghost use Rattle.gu_etcd.specs.declared.node.NodeError.TheVariants.{Memory};

    ghost from_gives = { λ _ error. error ≡ Memory };

    fn from(_: AllocError) -> Self {
        NodeError::Memory
    }
}

impl<T: Drop> From<AllocFailed<T>> for NodeError {
    ghost use Rattle.gu_etcd.specs.declared.node.NodeError.TheVariants.{Memory};

    ghost from_gives = { λ _ error. error ≡ Memory };

    fn from(_: AllocFailed<T>) -> Self {
        NodeError::Memory
    }
}

/// An etcd with the log of a day, to which one desk appends. The clauses hold if etcd is honest, as four premises say: entries are
/// put at the end of the log alone (`order`); one entry wins a number for good, and what was acknowledged is kept (`answer`); and a
/// desk that has lost the leadership never leads again under the same name (`answer` at `NotLeading`). No contract can say that an
/// etcd that runs is.
pub trait Node: Drop {
    /// etcd has answered each call up to now as the premises say.
    ghost is_honest: { Self → Type 0 };

    /// The name under which this desk leads, and no other.
    ghost leader: { Self → List ℕ };

    /// The entries at the first numbers, as far as they are known for good.
    ghost known: { Self → List (List ℕ) };

    /// What the log may have, from this moment until the next call.
    ghost may_hold: { Self → List (List ℕ) → Type 0 };

    /// The moment, as a number that never falls.
    ghost moment: { Self → ℕ };

    /// What the log might have had at some moment from that one on, during a call or between two. `Elapses` and `LeavesOnly` speak of
    /// this, as they do in gu_journal of what a crash might have left.
    ghost held_since: { Self → ℕ → List (List ℕ) → Type 0 };

    /// How many exchanges got no answer, how many calls etcd refused, and how many allocations failed.
    ghost counts: { Counts Self };

    /// Asks for an entry to be put at a number: if the number is free, and if this desk leads, both in one transaction.
    fn put(&mut self, alloc: Global, number: u64, entry: &[u8]) -> Result<PutAnswer, NodeError>
        requires number { number ≤ LAST_NUMBER }
        requires short { length entry.now ≤ MAX_ENTRY }
        requires next { is_honest self.old → number ≡ length (known self.old) + 1 }
        requires own { is_honest self.old → IsOf (leader self.old) entry.now }
        ensures before { is_honest self.new → is_honest self.old }
        ensures leader { is_honest self.new → leader self.new ≡ leader self.old }
        ensures order { is_honest self.new
            → Follows (Puts (leader self.old) number entry.now) (may_hold self.old) (may_hold self.new) }
        ensures answer { IfOk result (λ answer. is_honest self.new
            → (log : List (List ℕ)) → may_hold self.new log → Says (leader self.old) number entry.now answer log) }
        ensures known { IfOk result (λ answer. is_honest self.new → known self.new ≡ known_after (known self.old) entry.now answer) }
        ensures unknown { OnErr result (is_honest self.new → known self.new ≡ known self.old) }
        ensures time { is_honest self.new → Elapses moment held_since self.old self.new (may_hold self.new) }
        ensures cause { is_honest self.new → HasCause counts self.old self.new result };

    /// Since this moment there is no other.
    ghost only_now: { (node : Self) (log : List (List ℕ)) → held_since node (moment node) log → may_hold node log };
}
