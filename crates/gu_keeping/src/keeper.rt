//! Keeping a day's text.

ghost use Rattle.std.specs.Prelude.{◌≡◌, ◌+◌, ◌≤◌, ◌++◌, List, ℕ, drop, length, take, IfErr, IfOk, IsErrOf, OnOk};
ghost use mathlib.Core.List.{IsPrefix};
ghost use Rattle.gu_terms.specs.declared.entry.Entry.{Entry as EntryOf};
ghost use Rattle.gu_journal.specs.Sink.{HasReason};
ghost use Rattle.gu_journal.specs.Text.{IsBatch};
ghost use Rattle.gu_keeping.specs.Chains.{IsChainOf, chain_after};
ghost use Rattle.gu_keeping.specs.Keeping.{IfGivenBack, IfStopped, IsNextBatch, Writes, kept_entries};

use crate::batch::Batch;
use crate::chain::Chain;
use crate::error::Unkept;
use gu_desk::{Desk, EntryLedger, Front, LotLedger, Origin};
use gu_journal::{Sink, is_batch};
use gu_terms::Entry;
use std::alloc::{AllocError, Global};
use std::sync::Wait;

/// The most entries taken from the desk at a time.
const MOST_TAKEN: usize = 1_024;

/// A keeper of a day's text: a sink, and the prefix of the desk's one history whose lines the sink has.
pub struct Keeper<E: EntryLedger, K: Sink> {
    sink: K,
    /// The entries already kept.
    chain: Chain,
    /// The prefix of the desk's history taken from the desk.
    front: Front<E>,
    /// The last entries of the front, which aren't kept yet.
    waiting: Vec<Entry>,
    ghost parts: { front ≡ kept_entries chain front ++ waiting.items },
    ghost chained: { IsChainOf chain (kept_entries chain front) },
    ghost few: { length front ≤ 1000000 },
}

// By hand, so that each exit of a caller drops it with one call.
impl<E: EntryLedger, K: Sink + Drop> Drop for Keeper<E, K> {
    fn drop(self) {
        let Keeper {
            sink,
            chain: _,
            front,
            waiting,
        } = self;
        drop(sink);
        drop(front);
        drop(waiting);
    }
}

/// Removes the first entries.
fn drop_first(entries: &mut Vec<Entry>, count: usize)
    requires { count ≤ length entries.old.items }
    ensures { entries.new.items ≡ drop count entries.old.items }
{
    if count == entries.len() {
        entries.clear();
    } else {
        drop(entries.drain(..count));
    }
}

impl<E: EntryLedger, K: Sink> Keeper<E, K> {
    /// Returns a keeper that continues with a sink that already has the lines of these entries.
    pub fn new(alloc: Global, sink: K, front: Front<E>, chain: Chain) -> Self
        requires chain { IsChainOf chain front }
        requires few { length front ≤ 1000000 }
        ensures sink { result.sink ≡ sink }
        ensures chain { result.chain ≡ chain }
        ensures kept { kept_entries result.chain result.front ≡ front }
    {
        Keeper {
            sink,
            chain,
            front,
            waiting: Vec::new(alloc),
        }
    }

    /// Returns the number of entries kept.
    pub fn count(&self) -> usize
        ensures { result ≡ length (kept_entries self.now.chain self.now.front) }
    {
        self.chain.count()
    }

    /// Returns the sink, and the prefix of the history that was taken from the desk, which begins with the entries kept.
    pub fn into_parts(self) -> (K, Front<E>)
        ensures sink { result.0 ≡ self.sink }
        ensures front { IsPrefix (kept_entries self.chain self.front) result.1 }
    {
        let Keeper {
            sink,
            chain: _,
            front,
            waiting,
        } = self;
        drop(waiting);
        (sink, front)
    }

    /// Takes entries from the desk until this many are waiting, or all that the desk has. It may wait for the lock, which it holds once.
    fn take_in<S: LotLedger, R: Wait>(
        &mut self,
        rt: &R,
        desk: &Desk<E, S>,
        wanted: usize,
    ) -> Result<(), AllocError>
        ensures sink { self.new.sink ≡ self.old.sink }
        ensures chain { self.new.chain ≡ self.old.chain }
        ensures kept { kept_entries self.new.chain self.new.front ≡ kept_entries self.old.chain self.old.front }
    {
        let most = wanted.saturating_sub(self.waiting.len());
        desk.hold(rt)
            .entries_from(&mut self.front, most, &mut self.waiting)
    }

    /// Makes a batch of the first waiting entries, as many as it has room for. Returns its text, the chain after it, and their number.
    fn batch(
        &self,
        alloc: Global,
        origins: &[Origin],
    ) -> Result<(Vec<u8>, Chain, usize), AllocError>
        ensures batch { IfOk result (λ made. (1 ≤ made.2
            → IsNextBatch origins.now self.now.chain (take made.2 self.now.waiting.items) made.0.items)) }
        ensures chain { IfOk result (λ made. made.1 ≡ chain_after self.now.chain (take made.2 self.now.waiting.items)) }
        ensures within { IfOk result (λ made. made.2 ≤ length self.now.waiting.items) }
    {
        let (batch, count) = Batch::of(alloc, self.chain, &self.waiting, origins)?;
        let (text, chain) = batch.end()?;
        Ok((text, chain, count))
    }

    /// Appends the text of a batch of the first waiting entries, and returns once it is kept.
    fn put(self, text: &[u8], chain: Chain, count: usize) -> Result<Self, Unkept<Self, K::Place>>
        requires batch { IsBatch text.now }
        requires within { count ≤ length self.waiting.items }
        requires chain { chain ≡ chain_after self.chain (take count self.waiting.items) }
        ensures chain { IfOk result (λ keeper. keeper.chain ≡ chain) }
        ensures before { IfOk result (λ keeper. K.is_honest (K.place keeper.sink) → K.is_honest (K.place self.sink)) }
        ensures entries { IfOk result (λ keeper. kept_entries keeper.chain keeper.front
            ≡ kept_entries self.chain self.front ++ take count self.waiting.items) }
        ensures kept { IfOk result (λ keeper. K.is_honest (K.place keeper.sink) → K.kept keeper.sink ≡ K.kept self.sink ++ text.now) }
        ensures any_moment { IfOk result (λ keeper.
            Writes K.is_honest K.moment K.left_since (K.place self.sink) (K.place keeper.sink) (K.kept self.sink) text.now) }
        ensures given_back { IfErr result (λ unkept. IfGivenBack unkept (λ keeper. ⊥)) }
        ensures before_stopped { IfErr result (λ unkept. IfStopped unkept (λ stopped.
            K.is_honest stopped.place → K.is_honest (K.place self.sink))) }
        ensures any_moment_stopped { IfErr result (λ unkept. IfStopped unkept (λ stopped.
            Writes K.is_honest K.moment K.left_since (K.place self.sink) stopped.place (K.kept self.sink) text.now)) }
        ensures reason { IfErr result (λ unkept. IfStopped unkept (λ stopped. K.is_honest stopped.place
            → HasReason K.failures K.refusals K.shortages (K.kept self.sink) (K.place self.sink) stopped)) }
    {
        let Keeper {
            sink,
            chain: _,
            front,
            mut waiting,
        } = self;
        match sink.append(text) {
            Ok(sink) => {
                drop_first(&mut waiting, count);
                Ok(Keeper {
                    sink,
                    chain,
                    front,
                    waiting,
                })
            }
            Err(stopped) => Err(Unkept::Failed(stopped)),
        }
    }

    /// Keeps the next entries of the desk's history, each with its origin, as many as one batch has room for, and returns once they are
    /// kept. `origins` are those of the entries after `count`, in order. It may wait for the desk's lock, which it holds once, for at most
    /// 1,024 entries, and not while it writes.
    pub fn keep<S: LotLedger, R: Wait>(
        mut self,
        alloc: Global,
        rt: &R,
        desk: &Desk<E, S>,
        origins: &[Origin],
    ) -> Result<Self, Unkept<Self, K::Place>>
        requires { 1 ≤ length origins.now }
        ensures before { IfOk result (λ keeper. K.is_honest (K.place keeper.sink) → K.is_honest (K.place self.sink)) }

        // Some more entries are kept, and their batch was appended: a crash at any moment left a prefix of it.
        ensures kept { IfOk result (λ keeper. (entries : List EntryOf) × (text : List ℕ)
            × IsNextBatch origins.now self.chain entries text × (keeper.chain ≡ chain_after self.chain entries)
            × (kept_entries keeper.chain keeper.front ≡ kept_entries self.chain self.front ++ entries)
            × (K.is_honest (K.place keeper.sink) → K.kept keeper.sink ≡ K.kept self.sink ++ text)
            × Writes K.is_honest K.moment K.left_since (K.place self.sink) (K.place keeper.sink) (K.kept self.sink) text) }

        // After a failure of the place, a crash also leaves a prefix of a batch.
        ensures before_stopped { IfErr result (λ unkept. IfStopped unkept (λ stopped.
            K.is_honest stopped.place → K.is_honest (K.place self.sink))) }
        ensures stopped { IfErr result (λ unkept. IfStopped unkept (λ stopped. (entries : List EntryOf) × (text : List ℕ)
            × IsNextBatch origins.now self.chain entries text
            × Writes K.is_honest K.moment K.left_since (K.place self.sink) stopped.place (K.kept self.sink) text)) }
        ensures reason { IfErr result (λ unkept. IfStopped unkept (λ stopped. K.is_honest stopped.place
            → HasReason K.failures K.refusals K.shortages (K.kept self.sink) (K.place self.sink) stopped)) }

        // Any other failure returns the keeper, which keeps the same entries as before.
        ensures given_back { IfErr result (λ unkept. IfGivenBack unkept (λ keeper. (keeper.sink ≡ self.sink) × (keeper.chain ≡ self.chain)
            × (kept_entries keeper.chain keeper.front ≡ kept_entries self.chain self.front))) }
    {
        if self
            .take_in(rt, desk, origins.len().min(MOST_TAKEN))
            .is_err()
        {
            return Err(Unkept::Memory(self));
        }
        if self.waiting.is_empty() {
            return Err(Unkept::Missing(self));
        }
        match self.batch(alloc, origins) {
            Err(_) => Err(Unkept::Memory(self)),
            Ok((text, chain, count)) if count > 0 && is_batch(&text) => self.put(
                &text, chain, count,
            ),
            Ok(_) => Err(Unkept::TooLong(self)),
        }
    }
}
