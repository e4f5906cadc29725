//! The opening of a day: the start of the day's text.

ghost use Rattle.std.specs.Prelude.{◌≡◌, ◌≤◌, ◌<◌, ◌++◌, List, ℕ, length, take, IfErr, IfOk, OnOk};
ghost use mathlib.Core.List.{IsPrefix};
ghost use Rattle.gu_terms.specs.declared.entry.Entry.{Entry as EntryOf};
ghost use Rattle.gu_journal.specs.Text.{IsWholeLines};
ghost use Rattle.gu_keeping.specs.Batches.{IsBatchText};
ghost use Rattle.gu_keeping.specs.Chains.{IsChainOf, chain_after};
ghost use Rattle.gu_keeping.specs.Keeping.{IfGivenBack, IfStopped, IsNextPart, IsOpening, Writes, unknown_origins};
ghost use Rattle.gu_keeping.specs.declared.chain.Chain.{Chain as ChainOf};

use crate::batch::Batch;
use crate::chain::Chain;
use crate::error::Unkept;
use gu_journal::{Sink, is_batch};
use gu_terms::History;
use std::alloc::{AllocError, Global};

/// Appends a text, and returns once it is kept.
fn put<K: Sink>(sink: K, text: &[u8]) -> Result<K, Unkept<K, K::Place>>
    ensures before { IfOk result (λ new. K.is_honest (K.place new) → K.is_honest (K.place sink)) }
    ensures kept { IfOk result (λ new. K.is_honest (K.place new) → K.kept new ≡ K.kept sink ++ text.now) }
    ensures whole { OnOk result (IsWholeLines text.now) }
    ensures whole_stopped { IfErr result (λ unkept. IfStopped unkept (λ stopped. IsWholeLines text.now)) }
    ensures any_moment { IfOk result (λ new.
        Writes K.is_honest K.moment K.left_since (K.place sink) (K.place new) (K.kept sink) text.now) }
    ensures before_stopped { IfErr result (λ unkept. IfStopped unkept (λ stopped.
        K.is_honest stopped.place → K.is_honest (K.place sink))) }
    ensures any_moment_stopped { IfErr result (λ unkept. IfStopped unkept (λ stopped.
        Writes K.is_honest K.moment K.left_since (K.place sink) stopped.place (K.kept sink) text.now)) }
    ensures given_back { IfErr result (λ unkept. IfGivenBack unkept (λ back. back ≡ sink)) }
{
    if !is_batch(text) {
        return Err(Unkept::TooLong(sink));
    }
    match sink.append(text) {
        Ok(sink) => Ok(sink),
        Err(stopped) => Err(Unkept::Failed(stopped)),
    }
}

/// Makes a batch of a history's entries after those of a chain, as many as it has room for. Returns its text and the chain after it.
fn next_batch(
    alloc: Global,
    chain: Chain,
    history: &History,
) -> Result<(Vec<u8>, Chain), AllocError>
    requires { chain.count ≤ length history.now }
    ensures batch { IfOk result (λ made. (entries : List EntryOf) × (made.1 ≡ chain_after chain entries)
        × (take made.1.count history.now ≡ take chain.count history.now ++ entries)
        × IsBatchText chain (unknown_origins entries) entries made.0.items) }
    ensures within { IfOk result (λ made. made.1.count ≤ length history.now) }
{
    let mut batch = Batch::new(alloc, chain, history.len() - chain.count())?;
    for place in chain.count()..history.len() {
        let entry = history.at(place)?;
        if !batch.add(None, &entry)? {
            break;
        }
    }
    batch.end()
}

/// Keeps the next batch of a history's entries after those of a chain. Returns the sink and the chain after it.
fn keep_next<K: Sink>(
    alloc: Global,
    sink: K,
    chain: Chain,
    history: &History,
) -> Result<(K, Chain), Unkept<K, K::Place>>
    requires { chain.count ≤ length history.now }
    ensures before { IfOk result (λ made. K.is_honest (K.place made.0) → K.is_honest (K.place sink)) }
    ensures later { IfOk result (λ made. (chain.count < made.1.count) × (made.1.count ≤ length history.now)) }
    ensures kept { IfOk result (λ made. (entries : List EntryOf) × (text : List ℕ)
        × IsNextPart history.now chain made.1.count entries text × (made.1 ≡ chain_after chain entries)
        × (K.is_honest (K.place made.0) → K.kept made.0 ≡ K.kept sink ++ text)
        × Writes K.is_honest K.moment K.left_since (K.place sink) (K.place made.0) (K.kept sink) text) }
    ensures before_stopped { IfErr result (λ unkept. IfStopped unkept (λ stopped.
        K.is_honest stopped.place → K.is_honest (K.place sink))) }
    ensures stopped { IfErr result (λ unkept. IfStopped unkept (λ stopped.
        (count : ℕ) × (entries : List EntryOf) × (text : List ℕ)
        × IsNextPart history.now chain count entries text
        × Writes K.is_honest K.moment K.left_since (K.place sink) stopped.place (K.kept sink) text)) }
{
    match next_batch(alloc, chain, history) {
        Err(_) => Err(Unkept::Memory(sink)),
        Ok((text, next)) if next.count() > chain.count() => match put(sink, &text) {
            Ok(sink) => Ok((sink, next)),
            Err(unkept) => Err(unkept),
        },
        Ok(_) => Err(Unkept::TooLong(sink)),
    }
}

/// Writes the opening of a day to a sink, and returns once it is kept: a heading of comments, and the lines of a history's entries, in
/// batches. Returns the sink and the chain after these.
pub fn keep_opening<K: Sink>(
    alloc: Global,
    sink: K,
    heading: &[u8],
    history: &History,
) -> Result<(K, Chain), Unkept<K, K::Place>>
    ensures before { IfOk result (λ made. K.is_honest (K.place made.0) → K.is_honest (K.place sink)) }
    ensures chain { IfOk result (λ made. IsChainOf made.1 history.now) }
    ensures kept { IfOk result (λ made. (text : List ℕ) × IsOpening history.now made.1 text
        × (K.is_honest (K.place made.0) → K.kept made.0 ≡ K.kept sink ++ (heading.now ++ text))
        × Writes K.is_honest K.moment K.left_since (K.place sink) (K.place made.0) (K.kept sink) (heading.now ++ text)) }

    // If the sink stops, a crash leaves a prefix of the opening with the first entries.
    ensures before_stopped { IfErr result (λ unkept. IfStopped unkept (λ stopped.
        K.is_honest stopped.place → K.is_honest (K.place sink))) }
    ensures stopped { IfErr result (λ unkept. IfStopped unkept (λ stopped. (first : List EntryOf) × (chain : ChainOf) × (text : List ℕ)
        × IsPrefix first history.now × IsOpening first chain text
        × Writes K.is_honest K.moment K.left_since (K.place sink) stopped.place (K.kept sink) (heading.now ++ text))) }
{
    let mut sink = match put(sink, heading) {
        Ok(sink) => sink,
        Err(unkept) => return Err(unkept),
    };
    let mut chain = Chain::new();
    while chain.count() < history.len() {
        match keep_next(alloc, sink, chain, history) {
            Ok((kept, next)) => {
                sink = kept;
                chain = next;
            }
            Err(unkept) => return Err(unkept),
        }
    }
    Ok((sink, chain))
}
