//! The history: all entries, in order.

ghost use Rattle.std.specs.Prelude.{◌≡◌, ◌+◌, ◌-◌, ◌^◌, ◌<◌, ◌∷◌, [], ◌++◌, ◌≤◌, length, map, slice_get, take, is_some, ◌↔◌, IfOk, IfSome, IsTrue, OnOk, OnErr, Some};
ghost use Rattle.std.specs.Option.{option_map};
ghost use Rattle.gu_terms.specs.Histories.{entry_at, swept_by};
ghost use Rattle.gu_terms.specs.PackedEntries.{end_of_last, entry_by, entry_of, joined, no_texts, reply_by, AreKept, AreShort, AreTextsOf, IsNameOf};

use crate::command::Command;
use crate::entry::Entry;
use crate::entry_ref::EntryRef;
use crate::kept_reply::KeptReply;
use crate::kept_sweep::KeptSweep;
use crate::kept_texts::Given;
use crate::packed::{Body, Packed};
use crate::padded::Padded;
use crate::reply::{Done, Reply};
use crate::text_store::TextStore;
use std::alloc::{AllocError, Global};
use std::marker::Model;

/// The most bytes of texts in a history, or a few more. A further entry gets AllocError; no book has so many.
const MOST_TEXTS: usize = 4_000_000_000;

/// A list of entries, numbered from 1. To a contract it is their list.
pub struct History {
    entries: Vec<Packed>,
    /// The ids and names of all entries, in order.
    texts: TextStore,
    alloc: Global,
}

impl Model for History {
    ghost use Rattle.std.specs.Prelude.{List, map};
    ghost use Rattle.gu_terms.specs.PackedEntries.{entry_of, AreKept};
    ghost use Rattle.gu_terms.specs.declared.entry.Entry.{Entry};

    ghost Value = { List Entry };

    ghost view = { λ h. map (entry_of h.texts.bytes) h.entries.items };

    ghost invariant = { λ h. AreKept h.texts.bytes h.entries.items };
}

// By hand, so that a history's owner drops it with one call.
impl Drop for History {
    fn drop(self) {
        let History {
            entries,
            texts,
            alloc: _,
        } = self;
        drop(entries);
        drop(texts);
    }
}

#[tactic(auto, using(crate::proofs::PackedLemmas::entries_more))]
/// Adds an entry after the others, and its texts after theirs. All allocations come first.
#[inline(always)]
fn add(
    entries: &mut Vec<Packed>,
    all: &mut TextStore,
    texts: &Given<'_>,
    kept: (KeptReply, Body),
) -> Result<(), AllocError>
    requires kept { AreKept all.old.bytes entries.old.items }
    requires room { AreShort texts.now → length (joined texts.now) + length all.old.bytes < 2 ^ 32 }
    requires texts { AreTextsOf texts.now kept.1 }
    requires name { IsNameOf texts.now.reply kept.0 }
    ensures kept { AreKept all.new.bytes entries.new.items }
    ensures added { OnOk result (map (entry_of all.new.bytes) entries.new.items
        ≡ map (entry_of all.old.bytes) entries.old.items ++ entry_by texts.now kept.1 (reply_by texts.now.reply kept.0) ∷ []) }
    ensures refused { OnErr result (map (entry_of all.new.bytes) entries.new.items ≡ map (entry_of all.old.bytes) entries.old.items) }
{
    let span = texts.span(all.len() as u32);
    entries.reserve(1)?;
    texts.append(all)?;
    let (reply, body) = kept;
    entries.push_reserved(Packed { span, reply, body });
    Ok(())
}

/// Returns the position after the last entry's texts.
fn end_of_last(entries: &[Packed]) -> usize
    ensures { result ≡ end_of_last entries.now }
{
    match entries.last() {
        Some(last) => last.end(),
        None => 0,
    }
}

#[tactic(auto, using(crate::proofs::PackedLemmas::kept_fewer, crate::proofs::PackedLemmas::entries_fewer))]
/// Keeps the first `count` entries and their texts.
fn truncate(entries: &mut Vec<Packed>, texts: &mut TextStore, count: usize)
    requires { AreKept texts.old.bytes entries.old.items }
    ensures kept { AreKept texts.new.bytes entries.new.items }
    ensures first { map (entry_of texts.new.bytes) entries.new.items ≡ take count (map (entry_of texts.old.bytes) entries.old.items) }
{
    entries.truncate(count);
    texts.truncate(end_of_last(entries));
}

impl History {
    /// Returns an empty history.
    pub fn new(alloc: Global) -> Self
        ensures { result ≡ [] }
    {
        History {
            entries: Vec::new(alloc),
            texts: TextStore::new(alloc),
            alloc,
        }
    }

    /// Returns the number of entries, which is also the number of the last one.
    pub fn len(&self) -> usize
        ensures { result ≡ length self.now }
    {
        self.entries.len()
    }

    #[tactic(auto, using(crate::proofs::PackedLemmas::entry_there))]
    /// Returns the entry at an index, counted from 0.
    pub fn at(&self, place: usize) -> Result<Entry, AllocError>
        requires { place < length self.now }
        ensures { IfOk result (λ entry. slice_get self.now place ≡ Some entry) }
    {
        self.entries[place].entry(self.alloc, self.texts.get())
    }

    /// Returns the entry with this number. No entry has number 0.
    pub fn entry(&self, number: u64) -> Result<Option<Entry>, AllocError>
        ensures { IfOk result (λ entry. entry ≡ entry_at self.now number) }
    {
        if number == 0 || number > self.entries.len() as u64 {
            return Ok(None);
        }
        Ok(Some(self.at(number as usize - 1)?))
    }

    /// Returns whether the entry with this number is this one, or None if there is no such entry. It allocates nothing.
    pub fn is_entry(&self, number: u64, entry: &Entry) -> Option<bool>
        ensures known { is_some result ≡ is_some (entry_at self.now number) }
        ensures same { IfSome result (λ is. IsTrue is ↔ (entry_at self.now number ≡ Some entry.now)) }
    {
        if number == 0 || number > self.entries.len() as u64 {
            return None;
        }
        Some(self.is_at(number as usize - 1, entry))
    }

    #[tactic(auto, using(crate::proofs::PackedLemmas::entry_there))]
    /// Returns whether the entry at an index is this one.
    fn is_at(&self, place: usize, entry: &Entry) -> bool
        requires { place < length self.now }
        ensures { IsTrue result ↔ (slice_get self.now place ≡ Some entry.now) }
    {
        self.entries[place].is_entry(self.texts.get(), entry)
    }

    #[tactic(auto, using(crate::proofs::PackedLemmas::entry_there))]
    /// Returns a reference to the entry at an index, counted from 0. It allocates nothing.
    pub fn show(&self, place: usize) -> EntryRef<'_>
        requires { place < length self.now }
        ensures { slice_get self.now place ≡ Some result }
    {
        EntryRef::new(&self.entries[place], self.texts.get())
    }

    #[tactic(auto, using(crate::proofs::PackedLemmas::entry_there))]
    /// Returns the lots swept by the entry at an index. It allocates nothing.
    pub fn lots_at(&self, place: usize) -> u64
        requires { place < length self.now }
        ensures { option_map swept_by (slice_get self.now place) ≡ Some result }
    {
        self.entries[place].lots_swept()
    }

    /// Adds an entry that has no texts of its own and no reply.
    fn push_alone(&mut self, body: Body) -> Result<(), AllocError>
        requires { AreTextsOf no_texts body }
        ensures added { OnOk result (self.new ≡ self.old ++ entry_by no_texts body (Reply.Accepted Done.Opened) ∷ []) }
        ensures refused { OnErr result (self.new ≡ self.old) }
    {
        let (id, name) = (Padded::new(&[]), Padded::new(&[]));
        let kept = (KeptReply::Opened, body);
        add(
            &mut self.entries,
            &mut self.texts,
            &Given::of(&id, &name),
            kept,
        )
    }

    /// Adds a command with its reply after the others, storing its texts separately.
    #[tactic(auto, using(crate::proofs::PackedLemmas::joined_room))]
    #[inline(never)]
    fn push_named(&mut self, command: &Command, reply: &Reply) -> Result<(), AllocError>
        ensures added { OnOk result (self.new ≡ self.old ++ Entry.Asked command.now reply.now ∷ []) }
        ensures refused { OnErr result (self.new ≡ self.old) }
    {
        let (id, name) = (Padded::new(&[]), Padded::new(&[]));
        if self.texts.len() > MOST_TEXTS {
            return Err(AllocError);
        }
        let (reply, kept) = KeptReply::of(reply, &name);
        let texts = Given {
            reply,
            ..Given::of(&id, &name)
        };
        let (texts, body) = Body::of(self.alloc, command, texts)?;
        add(&mut self.entries, &mut self.texts, &texts, (kept, body))
    }

    /// Adds a command with its reply after the others.
    pub fn push_asked(&mut self, command: &Command, reply: Reply) -> Result<(), AllocError>
        ensures added { OnOk result (self.new ≡ self.old ++ Entry.Asked command.now reply ∷ []) }
        ensures refused { OnErr result (self.new ≡ self.old) }
    {
        // The reply is kept here while its name is read: a local of one call can't have the lifetime of the command's texts.
        self.push_named(command, &reply)
    }

    /// Adds a sweep after the others.
    pub fn push_swept(&mut self, sweep: KeptSweep) -> Result<(), AllocError>
        ensures added { OnOk result (self.new ≡ self.old ++ Entry.Swept sweep ∷ []) }
        ensures refused { OnErr result (self.new ≡ self.old) }
    {
        let sweep = Box::new(self.alloc, sweep)?;
        self.push_alone(Body::Swept(sweep))
    }

    /// Keeps the first `count` entries. It allocates nothing.
    pub fn truncate(&mut self, count: usize)
        ensures { self.new ≡ take count self.old }
    {
        truncate(&mut self.entries, &mut self.texts, count);
    }
}
