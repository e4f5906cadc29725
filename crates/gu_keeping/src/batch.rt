//! A batch while it is made.

ghost use Rattle.std.specs.Prelude.{◌≡◌, ◌+◌, ◌-◌, ◌<◌, ◌≤◌, ◌^◌, ◌++◌, ◌∷◌, [], List, ℕ, Option, Some, length, map, take, false, true, IfOk, OnOk};
ghost use Rattle.std.specs.List.{flat_map};
ghost use Rattle.std.specs.Option.{option_copied};
ghost use Rattle.gu_terms.specs.declared.entry.Entry.{Entry as EntryOf};
ghost use Rattle.gu_text.specs.Texts.{line_of};
ghost use Rattle.gu_desk.specs.declared.origin.Origin.{Origin as OriginOf};
ghost use Rattle.gu_keeping.specs.Batches.{AreEntryRows, AreOriginRows, IsBatchText};
ghost use Rattle.gu_keeping.specs.Chains.{chain_after};
ghost use Rattle.gu_keeping.specs.Making.{AddsEntry, HasNoRoomFor, IsBatchOf};
ghost use Rattle.gu_keeping.specs.declared.chain.Chain.{Chain as ChainOf};

use crate::chain::{Chain, Link, MOST_PLANNED};
use crate::comments::{append_digest, append_origin};
use gu_desk::Origin;
use gu_journal::MAX_BATCH;
use gu_script::append_entry;
use gu_terms::{Day, Entry};
use std::alloc::{AllocError, Global};

/// The most bytes in the lines of a batch. The comment with the digest follows them.
const MOST_LINES: usize = MAX_BATCH - 88;

/// The bytes initially allocated for each entry expected in a batch.
const ENTRY_ROOM: usize = 160;

/// A batch being made: the lines of some entries, and their link in the day's chain.
#[derive(Drop)]
pub(crate) struct Batch {
    alloc: Global,
    text: Vec<u8>,
    link: Link,
}

/// Appends the comment before an entry's lines, if its origin is known.
fn append_comment(output: &mut Vec<u8>, origin: Option<&Origin>) -> Result<(), AllocError>
    ensures { OnOk result ((rows : List (List (List ℕ))) × AreOriginRows (option_copied origin.entry) rows
        × (output.new.items ≡ output.old.items ++ flat_map line_of rows)) }
{
    match origin {
        Some(origin) => append_origin(output, origin),
        None => Ok(()),
    }
}

/// Appends the lines of an entry after its comment, given the day that is open before it.
fn append_lines(
    output: &mut Vec<u8>,
    today: Option<Day>,
    origin: Option<&Origin>,
    entry: &Entry,
) -> Result<(), AllocError>
    ensures { OnOk result ((rows : List (List (List ℕ))) × AreEntryRows today (option_copied origin.entry) entry.now rows
        × (output.new.items ≡ output.old.items ++ flat_map line_of rows)) }
{
    append_comment(output, origin)?;
    append_entry(output, today, entry)
}

impl Batch {
    /// Returns a batch without lines, following a chain. It has room for this number of entries of a usual length.
    pub(crate) fn new(alloc: Global, chain: Chain, entries: usize) -> Result<Self, AllocError>
        ensures { IfOk result (λ batch. IsBatchOf chain [] [] batch) }
    {
        let text = Vec::with_capacity(alloc, entries.min(MOST_PLANNED) * ENTRY_ROOM)?;
        let link = Link::new(alloc, chain, entries)?;
        Ok(Batch { alloc, text, link })
    }

    /// Adds an entry, and returns whether there was room for its lines. After an error the batch is unusable.
    pub(crate) fn add(&mut self, origin: Option<&Origin>, entry: &Entry) -> Result<bool, AllocError>
        requires { self.old.link.count + 1 < 2 ^ 64 }
        ensures added { IfOk result (λ is_added. is_added ≡ true → AddsEntry (option_copied origin.entry) entry.now self.old self.new) }
        ensures unchanged { IfOk result (λ is_added. is_added ≡ false
            → (self.new.text.items ≡ self.old.text.items) × (self.new.link ≡ self.old.link)) }
        ensures full { IfOk result (λ is_added. is_added ≡ false → HasNoRoomFor (option_copied origin.entry) entry.now self.old) }
    {
        let before = self.text.len();
        append_lines(&mut self.text, self.link.today(), origin, entry)?;
        if self.text.len() > MOST_LINES {
            self.text.truncate(before);
            return Ok(false);
        }
        self.link.add(entry)?;
        Ok(true)
    }

    /// Returns a batch of the first of these entries with their origins, as many as it has room for, and their number.
    pub(crate) fn of(
        alloc: Global,
        chain: Chain,
        entries: &[Entry],
        origins: &[Origin],
    ) -> Result<(Self, usize), AllocError>
        requires { chain.count + length entries.now < 2 ^ 64 }
        ensures within { IfOk result (λ made. (made.1 ≤ length entries.now) × (made.1 ≤ length origins.now)) }
        ensures batch { IfOk result (λ made. IsBatchOf chain (map Some (take made.1 origins.now)) (take made.1 entries.now) made.0) }
    {
        let most = entries.len().min(origins.len());
        let mut batch = Batch::new(alloc, chain, most)?;
        for place in 0..most {
            if !batch.add(Some(&origins[place]), &entries[place])? {
                return Ok((batch, place));
            }
        }
        Ok((batch, most))
    }

    /// Ends the batch with its digest, and returns its text and the chain with its entries.
    pub(crate) fn end(self) -> Result<(Vec<u8>, Chain), AllocError>
        ensures { IfOk result (λ made. (chain : ChainOf) (origins : List (Option OriginOf)) (entries : List EntryOf)
            → IsBatchOf chain origins entries self
            → IsBatchText chain origins entries made.0.items × (made.1 ≡ chain_after chain entries)) }
    {
        let Batch {
            alloc,
            mut text,
            link,
        } = self;
        let chain = link.end();
        append_digest(alloc, &mut text, &chain)?;
        Ok((text, chain))
    }
}
