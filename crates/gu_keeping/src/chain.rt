//! A summary of a day's entries.

ghost use Rattle.std.specs.Prelude.{◌≡◌, ◌++◌, ◌+◌, ◌<◌, ◌^◌, [], List, IfOk, OnOk};
ghost use Rattle.sha2.specs.Sha256.{sha256};
ghost use Rattle.gu_terms.specs.declared.entry.Entry.{Entry as EntryOf};
ghost use Rattle.gu_keeping.specs.Chains.{IsChainOf, chain_after, empty_chain};
ghost use Rattle.gu_keeping.specs.Making.{AddsToLink, IsLinkOf};
ghost use Rattle.gu_keeping.specs.declared.chain.Chain.{Chain as ChainOf};

use crate::shown::append_shown;
use gu_script::opened_day;
use gu_terms::{Day, Entry};
use sha2::{Digest, Sha256};
use std::alloc::{AllocError, Global};

/// A summary of a day's entries: their number, the day that is open after them, and a digest of what they show, batch by batch. The digest
/// of a batch includes that of the batch before it, so equal digests mean equal answers from the first entry on.
#[derive(Clone, Copy, Debug, PartialEq, Eq)]
pub struct Chain {
    count: usize,
    today: Option<Day>,
    digest: [u8; 32],
}

/// Returns the digest of another digest and a text.
fn digest_of(before: [u8; 32], shown: &[u8]) -> [u8; 32]
    ensures { result ≡ sha256 (before ++ shown.now) }
{
    let mut hasher = Sha256::new();
    hasher.update(before.as_slice());
    hasher.update(shown);
    hasher.finalize()
}

impl Chain {
    /// Returns the chain of a day without entries.
    pub fn new() -> Self
        ensures value { result ≡ empty_chain }
        ensures chain { IsChainOf result [] }
    {
        Chain {
            count: 0,
            today: None,
            digest: [0; 32],
        }
    }

    /// Returns the number of entries.
    pub fn count(&self) -> usize
        ensures { result ≡ self.now.count }
    {
        self.count
    }

    /// Returns the digest of the entries.
    pub(crate) fn digest(&self) -> [u8; 32]
        ensures { result ≡ self.now.digest }
    {
        self.digest
    }
}

/// The most entries for which a batch initially has room.
pub(crate) const MOST_PLANNED: usize = 1_024;

/// The bytes initially allocated in a link for what is shown of each expected entry.
const SHOWN_ROOM: usize = 24;

/// The extra bytes allocated: a reply is appended only if there is room for the longest.
const REPLY_ROOM: usize = 192;

/// One more batch for a chain, while entries are added: it collects what is shown of them, so that one digest is made of it all.
#[derive(Drop)]
pub(crate) struct Link {
    chain: Chain,
    count: usize,
    today: Option<Day>,
    shown: Vec<u8>,
}

impl Link {
    /// Returns a link without entries. It has room for this number of them, of a usual length.
    pub(crate) fn new(alloc: Global, chain: Chain, entries: usize) -> Result<Self, AllocError>
        ensures { IfOk result (λ link. IsLinkOf chain [] link) }
    {
        Ok(Link {
            chain,
            count: chain.count,
            today: chain.today,
            shown: Vec::with_capacity(alloc, entries.min(MOST_PLANNED) * SHOWN_ROOM + REPLY_ROOM)?,
        })
    }

    /// Returns the day that is open after the entries.
    pub(crate) fn today(&self) -> Option<Day>
        ensures { result ≡ self.now.today }
    {
        self.today
    }

    /// Adds an entry. After an error the link is unusable.
    pub(crate) fn add(&mut self, entry: &Entry) -> Result<(), AllocError>
        requires { self.old.count + 1 < 2 ^ 64 }
        ensures { OnOk result (AddsToLink entry.now self.old self.new) }
    {
        let count = self.count + 1;
        append_shown(&mut self.shown, count as u64, entry)?;
        self.count = count;
        self.today = opened_day(entry).or(self.today);
        Ok(())
    }

    /// Returns the chain with the entries as one more batch.
    pub(crate) fn end(&self) -> Chain
        ensures { (chain : ChainOf) (entries : List EntryOf) → IsLinkOf chain entries self.now → result ≡ chain_after chain entries }
    {
        if self.count == self.chain.count {
            return self.chain;
        }
        Chain {
            count: self.count,
            today: self.today,
            digest: digest_of(self.chain.digest, &self.shown),
        }
    }
}
