//! Entries read in place in the history.

ghost use Rattle.std.specs.Prelude.{◌≡◌};
ghost use Rattle.gu_terms.specs.Events.{event_of, takes_of};
ghost use Rattle.gu_terms.specs.PackedEntries.{entry_of, IsWithin};

use crate::entry_event::EntryEvent;
use crate::packed::Packed;
use crate::takes::Take;
use std::marker::Model;

/// A reference to an entry in the history: reading it copies nothing and allocates nothing. To a contract it is the entry.
#[derive(Drop)]
pub struct EntryRef<'a> {
    kept: &'a Packed,
    texts: &'a [u8],
}

impl<'a> Model for EntryRef<'a> {
    ghost use Rattle.gu_terms.specs.PackedEntries.{entry_of, IsWithin};
    ghost use Rattle.gu_terms.specs.declared.entry.Entry.{Entry};

    ghost Value = { Entry };

    ghost view = { λ e. entry_of e.texts.now e.kept.now };

    ghost invariant = { λ e. IsWithin e.texts.now e.kept.now };
}

impl<'a> EntryRef<'a> {
    /// Returns a reference to the entry stored here, with its ids in `texts`.
    pub(crate) fn new(kept: &'a Packed, texts: &'a [u8]) -> Self
        requires { IsWithin texts.now kept.now }
        ensures { result ≡ entry_of texts.now kept.now }
    {
        EntryRef { kept, texts }
    }

    /// Returns what it did that firms get notices of.
    pub fn event(&self) -> EntryEvent
        ensures { result ≡ event_of self.now }
    {
        self.kept.event(self.texts)
    }

    /// Returns the takes of a sweep, and none for any other entry.
    pub fn takes(&self) -> &[Take]
        ensures { result.now ≡ takes_of self.now }
    {
        self.kept.takes(self.texts)
    }
}
