//! An arena of texts.

ghost use Rattle.std.specs.Prelude.{◌≡◌, ◌+◌, ◌++◌, ◌<◌, ◌≤◌, [], length, take, OnOk};
ghost use Rattle.gu_terms.specs.TextStores.{Stored};

use crate::padded::Padded;
use std::alloc::{AllocError, Global};
use std::marker::Model;

/// The extra bytes of room allocated at a time: few enough to be filled soon.
const MORE_ROOM: usize = 1_800;

/// An arena of texts with pre-initialised spare capacity. To a contract it is their bytes and the number of spare bytes.
#[derive(Drop)]
pub struct TextStore {
    bytes: Vec<u8>,
    /// The length of the texts in bytes. Anything after them is spare.
    len: usize,
}

impl Model for TextStore {
    ghost use Rattle.gu_terms.specs.TextStores.{Stored, stored, IsStored};

    ghost Value = { Stored };

    ghost view = { stored };

    ghost invariant = { IsStored };
}

impl TextStore {
    /// Returns an empty arena.
    pub fn new(alloc: Global) -> Self
        ensures { result.bytes ≡ [] }
    {
        TextStore {
            bytes: Vec::new(alloc),
            len: 0,
        }
    }

    /// Returns the length of the texts in bytes.
    pub fn len(&self) -> usize
        ensures { result ≡ length self.now.bytes }
    {
        self.len
    }

    /// Returns the bytes of the texts.
    pub fn get(&self) -> &[u8]
        ensures { result.now ≡ self.now.bytes }
    {
        &self.bytes[..self.len]
    }

    /// Makes room for `more` bytes.
    #[inline(always)]
    pub fn reserve(&mut self, more: usize) -> Result<(), AllocError>
        ensures bytes { self.new.bytes ≡ self.old.bytes }
        ensures room { OnOk result (more ≤ self.new.spare) }
    {
        if more <= self.bytes.len() - self.len {
            return Ok(());
        }
        self.grow(more)
    }

    /// Makes room for `more` bytes, and some extra.
    #[cold]
    fn grow(&mut self, more: usize) -> Result<(), AllocError>
        requires { self.old.spare < more }
        ensures bytes { self.new.bytes ≡ self.old.bytes }
        ensures room { OnOk result (more ≤ self.new.spare) }
    {
        let Some(end) = self.len.checked_add(more) else {
            return Err(AllocError);
        };
        self.bytes.resize(end.saturating_add(MORE_ROOM), 0)
    }

    /// Appends a text: copying `N` bytes is cheaper than copying a varying number.
    #[inline(always)]
    pub fn put<const N: usize>(&mut self, text: &Padded<N>)
        requires { N ≤ self.old.spare }
        ensures bytes { self.new.bytes ≡ self.old.bytes ++ text.now }
        ensures spare { self.old.spare ≤ self.new.spare + N }
    {
        let at = self.len;
        self.bytes[at..at + N].copy_from_slice(text.with_zeros());
        self.len = at + text.len();
    }

    /// Keeps the first `len` bytes. It allocates nothing.
    pub fn truncate(&mut self, len: usize)
        ensures { self.new.bytes ≡ take len self.old.bytes }
    {
        self.len = self.len.min(len);
    }
}
