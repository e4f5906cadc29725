//! Short texts stored in place.

ghost use Rattle.std.specs.Prelude.{◌≡◌, ◌+◌, ◌++◌, ◌∷◌, [], ◌<◌, ◌≤◌, length, take, drop, replicate};
ghost use Rattle.std.specs.Str.{bytes_eq};
ghost use Rattle.std.specs.Cmp.{partial_equiv_from_equiv};
ghost use Rattle.std.specs.Cmp.Rules.{hashing};
ghost use Rattle.std.proofs.lemmas.Cmp.{nat_list_eq_equiv};
ghost use Rattle.std.proofs.Common.{rules};
ghost use Rattle.gu_terms.specs.Padded.{padded};

use std::hash::{Hash, Hasher};
use std::marker::Model;

/// A text of at most `N` bytes, padded with zeros. To a contract it is the text.
#[derive(Clone, Copy, Debug)]
pub struct Padded<const N: usize> {
    bytes: [u8; N],
    len: u8,
}

impl<const N: usize> Model for Padded<N> {
    ghost use Rattle.std.specs.Prelude.{ℕ, List, take};

    ghost Value = { List ℕ };

    ghost use Rattle.gu_terms.specs.Padded.{IsPadded, kept, kept-view};

    ghost view = { λ p. take p.len p.bytes };

    ghost invariant = { λ p. IsPadded N p.bytes p.len };

    ghost inverse = { kept N };

    ghost inverse_ok = { kept-view N };
}

impl<const N: usize> Padded<N> {
    /// Returns the text in its stored form.
    pub fn new(text: &[u8]) -> Self
        requires fits { length text.now ≤ N }
        requires short { length text.now < 256 }
        ensures { result ≡ text.now }
    {
        let mut bytes = [0; N];
        bytes[..text.len()].copy_from_slice(text);
        Padded {
            bytes,
            len: text.len() as u8,
        }
    }

    /// Returns a text of `len` zero bytes, to be overwritten with `put`.
    #[inline(always)]
    pub(crate) fn zeros(len: usize) -> Self
        requires fits { len ≤ N }
        requires short { len < 256 }
        ensures { result ≡ replicate len 0 }
    {
        Padded {
            bytes: [0; N],
            len: len as u8,
        }
    }

    /// Overwrites the byte at an index.
    #[inline(always)]
    pub(crate) fn put(&mut self, place: usize, byte: u8)
        requires { place < length self.old }
        ensures { self.new ≡ take place self.old ++ byte ∷ drop (place + 1) self.old }
    {
        self.bytes[place] = byte;
    }

    /// Returns the text followed by `more`.
    pub fn with(&self, more: &[u8]) -> Self
        requires fits { length self.now + length more.now ≤ N }
        requires short { length self.now + length more.now < 256 }
        ensures { result ≡ self.now ++ more.now }
    {
        let len = self.len as usize + more.len();
        let mut bytes = self.bytes;
        let all = &mut bytes[..];
        all[self.len as usize..len].copy_from_slice(more);
        Padded {
            bytes,
            len: len as u8,
        }
    }

    /// Returns its length in bytes.
    pub fn len(&self) -> usize
        ensures { result ≡ length self.now }
    {
        self.len as usize
    }

    /// Returns its length in bytes, which is at most `N`.
    pub(crate) fn size(&self) -> u8
        ensures size { result ≡ length self.now }
        ensures within { length self.now ≤ N }
    {
        self.len
    }

    /// Returns the text padded with zeros: `N` bytes.
    pub fn with_zeros(&self) -> &[u8; N]
        ensures { result.now ≡ padded N self.now }
    {
        &self.bytes
    }

    /// Returns the text.
    pub fn get(&self) -> &[u8]
        ensures { result.now ≡ self.now }
    {
        &self.bytes[..self.len as usize]
    }
}

impl<const N: usize> PartialEq for Padded<N> {
    ghost eq = { bytes_eq };

    ghost laws = { partial_equiv_from_equiv nat_list_eq_equiv };

    fn eq(&self, other: &Self) -> bool {
        self.get() == other.get()
    }
}

impl<const N: usize> Eq for Padded<N> {
    ghost laws = { nat_list_eq_equiv };
}

// Writes the bytes at once: a derived hash feeds the hasher byte by byte.
impl<const N: usize> Hash for Padded<N> {
    ghost hash_input = { λ text. text ∷ [] };

    ghost respects_eq = { Prim.search (hashing, rules) };

    fn hash<H: Hasher>(&self, state: &mut H) {
        state.write(self.get());
    }
}
