//! Names that the house gives.

ghost use Rattle.std.specs.Prelude.{◌≡◌, ◌↔◌, ◌+◌, ◌≤◌, ◌∷◌, [], IsSome, IfSome, take, drop};
ghost use Rattle.std.specs.Cmp.{partial_equiv_from_equiv};
ghost use Rattle.std.specs.Cmp.Rules.{hashing};
ghost use Rattle.std.specs.Int.{w32, from_le_bytes};
ghost use Rattle.std.specs.Str.{bytes_eq};
ghost use Rattle.std.proofs.lemmas.Cmp.{nat_list_eq_equiv};
ghost use Rattle.std.proofs.Common.{rules};
ghost use Rattle.gu_terms.specs.Names.{IsName, is_name_byte};
ghost use Rattle.gu_terms.specs.Padded.{padded};

use crate::padded::Padded;
use std::hash::{Hash, Hasher};
use std::marker::Model;

/// The most bytes in a name.
pub(crate) const LONGEST_NAME: usize = 12;

/// A name of 1 to 12 bytes, each A-Z, 0-9 or `-`. To a contract it is these bytes.
#[derive(Clone, Copy, Debug)]
pub struct Name {
    text: Padded<LONGEST_NAME>,
}

impl Model for Name {
    ghost use Rattle.std.specs.Prelude.{ℕ, List};

    ghost Value = { List ℕ };

    ghost use Rattle.gu_terms.specs.Names.{IsName};

    ghost view = { λ it. it.text };

    ghost invariant = { λ it. IsName it.text };

    ghost inverse = { λ text. record { text = text } };
}

/// Returns whether a name may have this byte.
fn is_name_byte(byte: u8) -> bool
    ensures { result ≡ is_name_byte byte }
{
    if byte >= b'A' {
        byte <= b'Z'
    } else {
        byte.is_ascii_digit() || byte == b'-'
    }
}

/// Returns the four bytes at `place` as one number.
fn four_at(bytes: &[u8; LONGEST_NAME], place: usize) -> u32
    requires { place + 4 ≤ 12 }
    ensures { result ≡ from_le_bytes w32 (take 4 (drop place bytes.now)) }
{
    u32::from_le_bytes([
        bytes[place],
        bytes[place + 1],
        bytes[place + 2],
        bytes[place + 3],
    ])
}

/// Returns whether two runs of twelve bytes are equal, comparing four at a time.
fn are_same(left: &[u8; LONGEST_NAME], right: &[u8; LONGEST_NAME]) -> bool
    ensures { result ≡ bytes_eq left.now right.now }
{
    four_at(left, 0) == four_at(right, 0)
        && four_at(left, 4) == four_at(right, 4)
        && four_at(left, 8) == four_at(right, 8)
}

impl PartialEq for Name {
    ghost eq = { bytes_eq };

    ghost laws = { partial_equiv_from_equiv nat_list_eq_equiv };

    fn eq(&self, other: &Self) -> bool {
        self.text.len() == other.text.len()
            && are_same(self.text.with_zeros(), other.text.with_zeros())
    }
}

impl Eq for Name {
    ghost laws = { nat_list_eq_equiv };
}

// One write of twelve bytes is short code; a hash of a varying number of bytes needs a loop.
impl Hash for Name {
    ghost hash_input = { λ name. padded 12 name ∷ [] };

    ghost respects_eq = { Prim.search (hashing, rules) };

    fn hash<H: Hasher>(&self, state: &mut H) {
        state.write(self.text.with_zeros());
    }
}

impl Name {
    /// Returns the name with these bytes.
    pub fn new(bytes: &[u8]) -> Option<Self>
        ensures sound { IsSome result ↔ IsName bytes.now }
        ensures same { IfSome result (λ name. name ≡ bytes.now) }
    {
        if bytes.is_empty() || bytes.len() > LONGEST_NAME {
            return None;
        }
        let mut text = Padded::zeros(bytes.len());
        for place in 0..bytes.len() {
            let byte = bytes[place];
            if !is_name_byte(byte) {
                return None;
            }
            text.put(place, byte);
        }
        Some(Name { text })
    }

    /// Returns the name with these bytes, which are known to be valid.
    pub fn known(bytes: &[u8]) -> Self
        requires { IsName bytes.now }
        ensures { result ≡ bytes.now }
    {
        Name {
            text: Padded::new(bytes),
        }
    }

    /// Returns its bytes.
    pub fn get(&self) -> &[u8]
        ensures bytes { result.now ≡ self.now }
        ensures sound { IsName self.now }
    {
        self.text.get()
    }

    /// Returns its bytes as stored.
    #[inline(always)]
    pub fn padded(&self) -> &Padded<LONGEST_NAME>
        ensures bytes { result.now ≡ self.now }
        ensures sound { IsName self.now }
    {
        &self.text
    }
}
