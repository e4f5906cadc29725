//! Ids that firms give to their own reports and give-ups.

ghost use Rattle.std.specs.Prelude.{◌≡◌, ◌↔◌, IsTrue, IsSome, IfSome};
ghost use Rattle.gu_terms.specs.Names.{IsId, is_id_byte};

use crate::padded::Padded;
use std::marker::Model;

/// The most bytes in an id.
pub(crate) const LONGEST_ID: usize = 64;

/// An id of 1 to 64 bytes of printable ASCII other than the space: 0x21 to 0x7E. To a contract it is these bytes.
#[derive(Clone, Copy, Debug, PartialEq, Eq, Hash)]
pub struct Id {
    text: Padded<LONGEST_ID>,
}

impl Model for Id {
    ghost use Rattle.std.specs.Prelude.{ℕ, List};

    ghost Value = { List ℕ };

    ghost use Rattle.gu_terms.specs.Names.{IsId};

    ghost view = { λ it. it.text };

    ghost invariant = { λ it. IsId it.text };

    ghost inverse = { λ text. record { text = text } };
}

/// Returns whether an id may have this byte.
fn is_id_byte(byte: u8) -> bool
    ensures { result ≡ is_id_byte byte }
{
    matches!(byte, 0x21..=0x7E)
}

impl Id {
    /// Returns the id with these bytes.
    pub fn new(bytes: &[u8]) -> Option<Self>
        ensures sound { IsSome result ↔ IsId bytes.now }
        ensures same { IfSome result (λ id. id ≡ bytes.now) }
    {
        if bytes.is_empty() || bytes.len() > LONGEST_ID {
            return None;
        }
        let mut text = Padded::zeros(bytes.len());
        for place in 0..bytes.len() {
            let byte = bytes[place];
            if !is_id_byte(byte) {
                return None;
            }
            text.put(place, byte);
        }
        Some(Id { text })
    }

    /// Returns the id with these bytes, which are known to be valid.
    pub fn known(bytes: &[u8]) -> Self
        requires { IsId bytes.now }
        ensures { result ≡ bytes.now }
    {
        Id {
            text: Padded::new(bytes),
        }
    }

    /// Returns its bytes.
    pub fn get(&self) -> &[u8]
        ensures bytes { result.now ≡ self.now }
        ensures sound { IsId self.now }
    {
        self.text.get()
    }

    /// Returns its bytes as stored.
    #[inline(always)]
    pub fn padded(&self) -> &Padded<LONGEST_ID>
        ensures bytes { result.now ≡ self.now }
        ensures sound { IsId self.now }
    {
        &self.text
    }

    /// Returns whether these are its bytes.
    pub(crate) fn is_text(&self, text: &[u8]) -> bool
        ensures { IsTrue result ↔ (text.now ≡ self.now) }
    {
        self.get() == text
    }
}
