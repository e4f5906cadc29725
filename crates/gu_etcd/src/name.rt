//! Names of logs and of desks.

ghost use Rattle.std.specs.Prelude.{◌≡◌, ◌↔◌, IfOk, IsTrue, MatchOption};
ghost use Rattle.gu_etcd.specs.Keys.{IsName, is_name_byte};

use std::alloc::{AllocError, Global};
use std::marker::Model;

/// The most bytes that a name may have.
pub const MAX_NAME: usize = 64;

/// Returns whether a name may have this byte.
fn is_name_byte(byte: u8) -> bool
    ensures { result ≡ is_name_byte byte }
{
    byte.is_ascii_lowercase()
        || byte.is_ascii_uppercase()
        || byte.is_ascii_digit()
        || byte == b'-'
        || byte == b'_'
        || byte == b'.'
}

/// Returns whether this is a name: letters, digits, `-`, `_` and `.`, one at least and 64 at most.
pub fn is_name(name: &[u8]) -> bool
    ensures { IsTrue result ↔ IsName name.now }
{
    !name.is_empty() && name.len() <= MAX_NAME && name.iter().all(|byte| is_name_byte(*byte))
}

/// The name of a log, or the name under which a desk leads.
#[derive(Drop)]
pub struct Name {
    bytes: Vec<u8>,
}

impl Model for Name {
    ghost use Rattle.std.specs.Prelude.{List, ℕ};
    ghost use Rattle.gu_etcd.specs.Keys.{IsName};

    ghost Value = { List ℕ };

    ghost view = { λ name. name.bytes.items };

    ghost invariant = { λ name. IsName name.bytes.items };
}

impl Name {
    /// Returns the bytes as a name, if they are one.
    pub fn new(bytes: Vec<u8>) -> Option<Name>
        ensures { MatchOption result (¬ IsName bytes.items) (λ name. (name ≡ bytes.items) × IsName bytes.items) }
    {
        if is_name(&bytes) {
            Some(Name { bytes })
        } else {
            None
        }
    }

    /// Returns a copy.
    pub fn copy(&self, alloc: Global) -> Result<Name, AllocError>
        ensures { IfOk result (λ name. name ≡ self.now) }
    {
        Ok(Name {
            bytes: Vec::from_slice(alloc, &self.bytes)?,
        })
    }

    /// Returns its bytes.
    pub fn as_bytes(&self) -> &[u8]
        ensures bytes { result.now ≡ self.now }
        ensures named { IsName self.now }
    {
        &self.bytes
    }
}
