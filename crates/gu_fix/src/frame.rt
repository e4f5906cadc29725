//! A whole message that was read.
ghost use Rattle.std.specs.Prelude.{◌≡◌, List, ℕ, IfOk};
ghost use Rattle.gu_fix.specs.WholeMessage.{IsWhole};

use std::alloc::{AllocError, Global};
use std::marker::Model;

/// A whole message. To a contract it is its bytes.
#[derive(Drop)]
pub struct Frame {
    bytes: Vec<u8>,
}

impl Model for Frame {
    ghost Value = { List ℕ };

    ghost view = { λ f. f.bytes.items };

    ghost invariant = { λ f. IsWhole f.bytes.items };
}

impl Frame {
    /// Returns a copy of a whole message.
    pub(crate) fn new(alloc: Global, message: &[u8]) -> Result<Self, AllocError>
        requires { IsWhole message.now }
        ensures { IfOk result (λ f. f ≡ message.now) }
    {
        let bytes = Vec::from_slice(alloc, message)?;
        Ok(Frame { bytes })
    }

    /// Returns the message.
    pub fn bytes(&self) -> &[u8]
        ensures value { result.now ≡ self.now }
        ensures whole { IsWhole self.now }
    {
        &self.bytes
    }

    /// Returns the message's bytes by value.
    pub(crate) fn into_bytes(self) -> Vec<u8>
        ensures value { result.items ≡ self }
        ensures whole { IsWhole self }
    {
        self.bytes
    }
}
