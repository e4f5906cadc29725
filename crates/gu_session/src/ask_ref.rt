//! References from answers to the messages that asked.

ghost use Rattle.std.specs.Prelude.{◌≡◌};

use crate::seq_num::SeqNum;
use std::marker::Model;

/// The reference of a request that a session handed out, by which it is answered. To a contract it is the number of the message that asked.
#[derive(Clone, Copy, Debug, PartialEq, Eq)]
pub struct AskRef {
    number: SeqNum,
}

impl Model for AskRef {
    ghost use Rattle.std.specs.Prelude.{ℕ};

    ghost Value = { ℕ };

    ghost view = { λ it. it.number };

    ghost inverse = { λ n. record { number = n } };
}

impl AskRef {
    /// Returns the reference for the message with this number.
    pub(crate) fn new(number: SeqNum) -> Self
        ensures { result ≡ number }
    {
        AskRef { number }
    }

    /// Returns the number of the message.
    pub fn get(self) -> u64
        ensures { result ≡ self }
    {
        self.number.get()
    }
}
