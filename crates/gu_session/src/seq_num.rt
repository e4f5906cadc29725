//! Message sequence numbers.

ghost use Rattle.std.specs.Prelude.{◌≡◌, ◌↔◌, IsSome, IfSome};
ghost use Rattle.gu_session.specs.SeqNums.{IsSeqNum};

use std::marker::Model;

/// The greatest message number.
pub const GREATEST: u64 = 1_000_000_000;

/// A message number (FIX: MsgSeqNum, tag 34): 1 to 1,000,000,000. To a contract it is the number.
#[derive(Clone, Copy, Debug, PartialEq, Eq)]
pub struct SeqNum {
    number: u64,
}

impl Model for SeqNum {
    ghost use Rattle.std.specs.Prelude.{ℕ};
    ghost use Rattle.gu_session.specs.SeqNums.{IsSeqNum};

    ghost Value = { ℕ };

    ghost view = { λ it. it.number };

    ghost invariant = { λ it. IsSeqNum it.number };

    ghost inverse = { λ n. record { number = n } };
}

impl SeqNum {
    /// Returns the message number with this value.
    pub fn new(number: u64) -> Option<Self>
        ensures sound { IsSome result ↔ IsSeqNum number }
        ensures same { IfSome result (λ it. it ≡ number) }
    {
        if 1 <= number && number <= GREATEST {
            Some(SeqNum { number })
        } else {
            None
        }
    }

    /// Returns the number.
    pub fn get(self) -> u64
        ensures number { result ≡ self }
        ensures sound { IsSeqNum self }
    {
        self.number
    }
}
