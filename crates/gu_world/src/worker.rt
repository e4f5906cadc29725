//! Workers.

ghost use Rattle.std.specs.Prelude.{◌≡◌, ◌<◌, ◌↔◌, IsSome, IfSome};

use std::marker::Model;

/// The number of workers.
pub const WORKERS: u8 = 64;

/// A worker: 0 to 63. To a contract it is the number.
#[derive(Clone, Copy, Debug, PartialEq, Eq)]
pub struct Worker {
    number: u8,
}

impl Model for Worker {
    ghost use Rattle.std.specs.Prelude.{ℕ, ◌<◌};

    ghost Value = { ℕ };

    ghost view = { λ w. w.number };

    ghost invariant = { λ w. w.number < 64 };

    ghost inverse = { λ n. record { number = n } };
}

impl Worker {
    /// Returns the worker with this number.
    pub fn new(number: u8) -> Option<Self>
        ensures sound { IsSome result ↔ (number < 64) }
        ensures same { IfSome result (λ worker. worker ≡ number) }
    {
        if number < WORKERS {
            Some(Worker::known(number))
        } else {
            None
        }
    }

    /// Returns the worker with a number that is known to be below 64.
    pub fn known(number: u8) -> Self
        requires { number < 64 }
        ensures { result ≡ number }
    {
        Worker { number }
    }

    /// Returns the number.
    pub fn get(self) -> u8
        ensures number { result ≡ self }
        ensures within { self < 64 }
    {
        self.number
    }
}
