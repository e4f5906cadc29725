//! A connection whose first message isn't whole yet.

ghost use Rattle.std.specs.Prelude.{◌≡◌, [], length};

use gu_fix::Intake;
use std::alloc::Global;
use std::marker::Model;

/// A connection whose first message isn't whole yet. To a contract it is the bytes that have come.
#[derive(Drop)]
pub struct Knock {
    pub(crate) said: Vec<u8>,
    pub(crate) intake: Intake,
}

impl Model for Knock {
    ghost use Rattle.std.specs.Prelude.{List, ℕ, []};
    ghost use Rattle.gu_fix.specs.Stream.{LeadsOn};

    ghost Value = { List ℕ };

    ghost view = { λ knock. knock.said.items };

    ghost invariant = { λ knock. LeadsOn knock.said.items [] knock.intake };
}

impl Knock {
    /// Creates it for a connection that has sent nothing yet.
    pub fn new(alloc: Global) -> Self
        ensures { result ≡ [] }
    {
        Knock {
            said: Vec::new(alloc),
            intake: Intake::new(alloc),
        }
    }

    /// Returns how many bytes have come.
    pub fn len(&self) -> usize
        ensures { result ≡ length self.now }
    {
        self.said.len()
    }
}
