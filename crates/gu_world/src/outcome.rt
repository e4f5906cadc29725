//! Outcomes.

ghost use Rattle.std.specs.Prelude.{◌≡◌};
ghost use Rattle.gu_world.specs.Runs.{receipt_of};

use gu_terms::Receipt;

/// The outcome of a step.
#[derive(Drop)]
pub enum Outcome {
    /// The command was entered, with its reply.
    Asked(Receipt),
    /// The book has 1,000,000 entries, so nothing was entered.
    Full,
    /// The worker saw its group, which had this version.
    Seen(u64),
    /// The reference has no such group.
    NoGroup,
    /// The worker proposed a sweep of this many lots.
    Proposed(u64),
    /// The sweep was entered.
    Swept(Receipt),
    /// Entries have touched the group since the worker saw it: its version then, and its version now.
    Stale { seen: u64, now: u64 },
    /// The versions are equal, but the view isn't the book's. No step has this outcome.
    Foreign,
    /// The worker had no look to propose for, or no proposal to commit.
    Nothing,
}

impl Outcome {
    /// Returns the receipt of what was entered, if anything was.
    pub fn into_receipt(self) -> Option<Receipt>
        ensures { result ≡ receipt_of self }
    {
        match self {
            Outcome::Asked(receipt) | Outcome::Swept(receipt) => Some(receipt),
            _ => None,
        }
    }
}
