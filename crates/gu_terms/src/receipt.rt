//! Receipts.

ghost use Rattle.std.specs.Prelude.{◌≡◌, IfOk};
ghost use Rattle.gu_terms.specs.Histories.{offered_group};

use crate::command::Command;
use crate::entry::Entry;
use crate::group::Group;
use crate::reply::{Done, Reply};
use std::alloc::AllocError;

/// A receipt: what was entered, and its number in the history.
#[derive(Drop)]
pub struct Receipt {
    pub number: u64,
    pub entry: Entry,
}

impl Receipt {
    /// Returns the product group in which a give-up made offers, if this is the receipt for an accepted one.
    pub fn offered(&self) -> Option<Group>
        ensures { result ≡ offered_group self.now.entry }
    {
        match &self.entry {
            Entry::Asked {
                command: Command::GiveUp(_),
                reply: Reply::Accepted(Done::Offered { group, .. }),
            } => Some(*group),
            _ => None,
        }
    }

    /// Returns a copy.
    pub fn copy(&self) -> Result<Receipt, AllocError>
        ensures { IfOk result (λ receipt. receipt ≡ self.now) }
    {
        let entry = self.entry.copy()?;
        Ok(Receipt {
            number: self.number,
            entry,
        })
    }
}
