//! Orders to sweepers.

ghost use Rattle.std.specs.Prelude.{◌≡◌, ◌↔◌, IfOk, IfSome, IsSome, Some};
ghost use Rattle.gu_terms.specs.Histories.{offered_group};

use gu_terms::{Group, Receipt};
use std::alloc::AllocError;
use std::marker::Model;

/// An order to sweep the group of an accepted give-up. To a contract it is the give-up's receipt.
#[derive(Drop)]
pub struct SweepOrder {
    receipt: Receipt,
    group: Group,
}

impl Model for SweepOrder {
    ghost use Rattle.std.specs.Prelude.{◌≡◌, Some};
    ghost use Rattle.gu_terms.specs.Histories.{offered_group};
    ghost use Rattle.gu_terms.specs.declared.receipt.Receipt.{Receipt};

    ghost Value = { Receipt };

    ghost view = { λ o. o.receipt };

    ghost invariant = { λ o. offered_group o.receipt.entry ≡ Some o.group };
}

impl SweepOrder {
    /// Returns the order for an accepted give-up, with a copy of its receipt, or None for any other receipt.
    pub fn of(receipt: &Receipt) -> Result<Option<SweepOrder>, AllocError>
        ensures some { IfOk result (λ order. IsSome order ↔ IsSome (offered_group receipt.now.entry)) }
        ensures kept { IfOk result (λ order. IfSome order (λ o. o ≡ receipt.now)) }
    {
        let Some(group) = receipt.offered() else {
            return Ok(None);
        };
        let receipt = receipt.copy()?;
        Ok(Some(SweepOrder { receipt, group }))
    }

    /// Returns the group in the give-up's reply.
    pub fn group(&self) -> Group
        ensures { offered_group self.now.entry ≡ Some result }
    {
        self.group
    }
}
