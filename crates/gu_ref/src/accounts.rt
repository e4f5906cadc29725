//! The accounts of a reference.

use crate::table::Named;
use gu_terms::{AccountId, FirmId};

/// An account, and the firm that carries it.
#[derive(Clone, Copy, Debug, PartialEq, Eq)]
pub struct Account {
    pub account: AccountId,
    pub firm: FirmId,
}

impl Named for Account {
    type Name = AccountId;

    ghost name = { λ row. row.account };

    fn name(&self) -> AccountId {
        self.account
    }
}
