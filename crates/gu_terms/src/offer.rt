//! Offers of lots that are given up.

use crate::account::AccountId;
use crate::firm::FirmId;
use crate::group::Group;
use crate::id::Id;
use crate::lots::Lots;

/// A line of a give-up, as offered to the firm that carries the account.
#[derive(Clone, Copy, Debug, PartialEq, Eq)]
pub struct Offer {
    /// The executing firm, which gives up.
    pub firm: FirmId,
    /// The firm's id for the report that is given up.
    pub report: Id,
    /// The product group of the report's instrument.
    pub group: Group,
    /// The account that is to take the lots up.
    pub account: AccountId,
    pub lots: Lots,
}
