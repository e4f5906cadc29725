//! Open offers.

use gu_terms::{Offer, OfferNo};

/// An offer with lots left.
#[derive(Clone, Copy, Debug, PartialEq, Eq)]
pub struct OpenOffer {
    pub number: OfferNo,
    pub offer: Offer,
    /// The lots left of it.
    pub left: u64,
}
