//! Offers: the lots given up, how many of them were moved, and how many are left.
#![tactic(auto)]

mod given;
mod groups;
mod kept_rows;
mod offers;
mod open_offer;

pub use offers::Offers;
pub use open_offer::OpenOffer;
