//! Views of groups, and the checker of cuts.
#![tactic(auto)]

mod board;
mod checker;
mod error;
mod keyed_offers;
mod laws;
mod making;
mod members;
mod nesting;
mod place_lists;
mod shared_lists;
mod takes;
mod view;

pub use board::{Board, ViewToken};
pub use checker::check;
pub use error::{CutFault, Unknown, ViewError};
pub use keyed_offers::KeyedOffers;
pub use laws::{
    cut_bounds_takes, nearest_cut_holds_earliest, nearest_cut_is_one,
    oldest_greatest_is_oldest_first, oldest_greatest_is_one,
};
pub use view::{Room, View, ViewOffer};
