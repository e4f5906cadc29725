//! Houses that firms' connections talk to: a separate book, or a seat at the desk.
#![tactic(auto)]

mod at_desk;
mod informs;
mod orders;
mod over_book;
mod seat_receipts;
mod shares;
mod tally;
mod within_shares;

pub use at_desk::{AtDesk, DeskTools};
pub use informs::Informs;
pub use orders::{OpenOrders, Orders};
pub use over_book::OverBook;
pub use seat_receipts::{DeskAccess, SeatReceipts, SeatSweep};
pub use shares::{Part, Quota, Shares};
pub use tally::{Counts, Tally};
pub use within_shares::WithinShares;
