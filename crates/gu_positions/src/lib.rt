//! Positions: the lots that accounts hold in instruments, by side, and the open interest.
#![tactic(auto)]

mod holding;
mod positions;
mod row_no;

pub use positions::Positions;
pub use row_no::RowNo;
