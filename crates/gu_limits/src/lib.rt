//! Limits: the keys that apply to an agreement's offers, and the lots that may be taken under each.
#![tactic(auto)]

mod error;
mod numbers;
mod paths;
mod table;

pub use error::SetError;
pub use numbers::PathLimits;
pub use paths::{path, path_between, path_by};
pub use table::LimitTable;
