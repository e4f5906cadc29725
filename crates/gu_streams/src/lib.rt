//! Readers with counted reads, and texts written whole or in part.
#![tactic(auto)]

mod counted_reads;
mod error;
mod outlet;
mod sending;
mod source;
mod turn;

pub use counted_reads::{CountedReads, LONGEST_READ, MOST_READS};
pub use error::StreamError;
pub use outlet::{Blocking, NonBlocking, Outlet};
pub use sending::{send, send_some};
pub use turn::Turn;
