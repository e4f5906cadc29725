//! Keeping a day's text while the day goes on: entries are taken from the desk, written to a sink in batches, and known to be kept.
#![tactic(auto)]

mod batch;
mod chain;
mod checking;
mod comments;
mod error;
mod keeper;
mod laws;
mod opening;
mod shown;

pub use chain::Chain;
pub use checking::check_digests;
pub use comments::resume_text;
pub use error::{DigestFault, Unkept};
pub use keeper::Keeper;
pub use laws::{a_batch_says_its_entries, a_crash_leaves_the_first_entries};
pub use opening::keep_opening;
