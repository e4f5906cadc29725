//! A desk that follows the log of another one, and takes its place once that one leads no more.
#![tactic(auto)]

mod attendance;
mod error;
mod follower;
mod following;
mod succession;

pub use attendance::{Attendance, LeadAnswer, Wish};
pub use error::FollowError;
pub use follower::{Follower, Reading};
pub use following::{Followed, follow};
pub use succession::{Challenge, Succession};
