//! Operators of a desk that follows a log: what their lines are answered, and the sockets at which they are.
#![tactic(auto)]

mod connection;
mod lead_answer;
mod lookout;
mod onlooker;
mod played;
mod status;

pub use lead_answer::append_lead_answer;
pub use lookout::Lookout;
pub use onlooker::Onlooker;
pub use played::Played;
