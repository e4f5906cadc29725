//! A connection before there is a session: its first message, and which firm that lets in.
#![tactic(auto)]

mod guard;
mod heard;
mod knock;
mod listening;
mod suspicion;

pub use guard::Guard;
pub use heard::Glance;
pub use listening::{Listened, Listening};
