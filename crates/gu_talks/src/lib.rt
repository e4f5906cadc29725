//! The exchange of one connection among many: its session and its streams, which wait for nothing, from visit to visit.
#![tactic(auto)]

mod closed_writer;
mod incoming;
mod marks;
mod outgoing;
mod poller;
mod source;
mod talk;
mod visit_clock;

pub use poller::{EndsWriting, Poller, Ready};
pub use talk::{Halves, Talk, TurnBuffer};
