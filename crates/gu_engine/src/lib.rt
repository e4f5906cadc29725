//! The loop of a message engine: a reader, an intake, an answerer and a writer; and a firm's connection as an answerer.
#![tactic(auto)]

mod answerer;
mod backlog;
mod clock;
mod closing;
mod connection;
mod conversation;
mod conversing;
mod counted_intake;
mod event;
mod gate;
mod held;
mod house;
mod laws;
mod running;
mod turned;

pub use answerer::Answerer;
pub use backlog::Backlog;
pub use clock::{Clock, ClockFault, SystemClock};
pub use closing::close;
pub use connection::Connection;
pub use conversation::Conversation;
pub use conversing::converse;
pub use event::Event;
pub use gate::Gate;
pub use house::{Answered, Ask, House};
pub use laws::{cut_turns_go_on, reads_alone, turns_go_on, uncut_turns_are_pieces};
pub use running::{run, turn};
pub use turned::Turned;
