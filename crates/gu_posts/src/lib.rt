//! What workers share with the threads that reach them: who is informed, what is kept, who is connected, who is cut, and how the day ends.
#![tactic(auto)]

mod bell;
mod calling;
mod connection_row;
mod failure;
mod post;
mod posts;

pub use bell::Bell;
pub use calling::{Call, CallSender, calls};
pub use connection_row::{ConnectionRow, ConnectionStatus};
pub use failure::Failure;
pub use post::Post;
pub use posts::{Posts, bit_of};
