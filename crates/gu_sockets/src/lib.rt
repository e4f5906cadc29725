//! Sockets for workers and for the thread that lets connections in, over epoll.
#![tactic(auto)]

mod caller;
mod door;
mod doors;
mod doorway;
mod firm_ways;
mod listen_fault;
mod listening;
mod poll_bell;
mod socket_halves;
mod socket_poller;
mod socket_stream;

pub use caller::Caller;
pub use doorway::{Doorway, Listeners, OperatorDoor};
pub use listen_fault::ListenFault;
pub use listening::listen_at;
pub use poll_bell::PollBell;
pub use socket_halves::{SocketReader, SocketWriter};
pub use socket_poller::SocketPoller;
pub use socket_stream::SocketStream;
