//! The exchange with an etcd: its address, and HTTP over a connection that stays open.
#![tactic(auto)]

mod address;
mod connection;
mod endpoint;
mod error;
mod exchange;
mod tcp;

pub use address::Address;
pub use connection::Connection;
pub use endpoint::is_endpoint;
pub use error::AddressError;
pub use exchange::{Connector, HttpExchange};
pub use tcp::{TcpConnector, TimedStream};
