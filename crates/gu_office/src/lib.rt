//! The ways in to a server for firms and operators: its port, the doors of firms, and the sockets of operators.
#![tactic(auto)]

mod firm_doors;
mod listen_error;
mod listening;

pub use firm_doors::FirmDoors;
pub use listen_error::ListenError;
pub use listening::{Addresses, OperatorSockets};
