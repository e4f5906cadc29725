//! Tests of the operators of a desk that follows a log: their lines, and their sockets.
#![tactic(auto)]

#[cfg(test)]
mod answers;
#[cfg(test)]
mod house;
#[cfg(test)]
mod sockets;
