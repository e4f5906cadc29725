//! Tests of the exchange with an etcd: addresses, answers however they come in pieces, and connections that stay open or don't.
#![tactic(auto)]

#[cfg(test)]
mod addresses;
#[cfg(test)]
mod answers;
#[cfg(test)]
mod connections;
#[cfg(test)]
mod line;
