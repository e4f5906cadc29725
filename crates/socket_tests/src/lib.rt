//! Tests of doors over sockets of this machine: by which way a firm comes in, whose turn it is, and what is at a path.
#![tactic(auto)]

#[cfg(test)]
mod addresses;
#[cfg(test)]
mod callers;
#[cfg(test)]
mod halves;
#[cfg(test)]
mod rooms;
