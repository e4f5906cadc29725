//! Tests of an operator's lines at a desk, and of the client that sends them.
#![tactic(auto)]

#[cfg(test)]
mod answers;
#[cfg(test)]
mod bytes;
#[cfg(test)]
mod house;
#[cfg(test)]
mod journals;
#[cfg(test)]
mod memory;
#[cfg(test)]
mod opening;
#[cfg(test)]
mod telling;
#[cfg(test)]
mod transcript;
