//! Tests of the secrets of firms: files that are read, firms that are admitted, secrets that are issued, memory.
#![tactic(auto)]

#[cfg(test)]
mod admitting;
#[cfg(test)]
mod issuing;
#[cfg(test)]
mod memory;
#[cfg(test)]
mod reading;
#[cfg(test)]
mod sample;
