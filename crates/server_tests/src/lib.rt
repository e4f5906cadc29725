//! Tests of the server: firms that connect to it, and sweepers beside them.
#![tactic(auto)]

#[cfg(test)]
mod acts;
#[cfg(test)]
mod clients;
#[cfg(test)]
mod days;
#[cfg(test)]
mod doings;
#[cfg(test)]
mod doors;
#[cfg(test)]
mod frail_device;
#[cfg(test)]
mod kept_days;
#[cfg(test)]
mod logged_days;
#[cfg(test)]
mod machine;
#[cfg(test)]
mod memory;
#[cfg(test)]
mod opening;
#[cfg(test)]
mod operators;
#[cfg(test)]
mod orders;
#[cfg(test)]
mod served;
#[cfg(test)]
mod visits;
