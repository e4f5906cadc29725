//! Tests of the lead over a log: taking it, renewing it, and reading the log.
#![tactic(auto)]

#[cfg(test)]
mod claims;
#[cfg(test)]
mod etcd;
#[cfg(test)]
mod logs;
#[cfg(test)]
mod memory;
#[cfg(test)]
mod names;
#[cfg(test)]
mod renewals;
#[cfg(test)]
mod takings;
