//! Tests of a desk that follows a log, over an etcd in memory.
#![tactic(auto)]

#[cfg(test)]
mod etcd;
#[cfg(test)]
mod heirs;
#[cfg(test)]
mod standbys;
