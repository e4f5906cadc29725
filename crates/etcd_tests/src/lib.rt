//! Tests of the journal in etcd: texts of requests, answers, and days over a model of etcd.
#![tactic(auto)]

#[cfg(test)]
mod answers;
#[cfg(test)]
mod appending;
#[cfg(test)]
mod entries;
#[cfg(test)]
mod etcd;
#[cfg(test)]
mod keys;
#[cfg(test)]
mod memory;
#[cfg(test)]
mod pages;
#[cfg(test)]
mod sinks;
#[cfg(test)]
mod texts;
