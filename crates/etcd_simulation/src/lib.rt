//! Schedules of a log that two desks append to: the product's appender and lease, over a model of etcd, driven by seeds.
#![tactic(auto)]

#[cfg(test)]
mod clocks;
#[cfg(test)]
mod cluster;
#[cfg(test)]
mod desk;
#[cfg(test)]
mod schedules;
#[cfg(test)]
mod ways;
#[cfg(test)]
mod world;
