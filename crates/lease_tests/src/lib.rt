//! Tests of gu_lease.
#![tactic(auto)]

#[cfg(test)]
mod gates;
#[cfg(test)]
mod leases;
