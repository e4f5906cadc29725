//! Tests of reference data, limits, trades and the book, through public calls alone.
#![tactic(auto)]

#[cfg(test)]
mod answers;
#[cfg(test)]
mod beginnings;
#[cfg(test)]
mod blame;
#[cfg(test)]
mod claims;
#[cfg(test)]
mod commits;
#[cfg(test)]
mod extents;
#[cfg(test)]
mod files;
#[cfg(test)]
mod give_ups;
#[cfg(test)]
mod histories;
#[cfg(test)]
mod limits;
#[cfg(test)]
mod memory;
#[cfg(test)]
mod notices;
#[cfg(test)]
mod offers;
#[cfg(test)]
mod outcomes;
#[cfg(test)]
mod positions;
#[cfg(test)]
mod questions;
#[cfg(test)]
mod readers;
#[cfg(test)]
mod recipients;
#[cfg(test)]
mod retries;
#[cfg(test)]
mod reversals;
#[cfg(test)]
mod sample;
#[cfg(test)]
mod seeds;
#[cfg(test)]
mod steps;
#[cfg(test)]
mod stretches;
#[cfg(test)]
mod sweeps;
#[cfg(test)]
mod thousands;
#[cfg(test)]
mod trades;
#[cfg(test)]
mod transcript;
#[cfg(test)]
mod views;
#[cfg(test)]
mod words;
