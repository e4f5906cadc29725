//! Tests of the words that all share, of frames and fields, of typed messages, and of sessions.
#![tactic(auto)]

#[cfg(test)]
mod answering;
#[cfg(test)]
mod bodies;
#[cfg(test)]
mod closing;
#[cfg(test)]
mod commands;
#[cfg(test)]
mod cut;
#[cfg(test)]
mod encoding;
#[cfg(test)]
mod feed;
#[cfg(test)]
mod fields;
#[cfg(test)]
mod header;
#[cfg(test)]
mod heartbeats;
#[cfg(test)]
mod history;
#[cfg(test)]
mod intake;
#[cfg(test)]
mod logons;
#[cfg(test)]
mod memory;
#[cfg(test)]
mod messages;
#[cfg(test)]
mod names;
#[cfg(test)]
mod numbers;
#[cfg(test)]
mod reading;
#[cfg(test)]
mod receipts;
#[cfg(test)]
mod rejects;
#[cfg(test)]
mod reports;
#[cfg(test)]
mod requests;
#[cfg(test)]
mod resends;
#[cfg(test)]
mod rows;
#[cfg(test)]
mod session;
#[cfg(test)]
mod tables;
#[cfg(test)]
mod takes;
#[cfg(test)]
mod talk;
#[cfg(test)]
mod words;
#[cfg(test)]
mod writing;
