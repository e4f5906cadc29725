//! Tests of the desk over public calls: one seat after another, lines entered beside a proposal, days of several threads, full books.
#![tactic(auto)]

#[cfg(test)]
mod beside;
#[cfg(test)]
mod boards;
#[cfg(test)]
mod days;
#[cfg(test)]
mod full;
#[cfg(test)]
mod largest;
#[cfg(test)]
mod lone;
#[cfg(test)]
mod memory;
#[cfg(test)]
mod opening;
#[cfg(test)]
mod questions;
#[cfg(test)]
mod reader;
#[cfg(test)]
mod reading;
#[cfg(test)]
mod sample;
#[cfg(test)]
mod seen;
#[cfg(test)]
mod threads;
#[cfg(test)]
mod transcript;
