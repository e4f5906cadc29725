//! Tests of the day's text: crashes at each moment of a day, what a batch is, days that go on, memory.
#![tactic(auto)]

#[cfg(test)]
mod batches;
#[cfg(test)]
mod crashes;
#[cfg(test)]
mod days;
#[cfg(test)]
mod digests;
#[cfg(test)]
mod memory;
#[cfg(test)]
mod opening;
#[cfg(test)]
mod resumed;
#[cfg(test)]
mod sample;
#[cfg(test)]
mod tears;
