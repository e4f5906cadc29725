//! Tests of workers over memory: places, notices at once, what is held back, the gate, deadlines, cuts and the close.
#![tactic(auto)]

#[cfg(test)]
mod admissions;
#[cfg(test)]
mod book_house;
#[cfg(test)]
mod books;
#[cfg(test)]
mod bulk;
#[cfg(test)]
mod closings;
#[cfg(test)]
mod crowds;
#[cfg(test)]
mod dials;
#[cfg(test)]
mod failures;
#[cfg(test)]
mod fairness;
#[cfg(test)]
mod floors;
#[cfg(test)]
mod fullness;
#[cfg(test)]
mod gates;
#[cfg(test)]
mod hosts;
#[cfg(test)]
mod keeping;
#[cfg(test)]
mod knocking;
#[cfg(test)]
mod memory;
#[cfg(test)]
mod places;
#[cfg(test)]
mod plays;
#[cfg(test)]
mod steps;
#[cfg(test)]
mod switchboard;
#[cfg(test)]
mod telling;
#[cfg(test)]
mod timing;
#[cfg(test)]
mod watches;
#[cfg(test)]
mod wires;
