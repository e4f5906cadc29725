//! Readers, writers, clocks and tables for tests: no program uses them.
#![tactic(auto)]

mod devices;
mod moments;
mod rows;
mod talks;
mod terms;

pub use devices::{Sink, Source, shown, wire};
pub use moments::Moments;
pub use rows::{columns, front_told, joined, meant};
pub use talks::Talk;
pub use terms::{AMPLE, Terms};
