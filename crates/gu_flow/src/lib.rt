//! The greatest claim sweep of a view, with the cut that proves it.
#![tactic(auto)]

mod allotment;
mod augment;
mod beginning;
mod cutting;
mod heights;
mod layout;
mod maximum;
mod network;
mod oldest;
mod preflow;
mod proposal;
mod residual;
mod rounds;
mod searching;
mod sharing;
mod waiting;
mod ways;

pub use proposal::{Proposal, propose};
