//! Trade capture without a session: reports in, acknowledgements and positions out.
#![tactic(auto)]

mod capturing;
mod position_lines;

pub use capturing::capture;
