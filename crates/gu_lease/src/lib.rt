//! The lease by which a desk leads, and the gate through which its answers leave: open only while the desk leads.
#![tactic(auto)]

mod clocks;
mod gate;
mod lease;
mod moment;
mod permit;

pub use clocks::{BothClocks, Clocks};
pub use gate::Gate;
pub use lease::Lease;
pub use moment::Moment;
pub use permit::Permit;
