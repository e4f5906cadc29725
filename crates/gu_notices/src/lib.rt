//! Notices: what entries send unsolicited, and to which firms.
#![tactic(auto)]

mod firm_filter;
mod log;
mod mailbox;
mod recipients;
mod register;
mod span;
mod walking;

pub use firm_filter::{FirmFilter, FirmPlace};
pub use log::Log;
pub use recipients::{note_recipients, recipients_of};
pub use register::Register;
pub use span::LONGEST_STRETCH;
pub use walking::{notices_of, stretch_of};
