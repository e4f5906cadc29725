//! The words that the program is called with, and the statuses with which it ends.
#![tactic(auto)]

mod commands;
mod found;
mod misfit;
mod serving;
mod status;
mod version;
mod words;

pub use serving::{Counted, Journal, Serving, Span, UntilClosed};
pub use status::Status;
pub use version::VERSION;
pub use words::{
    FirmCommand, Task, address_refusal, answer, firm_named, given, line_refusal, read,
};
