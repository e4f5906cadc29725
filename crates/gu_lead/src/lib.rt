//! The lead over a log in etcd: taken by one desk, and renewed while the desk works; and what the log has.
#![tactic(auto)]

mod beside;
mod candidate;
mod claim;
mod drawing;
mod lead;
mod log_text;
mod taking;

pub use beside::{HeldLead, lead_while};
pub use candidate::Candidate;
pub use claim::Claim;
pub use drawing::draw_name;
pub use lead::{LEASE_SECONDS, Lead, MARGIN_MS, Renewal};
pub use log_text::{LogError, LogText, page_at};
pub use taking::{Taking, take_lead};
