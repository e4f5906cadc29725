//! The secrets with which firms log on: the rows of a file, which firm they admit, and secrets that are issued.
#![tactic(auto)]

mod digests;
mod error;
mod issuing;
mod laws;
mod row;
mod secrets;
mod splitting;

pub use error::SecretsFault;
pub use issuing::{Issued, issue};
pub use laws::an_issued_secret_admits_its_firm;
pub use row::{SecretRow, firm_named};
pub use secrets::Secrets;
