//! The house's reference data: firms, product groups, instruments, accounts, agreements and guarantors.
#![tactic(auto)]

mod accepting;
mod accounts;
mod agreements;
mod error;
mod guarantors;
mod instruments;
mod laws;
mod names;
mod partner;
mod reading;
mod reference;
mod row;
mod table;

pub use accounts::Account;
pub use agreements::Agreement;
pub use error::RefFault;
pub use guarantors::Guarantor;
pub use instruments::Instrument;
pub use laws::one_answer;
pub use partner::Partner;
pub use reference::Reference;
