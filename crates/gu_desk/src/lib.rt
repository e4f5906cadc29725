//! The desk: one book behind a lock, the seats that enter into it, and sweeps that are proposed without holding the lock.
#![tactic(auto)]

mod annals;
mod auditing;
mod copying;
mod desk;
mod error;
mod gate;
mod kept_receipts;
mod ledger;
mod locked_book;
mod origin;
mod packed_receipts;
mod question;
mod seat;
mod sweep_order;

pub use annals::{BlankAnnals, Front};
pub use auditing::{audit, audit_kept};
pub use desk::{Committed, Desk};
pub use error::{AuditFault, CloseFault, SweepError};
pub use gate::{Direct, Gate, SweepPlan};
pub use gu_book::{Answer, AskError, FirmFilter, FirmPlace, SeenError};
pub use kept_receipts::KeptReceipts;
pub use ledger::{EntryLedger, LotLedger};
pub use locked_book::{Entered, LockedBook};
pub use origin::{FirmMessage, Origin};
pub use question::Question;
pub use seat::Seat;
pub use sweep_order::SweepOrder;
