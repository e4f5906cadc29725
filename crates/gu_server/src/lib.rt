//! The server: firms' connections, sweepers and operators at one desk, served by threads.
#![tactic(auto)]

mod attending;
mod cause;
mod closers;
mod closing;
mod counting_gate;
mod crew;
mod day;
mod day_receipts;
mod desk_house;
mod entrance;
mod firm_places;
mod floor;
mod informer;
mod journal_end;
mod keeping;
mod kept_bell;
mod office;
mod origins;
mod service;
mod serving;
mod sweeping;
mod talking;
mod telling;
mod working;

pub use closers::Closers;
pub use closing::{Closed, DayEnd};
pub use day::{DayJournal, Front, Opening, Served, WRITE_WAIT_MS, serve_day};
pub use day_receipts::DayReceipts;
pub use entrance::LetsIn;
pub use journal_end::{JournalEnd, LostBy, LostJournal};
pub use service::Service;
pub use working::SocketCall;
