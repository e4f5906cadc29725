//! Workers: each serves many connections of firms over a poller, and waits for none of them alone.
#![tactic(auto)]

mod admission;
mod admitting_house;
mod answers_many;
mod card;
mod error;
mod firms_here;
mod guest;
mod knocker;
mod place;
mod place_list;
mod rounds;
mod shared;
mod slots;
mod stage;
mod timer;
mod worker;

pub use admission::Admission;
pub use answers_many::AnswersMany;
pub use error::WorkerError;
pub use shared::Shared;
pub use timer::{MachineTimer, Now, Timer};
pub use worker::{Round, Worker, WorkerSettings, WorkerTools};
