//! What the program does, without its `main`: its words, files and streams joined with the engines, and a day of the server.
#![tactic(auto)]

mod checking;
mod day;
mod day_end;
mod digesting;
mod error;
mod fault;
mod files;
mod fixing;
mod heading;
mod issuing;
mod journal_ending;
mod journal_file;
mod journal_log;
mod journal_name;
mod journal_opening;
mod journal_place;
mod journal_standby;
mod led_day;
mod locking;
mod progress;
mod ready;
mod replaying;
mod running;
mod sample;
mod seeding;
mod serving;
mod telling;

pub use checking::check;
pub use day::Screen;
pub use day_end::end_day;
pub use error::{ConsoleFault, DoorsFault, JournalFault, RunError, SecretsError};
pub use fault::Faults;
pub use fixing::fix;
pub use journal_file::FileLog;
pub use journal_place::{JournalSink, Unended};
pub use locking::Locks;
pub use progress::Told;
pub use replaying::replay;
pub use running::status_of;
pub use sample::{SAMPLE_ROWS, sample_day, sample_reference};
pub use telling::{Telling, are_lines};
