//! The day's log: what happens, a line an event, by a thread that holds up nobody.
#![tactic(auto)]

mod connection_rows;
mod day_rows;
mod event;
mod fields;
mod log;
mod logged;
mod patience;
mod rows;
mod unwaiting;
mod words;
mod writer;

pub use event::{
    AcceptFault, Beginning, CommittedSweep, EndCause, Event, Listener, LogonFault, Refusal,
    SweepFault, Way,
};
pub use log::{EventLog, LogReader};
pub use logged::{LogOutput, Logged, run_logged};
pub use rows::{LONGEST_LINE, append_beginning, append_line};
pub use unwaiting::Unwaiting;
pub use writer::write_all;
