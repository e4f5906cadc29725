//! Scripts: each line is carried out and answered with its text.
#![tactic(auto)]

mod error;
mod journal;
mod laws;
mod line_watcher;
mod playing;
mod questions;
mod refused_lines;
mod script;
mod stepping;

pub use error::ScriptError;
pub use journal::{append_entry, opened_day, write_journal};
pub use laws::{
    a_committed_sweep_prints_a_right_sheet, a_journal_says_its_entries, a_script_is_a_run,
    a_sheet_follows_from_its_view,
};
pub use line_watcher::{LineWatcher, Unwatched};
pub use playing::{play, play_opening};
pub use questions::{answer_interest, answer_limits, answer_position};
pub use refused_lines::{LineRefusal, RefusedLine, RefusedLines};
pub use script::Script;
