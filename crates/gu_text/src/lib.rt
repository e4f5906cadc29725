//! Texts of the desk: scripts and sweep sheets, which are read; replies, outcomes, rows, sheets and verdicts, which are written.
#![tactic(auto)]

mod command_lines;
mod error;
mod laws;
mod line_feed;
mod lines;
mod listed_cut;
mod listed_key;
mod listed_offers;
mod listed_takes;
mod offer_set;
mod outcomes;
mod replies;
mod reserved;
mod rows;
mod script_forms;
mod script_line;
mod sheet;
mod sheet_line;
mod sheet_parts;
mod sheet_reading;
mod sheet_so_far;
mod sheet_writing;
mod takes_in_order;
pub mod texts;
mod values;
mod verdicts;
mod words;

pub use command_lines::{append_command, append_remark, append_sweep};
pub use error::TextError;
pub use laws::{
    a_line_says_one_thing, a_text_is_one_sheet, a_written_command_is_read_back,
    a_written_sheet_is_read_back, a_written_sheet_says_what_it_is, written_words_are_read_back,
};
pub use line_feed::{is_too_long, split_at_line_feed};
pub use lines::without_return;
pub use outcomes::{append_outcome, outcome_text};
pub use replies::{append_reply, reply_text};
pub use rows::{
    append_interest, append_limit, append_position, append_unknown, interest_text, limit_text,
    position_text,
};
pub use script_line::Line;
pub use sheet::Sheet;
pub use sheet_reading::SheetReading;
pub use sheet_writing::{append_sheet, sheet_text};
pub use verdicts::verdict_text;
