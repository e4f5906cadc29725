//! A day and its journal: what the lines of a day's text play to, also while it still arrives.
#![tactic(auto)]

mod laws;
mod played_text;
mod playing;

pub use laws::{
    a_journal_is_its_day, what_a_crash_leaves_plays_to_what_was_kept,
    what_is_played_back_says_the_same, what_says_a_day_plays_to_it,
};
pub use played_text::{PlayedDay, PlayedText};
pub use playing::play_day;
