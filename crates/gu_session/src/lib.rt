//! A firm's session with the house: what it receives, what it sends, and what it hands out.
#![tactic(auto)]

mod answer;
mod answers;
mod ask_ref;
mod carrying;
mod content;
mod course;
mod heard;
mod hearing;
mod heartbeat;
mod input;
mod laws;
mod logged_on;
mod logon;
mod messages;
mod orders;
mod output;
mod plan;
mod ready;
mod rejecting;
mod resending;
mod sending;
mod sent_ring;
mod seq_num;
mod sequence;
mod session;
mod state;

pub use ask_ref::AskRef;
pub use input::{Failure, Input, Outcome};
pub use laws::{
    asks_for_the_gap, closed_for_good, keeps_the_last_sent, numbers_go_up_by_one, one_step,
    resends_what_was_sent, serves_what_is_asked,
};
pub use orders::{
    close_is_last, expected_never_falls, hands_out_in_order, nothing_before_the_logon, one_answer,
    references_go_up,
};
pub use output::{Asked, Output, Taken};
pub use plan::BoxedRequest;
pub use session::Session;
