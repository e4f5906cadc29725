//! Operators of a desk: their lines, the answers to them, and the client that sends them.
#![tactic(auto)]

mod answering;
mod book_asked;
mod client;
mod console;
mod error;
mod line_buffer;
mod office;
mod operator;
mod request;
mod said;
mod sent_answer;
mod status;
mod stretch;
mod sweeping;

pub use book_asked::append_answer;
pub use client::{Told, is_line, tell};
pub use console::Console;
pub use error::TellError;
pub use line_buffer::{LineBuffer, serve_lines};
pub use office::{Office, Places};
pub use operator::Operator;
pub use request::{BookQuestion, Request};
pub use said::Said;
pub use stretch::{StretchLines, next_stretch};
