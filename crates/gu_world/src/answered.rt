//! Answers to entered commands.

use gu_terms::Reply;

/// The answer to an entered command: the number of its entry, and its reply.
#[derive(Clone, Copy, Debug, PartialEq, Eq)]
pub struct Answered {
    pub number: u64,
    pub reply: Reply,
}
