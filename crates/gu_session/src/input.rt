//! Inputs of a session.

use crate::ask_ref::AskRef;
use gu_fix::Frame;
use gu_terms::{Notice, PositionRows, Reply};

/// The reason that nothing was entered.
#[derive(Clone, Copy, Debug)]
pub enum Failure {
    /// An allocation failed.
    Memory,
    /// The book is full.
    Full,
}

/// The outcome of a request that a session handed out.
#[derive(Drop)]
pub enum Outcome {
    /// The reply to a command.
    Replied(Reply),
    /// The positions: None if the account isn't the firm's.
    Positions(Option<PositionRows>),
    /// A command wasn't entered.
    Failed(Failure),
}

/// An input of a session.
#[derive(Drop)]
pub enum Input {
    /// A whole message.
    Frame(Frame),
    /// A notice to the firm.
    Notice(Notice),
    /// The answer to the request with this reference.
    Answer(AskRef, Outcome),
    /// Time has passed.
    Tick,
    /// No more input follows.
    End,
    /// The house is closing.
    Close,
}
