//! How a connection goes on after an answer.

/// How an operator's connection goes on after an answer.
#[derive(Clone, Copy, Debug, PartialEq, Eq)]
pub enum Said {
    /// The answer is whole: the connection goes on.
    GoesOn,
    /// The day closes. The connection waits for the day's last lines, which end the answer.
    Closes,
}
