//! Why a line didn't get its whole answer.

use thiserror::Error;

/// Why a line didn't get its whole answer.
#[derive(Debug, Drop, Clone, Copy, PartialEq, Eq, Error)]
pub enum TellError {
    /// The line couldn't be sent.
    #[error("write fault")]
    Send,
    /// The answer couldn't be read.
    #[error("read fault")]
    Read,
    /// The answer couldn't be shown.
    #[error("write fault")]
    Show,
}
