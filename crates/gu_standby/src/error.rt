//! Why a log can't be followed any more.

ghost use Rattle.std.specs.Prelude.{◌≡◌};

use gu_lead::LogError;
use gu_script::ScriptError;
use thiserror::Error;

/// Why a log can't be followed any more.
#[derive(Clone, Copy, Debug, PartialEq, Eq, Error)]
pub enum FollowError {
    /// No memory was left.
    #[error("out of memory")]
    Memory,
    /// No answer came for too long.
    #[error("no answer")]
    Unanswered,
    /// One of the log's entries isn't a batch of a desk.
    #[error("not a batch of a desk")]
    Foreign,
    /// A line of the log is none of a script. Its number counts from 1 on.
    #[error("bad line {0}")]
    BadLine(u64),
}

impl From<LogError> for FollowError {
    ghost use Rattle.gu_standby.specs.Errors.{error_of_log};

    ghost from_gives = { λ log error. error ≡ error_of_log log };

    fn from(error: LogError) -> Self {
        match error {
            LogError::Memory => FollowError::Memory,
            LogError::Unanswered => FollowError::Unanswered,
            LogError::Foreign => FollowError::Foreign,
        }
    }
}

impl From<ScriptError> for FollowError {
    ghost use Rattle.gu_standby.specs.Errors.{error_of_script};

    ghost from_gives = { λ script error. error ≡ error_of_script script };

    /// Only memory and bad lines end the playing of a text.
    fn from(error: ScriptError) -> Self {
        match error {
            ScriptError::BadLine(number) => FollowError::BadLine(number),
            ScriptError::Memory | ScriptError::Read | ScriptError::Write => FollowError::Memory,
        }
    }
}
