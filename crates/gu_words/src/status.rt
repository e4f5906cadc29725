//! How a run ends.

use std::process::ExitCode;

/// How a run ends. What was written before stays written.
#[derive(Clone, Copy, Debug, PartialEq, Eq)]
pub enum Status {
    /// All that was asked for was done.
    Done,
    /// Something failed, or a sheet has a fault.
    Fault,
    /// The words ask for no task that exists.
    Refused,
}

impl From<Status> for ExitCode {
    ghost use Rattle.std.specs.Prelude.{◌≡◌};
    ghost use Rattle.std.specs.Process.{exit_status};
    ghost use Rattle.gu_words.specs.Statuses.{number_of};

    ghost from_gives = { λ status code. exit_status code ≡ number_of status };

    fn from(status: Status) -> ExitCode {
        match status {
            Status::Done => ExitCode::SUCCESS,
            Status::Fault => ExitCode::FAILURE,
            Status::Refused => ExitCode::from(2),
        }
    }
}
