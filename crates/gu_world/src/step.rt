//! Steps.

ghost use Rattle.std.specs.Prelude.{◌≡◌, IfOk};

use crate::worker::Worker;
use gu_terms::{Command, Group};
use std::alloc::AllocError;

/// A step of a firm, the house or a worker.
#[derive(Debug, Drop)]
pub enum Step {
    /// A command is entered.
    Enter(Command),
    /// A worker looks at a group, and sees its view as the book is then.
    See(Worker, Group),
    /// A worker proposes a sweep of the view that it saw.
    Propose(Worker),
    /// A worker commits what it proposed.
    Commit(Worker),
}

impl Step {
    /// Returns a copy.
    pub fn copy(&self) -> Result<Step, AllocError>
        ensures { IfOk result (λ step. step ≡ self.now) }
    {
        match self {
            Step::Enter(command) => Ok(Step::Enter(command.copy()?)),
            Step::See(worker, group) => Ok(Step::See(*worker, *group)),
            Step::Propose(worker) => Ok(Step::Propose(*worker)),
            Step::Commit(worker) => Ok(Step::Commit(*worker)),
        }
    }
}
