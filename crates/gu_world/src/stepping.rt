//! Steps, one by one.

ghost use Rattle.std.specs.Prelude.{◌≡◌, List, Option, IfOk, OnErr};
ghost use Rattle.gu_terms.specs.Commands.{MayBeAsked};
ghost use Rattle.gu_world.specs.Looks.{AreTrue, Grows, looks_in, state_in};
ghost use Rattle.gu_world.specs.Steps.{Look, entered, looked, outcome_of};

use crate::answered::Answered;
use crate::held::{Held, Work};
use crate::looks::Looks;
use crate::outcome::Outcome;
use crate::worker::Worker;
use gu_book::{AskError, Book, CommitError, EnterError};
use gu_terms::{Command, Entry, Group, Receipt};
use std::alloc::{AllocError, Global};

/// Enters a command, and returns the outcome.
pub fn enter(book: &mut Book, command: Command) -> Result<Outcome, AllocError>
    ensures may { MayBeAsked command }
    ensures entered { IfOk result (λ outcome. (looks : List (Option Look))
        → (outcome, record { book = book.new; looks = looks }) ≡ entered (record { book = book.old; looks = looks }) command) }
    ensures grows { Grows book.old book.new }
    ensures refused { OnErr result (book.new ≡ book.old) }
{
    match ask(book, &command)? {
        Some(Answered { number, reply }) => {
            let entry = Entry::Asked { command, reply };
            Ok(Outcome::Asked(Receipt { number, entry }))
        }
        None => Ok(Outcome::Full),
    }
}

/// Enters a command, and returns its answer, or None if the book is full.
pub fn ask(book: &mut Book, command: &Command) -> Result<Option<Answered>, AllocError>
    ensures may { MayBeAsked command.now }
    ensures asked { IfOk result (λ answered. (looks : List (Option Look))
        → (outcome_of command.now answered, record { book = book.new; looks = looks }) ≡ entered (record { book = book.old; looks = looks }) command.now) }
    ensures grows { Grows book.old book.new }
    ensures refused { OnErr result (book.new ≡ book.old) }
{
    // Shows the prover: the invariant of a give-up's lines.
    command.rules();
    match book.reply_to(command) {
        Ok(reply) => {
            let number = book.history().len() as u64;
            Ok(Some(Answered { number, reply }))
        }
        Err(EnterError::Full) => Ok(None),
        Err(EnterError::Memory) => Err(AllocError),
    }
}

/// Lets a worker look at a group.
pub fn see(
    book: &Book,
    looks: &mut Looks,
    worker: Worker,
    group: Group,
) -> Result<Outcome, AllocError>
    requires { AreTrue book.now looks.old }
    ensures looked { IfOk result (λ outcome. (outcome, state_in book.now looks.new) ≡ looked (state_in book.now looks.old) worker group) }
    ensures still { AreTrue book.now looks.new }
    ensures refused { OnErr result (looks_in looks.new ≡ looks_in looks.old) }
{
    let view = match book.view(&group) {
        Ok(view) => view,
        Err(AskError::UnknownGroup) => return Ok(Outcome::NoGroup),
        Err(AskError::Memory) => return Err(AllocError),
    };
    looks.make()?;
    let version = view.version();
    let seen = book.history().len() as u64;
    let work = Work::Looking(view);
    looks.put(worker, Held { seen, work });
    Ok(Outcome::Seen(version))
}
