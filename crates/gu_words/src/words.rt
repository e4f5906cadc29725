//! The words that the program is called with.

ghost use Rattle.std.specs.Prelude.{◌≡◌, ◌∷◌, [], List, ℕ, Err, IfOk, codes, map};
ghost use Rattle.clap.specs.Words.{FailsBy, kind_of, subcommand_rows_of};
ghost use Rattle.clap.specs.declared.error.kind.ErrorKind.TheVariants.{InvalidValue, OutOfMemory, ValueValidation};
ghost use Rattle.gu_words.specs.CommandLine.{has_until_closed, says_until_closed};
ghost use Rattle.gu_words.specs.Misfits.{kind_of_misfit, kinds_of, misfit_of, refusals_of};
ghost use Rattle.gu_words.specs.ProgramWords.{Captures, Checks, IsCounted, IsWithin, Reads, command_in, status_of, wanted_by, wanted_in, wanted_of};

use crate::commands::{
    fix_command, port_command, program, secret_command, serve_command, tell_command,
};
use crate::found::{lines_in, misfit_in, serving_in, word};
use crate::misfit::Misfit;
use crate::serving::Serving;
use crate::status::Status;
use clap::error::ErrorKind;
use clap::{ArgMatches, Command, Error};
use gu_streams::StreamError;
use gu_terms::FirmId;
use std::alloc::{AllocError, Global};
use std::convert::AsStr;
use std::rt::Env;
use std::{env, io};

/// The message for a word that isn't text.
const NOT_TEXT: &str = "invalid UTF-8 was detected in one or more arguments";

/// The message for a word that names no firm.
const NO_FIRM: &str = "invalid value for '<FIRM>': a firm is 1 to 12 of A-Z, 0-9 and -";

/// The message for a word that is no line for a desk.
const NO_LINE: &str =
    "invalid value for '[LINE]...': it is neither a line of a script nor a word of the console";

/// What is said of a word that begins as the address of a log, and is none.
const NO_ADDRESS: &str =
    "invalid value for '--journal <FILE>': a log is etcd://HOST:PORT[,HOST:PORT..]/NAME, with hosts of this machine";

/// What the words ask for.
#[derive(Debug, Drop)]
pub enum Task<'a> {
    /// Trade capture on the sample.
    Capture,
    /// The check of a sheet.
    Check,
    /// One session of the named firm, on the reference in the file at this path, after a script, if one is named.
    Fix {
        firm: &'a str,
        reference: &'a str,
        script: Option<&'a str>,
    },
    /// A script, on the reference in the file at this path.
    Replay {
        reference: &'a str,
    },
    /// A server of firms.
    Serve(Serving<'a>),
    /// Lines for the server whose console or watch is the socket at this path; without any, the lines of standard input.
    Tell {
        path: &'a str,
        lines: Vec<&'a str>,
    },
    /// A secret for the named firm.
    Secret {
        firm: &'a str,
    },
}

/// The commands that name a firm.
#[derive(Clone, Copy, Debug)]
pub enum FirmCommand {
    Fix,
    Secret,
}

/// Returns whether one of some words is `--until-closed`.
fn has_until_closed<S: AsStr>(words: &[S]) -> bool
    ensures { result ≡ has_until_closed (map S.text words.now) }
{
    for word in words {
        if word.as_str() == "--until-closed" {
            return true;
        }
    }
    false
}

/// Returns whether a word after the program's name asks for a server that runs until it is closed.
fn says_until_closed<S: AsStr>(words: &[S]) -> bool
    ensures { result ≡ says_until_closed (map S.text words.now) }
{
    match words {
        [_, after_name @ ..] => has_until_closed(after_name),
        [] => false,
    }
}

/// Returns the refusal of words for this reason, with the command's usage.
fn refusal(mut command: Command<'_>, kind: ErrorKind, why: &str) -> Result<Error, AllocError>
    ensures { IfOk result (λ error. kind_of error ≡ kind) }
{
    let refused = command.error(kind, why);
    drop(command);
    refused
}

/// Returns the refusal of words of `serve` that don't go together.
fn refusal_of(alloc: Global, misfit: Misfit) -> Result<Error, AllocError>
    ensures { IfOk result (λ error. kind_of error ≡ kind_of_misfit misfit) }
{
    let command = serve_command(alloc, true)?.bin_name("giveup serve")?;
    refusal(command, misfit.kind(), misfit.why())
}

/// Returns the refusal of a word that is no port: clap's own.
fn port_refusal(alloc: Global, word: &str) -> Result<Error, AllocError>
    ensures { IfOk result (λ error. kind_of error ≡ ValueValidation) }
{
    let words = ["serve", "--", word];
    match port_command(alloc)?.try_get_matches_from(&words) {
        Err(error) => {
            if error.kind() == ErrorKind::ValueValidation {
                return Ok(error);
            }
            drop(error);
        }
        Ok(matches) => drop(matches),
    }
    refusal_of(alloc, Misfit::NotAPort)
}

/// Returns the refusal of a command whose words don't go together.
fn misfit_refusal(
    alloc: Global,
    matches: &ArgMatches<'_>,
    misfit: Misfit,
) -> Result<Error, AllocError>
    ensures { IfOk result (λ error. kind_of error ≡ kind_of_misfit misfit) }
{
    match (misfit, matches.subcommand()) {
        (Misfit::NotAPort, Some((_, found))) => port_refusal(alloc, word(found, "PORT")),
        _ => refusal_of(alloc, misfit),
    }
}

/// Returns why the words of a command don't go together, if they don't.
fn misfit_of(matches: &ArgMatches<'_>) -> Option<Misfit>
    ensures { IsCounted (subcommand_rows_of matches.now) → result ≡ misfit_of (subcommand_rows_of matches.now) }
{
    match matches.subcommand() {
        Some(("serve", found)) => misfit_in(found),
        _ => None,
    }
}

/// Returns the task of a command that was read, whose words go together.
fn task_of<'a>(alloc: Global, matches: &ArgMatches<'a>) -> Result<Task<'a>, AllocError>
    ensures { IsCounted (subcommand_rows_of matches.now) → misfit_of (subcommand_rows_of matches.now) ≡ None
        → IfOk result (λ task. wanted_of task ≡ wanted_in (subcommand_rows_of matches.now)) }
{
    match matches.subcommand() {
        Some(("check", _)) => Ok(Task::Check),
        Some(("fix", found)) => Ok(Task::Fix {
            firm: word(found, "FIRM"),
            reference: word(found, "REF"),
            script: found.get_str("script"),
        }),
        Some(("replay", found)) => Ok(Task::Replay {
            reference: word(found, "REF"),
        }),
        Some(("serve", found)) => Ok(Task::Serve(serving_in(found))),
        Some(("tell", found)) => {
            let lines = lines_in(alloc, found)?;
            Ok(Task::Tell {
                path: word(found, "PATH"),
                lines,
            })
        }
        Some(("secret", found)) => Ok(Task::Secret {
            firm: word(found, "FIRM"),
        }),
        _ => Ok(Task::Capture),
    }
}

/// Returns the task of a command that was read; words that don't go together are refused.
fn fitting_task<'a>(alloc: Global, matches: &ArgMatches<'a>) -> Result<Task<'a>, Error>
    ensures task { IsCounted (subcommand_rows_of matches.now) → IfOk result (λ task. wanted_of task ≡ wanted_in (subcommand_rows_of matches.now)) }
    ensures refused { IsCounted (subcommand_rows_of matches.now) → FailsBy (kinds_of (misfit_of (subcommand_rows_of matches.now))) result }
{
    match misfit_of(matches) {
        Some(misfit) => Err(misfit_refusal(alloc, matches, misfit)?),
        None => Ok(task_of(alloc, matches)?),
    }
}

/// Returns the task that the words ask for. The first word is the program's own name.
pub fn read<'a, S: AsStr>(alloc: Global, words: &'a [S]) -> Result<Task<'a>, Error>
    ensures task { IfOk result (λ task. wanted_of task ≡ wanted_by (map S.text words.now)) }
    ensures refused { FailsBy (refusals_of (map S.text words.now)) result }

    // The numbers of a server are within their ranges, and so is its port, if it has one.
    ensures within { IfOk result (λ task. IsWithin (command_in (map S.text words.now))) }

    // The words of each task.
    ensures capture { (name : List ℕ) → map S.text words.now ≡ name ∷ [] → Reads result Captures }
    ensures check { (name : List ℕ) → map S.text words.now ≡ name ∷ codes "check" ∷ [] → Reads result Checks }
{
    let matches = program(alloc, says_until_closed(words))?.try_get_matches_from(words)?;
    let task = fitting_task(alloc, &matches);
    drop(matches);
    task
}

/// Returns the refusal of a word that names no firm, after a command.
fn firm_refusal(alloc: Global, command: FirmCommand) -> Result<Error, AllocError> {
    let called = match command {
        FirmCommand::Fix => fix_command(alloc)?.bin_name("giveup fix")?,
        FirmCommand::Secret => secret_command(alloc)?.bin_name("giveup secret")?,
    };
    refusal(called, ErrorKind::InvalidValue, NO_FIRM)
}

/// Returns the firm that a command names; a word that is no firm is refused.
pub fn firm_named(alloc: Global, command: FirmCommand, name: &str) -> Result<FirmId, Error>
    ensures { IfOk result (λ firm. firm.name ≡ name.now) }
{
    match FirmId::new(name.as_bytes()) {
        Some(firm) => Ok(firm),
        None => Err(firm_refusal(alloc, command)?),
    }
}

/// Returns the refusal of a word that is no line for a desk.
pub fn line_refusal(alloc: Global) -> Result<Error, AllocError>
    ensures { IfOk result (λ error. kind_of error ≡ InvalidValue) }
{
    let command = tell_command(alloc)?.bin_name("giveup tell")?;
    refusal(command, ErrorKind::InvalidValue, NO_LINE)
}

/// Returns the refusal of a word that begins as the address of a log, and is none.
pub fn address_refusal(alloc: Global) -> Result<Error, AllocError>
    ensures { IfOk result (λ error. kind_of error ≡ InvalidValue) }
{
    let command = serve_command(alloc, false)?.bin_name("giveup serve")?;
    refusal(command, ErrorKind::InvalidValue, NO_ADDRESS)
}

/// Returns the words of this run.
pub fn given<R: Env + Alloc<A = Global>>(rt: &R) -> Result<Vec<String>, Error> {
    let alloc = rt.alloc();
    match env::args(rt) {
        Ok(words) => Ok(words.collect(alloc)?),
        Err(error) if error.kind() == io::ErrorKind::OutOfMemory => Err(Error::from(AllocError)),
        Err(_) => {
            let command = program(alloc, false)?;
            Err(refusal(command, ErrorKind::InvalidValue, NOT_TEXT)?)
        }
    }
}

/// Prints why the words ask for no task, or the help that they ask for, and returns the status.
pub fn answer<R: Print + Eprint>(rt: &R, error: &Error) -> Result<Status, StreamError>
    ensures status { IfOk result (λ status. status ≡ status_of (kind_of error.now)) }
    ensures memory { kind_of error.now ≡ OutOfMemory → result ≡ Err StreamError.Memory }
{
    if error.kind() == ErrorKind::OutOfMemory {
        return Err(StreamError::Memory);
    }
    // If a refusal can't be written, the status alone shows it.
    if error.print(rt).is_err() && !error.use_stderr() {
        return Err(StreamError::Write);
    }
    Ok(if error.use_stderr() {
        Status::Refused
    } else {
        Status::Done
    })
}
