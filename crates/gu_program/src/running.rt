//! Runs of the program: what joins its words, files and streams with its engines.

use crate::checking::check;
use crate::day::{Screen, run_serve};
use crate::error::{ConsoleFault, RunError};
use crate::fault::{Fault, Faults, Place};
use crate::files::{reference_at, world_after};
use crate::fixing::fix;
use crate::issuing::run_secret;
use crate::journal_log::{LogPlace, log_named};
use crate::led_day::{lead_day, serve_led};
use crate::locking::Locks;
use crate::progress::Told;
use crate::replaying::replay;
use crate::sample::{sample_day, sample_reference};
use crate::seeding::seed_from;
use crate::telling::{Telling, are_lines};
use clap::Error;
use gu_capture::capture;
use gu_engine::{Connection, SystemClock};
use gu_houses::OverBook;
use gu_script::ScriptError;
use gu_streams::{CountedReads, StreamError};
use gu_terms::FirmId;
use gu_words::{FirmCommand, Serving, Status, Task, answer, firm_named, given, line_refusal, read};
use std::alloc::Global;
use std::io;
use std::io::Write;
use std::net::{Net, TcpListener, TcpStream};
use std::os::fd::AsRawFd;
use std::os::unix::net::UnixStream;
use std::random::RandomSource;
use std::rt::{Clock, Env, Files};
use std::sync::Wait;
use std::thread::Threads;

/// Printed when trade capture begins and its input is typed.
const WAITING: &str =
    "giveup: trade capture waits for FIX messages on standard input; giveup --help shows the other commands";

/// Captures trades on the sample, from standard input to standard output.
fn run_capture<R: Input + Print + RandomSource + Alloc<A = Global>>(
    rt: &R,
) -> Result<Status, Fault<'static>> {
    let alloc = rt.alloc();
    let seed = seed_from(rt)?;
    let reference = sample_reference(alloc).map_err(RunError::from)?;
    let mut reads = CountedReads::new(rt.reader());
    let mut writer = io::writer(rt);
    capture(
        alloc,
        reference,
        sample_day(),
        seed,
        &mut reads,
        &mut writer,
    )?;
    Ok(Status::Done)
}

/// Returns the fault of a text that is read from standard input and answered on standard output.
fn stopped(error: ScriptError) -> Fault<'static> {
    let place = match error {
        ScriptError::Write => Place::Output,
        _ => Place::Input,
    };
    Fault::at(place, RunError::from(error))
}

/// Checks a sheet, from standard input to standard output.
fn run_check<R: Input + Print + RandomSource + Alloc<A = Global>>(
    rt: &R,
) -> Result<Status, Fault<'static>> {
    let seed = seed_from(rt)?;
    let mut reads = CountedReads::new(rt.reader());
    let mut writer = io::writer(rt);
    check(rt.alloc(), seed, &mut reads, &mut writer).map_err(stopped)
}

/// Answers the script on standard input on standard output, over the reference in a file.
fn run_replay<'a, R: Input + Print + Files + RandomSource + Alloc<A = Global>, T: Write + Drop>(
    rt: &R,
    path: &'a str,
    terminal: Option<T>,
) -> Result<Status, Fault<'a>> {
    let seed = seed_from(rt)?;
    let reference = reference_at(rt, path)?;
    let mut reads = CountedReads::new(Told::new(rt.reader(), terminal));
    let mut writer = io::writer(rt);
    replay(rt.alloc(), reference, seed, &mut reads, &mut writer).map_err(stopped)?;
    Ok(Status::Done)
}

/// Serves one session of a firm over standard input and output, over the reference in a file, after a script, if one is named.
fn run_fix<'a, R: Input + Print + Files + Clock + RandomSource + Alloc<A = Global>>(
    rt: &R,
    firm: FirmId,
    path: &'a str,
    script: Option<&'a str>,
) -> Result<Status, Fault<'a>> {
    let alloc = rt.alloc();
    let seed = seed_from(rt)?;
    let (world, refused) = world_after(rt, reference_at(rt, path)?, script, seed)?;
    drop(refused);
    let house = OverBook::new(world.into_book());
    let firms = Vec::from_slice(alloc, &[firm]).map_err(StreamError::from)?;
    let mut connection = Connection::new(alloc, firms, house, SystemClock::new(rt));
    let mut reads = CountedReads::patient(rt.reader());
    let mut writer = io::writer(rt);
    fix(alloc, &mut connection, &mut reads, &mut writer)?;
    Ok(Status::Done)
}

/// Sends lines to the desk whose socket is at a path: these, or those of standard input.
fn run_tell<'a, R: Input + Print + Net + Alloc<A = Global>>(
    rt: &R,
    path: &'a str,
    lines: &[&str],
) -> Result<Status, Fault<'a>> {
    let place = Place::File(path);
    let stream = match UnixStream::connect(rt, path) {
        Ok(stream) => stream,
        Err(cause) => {
            let error = RunError::Console(ConsoleFault::NotReached);
            return Err(Fault::refused(place, cause, error));
        }
    };
    let mut telling = Telling::new(stream, io::writer(rt));
    let told = if lines.is_empty() {
        telling.tell_input(rt.alloc(), &mut CountedReads::new(rt.reader()))
    } else {
        telling.tell_words(lines)
    };
    drop(telling);
    told.map_err(|error| Fault::at(place_of(path, error), error))
}

/// Returns what is at fault where lines couldn't be sent to the desk at a path.
fn place_of(path: &str, error: RunError) -> Place<'_> {
    match error {
        RunError::Console(_) => Place::File(path),
        RunError::Stream(StreamError::Write) => Place::Output,
        _ => Place::Input,
    }
}

/// Sends lines to a desk if each of them is a valid line; otherwise nothing is sent.
fn run_tell_of<'a, R: Input + Print + Eprint + Net + Alloc<A = Global>>(
    rt: &R,
    path: &'a str,
    lines: &[&str],
) -> Result<Status, Faults<'a>> {
    match are_lines(rt.alloc(), lines) {
        Ok(true) => Ok(run_tell(rt, path, lines)?),
        Ok(false) => match line_refusal(rt.alloc()) {
            Ok(error) => answered(rt, &error),
            Err(_) => Err(Faults::from(Fault::from(StreamError::Memory))),
        },
        Err(_) => Err(Faults::from(Fault::from(StreamError::Memory))),
    }
}

/// Prints what trade capture waits for.
fn say_what_is_waited_for<R: Eprint>(rt: &R) {
    // Where this can't be written, it is lost.
    let _ = eprintln!(rt; "{WAITING}");
}

/// Answers words that ask for no task, and returns the status.
fn answered<'a, R: Print + Eprint>(rt: &R, error: &Error) -> Result<Status, Faults<'a>> {
    match answer(rt, error) {
        Ok(status) => Ok(status),
        Err(error) => Err(Faults::from(Fault::from(error))),
    }
}

/// Serves firms, with the journal of the day in a log that this desk takes the lead over; a standby that finds the day ended, or that an
/// operator ends, is done. Faults are printed on standard error: they name places in words that the log's address and the gate outlive.
fn run_day_in_log<
    R: Print
        + Eprint
        + Files
        + Clock
        + RandomSource
        + Net<Listener = TcpListener, Stream = TcpStream>
        + Threads
        + Wait
        + Sync
        + Alloc<A = Global>,
    T: Write + Send + Drop,
    E: Write + AsRawFd + Send + Drop,
>(rt: &R, serving: &Serving<'_>, log: LogPlace<'_>, screen: Screen<T, E>) -> Status
where
    R::File: Locks + Send,
{
    let is_at_terminal = screen.terminal.is_some();
    match lead_day(rt, serving, log, screen) {
        Ok(Some((gate, day))) => {
            let ended = serve_led(rt, serving, &gate, day);
            status_after(rt, ended, is_at_terminal)
        }
        Ok(None) => Status::Done,
        Err(faults) => status_after(rt, Err(faults), is_at_terminal),
    }
}

/// Serves firms, with the journal of the day in a file or in a log, if it has one.
fn run_day<
    'a,
    R: Print
        + Eprint
        + Files
        + Clock
        + RandomSource
        + Net<Listener = TcpListener, Stream = TcpStream>
        + Threads
        + Wait
        + Sync
        + Alloc<A = Global>,
    T: Write + Send + Drop,
    E: Write + AsRawFd + Send + Drop,
>(rt: &R, serving: &Serving<'a>, screen: Screen<T, E>) -> Result<Status, Faults<'a>>
where
    R::File: Locks + Send,
{
    match log_named(rt.alloc(), serving) {
        Ok(None) => run_serve(rt, serving, screen),
        Ok(Some((journal, address))) => {
            let log = LogPlace {
                journal,
                address: &address,
            };
            Ok(run_day_in_log(rt, serving, log, screen))
        }
        Err(error) => {
            drop(screen);
            answered(rt, &error)
        }
    }
}

/// Does what these words ask for. If its input is typed, trade capture prints what it waits for.
fn perform<
    'a,
    R: Input
        + Print
        + Eprint
        + Files
        + Clock
        + RandomSource
        + Net<Listener = TcpListener, Stream = TcpStream>
        + Threads
        + Wait
        + Sync
        + Alloc<A = Global>,
    T: Write + Send + Drop,
    E: Write + AsRawFd + Send + Drop,
>(rt: &R, words: &'a [String], screen: Screen<T, E>) -> Result<Status, Faults<'a>>
where
    R::File: Locks + Send,
{
    match read(rt.alloc(), words) {
        Ok(Task::Capture) => {
            if screen.is_typed && screen.terminal.is_some() {
                say_what_is_waited_for(rt);
            }
            Ok(run_capture(rt)?)
        }
        Ok(Task::Check) => Ok(run_check(rt)?),
        Ok(Task::Replay { reference }) => Ok(run_replay(rt, reference, screen.terminal)?),
        Ok(Task::Serve(serving)) => run_day(rt, &serving, screen),
        Ok(
            Task::Fix {
                firm,
                reference,
                script,
            },
        ) => match firm_named(rt.alloc(), FirmCommand::Fix, firm) {
            Ok(firm) => Ok(run_fix(rt, firm, reference, script)?),
            Err(error) => answered(rt, &error),
        },
        Ok(Task::Secret { firm }) => match firm_named(rt.alloc(), FirmCommand::Secret, firm) {
            Ok(firm) => Ok(run_secret(rt, firm)?),
            Err(error) => answered(rt, &error),
        },
        Ok(Task::Tell { path, lines }) => {
            let told = run_tell_of(rt, path, &lines);
            drop(lines);
            told
        }
        Err(error) => answered(rt, &error),
    }
}

/// Returns the status of a run that ended like this, and prints its faults on standard error.
fn status_after<R: Eprint>(
    rt: &R,
    ended: Result<Status, Faults<'_>>,
    is_at_terminal: bool,
) -> Status {
    match ended {
        Ok(status) => status,
        Err(faults) => {
            faults.tell(rt, is_at_terminal);
            Status::Fault
        }
    }
}

/// Does what the words of this run ask for, and returns its status. Faults are printed on standard error. A terminal, if there is one,
/// shows the progress of a long script, and more about each fault.
pub fn status_of<
    R: Input
        + Print
        + Eprint
        + Env
        + Files
        + Clock
        + RandomSource
        + Net<Listener = TcpListener, Stream = TcpStream>
        + Threads
        + Wait
        + Sync
        + Alloc<A = Global>,
    T: Write + Send + Drop,
    E: Write + AsRawFd + Send + Drop,
>(rt: &R, screen: Screen<T, E>) -> Status
where
    R::File: Locks + Send,
{
    let is_at_terminal = screen.terminal.is_some();
    match given(rt) {
        Ok(words) => {
            let ended = perform(rt, words.as_slice(), screen);
            status_after(rt, ended, is_at_terminal)
        }
        Err(refused) => {
            let answered = answered(rt, &refused);
            status_after(rt, answered, is_at_terminal)
        }
    }
}
