//! A day of the server, from the opened port to its last line.

use crate::day_end::end_served;
use crate::fault::{Fault, Faults};
use crate::journal_name::JournalName;
use crate::journal_place::JournalSink;
use crate::locking::Locks;
use crate::ready::{Ready, made_ready, read_files};
use crate::serving::{begin_log, listen, serve};
use gu_lease::{Clocks, Gate};
use gu_log::{EventLog, LogOutput, Logged, Unwaiting, run_logged};
use gu_office::OperatorSockets;
use gu_secrets::Secrets;
use gu_server::Front;
use gu_sockets::Doorway;
use gu_streams::StreamError;
use gu_terms::FirmId;
use gu_words::{Serving, Status};
use gu_world::World;
use std::alloc::Global;
use std::io::{ErrorKind, Write};
use std::net::{Net, TcpListener, TcpStream};
use std::os::fd::AsRawFd;
use std::random::RandomSource;
use std::rt::{Clock, Files};
use std::sync::Wait;
use std::thread::Threads;

/// Listens at the operators' sockets, unless they are open, at the firms' doors and at the port, and gives a new journal its name. If that
/// fails, a new journal is removed.
fn opened<'a, R: Files + Net<Listener = TcpListener, Stream = TcpStream> + Alloc<A = Global>, F>(
    rt: &R,
    serving: &Serving<'a>,
    firms: &[FirmId],
    operators: Option<OperatorSockets>,
    name: Option<&JournalName<'a, F>>,
) -> Result<Front<Doorway>, Fault<'a>> {
    let Some(name) = name else {
        return listen(rt, serving, firms, operators);
    };
    let opened = match listen(rt, serving, firms, operators) {
        Ok(front) => match name.give(rt) {
            Ok(()) => Ok(front),
            Err(fault) => {
                drop(front);
                Err(fault)
            }
        },
        Err(fault) => Err(fault),
    };
    if opened.is_err() {
        name.give_up(rt);
    }
    opened
}

/// Returns the writer of a day's log over standard error, if the day has a log.
pub fn log_writer<'a, R: Net + Alloc<A = Global>, E: Write + AsRawFd + Drop>(
    rt: &R,
    serving: &Serving<'_>,
    stderr: E,
) -> Result<Option<Unwaiting<E>>, Fault<'a>> {
    if !serving.log {
        drop(stderr);
        return Ok(None);
    }
    match Unwaiting::new(rt, rt.alloc(), stderr) {
        Ok(writer) => Ok(Some(writer)),
        Err(error) if error.kind() == ErrorKind::OutOfMemory => {
            Err(Fault::from(StreamError::Memory))
        }
        Err(_) => Err(Fault::from(StreamError::Write)),
    }
}

/// Returns the log of a day with its first lines, and its output.
fn begun_log<'a, R: Clock + Alloc<A = Global>, W: Drop>(
    rt: &R,
    serving: &Serving<'_>,
    world: &World,
    writer: W,
) -> Result<(EventLog, LogOutput<W>), Fault<'a>> {
    let Ok((log, mut reader)) = EventLog::new(rt.alloc()) else {
        return Err(Fault::from(StreamError::Memory));
    };
    match begin_log(rt, &mut reader, serving, world) {
        Ok(()) => Ok((log, LogOutput { reader, writer })),
        Err(_) => Err(Fault::from(StreamError::Memory)),
    }
}

/// A run's terminal and standard error.
#[derive(Drop)]
pub struct Screen<T, E> {
    /// The terminal that shows progress, if there is one.
    pub terminal: Option<T>,
    /// Whether standard input is a terminal.
    pub is_typed: bool,
    /// Where a log is written.
    pub stderr: E,
}

/// What firms and operators of a day meet with: the secrets of firms, if they have any, and the sockets of operators, if they are open
/// already.
#[derive(Drop)]
pub struct Meeting {
    pub secrets: Option<Secrets>,
    pub operators: Option<OperatorSockets>,
}

/// Serves firms on this machine, from a day that is ready to its last line.
pub fn serve_ready<
    'a,
    R: Print
        + Eprint
        + Files
        + Clock
        + Net<Listener = TcpListener, Stream = TcpStream>
        + Threads
        + Wait
        + Sync
        + Alloc<A = Global>,
    T: Write + Send + Drop,
    E: Write + AsRawFd + Send + Drop,
    K: JournalSink + Send,
>(
    rt: &R,
    serving: &Serving<'a>,
    gate: &Gate<Clocks<'_, R>>,
    output: (Option<T>, Option<Unwaiting<E>>),
    ready: Ready<'a, R::File, K>,
    meeting: Meeting,
) -> Result<Status, Faults<'a>>
where
    R::File: Locks + Send,
    K::Place: Send,
{
    let (terminal, writer) = output;
    let Meeting { secrets, operators } = meeting;
    let (name, begun) = ready.into_parts(secrets);
    let firms = begun.world.book().reference().firms();
    let front = match opened(rt, serving, firms, operators, name.as_ref()) {
        Ok(front) => front,
        Err(fault) => {
            drop(begun);
            return Err(Faults::from(fault));
        }
    };
    let path = match &name {
        Some(name) => Some(name.path),
        None => None,
    };
    let Some(writer) = writer else {
        let log = EventLog::silent();
        let served = serve(rt, begun, serving, front, gate, &log, terminal);
        return end_served(rt, served, path, &log);
    };
    drop(terminal);
    let (log, output) = match begun_log(rt, serving, &begun.world, writer) {
        Ok(made) => made,
        Err(fault) => {
            drop(begun);
            drop(front);
            return Err(Faults::from(fault));
        }
    };
    let Logged { done, output } = run_logged(rt, rt.alloc(), &log, output, || {
        serve(rt, begun, serving, front, gate, &log, None::<Vec<u8>>)
    });
    let ended = end_served(rt, done, path, &log);
    if let Some(output) = output {
        drop(output.write(rt, rt.alloc(), &log));
    }
    ended
}

/// Serves firms on this machine, over the reference in a file, after a script, if one is named.
pub fn run_serve<
    'a,
    R: Print
        + Eprint
        + Files
        + Clock
        + RandomSource
        + Net<Listener = TcpListener, Stream = TcpStream>
        + Threads
        + Wait
        + Sync
        + Alloc<A = Global>,
    T: Write + Send + Drop,
    E: Write + AsRawFd + Send + Drop,
>(rt: &R, serving: &Serving<'a>, screen: Screen<T, E>) -> Result<Status, Faults<'a>>
where
    R::File: Locks + Send,
{
    let Screen {
        terminal,
        is_typed: _,
        stderr,
    } = screen;
    let writer = log_writer(rt, serving, stderr)?;
    let (begins, secrets) = read_files(rt, serving)?;
    let ready = made_ready(rt, serving, begins)?;
    let gate = Gate::open();
    let meeting = Meeting {
        secrets,
        operators: None,
    };
    serve_ready(rt, serving, &gate, (terminal, writer), ready, meeting)
}
