//! A day whose journal is in a log that this desk leads.

use crate::day::{Meeting, Screen, log_writer, serve_ready};
use crate::error::JournalFault;
use crate::fault::{Fault, Faults};
use crate::heading::Heading;
use crate::journal_file::fault_at;
use crate::journal_log::{Led, LogPlace, TcpExchange, found_log, gateway_to, is_opened, take_log};
use crate::journal_opening::{ResumedDay, resume_played};
use crate::journal_standby::{follow_fault, stand_by};
use crate::locking::Locks;
use crate::ready::{Begins, Ready, made_ready_in_log, named, read_files};
use crate::serving::listen_for_operators;
use gu_etcd::{Appender, Exchange, Gateway, LogSink, Name};
use gu_lead::{Candidate, HeldLead, LEASE_SECONDS, Lead, lead_while};
use gu_lease::{Clocks, Gate};
use gu_log::Unwaiting;
use gu_lookout::Lookout;
use gu_office::OperatorSockets;
use gu_standby::Follower;
use gu_streams::StreamError;
use gu_words::{Journal, Serving, Status};
use std::alloc::Global;
use std::io::Write;
use std::net::{Net, TcpListener, TcpStream};
use std::os::fd::AsRawFd;
use std::random::RandomSource;
use std::rt::{Clock, Files};
use std::sync::Wait;
use std::thread;
use std::thread::Threads;
use std::time::Duration;

/// Returns the journal that a server names, or one without a name.
fn journal_named<'a>(serving: &Serving<'a>) -> Journal<'a> {
    serving.journal.unwrap_or(Journal {
        path: "",
        resumes: false,
        stands_by: false,
    })
}

/// What a desk that leads a log knows about it.
#[derive(Drop)]
enum LogStart {
    /// It is still to be read.
    Unread(Begins),
    /// It was followed, and all of it was played.
    Followed(Follower, Heading),
}

/// What a desk that leads a log serves from.
#[derive(Drop)]
pub struct LedDay<X: Exchange, T, E> {
    candidate: Candidate<X>,
    lead: Lead,
    desk: Name,
    gateway: Gateway<X>,
    start: LogStart,
    /// Whether the lead was claimed from another desk.
    is_claimed: bool,
    meeting: Meeting,
    output: (Option<T>, Option<Unwaiting<E>>),
}

/// The gate of a desk that leads by a lease.
pub type LeaseGate<'a, R> = Gate<Clocks<'a, R>>;

/// What a desk serves from that leads a log over TCP.
pub type TcpLedDay<'a, R, T, E> = LedDay<TcpExchange<'a, R>, T, E>;

/// A desk that leads, what it knows about its log, and the sockets of operators, if they are open; or none, if the log is that of an ended day
/// or an operator ended the desk.
type Claimed<'a, R> = Option<(Led<'a, R>, LogStart, Option<OperatorSockets>)>;

/// Stands by until the desk leads: by the lease of the desk that leads, or as an operator wishes. Operators are attended to from before the log
/// is read. In an empty log the day begins with the files as they are then.
fn stood_by<'a, R: Files + Clock + RandomSource + Net + Wait + Alloc<A = Global>>(
    rt: &'a R,
    serving: &Serving<'a>,
    log: LogPlace<'a>,
    begins: Begins,
) -> Result<Claimed<'a, R>, Fault<'a>> {
    let Begins {
        seed,
        reference,
        heading,
    } = begins;
    let OperatorSockets { console, watch } = listen_for_operators(rt, serving)?;
    let Ok(mut lookout) = Lookout::new(rt, rt.alloc(), console, watch) else {
        return Err(Fault::from(StreamError::Read));
    };
    let mut follower = Follower::new(rt.alloc(), reference, seed);
    let led = stand_by(rt, log, &mut follower, &mut lookout);
    let (console, watch) = lookout.end();
    let Some(led) = led? else {
        return Ok(None);
    };
    let operators = Some(OperatorSockets { console, watch });
    if follower.count() > 0 {
        let start = LogStart::Followed(follower, heading);
        return Ok(Some((led, start, operators)));
    }
    drop(follower);
    let (begins, secrets) = read_files(rt, serving)?;
    drop(secrets);
    Ok(Some((led, LogStart::Unread(begins), operators)))
}

/// Takes the lead over a log: at once, or, for a desk that stands by, when it has come to lead.
fn claimed<'a, R: Eprint + Files + Clock + RandomSource + Net + Wait + Alloc<A = Global>>(
    rt: &'a R,
    serving: &Serving<'a>,
    log: LogPlace<'a>,
    begins: Begins,
) -> Result<Claimed<'a, R>, Fault<'a>> {
    if log.journal.stands_by {
        return stood_by(rt, serving, log, begins);
    }
    let led = take_log(rt, log)?;
    Ok(Some((led, LogStart::Unread(begins), None)))
}

/// Makes a day ready up to the lead over its log: reads its files, takes the lead, and returns the gate of its lease; or nothing, if a
/// standby finds the day ended, or an operator ends it.
pub fn lead_day<
    'a,
    R: Eprint + Files + Clock + RandomSource + Net + Wait + Alloc<A = Global>,
    T: Write + Send + Drop,
    E: Write + AsRawFd + Send + Drop,
>(
    rt: &'a R,
    serving: &Serving<'a>,
    log: LogPlace<'a>,
    screen: Screen<T, E>,
) -> Result<Option<(LeaseGate<'a, R>, TcpLedDay<'a, R, T, E>)>, Faults<'a>> {
    let Screen {
        terminal,
        is_typed: _,
        stderr,
    } = screen;
    let writer = log_writer(rt, serving, stderr)?;
    let (begins, secrets) = read_files(rt, serving)?;
    let Some((led, start, operators)) = claimed(rt, serving, log, begins)? else {
        return Ok(None);
    };
    let Led {
        candidate,
        lead,
        clocks,
        desk,
        is_claimed,
    } = led;
    let gateway = gateway_to(rt, log, &desk)?;
    let day = LedDay {
        candidate,
        lead,
        desk,
        gateway,
        start,
        is_claimed,
        meeting: Meeting { secrets, operators },
        output: (terminal, writer),
    };
    Ok(Some((Gate::of_lease(clocks, lead.lease), day)))
}

/// Goes on with a day that was followed, in the log of a gateway that the desk of this name leads now.
fn followed_day<'a, F, X: Exchange>(
    alloc: Global,
    path: &'a str,
    desk: (Gateway<X>, Name),
    follower: Follower,
    heading: &Heading,
) -> Result<Ready<'a, F, LogSink<Gateway<X>>>, Fault<'a>> {
    let (gateway, desk) = desk;
    if !is_opened(follower.text()) {
        return Err(fault_at(path, JournalFault::Unopened));
    }
    let is_of_it = heading.is_of(alloc, follower.text());
    if !is_of_it.map_err(StreamError::from)? {
        return Err(fault_at(path, JournalFault::Reference));
    }
    let sink = LogSink::new(alloc, Appender::new(gateway, follower.count()), desk);
    let day = match follower.end() {
        Ok(day) => day,
        Err(error) => return Err(follow_fault(path, error)),
    };
    let resumed = resume_played(alloc, path, sink, day, heading)?;
    let ResumedDay { world, journal } = resumed;
    Ok(named(path, world, journal))
}

/// Serves firms from the day that the log of a gateway has, or that begins there, to its last line. The desk of this name leads the log.
fn serve_log<
    'a,
    R: Print
        + Eprint
        + Files
        + Clock
        + Net<Listener = TcpListener, Stream = TcpStream>
        + Threads
        + Wait
        + Sync
        + Alloc<A = Global>,
    T: Write + Send + Drop,
    E: Write + AsRawFd + Send + Drop,
    X: Exchange + Send,
>(
    rt: &R,
    serving: &Serving<'a>,
    gate: &Gate<Clocks<'_, R>>,
    desk: (Gateway<X>, Name),
    begins: (LogStart, Meeting),
    output: (Option<T>, Option<Unwaiting<E>>),
) -> Result<Status, Faults<'a>>
where
    R::File: Locks + Send,
{
    let alloc = rt.alloc();
    let journal = journal_named(serving);
    let (start, meeting) = begins;
    let ready = match start {
        LogStart::Unread(begins) => {
            let (gateway, desk) = desk;
            let found = found_log(alloc, journal.path, gateway, desk)?;
            made_ready_in_log(rt, serving, journal, found, begins)?
        }
        LogStart::Followed(follower, heading) => {
            followed_day(alloc, journal.path, desk, follower, &heading)?
        }
    };
    serve_ready(rt, serving, gate, output, ready, meeting)
}

/// Waits until no answer can leave the desk any more from which the lead was claimed: until its lease has ended.
fn await_former<R: Clock>(rt: &R) {
    thread::sleep(rt, Duration::from_secs(LEASE_SECONDS));
}

/// Serves firms as `run_serve` does, with the journal of the day in a log of etcd, which this desk leads from before it reads it until the
/// end of the day. Nothing leaves after its lease has ended, nor before that of a desk from which it claimed the lead.
pub fn serve_led<
    'a,
    R: Print
        + Eprint
        + Files
        + Clock
        + Net<Listener = TcpListener, Stream = TcpStream>
        + Threads
        + Wait
        + Sync
        + Alloc<A = Global>,
    T: Write + Send + Drop,
    E: Write + AsRawFd + Send + Drop,
    X: Exchange + Send,
>(
    rt: &'a R,
    serving: &'a Serving<'a>,
    gate: &'a LeaseGate<'a, R>,
    day: LedDay<X, T, E>,
) -> Result<Status, Faults<'a>>
where
    R::File: Locks + Send,
{
    let LedDay {
        candidate,
        lead,
        desk,
        gateway,
        start,
        is_claimed,
        meeting,
        output,
    } = day;
    let held = HeldLead {
        candidate,
        lead,
        gate,
    };
    lead_while(rt, rt.alloc(), held, || {
        if is_claimed {
            await_former(rt);
        }
        serve_log(rt, serving, gate, (gateway, desk), (start, meeting), output)
    })
}
