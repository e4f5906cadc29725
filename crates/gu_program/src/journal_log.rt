//! The journal of a day in a log of etcd.

ghost use Rattle.std.specs.Prelude.{◌≡◌, IfOk};
ghost use Rattle.gu_keeping.specs.Chains.{IsChainOf};

use crate::error::JournalFault;
use crate::fault::Fault;
use crate::heading::Heading;
use crate::journal_file::fault_at;
use crate::journal_opening::FoundDay;
use crate::journal_place::{JournalSink, Unended, unkept_fault, with_comments};
use clap::Error;
use gu_etcd::{Appender, Exchange, Gateway, LogSink, Name, NodeError};
use gu_exchange::{Address, AddressError, HttpExchange, TcpConnector};
use gu_journal::{Sink, SinkError, is_batch};
use gu_keeping::keep_opening;
use gu_lead::{Candidate, Lead, LogError, LogText, Taking, draw_name, take_lead};
use gu_lease::{BothClocks, Clocks};
use gu_server::DayJournal;
use gu_streams::StreamError;
use gu_terms::History;
use gu_words::{Journal, Serving, address_refusal};
use std::alloc::{AllocError, Global};
use std::net::Net;
use std::random::RandomSource;
use std::rt::Clock;
use std::sync::Wait;
use std::time::Duration;
use std::{io, thread};

/// How many milliseconds a start tries to reach an etcd that doesn't answer.
pub const PATIENCE_MS: u64 = 30_000;

/// How many milliseconds come between two tries.
const PAUSE_MS: u64 = 500;

/// The last line of the opening of a day.
const OPENED: &str = "# OPENED";

/// The batch with that line.
const OPENED_BATCH: &str = "# OPENED\n";

/// The last batch of a day that is ended.
const CLOSED_BATCH: &str = "# CLOSED\n";

/// The exchange with an etcd, over TCP.
pub type TcpExchange<'a, R> = HttpExchange<TcpConnector<'a, R>>;

/// The log of a journal.
#[derive(Clone, Copy)]
pub struct LogPlace<'a> {
    /// The journal as it was named. If its day is to be resumed, another desk's lease is waited for.
    pub journal: Journal<'a>,
    pub address: &'a Address,
}

/// What a log's address begins with.
const SCHEME: &str = "etcd://";

/// Returns the journal of a server and the address of its log, if it is kept in one. A word that begins as an address and is none is
/// refused, and so is a file for which a desk is to stand by.
pub fn log_named<'a>(
    alloc: Global,
    serving: &Serving<'a>,
) -> Result<Option<(Journal<'a>, Address)>, Error> {
    let Some(journal) = serving.journal else {
        return Ok(None);
    };
    if !journal.path.starts_with(SCHEME) {
        if journal.stands_by {
            return Err(address_refusal(alloc)?);
        }
        return Ok(None);
    }
    match Address::parse(alloc, journal.path.as_bytes()) {
        Ok(address) => Ok(Some((journal, address))),
        Err(AddressError::Memory) => Err(Error::from(AllocError)),
        Err(AddressError::NotAnAddress) => Err(address_refusal(alloc)?),
    }
}

/// A desk that leads a log, the name under which it does, and the clocks by which its lease counts.
#[derive(Drop)]
pub struct Led<'a, R: Net + Clock> {
    pub candidate: Candidate<TcpExchange<'a, R>>,
    pub lead: Lead,
    pub clocks: Clocks<'a, R>,
    pub desk: Name,
    /// Whether it claimed the lead from another desk, which may let answers leave until its own lease has ended.
    pub is_claimed: bool,
}

impl<X: Exchange> JournalSink for LogSink<Gateway<X>> {
    fn cause(_place: &Self::Place) -> Option<io::Error> {
        None
    }

    /// The log then ends with a comment that says so.
    fn end(self) -> Result<(), Unended> {
        let cause = None;
        if !is_batch(CLOSED_BATCH.as_bytes()) {
            drop(self);
            let error = SinkError::Failed;
            return Err(Unended { error, cause });
        }
        match self.append(CLOSED_BATCH.as_bytes()) {
            Ok(sink) => {
                drop(sink);
                Ok(())
            }
            Err(stopped) => {
                let error = stopped.error();
                drop(stopped);
                Err(Unended { error, cause })
            }
        }
    }
}

/// Returns an exchange with the etcd of an address, which isn't connected yet.
fn exchange_with<'a, R: Net + Clock>(rt: &'a R, address: &'a Address) -> TcpExchange<'a, R> {
    HttpExchange::new(TcpConnector::new(rt, address))
}

/// Returns a candidate for the lead over a log, and its name.
pub fn candidate_for<'a, R: Net + Clock + RandomSource + Alloc<A = Global>>(
    rt: &'a R,
    address: &'a Address,
) -> Result<(Candidate<TcpExchange<'a, R>>, Name), Fault<'a>> {
    let alloc = rt.alloc();
    let Some(desk) = draw_name(rt, alloc).map_err(StreamError::from)? else {
        return Err(Fault::from(StreamError::Read));
    };
    let log = address.name.copy(alloc).map_err(StreamError::from)?;
    let own = desk.copy(alloc).map_err(StreamError::from)?;
    let exchange = exchange_with(rt, address);
    Ok((
        Candidate::new(exchange, address.endpoints.len(), log, own),
        desk,
    ))
}

/// Prints on standard error, once, that another desk leads. What can't be written is lost.
fn say_is_led<R: Eprint>(rt: &R, path: &str, is_said: &mut bool) {
    if !*is_said {
        let _ = eprintln!(rt; "giveup: {path}: another desk leads; waiting until its lease ends");
        *is_said = true;
    }
}

/// Returns how many milliseconds the clocks have gone on, or no end of them if they fail.
pub fn passed_ms<R: Clock>(clocks: &Clocks<'_, R>) -> u64 {
    match clocks.now() {
        Some(now) => now.monotonic_ms,
        None => u64::MAX,
    }
}

/// Returns the fault of a log in which no day can begin, since another desk leads it.
fn led_fault<'a, R: Net + Clock + Alloc<A = Global>>(
    rt: &'a R,
    log: LogPlace<'a>,
    desk: Name,
) -> Fault<'a> {
    let path = log.journal.path;
    let mut gateway = match gateway_to(rt, log, &desk) {
        Ok(gateway) => gateway,
        Err(fault) => return fault,
    };
    drop(desk);
    match LogText::read(rt.alloc(), &mut gateway) {
        Ok(found) if found.count == 0 => fault_at(path, JournalFault::Fenced),
        Ok(_) => fault_at(path, JournalFault::NotEmpty),
        Err(error) => unread_fault(path, error),
    }
}

/// Takes the lead over a log. While no etcd answers, it tries for 30 s; if another desk leads and the day is to be
/// resumed, it waits until that one's lease has ended.
pub fn take_log<'a, R: Eprint + Net + Clock + RandomSource + Wait + Alloc<A = Global>>(
    rt: &'a R,
    log: LogPlace<'a>,
) -> Result<Led<'a, R>, Fault<'a>> {
    let Some(clocks) = Clocks::new(rt) else {
        return Err(Fault::from(StreamError::Read));
    };
    let (mut heard_ms, mut is_said) = (0, false);
    for _try in rt.forever() {
        let (mut candidate, desk) = candidate_for(rt, log.address)?;
        match take_lead(rt.alloc(), &mut candidate, &clocks) {
            Ok(Taking::Leads(lead)) => {
                return Ok(Led {
                    candidate,
                    lead,
                    clocks,
                    desk,
                    is_claimed: false,
                });
            }
            Ok(Taking::IsLed(_)) if log.journal.resumes => {
                say_is_led(rt, log.journal.path, &mut is_said);
                heard_ms = passed_ms(&clocks);
            }
            Ok(Taking::IsLed(_)) => return Err(led_fault(rt, log, desk)),
            Err(NodeError::Memory) => return Err(Fault::from(StreamError::Memory)),
            Err(NodeError::Unanswered) => {
                if passed_ms(&clocks).saturating_sub(heard_ms) >= PATIENCE_MS {
                    break;
                }
            }
        }
        thread::sleep(rt, Duration::from_millis(PAUSE_MS));
    }
    Err(fault_at(log.journal.path, JournalFault::Unreachable))
}

/// Returns the fault of a log that can't be read.
fn unread_fault(path: &str, error: LogError) -> Fault<'_> {
    match error {
        LogError::Memory => Fault::from(StreamError::Memory),
        LogError::Unanswered => fault_at(path, JournalFault::Unreachable),
        LogError::Foreign => fault_at(path, JournalFault::Damaged),
    }
}

/// Returns the gateway of a desk to a log.
pub fn gateway_to<'a, R: Net + Clock + Alloc<A = Global>>(
    rt: &'a R,
    log: LogPlace<'a>,
    desk: &Name,
) -> Result<Gateway<TcpExchange<'a, R>>, Fault<'a>> {
    let alloc = rt.alloc();
    let name = log.address.name.copy(alloc).map_err(StreamError::from)?;
    let own = desk.copy(alloc).map_err(StreamError::from)?;
    let exchange = exchange_with(rt, log.address);
    Ok(Gateway::new(exchange, log.address.endpoints.len(), name, own))
}

/// Returns the text of a log that the desk of this name leads, and the sink that goes on with it.
pub fn found_log<'a, X: Exchange>(
    alloc: Global,
    path: &'a str,
    mut gateway: Gateway<X>,
    desk: Name,
) -> Result<FoundDay<LogSink<Gateway<X>>>, Fault<'a>> {
    let LogText { count, text } = match LogText::read(alloc, &mut gateway) {
        Ok(found) => found,
        Err(error) => return Err(unread_fault(path, error)),
    };
    Ok(FoundDay {
        sink: LogSink::new(alloc, Appender::new(gateway, count), desk),
        text,
    })
}

/// Returns whether the text of a log says that the opening of its day is whole.
pub fn is_opened(text: &[u8]) -> bool {
    text.split(|byte| *byte == b'\n')
        .any(|line| line == OPENED.as_bytes())
}

/// Begins the journal of a day in an empty log, with its head and the lines of the entries made before firms are let in, and a comment
/// that says that they are whole.
pub fn begin_in_log<'a, K: JournalSink>(
    alloc: Global,
    path: &'a str,
    sink: K,
    heading: &Heading,
    history: &History,
) -> Result<DayJournal<K>, Fault<'a>>
    ensures { IfOk result (λ journal. IsChainOf journal.chain history.now) }
{
    let text = heading.text(alloc).map_err(StreamError::from)?;
    match keep_opening(alloc, sink, text.as_bytes(), history) {
        Ok((sink, chain)) => Ok(DayJournal {
            sink: with_comments(path, sink, OPENED_BATCH.as_bytes())?,
            chain,
        }),
        Err(unkept) => Err(unkept_fault(path, unkept)),
    }
}
