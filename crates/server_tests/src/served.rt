//! A day that is served, and what is done beside it.

ghost use Rattle.std.specs.Prelude.{◌≡◌, ◌≤◌, IfSome};
ghost use Rattle.std.proofs.Props.{props};
ghost use Rattle.gu_keeping.specs.Chains.{IsChainOf};
ghost use Rattle.gu_terms.specs.Histories.{lots_swept};
ghost use denote.Param.Send.{IsSend, IsSync};

use crate::clients::Client;
use crate::doings::{Doing, There, do_all};
use crate::doors::TestDoor;
use crate::machine::Machine;
use crate::opening::book_after;
use gu_book::Book;
use gu_desk::{EntryLedger, LotLedger};
use gu_journal::{Log, Memory, Sink};
use gu_lease::{BothClocks, Clocks, Gate, Lease};
use gu_log::EventLog;
use gu_server::{Closed, Closers, DayJournal, Front, Opening, Served, Service, serve_day};
use gu_sockets::{Doorway, Listeners};
use gu_streams::StreamError;
use gu_terms::Receipt;
use std::alloc::Global;
use std::marker::Brand;
use std::net::{Net, TcpListener, TcpStream};
use std::os::unix::net::UnixStream;
use std::process::Abort;
use std::rt::Clock;
use std::sync::{Mutex, Wait};
use std::thread;
use std::thread::Threads;

/// How long a day is served.
#[derive(Clone, Copy)]
pub enum Span {
    /// For this many connections.
    Connections(usize),
    /// Until it is closed, with this many connections at once and this many workers.
    UntilClosed(usize, usize),
}

impl Span {
    /// Returns how firms are served so.
    fn service(self, rt: &impl Abort) -> Service
        ensures { result.workers ≤ 60 }
    {
        match self {
            Span::Connections(connections) => {
                assert!(rt; 1 <= connections && connections <= 32);
                Service::of_connections(connections)
            }
            Span::UntilClosed(connections, workers) => {
                assert!(rt; 1 <= connections && connections <= 1_024);
                assert!(rt; 1 <= workers && workers <= 60);
                Service::until_closed(connections, workers)
            }
        }
    }
}

/// What a day begins with, how long it is served, what is done on it, and what it comes to.
#[derive(Clone, Copy)]
pub struct Row {
    pub begin: &'static str,
    pub doing: Doing,
    pub span: Span,
    /// The order of every K-th accepted give-up of a connection, K being this, is sent to the sweepers.
    pub every: u64,
    pub end: &'static str,
}

/// The ways in on a day, and who is there when it begins.
#[derive(Drop)]
pub struct Outside {
    pub listener: TcpListener,
    /// A firm that has connected.
    pub first: Option<Client>,
    /// Whether an accept that finds nobody fails.
    pub fails_where_nobody_waits: bool,
}

/// Returns the port of a listener.
pub fn port_of(listener: &TcpListener) -> u16 {
    match listener.local_addr() {
        Ok(address) => address.port(),
        Err(_) => 0,
    }
}

/// The two ends of a day: the ways in for connections, and who is there.
#[derive(Drop)]
struct Ends {
    front: Front<TestDoor>,
    there: There,
}

/// Returns the two ends of a day, if one operator is at the console.
fn ends_of<R: Net<Listener = TcpListener, Stream = TcpStream> + Abort>(
    rt: &R,
    alloc: Global,
    outside: Outside,
) -> Ends {
    let Outside {
        listener,
        first,
        fails_where_nobody_waits,
    } = outside;
    let port = port_of(&listener);
    let listeners = Listeners {
        port: Some(listener),
        doors: Vec::new(alloc),
        console: None,
        watch: None,
    };
    let made = Doorway::new(rt, alloc, listeners);
    let (doorway, bell) = made.ok().expect(rt, "a doorway");
    let paired = UnixStream::pair(rt);
    let (near, far) = paired.ok().expect(rt, "two streams");
    let door = TestDoor {
        doorway,
        fails_where_nobody_waits,
        operator: Some(far),
    };
    Ends {
        front: Front { door, bell },
        there: There {
            port,
            first,
            operator: near,
        },
    }
}

/// The outputs to which a day says what happens: its standard error, and its log.
#[derive(Clone, Copy)]
pub struct Told<'s, 'l> {
    pub said: &'s Mutex<Vec<u8>>,
    pub log: &'l EventLog,
}

/// Returns the gate of a desk that needs no lease, or of one whose lease has ended.
fn gate_of<'a, R: Clock>(
    rt: &impl Abort,
    machine: &'a Machine<'a, R>,
    is_ended: bool,
) -> Gate<Clocks<'a, Machine<'a, R>>> {
    if !is_ended {
        return Gate::open();
    }
    let clocks = Clocks::new(machine).expect(rt, "clocks");
    let now = clocks.now().expect(rt, "a moment");
    Gate::of_lease(clocks, Lease::new(now, 0, 0))
}

/// Returns the end of a day, while this is done beside it.
fn day<
    E: EntryLedger + Send + Sync,
    S: LotLedger + Send + Sync,
    R: Net<Listener = TcpListener, Stream = TcpStream> + Threads + Wait + Clock + Abort + Sync,
    K: Sink + Send + Drop,
>(
    rt: &R,
    alloc: Global,
    opening: Opening<K>,
    outside: Outside,
    doing: Doing,
    told: Told<'_, '_>,
) -> Result<Served<K>, StreamError>
where
    K::Place: Send,
    requires reference { opening.book.reference ≡ E.reference }
    requires history { (opening.book.history ≡ E.opening) × (lots_swept opening.book.history ≡ S.opening) }
    requires annals { opening.annals.name ≡ E.history }
    requires entries { (opening.entries.name ≡ E.name) × (opening.entries.parts ≡ E.parts) }
    requires swept { (opening.swept.name ≡ S.name) × (opening.swept.parts ≡ S.parts) }
{
    let Told { said, log } = told;
    let machine = Machine::new(rt, doing.leap(), said);
    let gate = gate_of(rt, &machine, doing.is_after_the_lease());
    let Ends { front, there } = ends_of(rt, alloc, outside);
    let (served, done) = thread::join(
        rt,
        || -> Result<Served<K>, StreamError>
            requires { (opening.book.reference ≡ E.reference) × (opening.book.history ≡ E.opening) × (opening.annals.name ≡ E.history)
                × (lots_swept opening.book.history ≡ S.opening) × (opening.entries.name ≡ E.name) × (opening.entries.parts ≡ E.parts)
                × (opening.swept.name ≡ S.name) × (opening.swept.parts ≡ S.parts)
                × IsSync R.row × IsSend E.row × IsSync E.row × IsSend S.row × IsSync S.row × IsSend K.row × IsSend K.Place.row }
        {
            serve_day::<E, S, Machine<'_, R>, Vec<u8>, TestDoor, K>(
                &machine, alloc, opening, front, &gate, log, None,
            )
        },
        || do_all(rt, alloc, there, doing, said),
    );
    assert!(rt; done.is_ok());
    served
}

/// Returns the beginning of a row's day, for a book with this journal, or none.
fn opening_of<K: Sink + Drop>(
    rt: &impl Abort,
    alloc: Global,
    row: &Row,
    begun: Begun<K>,
) -> Opening<K> {
    let Begun {
        book,
        receipts,
        journal,
    } = begun;
    let service = row.span.service(rt).with_operators(true, false);
    let opened = Opening::new(alloc, book, receipts, journal, service);
    let mut opening = opened.ok().expect(rt, "an opening");
    opening.every = row.every;
    opening.share = row.doing.share();
    opening.write_wait_ms = row.doing.write_wait_ms();
    opening
}

/// A book with the receipts of its entries, and its journal, if it has one.
#[derive(Drop)]
pub struct Begun<K: Sink> {
    pub book: Book,
    pub receipts: Vec<Receipt>,
    pub journal: Option<DayJournal<K>>,
    ghost journaled: { IfSome journal (λ j. IsChainOf j.chain book.history) } by { Prim.hlevel props },
}

/// Returns the outcome of a row's day that begins in this way.
pub fn served_from<
    R: Net<Listener = TcpListener, Stream = TcpStream> + Threads + Wait + Clock + Abort + Sync,
    K: Sink + Send + Drop,
>(
    rt: &R,
    alloc: Global,
    outside: Outside,
    row: &Row,
    begun: Begun<K>,
    told: Told<'_, '_>,
) -> Served<K>
where
    K::Place: Send,
{
    let opening = opening_of(rt, alloc, row, begun);
    let served = day::<Brand, Brand, R, K>(rt, alloc, opening, outside, row.doing, told);
    served.ok().expect(rt, "a day")
}

/// Returns the outcome of a row's day without a journal.
pub fn end_of<
    R: Net<Listener = TcpListener, Stream = TcpStream> + Threads + Wait + Clock + Abort + Sync,
>(rt: &R, alloc: Global, outside: Outside, row: &Row, said: &Mutex<Vec<u8>>) -> (Closed, Closers) {
    let log = EventLog::silent();
    let told = Told { said, log: &log };
    end_of_told(rt, alloc, outside, row, told)
}

/// Returns the same for a day that writes its events to these outputs.
pub fn end_of_told<
    R: Net<Listener = TcpListener, Stream = TcpStream> + Threads + Wait + Clock + Abort + Sync,
>(rt: &R, alloc: Global, outside: Outside, row: &Row, told: Told<'_, '_>) -> (Closed, Closers) {
    let (book, receipts) = book_after(alloc, row.begin).ok().expect(rt, "a book");
    let begun: Begun<Log<Memory>> = Begun {
        book,
        receipts,
        journal: None,
    };
    let served = served_from(rt, alloc, outside, row, begun, told);
    let Served {
        closed,
        closers,
        journal,
    } = served;
    assert!(rt; journal.is_none());
    (closed, closers)
}

/// Asserts that a day ends with these lines.
pub fn check_end(rt: &impl Abort, alloc: Global, closed: Closed, lines: &str) {
    let (end, book, _) = closed.end(alloc);
    drop(book);
    let (text, is_well) = end.expect(rt, "memory");
    assert!(rt; is_well);
    assert_eq!(rt; text.as_str(), lines);
}
