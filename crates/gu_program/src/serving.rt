//! The server: a day at a desk, on a port of this machine or at doors of firms, and at the sockets of operators.

ghost use Rattle.std.specs.Prelude.{◌≡◌, ◌≤◌, IfOk, IfSome};
ghost use Rattle.std.proofs.Props.{props};
ghost use Rattle.gu_keeping.specs.Chains.{IsChainOf};

use crate::error::{ConsoleFault, DoorsFault, RunError};
use crate::fault::{Fault, Place};
use gu_journal::Sink;
use gu_lease::{Clocks, Gate};
use gu_log::{Beginning, EventLog, Listener, LogReader};
use gu_office::{Addresses, FirmDoors, ListenError, OperatorSockets};
use gu_secrets::Secrets;
use gu_server::{DayJournal, Front, Opening, Served, Service, serve_day};
use gu_sockets::{Doorway, ListenFault};
use gu_streams::StreamError;
use gu_terms::FirmId;
use gu_words::{Serving, Span, UntilClosed};
use gu_world::World;
use std::alloc::{AllocError, Global};
use std::io::Write;
use std::marker::Brand;
use std::net::{Net, TcpListener, TcpStream};
use std::rt::{Clock, Files};
use std::sync::Wait;
use std::thread;
use std::thread::Threads;

/// How many workers there may be.
const MOST_WORKERS: usize = 60;

/// Returns where firms and operators connect, given the firms of the reference.
fn addresses_of<'a, 'f>(serving: &Serving<'a>, firms: &'f [FirmId]) -> Addresses<'a, 'f> {
    let doors = match serving.doors {
        Some(folder) => Some(FirmDoors { folder, firms }),
        None => None,
    };
    Addresses {
        port: serving.port,
        doors,
        console: serving.console(),
        watch: serving.watch,
    }
}

/// Returns the number of workers if none is given: one for each processor, up to 60.
fn usual_workers<R: Threads>(rt: &R) -> usize
    ensures least { 1 ≤ result }
    ensures most { result ≤ 60 }
{
    let Ok(processors) = thread::available_parallelism(rt) else {
        return 1;
    };
    let processors = processors.get();
    if processors < 1 {
        1
    } else if processors > MOST_WORKERS {
        MOST_WORKERS
    } else {
        processors
    }
}

/// Returns the number of workers of a server that goes on until it is closed.
fn workers_of<R: Threads>(rt: &R, until_closed: &UntilClosed<'_>) -> usize
    ensures least { 1 ≤ result }
    ensures most { result ≤ 60 }
{
    match until_closed.workers {
        Some(workers) => usize::from(workers),
        None => usual_workers(rt),
    }
}

/// Returns how firms are served, apart from operators.
fn firms_service<R: Threads>(rt: &R, span: &Span<'_>) -> Service
    ensures { result.workers ≤ 60 }
{
    match span {
        Span::Counted(counted) => Service::of_connections(usize::from(counted.connections)),
        Span::UntilClosed(until_closed) => {
            let workers = workers_of(rt, until_closed);
            Service::until_closed(usize::from(until_closed.places), workers)
        }
    }
}

/// Returns how firms and operators are served.
fn service_of<R: Threads>(rt: &R, serving: &Serving<'_>) -> Service {
    let service = firms_service(rt, &serving.span);
    service.with_operators(serving.console().is_some(), serving.watch.is_some())
}

/// Returns the error of a run whose operators' socket can't be opened.
fn console_error(fault: &ListenFault) -> RunError {
    RunError::Console(match fault {
        ListenFault::InUse => ConsoleFault::InUse,
        ListenFault::NotASocket => ConsoleFault::NotASocket,
        ListenFault::Io(_) => ConsoleFault::NotMade,
    })
}

/// Returns the error of a run in which a firm's door can't be opened.
fn door_error(fault: &ListenFault) -> RunError {
    RunError::Doors(match fault {
        ListenFault::InUse => DoorsFault::InUse,
        ListenFault::NotASocket => DoorsFault::NotASocket,
        ListenFault::Io(_) => DoorsFault::NotMade,
    })
}

/// Returns the fault of a socket that can't be opened.
fn socket_fault<'a>(place: Place<'a>, fault: &ListenFault, error: RunError) -> Fault<'a> {
    match fault {
        ListenFault::Io(cause) => Fault::refused(place, *cause, error),
        ListenFault::InUse | ListenFault::NotASocket => Fault::at(place, error),
    }
}

/// Returns a firm's name padded with zeros.
fn padded(firm: &FirmId) -> [u8; 12] {
    let mut name = [0; 12];
    for (to, from) in name.iter_mut().zip(firm.get()) {
        *to = *from;
    }
    name
}

/// Returns the place where firms connect: the port, if there is one, and otherwise the folder of their doors.
fn firms_place<'a>(serving: &Serving<'a>) -> Place<'a> {
    match serving.port {
        Some(port) => Place::Port(port),
        None => Place::File(serving.doors.unwrap_or("")),
    }
}

/// Returns the fault of a place that can't be listened at. A port that can't be opened is a read fault.
fn fault_of<'a>(serving: &Serving<'a>, error: &ListenError<'a>) -> Fault<'a> {
    match error {
        ListenError::Port(cause) => {
            let read = RunError::from(StreamError::Read);
            Fault::refused(firms_place(serving), *cause, read)
        }
        ListenError::TooFewDescriptors(doors) => {
            let error = RunError::Doors(DoorsFault::TooFewFiles(*doors));
            Fault::at(firms_place(serving), error)
        }
        ListenError::Socket(path, fault) => {
            socket_fault(Place::File(path), fault, console_error(fault))
        }
        ListenError::Door {
            folder,
            firm,
            fault,
        } => socket_fault(Place::Door(folder, padded(firm)), fault, door_error(fault)),
    }
}

/// Listens at the operators' sockets.
pub fn listen_for_operators<'a, R: Files + Net>(
    rt: &R,
    serving: &Serving<'a>,
) -> Result<OperatorSockets, Fault<'a>> {
    match addresses_of(serving, &[]).listen_for_operators(rt) {
        Ok(sockets) => Ok(sockets),
        Err(error) => Err(fault_of(serving, &error)),
    }
}

/// Listens at the firms' doors and at the port, beside the operators' sockets, given the firms of the reference. Those sockets are opened
/// first if they aren't open yet.
pub fn listen<'a, R: Files + Net<Listener = TcpListener, Stream = TcpStream> + Alloc<A = Global>>(
    rt: &R,
    serving: &Serving<'a>,
    firms: &[FirmId],
    operators: Option<OperatorSockets>,
) -> Result<Front<Doorway>, Fault<'a>> {
    let operators = match operators {
        Some(operators) => operators,
        None => listen_for_operators(rt, serving)?,
    };
    match addresses_of(serving, firms).listen_beside(rt, rt.alloc(), operators) {
        Ok(front) => Ok(front),
        Err(error) => Err(fault_of(serving, &error)),
    }
}

/// The world that a script or a journal led to, the journal that has its entries, if there is one, and the firms' secrets, if they have
/// any.
#[derive(Drop)]
pub struct Begun<K: Sink> {
    pub world: World,
    pub journal: Option<DayJournal<K>>,
    pub secrets: Option<Secrets>,
    ghost journaled: { IfSome journal (λ j. IsChainOf j.chain world.state.book.history) } by { Prim.hlevel props },
}

/// Returns what a server begins a day with: the book, the receipts of its entries, the journal, the secrets, and the options of the command
/// line.
fn opening_of<K: Sink + Drop>(
    alloc: Global,
    begun: Begun<K>,
    service: Service,
    serving: &Serving<'_>,
) -> Result<Opening<K>, AllocError>
    ensures served { IfOk result (λ opening. (opening.service ≡ service) × (opening.every ≡ serving.now.every) × (opening.share ≡ serving.now.share)) }
    ensures secrets { IfOk result (λ opening. opening.secrets ≡ begun.secrets) }
{
    let Begun {
        world,
        journal,
        secrets,
    } = begun;
    let receipts = world.outcomes().receipts(alloc)?;
    let mut opening = Opening::new(alloc, world.into_book(), receipts, journal, service)?;
    opening.every = u64::from(serving.every);
    opening.share = serving.share;
    opening.secrets = secrets;
    Ok(opening)
}

/// Notes the first lines of a log: the day, where firms and operators connect, and whether whoever connects may be any firm.
pub fn begin_log<R: Clock>(
    rt: &R,
    reader: &mut LogReader,
    serving: &Serving<'_>,
    world: &World,
) -> Result<(), AllocError> {
    let book = world.book();
    reader.begin(
        rt,
        &Beginning::DayOpened {
            reference: serving.reference,
            day: book.day(),
            entries: book.history().len() as u64,
            journal: serving.journal.map(|journal| journal.path),
        },
    )?;
    if let Some(port) = serving.port {
        reader.begin(rt, &Beginning::Listening(Listener::Port(port)))?;
    }
    if let Some(folder) = serving.doors {
        let doors = book.reference().firms().len();
        let listener = Listener::Doors { folder, doors };
        reader.begin(rt, &Beginning::Listening(listener))?;
    }
    if let Some(path) = serving.console() {
        reader.begin(rt, &Beginning::Listening(Listener::Console(path)))?;
    }
    if let Some(path) = serving.watch {
        reader.begin(rt, &Beginning::Listening(Listener::Watch(path)))?;
    }
    if serving.doors.is_none() && serving.secrets.is_none() {
        reader.begin(rt, &Beginning::AnyFirm)?;
    }
    Ok(())
}

/// Serves the connections that come in, beginning with a world, whose receipts are audited too. Nothing leaves while the gate is closed.
/// Events are noted in the log.
pub fn serve<
    R: Net + Threads + Wait + Clock + Eprint + Sync + Alloc<A = Global>,
    T: Write + Send + Drop,
    K: Sink + Send + Drop,
>(
    rt: &R,
    begun: Begun<K>,
    serving: &Serving<'_>,
    front: Front<Doorway>,
    gate: &Gate<Clocks<'_, R>>,
    log: &EventLog,
    terminal: Option<T>,
) -> Result<Served<K>, StreamError>
where
    K::Place: Send,
{
    let alloc = rt.alloc();
    let service = service_of(rt, serving);
    let opening = opening_of(alloc, begun, service, serving)?;
    serve_day::<Brand, Brand, R, T, Doorway, K>(rt, alloc, opening, front, gate, log, terminal)
}
