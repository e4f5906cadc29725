//! The threads of a day: workers, sweepers, and those that answer operators.

ghost use Rattle.std.specs.Prelude.{◌≡◌};
ghost use denote.Param.Send.{IsSend, IsSync};

use crate::attending::{OperatorEnds, start_attendants};
use crate::crew::Crew;
use crate::entrance::{Entrance, LetsIn, OperatorWays};
use crate::floor::Floor;
use crate::journal_end::{LostBy, LostJournal};
use crate::keeping::{Kept, News, keep_all};
use crate::sweeping::start_sweepers;
use crate::telling::tell_all;
use crate::working::start_workers;
use crossbeam_channel::{Receiver, Sender};
use gu_desk::{EntryLedger, LotLedger};
use gu_houses::SeatReceipts;
use gu_journal::Sink;
use gu_keeping::Keeper;
use gu_sockets::SocketPoller;
use gu_streams::StreamError;
use std::io::Write;
use std::rt::Clock;
use std::sync::Wait;
use std::sync::atomic::Ordering;
use std::thread;
use std::thread::{JoinHandle, Scope, Threads};

/// What writes the journal, and the news it receives.
#[derive(Drop)]
pub struct Writing<E: EntryLedger, K: Sink> {
    pub keeper: Keeper<E, K>,
    pub news: Receiver<News>,
}

/// What a shift begins with: where connections come in, each worker's poller, and what writes the journal, if the day has one.
#[derive(Drop)]
pub struct Posting<D, E: EntryLedger, K: Sink> {
    pub door: D,
    pub pollers: Vec<SocketPoller>,
    pub writing: Option<Writing<E, K>>,
}

/// The seats after a shift, the fault that kept connections from being accepted, if there was one, and what wrote the journal, if the day
/// has one.
#[derive(Drop)]
pub struct Shift<E: EntryLedger, S: LotLedger, K: Sink> {
    pub seats: Vec<SeatReceipts<E, S>>,
    pub fault: Option<StreamError>,
    pub kept: Option<Kept<E, K>>,
}

/// The thread that prints counts at a terminal until this end of its channel is dropped.
#[derive(Drop)]
struct Teller {
    until: Sender<()>,
    thread: JoinHandle<()>,
}

impl Teller {
    /// Waits until the last counts are printed.
    fn end<R: Threads>(self, rt: &R) {
        let Teller { until, thread } = self;
        drop(until);
        thread.join(rt);
    }
}

/// Starts the thread that prints counts at a terminal, if there is one. If it can't be started, they aren't printed.
fn start_teller<
    's,
    X,
    E: EntryLedger,
    S: LotLedger,
    R: Threads + Wait + Clock + Sync,
    T: Write + Send + Drop + 's,
>(scope: &Scope<'s, X>, floor: &'s Floor<'s, E, S, R>, terminal: Option<T>) -> Option<Teller> {
    let mut terminal = terminal?;
    let rt = floor.rt;
    let tally = floor.tally;
    let (until, over) = crossbeam_channel::bounded(floor.alloc, 1).ok()?;
    let thread = scope
        .spawn(move || tell_all(rt, tally, &mut terminal, &over))
        .ok()?;
    Some(Teller { until, thread })
}

/// Starts the threads that answer operators, and returns the queues to them.
fn start_answering<
    's,
    X,
    E: EntryLedger + Send + Sync + 's,
    S: LotLedger + Send + Sync + 's,
    R: Threads + Wait + Clock + Sync,
>(
    scope: &Scope<'s, X>,
    floor: &'s Floor<'s, E, S, R>,
    crew: &mut Crew<E, S>,
) -> Result<OperatorWays, StreamError> {
    let console = OperatorEnds::new(floor.alloc, false)?;
    let watch = OperatorEnds::new(floor.alloc, true)?;
    start_attendants(scope, floor, crew, &console, floor.service.operators)?;
    start_attendants(scope, floor, crew, &watch, floor.service.watchers)?;
    Ok(OperatorWays {
        console: console.into_sender(),
        watch: watch.into_sender(),
    })
}

/// The thread that writes the journal, or why there is none.
type Writer<E, K> = Result<JoinHandle<Kept<E, K>>, LostJournal<<K as Sink>::Place>>;

/// Starts the thread that writes the journal, if the day has one. If it can't be started, the day ends.
fn start_writer<
    's,
    X,
    E: EntryLedger + Send + Sync + 's,
    S: LotLedger + Send + Sync + 's,
    R: Threads + Wait + Clock + Sync,
    K: Sink + Send + Drop + 's,
>(
    scope: &Scope<'s, X>,
    floor: &'s Floor<'s, E, S, R>,
    writing: Option<Writing<E, K>>,
) -> Option<Writer<E, K>>
where
    K::Place: Send,
{
    let Writing { keeper, news } = writing?;
    match scope.spawn(move || keep_all(floor, keeper, news)) {
        Ok(thread) => Some(Ok(thread)),
        Err(_) => {
            floor.lose_journal();
            Some(Err(LostJournal {
                kept: floor.posts.kept(),
                by: LostBy::Memory,
            }))
        }
    }
}

/// Waits until the journal's thread has ended.
fn end_writer<E: EntryLedger, K: Sink, R: Threads>(rt: &R, writer: Writer<E, K>) -> Kept<E, K> {
    match writer {
        Ok(thread) => thread.join(rt),
        Err(lost) => Err(lost),
    }
}

/// Starts the threads, and accepts connections until the last has ended. When it returns, no firm can connect, and its ends of the channels
/// are dropped: each worker then ends with its last connection, the sweepers with the last worker, and the operators' threads at once.
fn serve_calls<
    's,
    X,
    E: EntryLedger + Send + Sync + 's,
    S: LotLedger + Send + Sync + 's,
    R: Threads + Wait + Clock + Eprint + Sync,
    D: LetsIn + Drop,
>(
    scope: &Scope<'s, X>,
    floor: &'s Floor<'s, E, S, R>,
    door: D,
    pollers: Vec<SocketPoller>,
    crew: &mut Crew<E, S>,
) -> Result<(), StreamError> {
    let (orders, ordered) = crossbeam_channel::unbounded(floor.alloc)?;
    start_sweepers(scope, floor, ordered, crew)?;
    let operators = start_answering(scope, floor, crew)?;
    let calls = start_workers(scope, floor, crew, pollers, &orders)?;
    drop(orders);
    Entrance::new(door, calls, operators).run(floor)
}

/// Serves from these seats, one for each thread, and returns every seat.
fn run_all<
    's,
    X,
    E: EntryLedger + Send + Sync + 's,
    S: LotLedger + Send + Sync + 's,
    R: Threads + Wait + Clock + Eprint + Sync,
    T: Write + Send + Drop + 's,
    D: LetsIn + Drop,
    K: Sink + Send + Drop + 's,
>(
    scope: &Scope<'s, X>,
    floor: &'s Floor<'s, E, S, R>,
    posting: Posting<D, E, K>,
    seats: Vec<SeatReceipts<E, S>>,
    terminal: Option<T>,
) -> Shift<E, S, K>
where
    K::Place: Send,
{
    let Posting {
        door,
        pollers,
        writing,
    } = posting;
    let teller = start_teller(scope, floor, terminal);
    let writer = start_writer(scope, floor, writing);
    let mut crew = Crew::new(floor.alloc, seats);
    let fault = serve_calls(scope, floor, door, pollers, &mut crew).err();
    floor.is_over.store(true, Ordering::SeqCst);
    let seats = crew.join(floor.rt);
    floor.informer.end();
    let kept = match writer {
        Some(writer) => Some(end_writer(floor.rt, writer)),
        None => None,
    };
    if let Some(teller) = teller {
        teller.end(floor.rt);
    }
    Shift { seats, fault, kept }
}

/// Serves the connections that come in until the last has ended and each entry is kept.
pub fn shift_at<
    E: EntryLedger + Send + Sync,
    S: LotLedger + Send + Sync,
    R: Threads + Wait + Clock + Eprint + Sync,
    T: Write + Send + Drop,
    D: LetsIn + Drop,
    K: Sink + Send + Drop,
>(
    floor: &Floor<'_, E, S, R>,
    posting: Posting<D, E, K>,
    seats: Vec<SeatReceipts<E, S>>,
    terminal: Option<T>,
) -> Shift<E, S, K>
where
    K::Place: Send,
{
    thread::scope(
        thread::scope_env(),
        floor.rt,
        |scope| -> Shift<E, S, K>
            requires { IsSync R.row × IsSend E.row × IsSync E.row × IsSend S.row × IsSync S.row × IsSend T.row × IsSend K.row × IsSend K.Place.row }
        { run_all(scope, floor, posting, seats, terminal) },
    )
}
