//! A day of the server.

ghost use Rattle.std.specs.Prelude.{◌≡◌, ◌+◌, ◌≤◌, All, length, is_some, nat_lt, IfOk, IfSome};
ghost use Rattle.std.proofs.Props.{props};
ghost use Rattle.gu_terms.specs.Histories.{lots_swept};
ghost use Rattle.gu_desk.specs.Seats.{IsNew};
ghost use Rattle.gu_keeping.specs.Chains.{IsChainOf};
ghost use Rattle.gu_server.specs.Receipts.{AddsReceipts};

use crate::closers::Closers;
use crate::closing::{Closed, Ending, close};
use crate::entrance::LetsIn;
use crate::firm_places::{FirmPlaces, Hearers};
use crate::floor::Floor;
use crate::informer::{Informer, OperatorInformer};
use crate::journal_end::{JournalEnd, journal_end};
use crate::keeping::News;
use crate::kept_bell::KeptBell;
use crate::service::Service;
use crate::serving::{Posting, Shift, Writing, shift_at};
use crossbeam_channel::Sender;
use gu_book::Book;
use gu_desk::{BlankAnnals, Desk, EntryLedger, Front as Beginning, LotLedger, Seat};
use gu_houses::{OpenOrders, Quota, SeatReceipts, Shares, Tally};
use gu_journal::Sink;
use gu_keeping::{Chain, Keeper};
use gu_lease::{Clocks, Gate};
use gu_log::EventLog;
use gu_posts::Posts;
use gu_secrets::Secrets;
use gu_sockets::{PollBell, SocketPoller};
use gu_streams::StreamError;
use gu_terms::{FirmId, Receipt};
use std::alloc::{AllocError, Global};
use std::io::Write;
use std::net::Net;
use std::rt::Clock;
use std::sync::atomic::AtomicBool;
use std::sync::ledger::Blank;
use std::sync::{Mutex, Wait};
use std::thread::Threads;

/// How many milliseconds a connection may take none of its answers.
pub const WRITE_WAIT_MS: u64 = 10_000;

/// The journal of a day, which already has the lines of the entries that the day begins with.
#[derive(Drop)]
pub struct DayJournal<K: Sink> {
    /// Where its text is kept.
    pub sink: K,
    /// The digest of those entries.
    pub chain: Chain,
}

/// What a server begins a day with.
#[derive(Drop)]
pub struct Opening<K: Sink> {
    pub book: Book,
    /// The book's history, which the day extends.
    pub annals: BlankAnnals,
    /// The receipts of the entries that the book has.
    pub receipts: Vec<Receipt>,
    /// The journal to be written during the day, if there is one.
    pub journal: Option<DayJournal<K>>,
    /// How firms are served.
    pub service: Service,
    /// The secrets that firms need to log on, if there are any.
    pub secrets: Option<Secrets>,
    /// Every so many accepted give-ups of a connection, a sweep of the group is ordered; with 0, none is.
    pub every: u64,
    /// The share, in percent, that the sessions of one firm may have of the entries for which the book has room, and of a group's open
    /// offers. 100 is no bound.
    pub share: u16,
    /// How many milliseconds a connection may take none of its answers before it is closed. `WRITE_WAIT_MS` is what the desk uses.
    pub write_wait_ms: u64,
    /// The blanks of the ledgers of entries and of swept lots.
    pub entries: Blank,
    pub swept: Blank,
    ghost told: { annals.entries ≡ book.history },
    ghost journaled: { IfSome journal (λ j. IsChainOf j.chain book.history) } by { Prim.hlevel props },
    ghost parts: { entries.parts ≡ service.workers + service.operators + service.watchers + 3 },
    ghost swept_parts: { swept.parts ≡ service.workers + service.operators + service.watchers + 3 },
}

impl<K: Sink + Drop> Opening<K> {
    /// Creates what a day begins with. It has no secrets, orders no sweeps and bounds no shares until `secrets`, `every` and `share` are
    /// set.
    pub fn new(
        alloc: Global,
        book: Book,
        receipts: Vec<Receipt>,
        journal: Option<DayJournal<K>>,
        service: Service,
    ) -> Result<Self, AllocError>
        requires { IfSome journal (λ j. IsChainOf j.chain book.history) }
        ensures book { IfOk result (λ opening. (opening.book ≡ book) × (opening.receipts ≡ receipts)) }
        ensures journal { IfOk result (λ opening. opening.journal ≡ journal) }
        ensures served { IfOk result (λ opening. (opening.service ≡ service) × (opening.every ≡ 0) × (opening.share ≡ 100)
            × (opening.write_wait_ms ≡ 10000)) }
    {
        let annals = BlankAnnals::of(alloc, &book)?;
        let parts = service.seats() as u64 + 1;
        Ok(Opening {
            book,
            annals,
            receipts,
            journal,
            service,
            secrets: None,
            every: 0,
            share: 100,
            write_wait_ms: WRITE_WAIT_MS,
            entries: Blank::new(parts),
            swept: Blank::new(parts),
        })
    }
}

/// Opens a desk over a book, and returns it with its seats.
fn opened<E: EntryLedger, S: LotLedger>(
    alloc: Global,
    book: Book,
    annals: BlankAnnals,
    seats: usize,
    entries: Blank,
    swept: Blank,
) -> Result<(Desk<E, S>, Vec<Seat<E, S>>), AllocError>
    requires seats { (1 ≤ seats) × (seats ≤ 64) }
    requires reference { book.reference ≡ E.reference }
    requires opening { (book.history ≡ E.opening) × (lots_swept book.history ≡ S.opening) }
    requires history { (annals.name ≡ E.history) × (annals.entries ≡ book.history) }
    requires entries { (entries.name ≡ E.name) × (entries.parts ≡ E.parts) × (entries.parts ≡ seats + 1) }
    requires swept { (swept.name ≡ S.name) × (swept.parts ≡ S.parts) × (swept.parts ≡ seats + 1) }
    ensures { IfOk result (λ r. All (IsNew E.opening) r.1.items) }
{
    match Desk::new(alloc, book, annals, seats, entries, swept) {
        Ok(made) => Ok(made),
        Err((refused, book)) => {
            drop(book);
            Err(refused)
        }
    }
}

/// Returns the shares of the firms of a book, if one firm may make less than all.
fn shares_of(alloc: Global, book: &Book, percent: u16) -> Result<Option<Shares>, AllocError>
    ensures { IfOk result (λ shares. is_some shares ≡ nat_lt percent 100) }
{
    if percent < 100 {
        let quota = Quota::of(percent, book);
        Ok(Some(Shares::new(alloc, book.reference().firms(), quota)?))
    } else {
        Ok(None)
    }
}

/// The firms of a day, the share that each may have, and the orders of sweeps that wait.
#[derive(Drop)]
struct Roster {
    firms: Vec<FirmId>,
    shares: Option<Shares>,
    open_orders: OpenOrders,
}

/// Returns the roster of a book, no firm of which has more than this share.
fn roster_of(alloc: Global, book: &Book, share: u16) -> Result<Roster, AllocError>
    ensures { IfOk result (λ roster. roster.firms.items ≡ book.now.reference.firms) }
{
    Ok(Roster {
        firms: Vec::from_slice(alloc, book.reference().firms())?,
        shares: shares_of(alloc, book, share)?,
        open_orders: OpenOrders::new(alloc, book.reference().groups())?,
    })
}

/// The journal's thread as it is set up: where entries are reported, and what writes them.
#[derive(Drop)]
struct Pen<E: EntryLedger, K: Sink> {
    news: Option<Sender<News>>,
    writing: Option<Writing<E, K>>,
}

/// Returns the part of the desk's history that its last seat has seen, if there is a seat. The seats stay as they are.
fn front_of<E: EntryLedger, S: LotLedger, R: Wait>(
    rt: &R,
    desk: &Desk<E, S>,
    seats: &mut Vec<Seat<E, S>>,
) -> Option<Beginning<E>>
    requires { All (IsNew E.opening) seats.old.items }
    ensures seats { seats.new.items ≡ seats.old.items }
    ensures front { IfSome result (λ front. front ≡ E.opening) }
{
    let mut seat = seats.pop()?;
    let front = desk.hold(rt).front(&mut seat);
    seats.push_reserved(seat);
    Some(front)
}

/// Returns how a day is written if its journal has the entries up to this point.
fn pen_of<E: EntryLedger, K: Sink + Drop>(
    alloc: Global,
    front: Option<Beginning<E>>,
    journal: Option<DayJournal<K>>,
) -> Result<Pen<E, K>, AllocError>
    requires chain { IfSome journal (λ j. IsChainOf j.chain E.opening) }
    requires front { IfSome front (λ f. f ≡ E.opening) }
    requires few { length E.opening ≤ 1000000 }
{
    let (Some(DayJournal { sink, chain }), Some(front)) = (journal, front) else {
        return Ok(Pen {
            news: None,
            writing: None,
        });
    };
    let (news, told) = crossbeam_channel::unbounded(alloc)?;
    let keeper = Keeper::new(alloc, sink, front, chain);
    Ok(Pen {
        news: Some(news),
        writing: Some(Writing { keeper, news: told }),
    })
}

/// Returns the seats as seats that keep their receipts.
fn with_receipts<E: EntryLedger, S: LotLedger>(
    alloc: Global,
    seats: Vec<Seat<E, S>>,
) -> Result<Vec<SeatReceipts<E, S>>, AllocError>
    requires { All (IsNew E.opening) seats.items }
{
    let mut keeping = Vec::with_capacity(alloc, seats.len())?;
    for seat in seats {
        keeping.push(SeatReceipts::new(alloc, seat))?;
    }
    Ok(keeping)
}

/// A desk as it opens: its seats, what writes its journal, and what closes it.
#[derive(Drop)]
struct OpenDesk<E: EntryLedger, S: LotLedger, K: Sink> {
    desk: Desk<E, S>,
    seats: Vec<SeatReceipts<E, S>>,
    pen: Pen<E, K>,
    ending: Ending<E, S>,
}

/// Returns the desk with which a day begins.
fn open_desk<E: EntryLedger, S: LotLedger, R: Wait, K: Sink + Drop>(
    rt: &R,
    alloc: Global,
    opening: Opening<K>,
) -> Result<OpenDesk<E, S, K>, AllocError>
    requires reference { opening.book.reference ≡ E.reference }
    requires history { (opening.annals.name ≡ E.history) × (opening.book.history ≡ E.opening) × (lots_swept opening.book.history ≡ S.opening) }
    requires blanks { (opening.entries.name ≡ E.name) × (opening.swept.name ≡ S.name) × (opening.entries.parts ≡ E.parts) × (opening.swept.parts ≡ S.parts) }
    ensures { IfOk result (λ made. made.ending.receipts ≡ opening.receipts.items) }
{
    let Opening {
        book,
        annals,
        receipts,
        journal,
        service,
        secrets,
        every: _,
        share: _,
        write_wait_ms: _,
        entries,
        swept,
    } = opening;
    drop(secrets);
    let (desk, mut seats) = opened::<E, S>(alloc, book, annals, service.seats(), entries, swept)?;
    let front = front_of(rt, &desk, &mut seats);
    let pen = pen_of(alloc, front, journal)?;
    let seats = with_receipts(alloc, seats)?;
    let ending = Ending::new(alloc, seats.len(), receipts)?;
    Ok(OpenDesk {
        desk,
        seats,
        pen,
        ending,
    })
}

/// A poller for each worker's connections, and the bells that wake the workers.
#[derive(Drop)]
struct Watches {
    pollers: Vec<SocketPoller>,
    bells: Vec<PollBell>,
}

impl Watches {
    /// Creates none yet, with room for this many workers.
    fn new(alloc: Global, workers: usize) -> Result<Self, AllocError> {
        Ok(Watches {
            pollers: Vec::with_capacity(alloc, workers)?,
            bells: Vec::with_capacity(alloc, workers)?,
        })
    }

    /// Adds the poller and the bell of one more worker.
    fn add(&mut self, poller: SocketPoller, bell: PollBell) -> Result<(), AllocError> {
        self.pollers.push(poller)?;
        self.bells.push(bell)?;
        Ok(())
    }
}

/// Creates the pollers and bells of this many workers.
fn watches_of<R: Net>(rt: &R, alloc: Global, workers: usize) -> Result<Watches, StreamError> {
    let mut watches = Watches::new(alloc, workers)?;
    for _worker in 0..workers {
        match SocketPoller::new(rt, alloc) {
            Ok((poller, bell)) => watches.add(poller, bell)?,
            Err(_) => return Err(StreamError::Read),
        }
    }
    Ok(watches)
}

/// Returns how many entries count as kept when a day begins with this many: all of them. Without a journal every later entry counts as kept
/// at once.
fn kept_at_first<K: Sink>(journal: &Option<DayJournal<K>>, entries: usize) -> u64 {
    match journal {
        Some(_) => entries as u64,
        None => u64::MAX,
    }
}

/// A day that was served.
#[derive(Drop)]
pub struct Served<K: Sink> {
    pub closed: Closed,
    /// The operators that closed the day and wait for its last lines.
    pub closers: Closers,
    /// What became of its journal, if it has one.
    pub journal: Option<JournalEnd<K>>,
}

/// Where connections come in, and the bell that wakes the thread that waits there. If firms have doors, each firm of the book's reference
/// has one, numbered by the firm's place in it.
#[derive(Drop)]
pub struct Front<D> {
    pub door: D,
    pub bell: PollBell,
}

/// What a day is served with, beside its desk.
#[derive(Drop)]
struct Ground<'a, 'c, R> {
    firms: &'a [FirmId],
    secrets: Option<&'a Secrets>,
    shares: Option<&'a Shares>,
    firm_places: &'a FirmPlaces<'a, R>,
    posts: &'a Posts<PollBell>,
    gate: &'a Gate<Clocks<'c, R>>,
    open_orders: &'a OpenOrders,
    tally: &'a Tally,
    log: &'a EventLog,
    service: Service,
    every: u64,
    write_wait_ms: u64,
}

/// Serves the connections that come in at an open desk, and closes the desk after the last one.
fn hold_day<
    'a,
    E: EntryLedger + Send + Sync,
    S: LotLedger + Send + Sync,
    R: Net + Threads + Wait + Clock + Eprint + Sync,
    T: Write + Send + Drop,
    D: LetsIn + Drop,
    K: Sink + Send + Drop,
>(
    rt: &'a R,
    alloc: Global,
    ground: Ground<'a, '_, R>,
    desk: OpenDesk<E, S, K>,
    door: D,
    pollers: Vec<SocketPoller>,
    terminal: Option<T>,
) -> Result<Served<K>, StreamError>
where
    K::Place: Send,
    requires { ground.firms.now ≡ E.reference.firms }
    ensures reference { IfOk result (λ r. r.closed.book.reference ≡ E.reference) }
    ensures lots { IfOk result (λ r. S.opening ≤ lots_swept r.closed.book.history) }
    ensures receipts { IfOk result (λ r. AddsReceipts E.opening desk.ending.receipts r.closed.book.history r.closed.receipts) }
    ensures count { length desk.ending.receipts ≡ length E.opening → IfOk result (λ r. length r.closed.receipts ≡ length r.closed.book.history) }
{
    let Ground {
        firms,
        secrets,
        shares,
        firm_places,
        posts,
        gate,
        open_orders,
        tally,
        log,
        service,
        every,
        write_wait_ms,
    } = ground;
    let OpenDesk {
        desk,
        seats,
        pen,
        ending,
    } = desk;
    let Pen { news, writing } = pen;
    let kept_bell = KeptBell::new();
    let is_over = AtomicBool::new(false);
    let closers = Mutex::new(Vec::new(alloc));
    let informer = Informer::new(rt, posts, news, log);
    let operator_informer = OperatorInformer {
        informer: &informer,
    };
    let floor = Floor {
        rt,
        alloc,
        desk: &desk,
        firms,
        secrets,
        shares,
        firm_places,
        posts,
        gate,
        informer: &informer,
        operator_informer: &operator_informer,
        kept_bell: &kept_bell,
        open_orders,
        tally,
        log,
        service,
        every,
        write_wait_ms,
        is_over: &is_over,
        closers: &closers,
    };
    let posting = Posting {
        door,
        pollers,
        writing,
    };
    let Shift { seats, fault, kept } = shift_at(&floor, posting, seats, terminal);
    drop(floor);
    let closed = close(desk, seats, fault, ending)?;
    let journal = journal_end(kept, closed.book.history().len());
    Ok(Served {
        closed,
        closers: Closers::new(closers.into_inner()),
        journal,
    })
}

/// Opens a desk over a book, serves the connections that come in, and closes the desk after the last one. The port and the firms' doors are
/// closed once the last connection was accepted or an operator closes the day. If connections can't be accepted, standard error or the log
/// says so at once, and the desk tries again whenever one has ended or, on a day that goes on until it is closed, soon after. Progress is
/// printed at a terminal, if there is one. A day with a journal shows nothing before the journal has it, and ends if the journal can't be
/// written. While the gate of its lease is closed nothing leaves, and a day with a journal ends. Events are noted in the log.
pub fn serve_day<
    'a,
    E: EntryLedger + Send + Sync,
    S: LotLedger + Send + Sync,
    R: Net + Threads + Wait + Clock + Eprint + Sync,
    T: Write + Send + Drop,
    D: LetsIn + Drop,
    K: Sink + Send + Drop,
>(
    rt: &'a R,
    alloc: Global,
    opening: Opening<K>,
    front: Front<D>,
    gate: &'a Gate<Clocks<'_, R>>,
    log: &'a EventLog,
    terminal: Option<T>,
) -> Result<Served<K>, StreamError>
where
    K::Place: Send,
    requires reference { opening.book.reference ≡ E.reference }
    requires history { (opening.annals.name ≡ E.history) × (opening.book.history ≡ E.opening) × (lots_swept opening.book.history ≡ S.opening) }
    requires blanks { (opening.entries.name ≡ E.name) × (opening.swept.name ≡ S.name) × (opening.entries.parts ≡ E.parts) × (opening.swept.parts ≡ S.parts) }
    ensures reference { IfOk result (λ r. r.closed.book.reference ≡ E.reference) }

    ensures lots { IfOk result (λ r. S.opening ≤ lots_swept r.closed.book.history) }

    // The opening's history goes on. There are as many receipts as entries since, each of one of these; in all as many as entries, if so then.
    ensures receipts { IfOk result (λ r. AddsReceipts E.opening opening.receipts.items r.closed.book.history r.closed.receipts) }
    ensures count { length opening.receipts.items ≡ length E.opening → IfOk result (λ r. length r.closed.receipts ≡ length r.closed.book.history) }
{
    let mut opening = opening;
    let Roster {
        firms,
        shares,
        open_orders,
    } = roster_of(alloc, &opening.book, opening.share)?;
    let secrets = opening.secrets.take();
    let (service, every, write_wait_ms) = (opening.service, opening.every, opening.write_wait_ms);
    let tally = Tally::new();
    let hearers = Hearers {
        rt,
        tally: &tally,
        log,
    };
    let firm_places = FirmPlaces::new(alloc, firms.as_slice(), hearers, service)?;
    let Watches { pollers, bells } = watches_of(rt, alloc, service.workers)?;
    let Front { door, bell } = front;
    let kept = kept_at_first(&opening.journal, opening.book.history().len());
    let posts = Posts::new(alloc, bells, service.places(), bell, kept)?;
    let desk = open_desk::<E, S, R, K>(rt, alloc, opening)?;
    let ground = Ground {
        firms: firms.as_slice(),
        secrets: secrets.as_ref(),
        shares: shares.as_ref(),
        firm_places: &firm_places,
        posts: &posts,
        gate,
        open_orders: &open_orders,
        tally: &tally,
        log,
        service,
        every,
        write_wait_ms,
    };
    hold_day(rt, alloc, ground, desk, door, pollers, terminal)
}
