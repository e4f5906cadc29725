//! What workers share with those that reach them: the thread that accepts connections, who makes entries, who asks and who closes.

use crate::bell::Bell;
use crate::connection_row::ConnectionStatus;
use crate::failure::{Failure, Failures};
use crate::post::Post;
use gu_notices::{FirmFilter, FirmPlace};
use std::alloc::{AllocError, Global};
use std::sync::atomic::{AtomicBool, AtomicU64, Ordering};

/// How many places there are for firms.
const FIRM_PLACES: usize = 64;

/// The state of the firms of a place.
#[derive(Drop)]
struct FirmRow {
    /// The number of the last entry that informs one of them: it only grows.
    number: AtomicU64,
    /// The workers that have a connection of one of them, a bit each.
    workers: AtomicU64,
}

/// What workers share with those that reach them.
#[derive(Drop)]
pub struct Posts<B> {
    firms: Vec<FirmRow>,
    posts: Vec<Post<B>>,
    /// What wakes the thread that accepts connections.
    accepting: B,
    /// How many entries are kept for good: it only grows. A day without a journal keeps none, and has the greatest number.
    kept: AtomicU64,
    is_closing: AtomicBool,
    /// Whether no more entries will be kept.
    is_stopped: AtomicBool,
    failures: Failures,
}

/// Returns the bit of a worker or of a place of firms; the 65th and later ones have none.
pub fn bit_of(number: usize) -> u64 {
    match u32::try_from(number) {
        Ok(number) if number < 64 => 1 << number,
        _ => 0,
    }
}

/// Returns rows of places at which no firm has been informed yet.
fn firm_rows(alloc: Global) -> Result<Vec<FirmRow>, AllocError> {
    let mut rows = Vec::with_capacity(alloc, FIRM_PLACES)?;
    for _place in 0..FIRM_PLACES {
        rows.push(FirmRow {
            number: AtomicU64::new(0),
            workers: AtomicU64::new(0),
        })?;
    }
    Ok(rows)
}

impl<B: Drop> Posts<B> {
    /// Creates those of workers with these bells, 64 at most, each with this many places; and with the bell of the thread that
    /// accepts connections. This many entries are kept when the day begins: `u64::MAX` if it has no journal.
    pub fn new(
        alloc: Global,
        bells: Vec<B>,
        places: usize,
        accepting: B,
        kept: u64,
    ) -> Result<Self, AllocError> {
        let mut posts = Vec::with_capacity(alloc, bells.len())?;
        for bell in bells {
            posts.push(Post::new(alloc, bell, places)?)?;
        }
        Ok(Posts {
            firms: firm_rows(alloc)?,
            posts,
            accepting,
            kept: AtomicU64::new(kept),
            is_closing: AtomicBool::new(false),
            is_stopped: AtomicBool::new(false),
            failures: Failures::none(),
        })
    }
}

impl<B> Posts<B> {
    /// Returns the post of a worker.
    pub fn post(&self, worker: usize) -> Option<&Post<B>> {
        self.posts.get(worker)
    }

    /// Returns how many workers there are.
    pub fn workers(&self) -> usize {
        self.posts.len()
    }

    /// Returns how many connections a worker has, with those that are on their way to it.
    pub fn connections_of(&self, worker: usize) -> u64 {
        match self.posts.get(worker) {
            Some(post) => post.connections(),
            None => 0,
        }
    }

    /// Returns how many connections all workers have.
    pub fn connections(&self) -> u64 {
        let mut sum = 0u64;
        for post in &self.posts {
            sum = sum.saturating_add(post.connections());
        }
        sum
    }

    /// Returns which of this many first workers has the fewest connections; the first one if there are several.
    pub fn least_busy(&self, among: usize) -> usize {
        let mut least = 0;
        let mut fewest = u64::MAX;
        for (worker, post) in self.posts.iter().take(among).enumerate() {
            let connections = post.connections();
            if connections < fewest {
                least = worker;
                fewest = connections;
            }
        }
        least
    }

    /// Returns the status of each connection.
    pub fn status(&self, alloc: Global) -> Result<Vec<ConnectionStatus>, AllocError> {
        let mut connections = Vec::new(alloc);
        for post in &self.posts {
            for row in post.rows() {
                if let Some(status) = row.read() {
                    connections.push(status)?;
                }
            }
        }
        Ok(connections)
    }

    /// Returns whether the day is being closed.
    pub fn is_closing(&self) -> bool {
        self.is_closing.load(Ordering::SeqCst)
    }

    /// Returns how many entries are kept for good, so that answers may show them.
    pub fn kept(&self) -> u64 {
        self.kept.load(Ordering::SeqCst)
    }

    /// Returns whether no more entries will be kept: then what shows them never goes out.
    pub fn is_stopped(&self) -> bool {
        self.is_stopped.load(Ordering::SeqCst)
    }

    /// Returns why a worker couldn't go on, if one couldn't.
    pub fn failure(&self) -> Option<Failure> {
        self.failures.any()
    }

    /// Returns whether a worker couldn't go on.
    pub fn has_failed(&self) -> bool {
        self.failure().is_some()
    }

    /// Notes that a worker has a connection of a firm, or that it has none any more.
    pub fn set_firm(&self, worker: usize, firm: FirmPlace, is_here: bool) {
        let Some(row) = self.firms.get(firm.number() as usize) else {
            return;
        };
        let bit = bit_of(worker);
        if is_here {
            let _ = row.workers.fetch_or(bit, Ordering::SeqCst);
        } else {
            let _ = row.workers.fetch_and(u64::MAX ^ bit, Ordering::SeqCst);
        }
    }

    /// Returns the number of the last entry that informs a firm of a place, or 0.
    pub fn number(&self, firm: FirmPlace) -> u64 {
        match self.firms.get(firm.number() as usize) {
            Some(row) => row.number.load(Ordering::SeqCst),
            None => 0,
        }
    }

    /// Raises the numbers of these places, and returns the workers that have a connection of a firm at one of them.
    fn raise(&self, number: u64, firms: u64) -> u64 {
        let mut workers = 0;
        let mut left = firms;
        for _firm in 0..firms.count_ones() {
            let place = left.trailing_zeros() as usize;
            left &= left.wrapping_sub(1);
            if let Some(row) = self.firms.get(place) {
                let _ = row.number.fetch_max(number, Ordering::SeqCst);
                workers |= row.workers.load(Ordering::SeqCst);
            }
        }
        workers
    }
}

impl<B: Bell> Posts<B> {
    /// Announces that the entry with this number informs these firms: marks it at the workers that have a connection of one of them, and
    /// wakes them if they wait. Call it after making the entry, once it may be shown, and outside the desk's lock.
    pub fn inform(&self, number: u64, firms: FirmFilter) {
        let firms = firms.bits();
        let workers = self.raise(number, firms);
        for (worker, post) in self.posts.iter().enumerate() {
            if workers & bit_of(worker) != 0 {
                post.tell(firms);
            }
        }
    }

    /// Announces that this many entries are kept for good, and wakes the workers that wait while they hold answers back.
    pub fn keep(&self, number: u64) {
        let _ = self.kept.fetch_max(number, Ordering::SeqCst);
        for post in &self.posts {
            post.release();
        }
    }

    /// Announces that no more entries will be kept: what may be sent still is, each connection is dropped, and no call is taken any more.
    pub fn stop(&self) {
        self.is_stopped.store(true, Ordering::SeqCst);
        self.ring_all();
    }

    /// Closes the day: each connection is sent a Logout and ended, and no call is taken any more.
    pub fn close(&self) {
        self.is_closing.store(true, Ordering::SeqCst);
        self.ring_all();
    }

    /// Wakes the workers, and the thread that accepts connections.
    fn ring_all(&self) {
        for post in &self.posts {
            post.ring();
        }
        self.accepting.ring();
    }

    /// Drops the connection of this number, and returns whether there is one.
    pub fn cut(&self, number: u64) -> bool {
        self.posts.iter().any(|post| post.cut(number))
    }

    /// Counts one connection of a worker less, and wakes the thread that accepts connections.
    pub fn end_connection(&self, worker: usize) {
        if let Some(post) = self.posts.get(worker) {
            post.remove_connection();
        }
        self.accepting.ring();
    }

    /// Notes why a worker couldn't go on.
    pub fn fail(&self, failure: Failure) {
        self.failures.note(failure);
        self.accepting.ring();
    }
}
