//! The thread that writes the journal of a day.

use crate::floor::Floor;
use crate::journal_end::{LostBy, LostJournal};
use crate::origins::Origins;
use crossbeam_channel::{Receiver, RecvTimeoutError};
use gu_desk::{EntryLedger, LotLedger, Origin};
use gu_engine::{Clock as MomentClock, SystemClock};
use gu_journal::Sink;
use gu_keeping::{Keeper, Unkept};
use gu_log::Event;
use std::alloc::{AllocError, Global};
use std::rt::Clock;
use std::sync::{Wait, WaitMethods};
use std::time::Duration;

/// How many entries a batch may have.
const MOST_AT_ONCE: usize = 1_024;

/// If an entry is kept more than this many milliseconds after it was made, the log says so.
const LONG_MS: u64 = 1_000;

/// How many milliseconds pass at most before a desk that needs a lease sees that it has ended.
const LOOK_MS: u64 = 250;

/// News for the thread that writes the journal.
#[derive(Drop)]
pub enum News {
    /// The entry of this number was made.
    Made { number: u64, origin: Origin },
    /// No more entries are made.
    Over,
}

/// Returns the next news. A desk that needs a lease waits for a time only.
fn next_of<R: Wait + Clock>(
    rt: &R,
    news: &Receiver<News>,
    needs_lease: bool,
) -> Result<News, RecvTimeoutError> {
    if needs_lease {
        return news.recv_timeout(rt, Duration::from_millis(LOOK_MS));
    }
    match news.recv(rt) {
        Ok(first) => Ok(first),
        Err(_) => Err(RecvTimeoutError::Disconnected),
    }
}

/// What the thread that writes the journal knows about entries that aren't kept yet.
#[derive(Drop)]
struct Unwritten {
    origins: Origins,
    /// Whether no more entries are made.
    is_over: bool,
}

impl Unwritten {
    /// Creates it for a day with this many entries kept.
    fn after(alloc: Global, kept: usize) -> Self {
        Unwritten {
            origins: Origins::after(alloc, kept as u64),
            is_over: false,
        }
    }

    /// Notes one piece of news.
    fn note(&mut self, news: News) -> Result<(), AllocError> {
        match news {
            News::Made { number, origin } => self.origins.note(number, origin),
            News::Over => {
                self.is_over = true;
                Ok(())
            }
        }
    }

    /// Waits for news, and notes what there is. A desk that needs a lease waits no longer than it may go without a look at it.
    fn wait<R: Wait + Clock>(
        &mut self,
        rt: &R,
        news: &Receiver<News>,
        needs_lease: bool,
    ) -> Result<(), AllocError> {
        match next_of(rt, news, needs_lease) {
            Ok(first) => self.note(first)?,
            Err(RecvTimeoutError::Timeout) => {}
            Err(RecvTimeoutError::Disconnected) => self.is_over = true,
        }
        for more in news.try_iter(rt).take(MOST_AT_ONCE) {
            self.note(more)?;
        }
        Ok(())
    }
}

/// Logs how long it took to keep these entries, if that was long. Without a log the clock isn't read.
fn note_delay<E: EntryLedger, S: LotLedger, R: Wait + Clock>(
    floor: &Floor<'_, E, S, R>,
    kept: &[Origin],
) {
    let Some(first) = kept.first().filter(|_| !floor.log.is_silent()) else {
        return;
    };
    let Ok(now) = SystemClock::new(floor.rt).now() else {
        return;
    };
    let ms = now.get().saturating_sub(first.moment.get());
    if ms > LONG_MS {
        floor.note(Event::JournalBehind {
            ms,
            entries: kept.len() as u64,
        });
    }
}

/// Keeps the next entries, up to the first whose origin isn't known yet, and publishes how many are kept.
fn keep_known<E: EntryLedger, S: LotLedger, R: Wait + Clock, K: Sink>(
    floor: &Floor<'_, E, S, R>,
    mut keeper: Keeper<E, K>,
    unwritten: &mut Unwritten,
) -> Result<Keeper<E, K>, Unkept<Keeper<E, K>, K::Place>> {
    for _batch in floor.rt.forever() {
        let mut ready = Vec::new(floor.alloc);
        if unwritten.origins.ready(MOST_AT_ONCE, &mut ready).is_err() {
            return Err(Unkept::Memory(keeper));
        }
        if ready.is_empty() {
            break;
        }
        keeper = keeper.keep(floor.alloc, floor.rt, floor.desk, &ready)?;
        let kept = keeper.count() as u64;
        unwritten.origins.forget(kept);
        floor.show_kept(kept);
        note_delay(floor, &ready);
    }
    Ok(keeper)
}

/// Returns why the journal couldn't go on.
fn lost_by<E: EntryLedger, K: Sink + Drop>(
    unkept: Unkept<Keeper<E, K>, K::Place>,
) -> LostBy<K::Place> {
    match unkept {
        Unkept::Memory(keeper) => {
            drop(keeper);
            LostBy::Memory
        }
        Unkept::Missing(keeper) | Unkept::TooLong(keeper) => {
            drop(keeper);
            LostBy::Length
        }
        Unkept::Failed(stopped) => LostBy::Place(stopped),
    }
}

/// Returns whether entries may be written: the desk needs no lease, or leads by it now.
fn may_write<E: EntryLedger, S: LotLedger, R: Wait + Clock>(
    floor: &Floor<'_, E, S, R>,
    needs_lease: bool,
) -> bool {
    !needs_lease || floor.gate.leads(floor.rt)
}

/// Keeps each entry of the day, until no more are made or the lease of the desk has ended.
fn keep_day<E: EntryLedger, S: LotLedger, R: Wait + Clock, K: Sink + Drop>(
    floor: &Floor<'_, E, S, R>,
    mut keeper: Keeper<E, K>,
    news: &Receiver<News>,
) -> Result<Keeper<E, K>, LostBy<K::Place>> {
    let needs_lease = floor.gate.needs_lease();
    let mut unwritten = Unwritten::after(floor.alloc, keeper.count());
    let mut leads = may_write(floor, needs_lease);
    for _news in floor.rt.forever() {
        if !leads {
            drop(keeper);
            return Err(LostBy::Lease);
        }
        if unwritten.wait(floor.rt, news, needs_lease).is_err() {
            drop(keeper);
            return Err(LostBy::Memory);
        }
        leads = may_write(floor, needs_lease);
        if leads {
            keeper = match keep_known(floor, keeper, &mut unwritten) {
                Ok(keeper) => keeper,
                Err(unkept) => return Err(lost_by(unkept)),
            };
            if unwritten.is_over {
                break;
            }
        }
    }
    Ok(keeper)
}

/// What the thread that writes the journal hands back: the keeper, if it kept every entry.
pub type Kept<E, K> = Result<Keeper<E, K>, LostJournal<<K as Sink>::Place>>;

/// Writes the journal of a day until no more entries are made. If the journal can't go on, the day ends: answers that show kept entries
/// alone still go out.
pub fn keep_all<E: EntryLedger, S: LotLedger, R: Wait + Clock, K: Sink + Drop>(
    floor: &Floor<'_, E, S, R>,
    keeper: Keeper<E, K>,
    news: Receiver<News>,
) -> Kept<E, K> {
    let ended = keep_day(floor, keeper, &news);
    drop(news);
    match ended {
        Ok(keeper) => Ok(keeper),
        Err(by) => {
            floor.lose_journal();
            let kept = floor.posts.kept();
            floor.note(Event::JournalLost { kept });
            Err(LostJournal { kept, by })
        }
    }
}
