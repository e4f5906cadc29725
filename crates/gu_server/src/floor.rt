//! What the threads of a server share.

ghost use Rattle.std.specs.Option.{option_map};
ghost use Rattle.std.specs.Prelude.{◌≡◌};

use crate::firm_places::FirmPlaces;
use crate::informer::{Informer, OperatorInformer};
use crate::kept_bell::KeptBell;
use crate::service::Service;
use gu_desk::{Desk, EntryLedger, LotLedger};
use gu_houses::{DeskAccess, DeskTools, OpenOrders, Shares, Tally};
use gu_lease::{Clocks, Gate};
use gu_log::{Event, EventLog};
use gu_posts::Posts;
use gu_secrets::Secrets;
use gu_sockets::PollBell;
use gu_terms::FirmId;
use gu_workers::Shared;
use std::alloc::Global;
use std::os::unix::net::UnixStream;
use std::rt::Clock;
use std::sync::atomic::{AtomicBool, Ordering};
use std::sync::{Mutex, Wait};

/// What the threads of a server share.
#[derive(Drop)]
pub struct Floor<'a, E: EntryLedger, S: LotLedger, R> {
    pub rt: &'a R,
    pub alloc: Global,
    pub desk: &'a Desk<E, S>,
    /// The firms of the desk's reference, each of which may log on. A firm's place in this list is the number of its door, if it has one.
    pub firms: &'a [FirmId],
    /// The secrets that firms need to log on, if there are any.
    pub secrets: Option<&'a Secrets>,
    /// The share that each firm's sessions may have, if there is a bound.
    pub shares: Option<&'a Shares>,
    /// The places that each firm's sessions hold.
    pub firm_places: &'a FirmPlaces<'a, R>,
    /// The workers' posts.
    pub posts: &'a Posts<PollBell>,
    /// The gate of the desk: nothing leaves without its permit.
    pub gate: &'a Gate<Clocks<'a, R>>,
    /// What informs the workers of entries.
    pub informer: &'a Informer<'a, R>,
    /// What informs them of operators' entries.
    pub operator_informer: &'a OperatorInformer<'a, R>,
    /// What wakes the threads that wait until entries are kept.
    pub kept_bell: &'a KeptBell,
    /// The orders of sweeps that wait.
    pub open_orders: &'a OpenOrders,
    pub tally: &'a Tally,
    /// The day's log.
    pub log: &'a EventLog,
    pub service: Service,
    /// Every so many accepted give-ups of a connection, a sweep of the group is ordered; with 0, none is.
    pub every: u64,
    /// How many milliseconds answers to a connection are held of which none goes out, after which it ends.
    pub write_wait_ms: u64,
    /// Whether all connections have ended: no operator is answered after that.
    pub is_over: &'a AtomicBool,
    /// The operators that closed the day and wait for its last lines.
    pub closers: &'a Mutex<Vec<UnixStream>>,
    ghost all_firms: { firms.now ≡ E.reference.firms },
}

impl<'a, E: EntryLedger, S: LotLedger, R> Floor<'a, E, S, R> {
    /// Returns what the workers share: exactly the firms of the desk's reference may log on.
    pub fn shared(&self) -> Shared<'a, FirmPlaces<'a, R>, PollBell, Clocks<'a, R>>
        ensures firms { result.firms.now ≡ E.reference.firms }
        ensures secrets { option_map (λ secrets. secrets.now) result.secrets ≡ option_map (λ secrets. secrets.now) self.now.secrets }
    {
        Shared {
            firms: self.firms,
            secrets: self.secrets,
            looks: !self.log.is_silent(),
            admission: self.firm_places,
            posts: self.posts,
            gate: self.gate,
        }
    }

    /// Returns what a seat works with, given what informs firms of its entries.
    pub fn tools<I>(&self, informs: &'a I) -> DeskTools<'a, E, S, R, I> {
        DeskTools {
            access: DeskAccess {
                rt: self.rt,
                desk: self.desk,
            },
            tally: self.tally,
            informs,
        }
    }

    /// Returns whether all connections have ended.
    pub fn is_over(&self) -> bool {
        self.is_over.load(Ordering::SeqCst)
    }

    /// Publishes that this many entries are kept: answers that show no later entry may go out.
    pub fn show_kept(&self, kept: u64) {
        self.posts.keep(kept);
        self.kept_bell.ring();
    }

    /// Publishes that no more entries will be kept.
    pub fn lose_journal(&self) {
        self.posts.stop();
        self.kept_bell.ring();
    }
}

impl<E: EntryLedger, S: LotLedger, R: Wait + Clock> Floor<'_, E, S, R> {
    /// Notes an event in the log.
    pub fn note(&self, event: Event) {
        self.log.note(self.rt, event);
    }

    /// Closes the day, and returns whether it was open.
    pub fn close(&self) -> bool {
        let was_open = !self.posts.is_closing();
        self.posts.close();
        if was_open {
            self.note(Event::DayClosing);
        }
        was_open
    }
}

impl<E: EntryLedger, S: LotLedger, R: Wait> Floor<'_, E, S, R> {
    /// Waits until this many entries are kept, and returns whether they are.
    pub fn await_kept(&self, number: u64) -> bool {
        self.kept_bell.wait(self.rt, self.posts, number)
    }

    /// Keeps the connection of an operator that waits for the day's last lines. If memory runs out, the connection is closed.
    pub fn keep_closer(&self, stream: UnixStream) {
        let _ = self.closers.lock(self.rt).push(stream);
    }
}
