//! What the workers of a test share, and a worker.

use crate::book_house::{BookHouse, SharedBook};
use crate::books::book_after;
use crate::dials::{Dials, gate};
use crate::hosts::Host;
use crate::switchboard::{Switchboard, Waits};
use crate::watches::{Hands, Ring, Watch};
use crate::wires::{Line, Wire};
use gu_houses::OverBook;
use gu_lease::Gate;
use gu_posts::{CallSender, Posts, calls};
use gu_script::ScriptError;
use gu_secrets::Secrets;
use gu_terms::FirmId;
use gu_workers::{Shared, Worker, WorkerSettings, WorkerTools};
use std::alloc::{AllocError, Global};
use std::cell::{Cell, RefCell};
use trials::meant;

/// How many milliseconds answers may be held of which none goes out.
pub const WRITE_WAIT_MS: u64 = 10_000;

/// How many entries are kept on a day without a journal.
pub const NO_JOURNAL: u64 = u64::MAX;

/// How a test begins.
#[derive(Clone, Copy)]
pub struct Setting<'a> {
    /// The script that leads to its book, in which `/` ends a line and `(x%*1..9)` is nine lines.
    pub script: &'a str,
    /// How many connections may come in all.
    pub wires: usize,
    pub workers: usize,
    /// How many places each worker has.
    pub places: usize,
    /// How many entries are kept when it begins.
    pub kept: u64,
    /// The file of secrets, if it isn't empty.
    pub secrets: &'a str,
    /// Whether first messages are looked at though there are no secrets.
    pub looks: bool,
}

/// What the workers of a test share.
#[derive(Drop)]
pub struct Floor {
    pub wires: Vec<Wire>,
    pub hands: Hands,
    pub waits: Waits,
    pub host: Host,
    pub book: SharedBook,
    pub posts: Posts<Ring>,
    pub gate: Gate<Dials>,
    firms: Vec<FirmId>,
    secrets: Option<Secrets>,
    looks: bool,
}

/// A worker of a test.
pub type Hand<'a> = Worker<'a, Switchboard<'a>, Watch<'a>, BookHouse<'a>, Host, Ring, Dials>;

/// The sender of connections to a worker of a test.
pub type Callers<'a> = CallSender<'a, Line<'a>, Ring>;

/// Returns the firms that may log on.
fn firms(alloc: Global) -> Result<Vec<FirmId>, AllocError> {
    let mut firms = Vec::new(alloc);
    for name in [b"E1", b"E2", b"C1", b"C2"] {
        if let Some(firm) = FirmId::new(name) {
            firms.push(firm)?;
        }
    }
    Ok(firms)
}

/// Returns the secrets of a file, if it isn't empty.
fn secrets(alloc: Global, file: &str, firms: &[FirmId]) -> Option<Secrets> {
    if file.is_empty() {
        return None;
    }
    Secrets::read(alloc, file.as_bytes(), firms).ok()
}

/// Bells that nobody rang.
fn bells(alloc: Global, count: usize) -> Result<Vec<Ring>, AllocError> {
    let mut bells = Vec::new(alloc);
    for _ in 0..count {
        bells.push(Ring::new())?;
    }
    Ok(bells)
}

/// Connections that haven't come.
fn wires(alloc: Global, count: usize) -> Result<Vec<Wire>, AllocError> {
    let mut wires = Vec::new(alloc);
    for _ in 0..count {
        wires.push(Wire::new(alloc))?;
    }
    Ok(wires)
}

impl Floor {
    /// Returns what workers share at nine, of a book after a script.
    pub fn new(alloc: Global, setting: Setting<'_>) -> Result<Self, ScriptError> {
        let script = meant(alloc, setting.script)?;
        let house = OverBook::new(book_after(alloc, &script)?);
        let bells = bells(alloc, setting.workers)?;
        let firms = firms(alloc)?;
        let secrets = secrets(alloc, setting.secrets, &firms);
        Ok(Floor {
            wires: wires(alloc, setting.wires)?,
            hands: Hands::new(),
            waits: Waits {
                asked: Cell::new(None),
                takes_time: Cell::new(false),
                has_failed: Cell::new(false),
                besides: RefCell::new(Vec::new(alloc)),
            },
            host: Host::new(),
            book: SharedBook::new(house),
            posts: Posts::new(alloc, bells, setting.places, Ring::new(), setting.kept)?,
            gate: gate(),
            firms,
            secrets,
            looks: setting.looks,
        })
    }

    /// Returns a worker, and the sender of its connections.
    pub fn worker(
        &self,
        alloc: Global,
        worker: usize,
        places: usize,
    ) -> Result<(Hand<'_>, Callers<'_>), AllocError> {
        let (callers, calls) = calls(alloc, &self.posts, worker, places)?;
        let bell = match self.posts.post(worker) {
            Some(post) => Some(post.bell()),
            None => None,
        };
        let settings = WorkerSettings {
            worker,
            places,
            write_wait_ms: WRITE_WAIT_MS,
            keeps_count: false,
        };
        let tools = WorkerTools {
            poller: Switchboard::new(&self.wires, &self.hands, &self.waits, bell),
            timer: Watch::new(&self.hands),
            house: BookHouse::new(&self.book, &self.posts),
            calls,
        };
        let shared = Shared {
            firms: &self.firms,
            secrets: self.secrets.as_ref(),
            looks: self.looks,
            admission: &self.host,
            posts: &self.posts,
            gate: &self.gate,
        };
        match Worker::new(alloc, shared, settings, tools) {
            Ok(worker) => Ok((worker, callers)),
            Err(house) => {
                drop(house);
                Err(AllocError)
            }
        }
    }
}
