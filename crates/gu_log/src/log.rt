//! The day's log, as the threads of the day share it.

use crate::event::{Beginning, Event};
use crate::rows::append_beginning;
use crossbeam_channel::{Receiver, RecvTimeoutError, Sender, TryRecvError};
use gu_terms::Moment;
use std::alloc::{AllocError, Global};
use std::rt::Clock;
use std::sync::Wait;
use std::sync::atomic::{AtomicBool, AtomicU64, Ordering};
use std::time::{Duration, SystemTime, UNIX_EPOCH};

/// How many notes may wait to be written.
const MOST_NOTES: usize = 1_024;

/// How long the log's thread waits for a note before it looks round, in milliseconds.
const PAUSE_MS: u64 = 100;

/// What happened, and when.
#[derive(Clone, Copy, Debug)]
pub(crate) struct Note {
    pub(crate) moment: Moment,
    pub(crate) event: Event,
}

/// The day's log. Any thread notes what happens, and none waits for it to be written.
#[derive(Drop)]
pub struct EventLog {
    /// The sender of notes; a None wakes the thread without one. A silent log has no sender.
    to: Option<Sender<Option<Note>>>,
    /// How many notes were dropped since their last report.
    lost: AtomicU64,
    /// The moment of the last note, in milliseconds.
    last: AtomicU64,
    has_ended: AtomicBool,
}

/// The receiver from which the log's thread takes notes.
#[derive(Drop)]
pub struct LogReader {
    from: Receiver<Option<Note>>,
    /// The lines of what happened before its thread begins.
    begun: Vec<u8>,
}

/// What was taken.
#[derive(Drop)]
pub(crate) enum Taken {
    /// The next note.
    Note(Note),
    /// There is none for now.
    Nothing,
    /// It was woken.
    Awake,
    /// None comes any more.
    Over,
}

/// Returns the clock's moment, unless the clock fails.
fn moment_by<R: Clock>(rt: &R) -> Option<Moment> {
    let time = SystemTime::now(rt).ok()?;
    let since = time.duration_since(UNIX_EPOCH).ok()?;
    Moment::new(u64::try_from(since.as_millis()).ok()?)
}

impl EventLog {
    /// Creates a day's log and the reader for its thread. At most 1,024 notes may wait to be written.
    pub fn new(alloc: Global) -> Result<(Self, LogReader), AllocError> {
        let (to, from) = crossbeam_channel::bounded(alloc, MOST_NOTES)?;
        let reader = LogReader {
            from,
            begun: Vec::new(alloc),
        };
        Ok((EventLog::over(Some(to)), reader))
    }

    /// Creates the log of a day that has none. What is noted goes nowhere.
    pub fn silent() -> Self {
        EventLog::over(None)
    }

    /// Creates the log whose notes go there.
    fn over(to: Option<Sender<Option<Note>>>) -> Self {
        EventLog {
            to,
            lost: AtomicU64::new(0),
            last: AtomicU64::new(0),
            has_ended: AtomicBool::new(false),
        }
    }

    /// Notes what happens now. If too many notes wait, or nobody takes them any more, it is dropped and counted.
    pub fn note<R: Wait + Clock>(&self, rt: &R, event: Event) {
        match &self.to {
            Some(to) => self.send(rt, to, event),
            None => drop(event),
        }
    }

    /// Sends what happens now, or counts it.
    fn send<R: Wait + Clock>(&self, rt: &R, to: &Sender<Option<Note>>, event: Event) {
        let note = Note {
            moment: self.moment(rt),
            event,
        };
        if to.try_send(rt, Some(note)).is_err() {
            self.lose(1);
        }
    }

    /// Returns whether what is noted goes nowhere.
    pub fn is_silent(&self) -> bool {
        self.to.is_none()
    }

    /// Ends the notes, and wakes the log's thread if it waits for one.
    pub fn end<R: Wait>(&self, rt: &R) {
        self.has_ended.store(true, Ordering::SeqCst);
        if let Some(to) = &self.to {
            // If no room is left, it doesn't wait.
            let _ = to.try_send(rt, None);
        }
    }

    /// Returns whether nothing more is noted.
    pub(crate) fn has_ended(&self) -> bool {
        self.has_ended.load(Ordering::SeqCst)
    }

    /// Returns the moment; if the clock fails, that of the last note.
    pub(crate) fn moment<R: Clock>(&self, rt: &R) -> Moment {
        if let Some(moment) = moment_by(rt) {
            self.last.store(moment.get(), Ordering::SeqCst);
            return moment;
        }
        match Moment::new(self.last.load(Ordering::SeqCst)) {
            Some(moment) => moment,
            None => Moment::known(0),
        }
    }

    /// Counts lines that are lost.
    pub(crate) fn lose(&self, lines: u64) {
        let _ = self.lost.fetch_add(lines, Ordering::SeqCst);
    }

    /// Takes the count of the lines that are lost.
    pub(crate) fn take_lost(&self) -> u64 {
        self.lost.swap(0, Ordering::SeqCst)
    }
}

impl LogReader {
    /// Notes what happens before its thread begins: its line is written first.
    pub fn begin<R: Clock>(&mut self, rt: &R, beginning: &Beginning<'_>) -> Result<(), AllocError> {
        let moment = moment_by(rt).unwrap_or(Moment::known(0));
        append_beginning(&mut self.begun, moment, beginning)
    }

    /// Returns the lines of what happened before.
    pub(crate) fn begun(&self) -> &[u8] {
        &self.begun
    }

    /// Forgets them, once they were written.
    pub(crate) fn forget_begun(&mut self) {
        self.begun.clear();
    }

    /// Takes the next note. It waits a little for one, unless nothing more is noted.
    pub(crate) fn take<R: Wait + Clock>(&self, rt: &R, has_ended: bool) -> Taken {
        if has_ended {
            return self.take_now(rt);
        }
        match self.from.recv_timeout(rt, Duration::from_millis(PAUSE_MS)) {
            Ok(Some(note)) => Taken::Note(note),
            Ok(None) => Taken::Awake,
            Err(RecvTimeoutError::Timeout) => Taken::Nothing,
            Err(RecvTimeoutError::Disconnected) => Taken::Over,
        }
    }

    /// Takes the next note, if one is there.
    fn take_now<R: Wait>(&self, rt: &R) -> Taken {
        match self.from.try_recv(rt) {
            Ok(Some(note)) => Taken::Note(note),
            Ok(None) => Taken::Awake,
            Err(TryRecvError::Empty) => Taken::Nothing,
            Err(TryRecvError::Disconnected) => Taken::Over,
        }
    }
}
