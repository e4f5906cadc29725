//! Passes entries on to the workers that serve a firm they inform, and to the thread that writes the journal.

use crate::keeping::News;
use crossbeam_channel::Sender;
use gu_desk::{FirmFilter, Origin};
use gu_houses::Informs;
use gu_log::{Event, EventLog};
use gu_posts::Posts;
use gu_sockets::PollBell;
use std::rt::Clock;
use std::sync::Wait;

/// The log says that the book is filling once it has this many entries, of the 1,000,000 that it may have.
const NEARLY_FULL: u64 = 900_000;

/// Passes entries on to the workers that serve a firm they inform, and to the thread that writes the journal, if the day has one.
#[derive(Drop)]
pub struct Informer<'a, R> {
    rt: &'a R,
    posts: &'a Posts<PollBell>,
    journal: Option<Sender<News>>,
    log: &'a EventLog,
}

impl<'a, R> Informer<'a, R> {
    /// Creates one for these workers, and for the thread that receives this news.
    pub fn new(
        rt: &'a R,
        posts: &'a Posts<PollBell>,
        journal: Option<Sender<News>>,
        log: &'a EventLog,
    ) -> Self {
        Informer {
            rt,
            posts,
            journal,
            log,
        }
    }
}

impl<R: Wait> Informer<'_, R> {
    /// Informs the thread that writes the journal. If that fails, the journal can't go on, and the day ends.
    fn tell(&self, news: News) {
        if let Some(journal) = &self.journal {
            if let Err(untold) = journal.send(self.rt, news) {
                drop(untold);
                self.posts.stop();
            }
        }
    }

    /// Announces that no more entries are made.
    pub fn end(&self) {
        self.tell(News::Over);
    }
}

/// The same for operators' entries, which are logged too.
#[derive(Drop)]
pub struct OperatorInformer<'a, R> {
    pub informer: &'a Informer<'a, R>,
}

impl<R: Wait + Clock> Informs for OperatorInformer<'_, R> {
    fn inform(&self, number: u64, firms: FirmFilter, origin: Origin) {
        self.informer.inform(number, firms, origin);
        let event = Event::OperatorEntered { entry: number };
        self.informer.log.note(self.informer.rt, event);
    }
}

impl<R: Wait + Clock> Informs for Informer<'_, R> {
    fn inform(&self, number: u64, firms: FirmFilter, origin: Origin) {
        self.tell(News::Made { number, origin });
        self.posts.inform(number, firms);
        if number == NEARLY_FULL {
            self.log
                .note(self.rt, Event::BookFilling { entries: number });
        }
    }
}
