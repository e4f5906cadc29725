//! The journal of a day in a log: each batch is one entry of a desk.

ghost use Rattle.std.specs.Prelude.{◌≡◌, ◌≤◌, ◌++◌, ◌⊎◌, List, ℕ, length};
ghost use Rattle.gu_etcd.specs.Kept.{kept_by, leader_of, node_of};
ghost use Rattle.gu_etcd.specs.Keys.{IsName};
ghost use Rattle.gu_etcd.specs.Log.{HasBegun, entry_of};
ghost use Rattle.gu_etcd.specs.Texts.{own_part, text_of_log};

use crate::{AppendError, Appender, Name, Node, entry_of};
use gu_journal::{Sink, SinkError, Stopped};
use std::alloc::Global;

/// A log that a desk leads, which had a number of entries when the desk's sink began.
#[derive(Drop)]
pub enum Led<N: Node> {
    /// Nothing has stopped its appender.
    Going {
        start: u64,
        appender: Appender<N>,
    },
    /// An error has stopped its appender.
    Ended {
        start: u64,
        stopped: Stopped<N, AppendError>,
    },
}

impl<N: Node> Led<N> {
    ghost use Rattle.gu_etcd.specs.Sinks.{node_in};

    /// Returns a reference to the node with the log.
    pub fn node(&self) -> &N
        ensures { result.now ≡ node_in self.now }
    {
        match self {
            Led::Going { appender, .. } => appender.node(),
            Led::Ended { stopped, .. } => stopped.place(),
        }
    }
}

/// A sink that appends its batches to a log in etcd, as entries of one desk.
#[derive(Drop)]
pub struct LogSink<N: Node> {
    alloc: Global,
    appender: Appender<N>,
    /// The name under which the desk leads.
    desk: Name,
    /// How many entries the log had when the sink began.
    start: u64,
    ghost leads: { N.is_honest (node_of appender) → desk ≡ leader_of appender },
    ghost started: { N.is_honest (node_of appender) → start ≤ length (kept_by appender) },
    ghost own: { N.is_honest (node_of appender) → own_part start (leader_of appender) (kept_by appender) ≡ kept_by appender },
    ghost found: { N.is_honest (node_of appender) → (log : List (List ℕ)) → N.may_hold (node_of appender) log
        → own_part start (leader_of appender) log ≡ kept_by appender },
}

impl<N: Node> LogSink<N> {
    ghost use Rattle.gu_etcd.specs.Sinks.{appender_of, led_by, start_in};

    /// Makes the sink of the desk that leads a log under this name. The entries that its appender has kept are the beginning of its text.
    pub fn new(alloc: Global, appender: Appender<N>, desk: Name) -> Self
        requires { N.is_honest (node_of appender) → desk ≡ leader_of appender }
        ensures appender { appender_of result ≡ appender }
        ensures start { N.is_honest (node_of appender) → start_in (led_by result) ≡ length (kept_by appender) }
    {
        let start = appender.count();
        LogSink {
            alloc,
            appender,
            desk,
            start,
        }
    }

    /// Returns a reference to the node with the log.
    pub fn node(&self) -> &N
        ensures { result.now ≡ node_of (appender_of self.now) }
    {
        self.appender.node()
    }

    /// Returns the number of entries kept.
    pub fn count(&self) -> u64
        ensures { N.is_honest (node_of (appender_of self.now)) → result ≡ length (kept_by (appender_of self.now)) }
    {
        self.appender.count()
    }
}

impl From<AppendError> for SinkError {
    ghost use Rattle.gu_etcd.specs.Appending.{sink_error_of};

    ghost from_gives = { λ error told. told ≡ sink_error_of error };

    fn from(error: AppendError) -> Self {
        match error {
            AppendError::Memory => SinkError::Memory,
            AppendError::Failed => SinkError::Failed,
            AppendError::Fenced => SinkError::Fenced,
            AppendError::Full => SinkError::Full,
        }
    }
}

impl<N: Node> Sink for LogSink<N> {
    ghost use Rattle.gu_etcd.specs.Sinks.{found_since, kept_in, kept_is_found, led_by, node_in, shortages_in};

    type Place = Led<N>;

    ghost is_honest = { λ led. N.is_honest (node_in led) };

    ghost moment = { λ led. N.moment (node_in led) };

    ghost left_since = { λ led. found_since led };

    ghost failures = { λ led. N.counts.failures (node_in led) };

    ghost refusals = { λ led. N.counts.refusals (node_in led) };

    ghost shortages = { λ led. shortages_in led };

    ghost place = { λ sink. led_by sink };

    ghost kept = { λ sink. kept_in sink };

    ghost finds_kept = { λ sink outcome honest found. kept_is_found N.only_now sink outcome honest found };

    fn append(self, batch: &[u8]) -> Result<Self, Stopped<Led<N>, SinkError>> {
        let LogSink {
            alloc,
            appender,
            desk,
            start,
        } = self;
        let Ok(entry) = entry_of(alloc, desk.as_bytes(), batch) else {
            return Err(Stopped::new(Led::Going { start, appender }, SinkError::Memory));
        };
        match appender.append(alloc, &entry) {
            Ok(appender) => Ok(LogSink {
                alloc,
                appender,
                desk,
                start,
            }),
            Err(stopped) => {
                let error = SinkError::from(stopped.error());
                Err(Stopped::new(Led::Ended { start, stopped }, error))
            }
        }
    }
}

/// What a desk finds of a log that has begun with a batch of its own: what was kept, or the same and the whole batch.
pub fn a_batch_is_found_whole_or_not_at_all()
    ensures { (start : ℕ) (kept : List (List ℕ)) (desk batch : List ℕ) → IsName desk → start ≤ length kept → own_part start desk kept ≡ kept
        → (log : List (List ℕ)) → HasBegun kept desk (entry_of desk batch) log
        → (text_of_log (own_part start desk log) ≡ text_of_log kept) ⊎ (text_of_log (own_part start desk log) ≡ text_of_log kept ++ batch) }
{}
