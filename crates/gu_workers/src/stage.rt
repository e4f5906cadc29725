//! The stages of a connection, and its deadlines.

ghost use Rattle.std.specs.Prelude.{◌≡◌, false, true};
ghost use Rattle.gu_engine.specs.Turned.{is_last};
ghost use Rattle.gu_workers.specs.Stages.{is_leaving};

use crate::timer::Now;
use gu_engine::Turned;
use gu_log::EndCause;
use gu_terms::Moment;

/// How many milliseconds a firm may take from the accept of its connection to its Logon.
pub const LOGON_WAIT_MS: u64 = 30_000;

/// How many milliseconds after the close begins a connection is dropped if no Logout was sent to it.
const CLOSE_WAIT_MS: u64 = 20_000;

/// How many milliseconds after the close begins every connection is dropped.
const LAST_WAIT_MS: u64 = 35_000;

/// How many milliseconds a connection is still read after its end, until its peer ends it too.
pub const HANG_UP_MS: u64 = 1_000;

/// The same after the Logout of a close, which the firm has to answer.
pub const LOGOUT_MS: u64 = 10_000;

/// The stage of a connection.
#[derive(Clone, Copy, Debug)]
pub enum Stage {
    /// Its firm isn't logged on yet, and has until this time.
    LoggingOn { until: u64 },
    /// Its firm is logged on.
    Talking,
    /// Its session is over: what is held goes out, and then its peer has this many milliseconds to end it too.
    GoingOut { wait_ms: u64 },
    /// All has gone out: what comes until this time is dropped.
    HangingUp { until: u64 },
}

impl Stage {
    /// Returns the stage of a connection that begins now.
    pub fn begin(now: &Now) -> Self
        ensures { is_leaving result ≡ false }
    {
        Stage::LoggingOn {
            until: now.ms.saturating_add(LOGON_WAIT_MS),
        }
    }

    /// Returns whether its session is over.
    pub fn is_leaving(self) -> bool
        ensures { result ≡ is_leaving self }
    {
        matches!(self, Stage::GoingOut { .. } | Stage::HangingUp { .. })
    }

    /// Returns whether all has gone out.
    pub fn is_hanging_up(self) -> bool {
        matches!(self, Stage::HangingUp { .. })
    }

    /// Returns the stage after a turn: unchanged, unless it was the last turn of the session.
    pub fn after(self, turned: Turned) -> Self
        ensures last { is_last turned ≡ true → is_leaving result ≡ true }
        ensures other { is_last turned ≡ false → result ≡ self }
    {
        if turned.is_last() {
            Stage::GoingOut {
                wait_ms: HANG_UP_MS,
            }
        } else {
            self
        }
    }

    /// Returns why a connection in this stage ends once its time is up.
    pub fn end_cause(self) -> EndCause {
        match self {
            Stage::LoggingOn { .. } => EndCause::NoLogon,
            Stage::Talking | Stage::GoingOut { .. } => EndCause::Closing,
            Stage::HangingUp { .. } => EndCause::HungUp,
        }
    }

    /// Returns when, in milliseconds, a connection in this stage is dropped if nothing happens, given when the close began, if it did.
    pub fn drops_at(self, closing: Option<u64>) -> u64 {
        let ends = match self {
            Stage::LoggingOn { until } | Stage::HangingUp { until } => until,
            Stage::Talking | Stage::GoingOut { .. } => u64::MAX,
        };
        let Some(since) = closing else {
            return ends;
        };
        let wait = if self.is_leaving() {
            LAST_WAIT_MS
        } else {
            CLOSE_WAIT_MS
        };
        ends.min(since.saturating_add(wait))
    }
}

/// When something is due, by the timer's milliseconds and by the sessions' clock.
#[derive(Clone, Copy, Debug)]
pub struct Deadline {
    pub ms: u64,
    pub moment: u64,
}

impl Deadline {
    /// Returns a deadline that never comes.
    pub fn never() -> Self {
        Deadline {
            ms: u64::MAX,
            moment: u64::MAX,
        }
    }

    /// Returns the deadline at which a session's tick has an effect.
    pub fn of_session(due: Option<Moment>) -> Self {
        Deadline {
            ms: u64::MAX,
            moment: match due {
                Some(moment) => moment.get(),
                None => u64::MAX,
            },
        }
    }

    /// Returns the earlier of two deadlines.
    pub fn min(self, other: Deadline) -> Self {
        Deadline {
            ms: self.ms.min(other.ms),
            moment: self.moment.min(other.moment),
        }
    }

    /// Returns whether it has come.
    pub fn has_come(self, now: &Now) -> bool {
        self.ms <= now.ms || self.moment <= now.moment.get()
    }

    /// Returns how many milliseconds are left until it comes.
    pub fn left_ms(self, now: &Now) -> u64 {
        let by_timer = self.ms.saturating_sub(now.ms);
        let by_clock = self.moment.saturating_sub(now.moment.get());
        by_timer.min(by_clock)
    }
}
