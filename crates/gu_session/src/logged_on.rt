//! The state of a session after a firm logs on.

use crate::ask_ref::AskRef;
use gu_msgs::Question;
use gu_terms::{FirmId, Moment};

/// The state of a session after a firm logs on, as far as the rules change it.
#[derive(Clone, Copy)]
pub struct LoggedOn {
    /// The seconds between heartbeats, or 0 for none.
    pub heart_bt_int: u64,
    /// The expected number of the firm's next message.
    pub expected: u64,
    /// The time when the last frame arrived.
    pub heard_at: Moment,
    pub firm: FirmId,
    /// Whether a TestRequest was sent since then.
    pub is_tested: bool,
}

/// A request handed out and not yet answered.
#[derive(Clone, Copy)]
pub struct Waiting {
    pub reference: AskRef,
    /// The data that the answer needs.
    pub question: Question,
}
