//! What an operator asks besides the book.

use gu_posts::ConnectionStatus;
use gu_terms::{FirmId, Moment};
use std::alloc::{AllocError, Global};

/// How many connections of firms there are.
#[derive(Clone, Copy, Debug, PartialEq, Eq)]
pub struct Places {
    /// How many there are now.
    pub now: u64,
    /// How many there may be at once.
    pub most: u64,
    /// How many there were in all.
    pub all: u64,
}

/// What an operator asks besides the book: the connections of firms, and the end of the day.
pub trait Office {
    /// Returns what is shown of each connection.
    fn connections(&self, alloc: Global) -> Result<Vec<ConnectionStatus>, AllocError>;

    /// Returns how many connections there are.
    fn places(&self) -> Places;

    /// Returns the firms of the reference, in its order.
    fn firms(&self) -> &[FirmId];

    /// Returns the moment, by the clock that the moments of the connections are of, if it can be had.
    fn now(&self) -> Option<Moment>;

    /// Drops the connection of this number, and returns whether there is one.
    fn cut(&self, number: u64) -> bool;

    /// Closes the day, and returns whether it was open until then.
    fn close(&self) -> bool;

    /// Returns whether the day is being closed.
    fn is_closing(&self) -> bool;

    /// Returns whether the day is in a log, which this desk leads.
    fn leads_log(&self) -> bool;
}

/// Returns the moment of an office, or the beginning of 1970 if it can't be had.
pub(crate) fn moment_of<O: Office>(office: &O) -> Moment {
    office.now().unwrap_or(Moment::known(0))
}
