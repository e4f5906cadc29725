//! The limits on what the house accepts.

/// The most lots in a trade, a give-up or an offer.
pub const MOST_LOTS: u64 = 1_000_000;

/// The most lots that a daily limit may have, and so the most room under one.
pub const MOST_LIMIT: u64 = 1_000_000_000;

/// The most lines in a give-up.
pub const MOST_LINES: usize = 16;

/// The highest number of an offer in the whole book: sixteen for each entry.
pub const MOST_OFFERS: u64 = 16_000_000;

/// The most open offers in a product group.
pub const MOST_OPEN_OFFERS: usize = 4_096;

/// The most entries in a history.
pub const MOST_ENTRIES: usize = 1_000_000;
