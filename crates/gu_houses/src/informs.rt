//! Informing firms of entries as they are made.

use gu_desk::{FirmFilter, Origin};

/// Passes on to firms that there is an entry that they may have notices of.
pub trait Informs {
    /// Informs these firms, which include every firm notified of the entry, that the entry with this number was made by this origin. It is
    /// called after the hold in which the entry was made, and must not take the desk's lock for long.
    fn inform(&self, number: u64, firms: FirmFilter, origin: Origin);
}
