//! Counterparts of a new report.

use crate::terms::Terms;

/// The counterpart of a new report under its match id.
#[derive(Clone, Copy, Debug, PartialEq, Eq)]
pub enum Counterpart {
    /// There is no report with its match id.
    Nobody,
    /// A report with these terms waits for it.
    Waiting(Terms),
    /// There are two reports, or one that isn't its other side.
    Conflicting,
}
