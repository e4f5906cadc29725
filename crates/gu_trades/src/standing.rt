//! A report's terms and status.

use crate::terms::Terms;

/// An accepted report's terms, and whether it is a side of a trade.
#[derive(Clone, Copy, Debug, PartialEq, Eq)]
pub struct Standing {
    pub terms: Terms,
    /// Whether two reports have its match id, and so make a trade.
    pub is_of_trade: bool,
}
