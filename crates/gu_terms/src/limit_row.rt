//! Limits as of a moment.

use crate::limit_key::LimitKey;

/// A limit, the lots of it used today and the room left, in lots.
#[derive(Clone, Copy, Debug, PartialEq, Eq)]
pub struct LimitRow {
    pub key: LimitKey,
    pub limit: u64,
    pub used: u64,
    pub room: u64,
}
