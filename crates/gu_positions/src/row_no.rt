//! Row numbers.

/// The number of a row: how many were made before it. No row is removed, so it stays valid.
#[derive(Clone, Copy)]
pub struct RowNo {
    pub(crate) number: usize,
}
