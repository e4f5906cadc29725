//! Results of asking a reader once.

/// The result of asking a reader once.
#[derive(Clone, Copy, Debug, PartialEq, Eq)]
pub enum Turn {
    /// This many bytes; 0 only at the end of the input.
    Bytes(usize),
    /// Nothing for now: more may come.
    Nothing,
    /// Nothing more: the reader failed, or its reads are used up.
    Stopped,
}
