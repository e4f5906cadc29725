//! Errors of this crate's calls, and faults of fields.
ghost use Rattle.std.specs.Prelude.{◌≡◌};
ghost use Rattle.gu_fix.specs.RejectReason.{number_of};

use std::alloc::AllocError;
use thiserror::Error;

/// The reason that a feed doesn't take a piece.
#[derive(Clone, Copy, Debug, Error, PartialEq, Eq)]
pub enum FeedError {
    /// An allocation failed. The feed is unchanged, and the piece may be fed again.
    #[error("Memory")]
    Memory,
}

impl From<AllocError> for FeedError {
    ghost use Rattle.std.specs.Prelude.{◌≡◌};
    ghost use Rattle.gu_fix.specs.declared.error.FeedError.TheVariants.{Memory};

    ghost from_gives = { λ _ error. error ≡ Memory };

    fn from(_error: AllocError) -> FeedError {
        FeedError::Memory
    }
}

/// The reason that fields can't be encoded, in the order in which they are tested for over all fields.
#[derive(Clone, Copy, Debug, Error, PartialEq, Eq)]
pub enum EncodeError {
    /// An allocation failed.
    #[error("Memory")]
    Memory,
    /// The first tag isn't 35, or a tag is 0, 8, 9, 10 or above 999,999,999.
    #[error("BadTag")]
    BadTag,
    /// A value is empty.
    #[error("EmptyValue")]
    EmptyValue,
    /// A value contains SOH.
    #[error("SohInValue")]
    SohInValue,
    /// The message would have more than 65,536 bytes.
    #[error("TooLong")]
    TooLong,
}

/// The reason that a field or a message is rejected (SessionRejectReason, tag 373).
#[derive(Clone, Copy, Debug, PartialEq, Eq)]
pub enum SessionRejectReason {
    InvalidTagNumber,
    TagSpecifiedWithoutAValue,
}

impl SessionRejectReason {
    /// Returns its value on the wire.
    pub fn number(self) -> u32
        ensures { result ≡ number_of self }
    {
        match self {
            SessionRejectReason::InvalidTagNumber => 0,
            SessionRejectReason::TagSpecifiedWithoutAValue => 4,
        }
    }
}

/// The fault of a part of a message, and its tag: 0 if no tag can be read.
#[derive(Clone, Copy, Debug, PartialEq, Eq)]
pub struct FieldFault {
    pub tag: u32,
    pub reason: SessionRejectReason,
}
