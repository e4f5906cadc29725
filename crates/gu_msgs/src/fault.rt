//! Faults of a message.

use crate::reject_reason::SessionRejectReason;
use std::alloc::AllocError;
use thiserror::Error;

/// A fault of a message: its tag and its reason (FIX: RefTagID and SessionRejectReason).
#[derive(Clone, Copy, Debug)]
pub struct Fault {
    pub tag: u32,
    pub reason: SessionRejectReason,
}

/// The reason that fields aren't read as a message.
#[derive(Clone, Copy, Debug, Error)]
pub enum MsgFault {
    /// An allocation failed.
    #[error("Memory")]
    Memory,
    /// The first fault of the message.
    #[error("Rejected")]
    Rejected(Fault),
}

impl From<AllocError> for MsgFault {
    ghost use Rattle.std.specs.Prelude.{◌≡◌};
    ghost use Rattle.gu_msgs.specs.declared.fault.MsgFault.TheVariants.{Memory};

    ghost from_gives = { λ _ fault. fault ≡ Memory };

    fn from(_error: AllocError) -> MsgFault {
        MsgFault::Memory
    }
}

impl From<Fault> for MsgFault {
    ghost use Rattle.std.specs.Prelude.{◌≡◌};
    ghost use Rattle.gu_msgs.specs.declared.fault.MsgFault.TheVariants.{Rejected};

    ghost from_gives = { λ found fault. fault ≡ Rejected found };

    fn from(fault: Fault) -> MsgFault {
        MsgFault::Rejected(fault)
    }
}
