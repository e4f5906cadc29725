//! Reasons for rejecting a message at session level.

ghost use Rattle.std.specs.Prelude.{◌≡◌};
ghost use Rattle.gu_msgs.specs.RejectReasons.{number_of};

use gu_fix::SessionRejectReason as FieldReason;

/// The reason that a message is rejected (FIX: SessionRejectReason, tag 373).
#[derive(Clone, Copy, Debug)]
pub enum SessionRejectReason {
    InvalidTagNumber,
    RequiredTagMissing,
    TagSpecifiedWithoutAValue,
    ValueIsIncorrect,
    IncorrectDataFormat,
    CompIdProblem,
    InvalidMsgType,
    TagAppearsMoreThanOnce,
    IncorrectNumInGroupCount,
}

impl SessionRejectReason {
    /// Returns its value on the wire.
    pub fn number(self) -> u64
        ensures { result ≡ number_of self }
    {
        match self {
            SessionRejectReason::InvalidTagNumber => 0,
            SessionRejectReason::RequiredTagMissing => 1,
            SessionRejectReason::TagSpecifiedWithoutAValue => 4,
            SessionRejectReason::ValueIsIncorrect => 5,
            SessionRejectReason::IncorrectDataFormat => 6,
            SessionRejectReason::CompIdProblem => 9,
            SessionRejectReason::InvalidMsgType => 11,
            SessionRejectReason::TagAppearsMoreThanOnce => 13,
            SessionRejectReason::IncorrectNumInGroupCount => 16,
        }
    }
}

impl From<FieldReason> for SessionRejectReason {
    ghost use Rattle.std.specs.Prelude.{◌≡◌};
    ghost use Rattle.gu_msgs.specs.RejectReasons.{reason_of_field};

    ghost from_gives = { λ reason result. result ≡ reason_of_field reason };

    fn from(reason: FieldReason) -> SessionRejectReason {
        match reason {
            FieldReason::InvalidTagNumber => SessionRejectReason::InvalidTagNumber,
            FieldReason::TagSpecifiedWithoutAValue => {
                SessionRejectReason::TagSpecifiedWithoutAValue
            }
        }
    }
}
