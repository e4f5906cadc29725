//! The sender of a message outside a session.

ghost use Rattle.std.specs.Prelude.{◌≡◌, ◌↔◌, IsTrue, List, MatchOption};
ghost use Rattle.std.specs.Option.{option_map};
ghost use Rattle.gu_fix.specs.TagValue.{TagValue};
ghost use Rattle.gu_terms.specs.declared.firm.FirmId.{FirmId as FirmOf};
ghost use Rattle.gu_msgs.specs.Kinds.{IsNumberWithin};
ghost use Rattle.gu_msgs.specs.Sender.{IsSentBy};
ghost use Rattle.gu_msgs.specs.StandardHeader.{IsHeaderIn};
ghost use Rattle.gu_msgs.specs.Tables.{greatest};

use crate::header_reading::header_in;
use crate::kinds::number;
use crate::standard_header::HeaderRef;
use crate::tables::GREATEST;
use gu_fix::Fields;
use gu_terms::FirmId;

/// Returns whether the text of MsgSeqNum is a number that a message of a session can have.
fn is_numbered(text: Option<&[u8]>) -> bool
    ensures { IsTrue result ↔ MatchOption (option_map (λ bytes. bytes.now) text.entry) ⊥ (IsNumberWithin 1 greatest) }
{
    match text {
        Some(text) => number(text, 1, GREATEST).is_ok(),
        None => false,
    }
}

/// Returns the firm that sent a message with this header, if the message is numbered and names one.
pub fn sender_in(header: &HeaderRef<'_>) -> Option<FirmId>
    ensures { (fields : List TagValue) → IsHeaderIn fields header.now
        → MatchOption result ((firm : FirmOf) → IsSentBy fields firm → ⊥) (λ firm. IsSentBy fields firm) }
{
    if !is_numbered(header.msg_seq_num) {
        return None;
    }
    FirmId::new(header.sender_comp_id?)
}

/// Returns the firm that sent a message, if the message is numbered and names one.
pub fn sender(fields: &Fields) -> Option<FirmId>
    ensures { MatchOption result ((firm : FirmOf) → IsSentBy fields.now firm → ⊥) (λ firm. IsSentBy fields.now firm) }
{
    sender_in(&header_in(fields))
}
