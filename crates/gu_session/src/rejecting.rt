//! Rejects.

ghost use Rattle.std.specs.Prelude.{◌≡◌};
ghost use Rattle.gu_session.specs.FrameRules.{reject};

use crate::heard::Heading;
use crate::seq_num::SeqNum;
use gu_msgs::SessionRejectReason;
use gu_msgs::outbound::{Body, Reject};

/// Returns a Reject for the message with this header and number.
pub fn reject(heading: &Heading, number: SeqNum, tag: u32, reason: SessionRejectReason) -> Body
    ensures { result ≡ reject heading.now number tag reason }
{
    Body::Reject(Reject {
        ref_seq_num: number.get(),
        ref_tag_id: tag,
        ref_msg_type: heading.msg_type,
        reason,
    })
}
