//! Carrying firms' responses to offers (FIX: AllocationReportAck).

ghost use Rattle.std.specs.Prelude.{MatchResult};
ghost use Rattle.gu_msgs.specs.Messages.{Says};
ghost use Rattle.gu_msgs.specs.Outlines.{AreJudged, IsShaped, IsTypedRefusal};
ghost use Rattle.gu_msgs.specs.declared.msg_type.MsgType.TheVariants as kind;

use crate::fault::MsgFault;
use crate::inbound::{AllocationReportAck, Inbound};
use crate::outline::Outline;

/// The indexes of the rows in its table.
const ALLOC_REPORT_ID_ROW: usize = 10;

const ALLOC_STATUS_ROW: usize = 11;

/// Returns the response, and the offer that it is for.
#[tactic(auto, using(crate::proofs::OutlineLemmas::of_type), unfolding(crate::specs::Tables::header_rows, crate::specs::Tables::body_rows, crate::specs::Tables::entry_rows))]
pub fn read_allocation_report_ack(outline: &Outline<'_, '_>) -> Result<Inbound, MsgFault>
    requires shaped { IsShaped kind.AllocationReportAck outline.now }
    requires judged { AreJudged outline.now 10 }
    ensures { MatchResult result (Says outline.now.fields) (IsTypedRefusal kind.AllocationReportAck outline.now.fields) }
{
    let alloc_report_id = outline.offer(ALLOC_REPORT_ID_ROW)?;
    let alloc_status = outline.status(ALLOC_STATUS_ROW)?;
    Ok(Inbound::AllocationReportAck(AllocationReportAck {
        alloc_report_id,
        alloc_status,
    }))
}
