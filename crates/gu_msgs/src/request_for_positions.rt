//! Questions for positions (FIX: RequestForPositions).

ghost use Rattle.std.specs.Prelude.{MatchResult};
ghost use Rattle.gu_msgs.specs.Messages.{Says};
ghost use Rattle.gu_msgs.specs.Outlines.{AreJudged, IsShaped, IsTypedRefusal};
ghost use Rattle.gu_msgs.specs.declared.msg_type.MsgType.TheVariants as kind;

use crate::boxed::Boxed;
use crate::fault::MsgFault;
use crate::inbound::{Inbound, RequestForPositions};
use crate::outline::Outline;
use std::alloc::Global;

/// The indexes of the rows in its table.
const POS_REQ_ID_ROW: usize = 10;

const POS_REQ_TYPE_ROW: usize = 11;

const ACCOUNT_ROW: usize = 12;

/// Returns the question's id and its account.
#[tactic(auto, using(crate::proofs::OutlineLemmas::of_type), unfolding(crate::specs::Tables::header_rows, crate::specs::Tables::body_rows, crate::specs::Tables::entry_rows))]
pub fn read_request_for_positions(
    alloc: Global,
    outline: &Outline<'_, '_>,
) -> Result<Inbound, MsgFault>
    requires shaped { IsShaped kind.RequestForPositions outline.now }
    requires judged { AreJudged outline.now 10 }
    ensures { MatchResult result (Says outline.now.fields) (IsTypedRefusal kind.RequestForPositions outline.now.fields) }
{
    let pos_req_id = outline.id(POS_REQ_ID_ROW)?;
    outline.number(POS_REQ_TYPE_ROW, 0, 0)?;
    let account = outline.account(ACCOUNT_ROW)?;
    let request = RequestForPositions {
        pos_req_id,
        account,
    };
    Ok(Inbound::RequestForPositions(Boxed::new(alloc, request)?))
}
