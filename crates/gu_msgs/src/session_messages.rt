//! Session messages.

ghost use Rattle.std.specs.Prelude.{◌≡◌, ◌⊎◌, ◌≤◌, ◌↔◌, IsTrue, MatchResult};
ghost use Rattle.gu_msgs.specs.Messages.{IsResendRequest, Says};
ghost use Rattle.gu_msgs.specs.Outlines.{AreJudged, IsShaped, IsTypedRefusal, ReadsTo};
ghost use Rattle.gu_msgs.specs.declared.msg_type.MsgType.TheVariants as kind;

use crate::fault::{Fault, MsgFault};
use crate::inbound::{Inbound, Logon, ResendRequest, SequenceReset, TestRequest};
use crate::outline::Outline;
use crate::reject_reason::SessionRejectReason;
use crate::shape::fault_at;
use crate::tables::GREATEST;
use crate::tags::END_SEQ_NO;
use std::alloc::Global;

/// Returns the id of a TestRequest.
#[tactic(auto, using(crate::proofs::OutlineLemmas::of_type), unfolding(crate::specs::Tables::header_rows, crate::specs::Tables::body_rows, crate::specs::Tables::entry_rows))]
pub fn read_test_request(alloc: Global, outline: &Outline<'_, '_>) -> Result<Inbound, MsgFault>
    requires shaped { IsShaped kind.TestRequest outline.now }
    requires judged { AreJudged outline.now 10 }
    ensures { MatchResult result (Says outline.now.fields) (IsTypedRefusal kind.TestRequest outline.now.fields) }
{
    let test_req_id = outline.test_req_id(alloc, 10)?;
    Ok(Inbound::TestRequest(TestRequest { test_req_id }))
}

/// Returns the numbers in a ResendRequest.
#[tactic(auto, unfolding(crate::specs::Tables::header_rows, crate::specs::Tables::body_rows, crate::specs::Tables::entry_rows))]
fn numbers_asked(outline: &Outline<'_, '_>) -> Result<ResendRequest, Fault>
    requires kind { outline.now.kind ≡ kind.ResendRequest }
    requires judged { AreJudged outline.now 10 }
    ensures { ReadsTo outline.now 12 (IsResendRequest outline.now.fields) result }
{
    let begin_seq_no = outline.number(10, 1, GREATEST)?;
    let end_seq_no = outline.number(11, 0, GREATEST)?;
    Ok(ResendRequest {
        begin_seq_no,
        end_seq_no,
    })
}

/// Returns whether the last number requested is 0, for all, or isn't below the first.
fn ends_right(request: ResendRequest) -> bool
    ensures { IsTrue result ↔ ((request.end_seq_no ≡ 0) ⊎ (request.begin_seq_no ≤ request.end_seq_no)) }
{
    request.end_seq_no == 0 || request.begin_seq_no <= request.end_seq_no
}

/// Returns the ResendRequest in a message.
pub fn read_resend_request(outline: &Outline<'_, '_>) -> Result<Inbound, MsgFault>
    requires shaped { IsShaped kind.ResendRequest outline.now }
    requires judged { AreJudged outline.now 10 }
    ensures { MatchResult result (Says outline.now.fields) (IsTypedRefusal kind.ResendRequest outline.now.fields) }
{
    let request = numbers_asked(outline)?;
    if ends_right(request) {
        Ok(Inbound::ResendRequest(request))
    } else {
        Err(MsgFault::Rejected(fault_at(SessionRejectReason::ValueIsIncorrect, END_SEQ_NO)))
    }
}

/// Returns the SequenceReset in a message.
#[tactic(auto, using(crate::proofs::OutlineLemmas::of_type), unfolding(crate::specs::Tables::header_rows, crate::specs::Tables::body_rows, crate::specs::Tables::entry_rows))]
pub fn read_sequence_reset(outline: &Outline<'_, '_>) -> Result<Inbound, MsgFault>
    requires shaped { IsShaped kind.SequenceReset outline.now }
    requires judged { AreJudged outline.now 10 }
    ensures { MatchResult result (Says outline.now.fields) (IsTypedRefusal kind.SequenceReset outline.now.fields) }
{
    let is_gap_fill = outline.flag(10)?;
    let new_seq_no = outline.number(11, 1, GREATEST)?;
    Ok(Inbound::SequenceReset(SequenceReset {
        is_gap_fill,
        new_seq_no,
    }))
}

/// Returns the Logon in a message.
#[tactic(auto, using(crate::proofs::OutlineLemmas::of_type), unfolding(crate::specs::Tables::header_rows, crate::specs::Tables::body_rows, crate::specs::Tables::entry_rows))]
pub fn read_logon(outline: &Outline<'_, '_>) -> Result<Inbound, MsgFault>
    requires shaped { IsShaped kind.Logon outline.now }
    requires judged { AreJudged outline.now 10 }
    ensures { MatchResult result (Says outline.now.fields) (IsTypedRefusal kind.Logon outline.now.fields) }
{
    outline.number(10, 0, 0)?;
    let heart_bt_int = outline.number(11, 0, 3600)?;
    outline.number(12, 9, 9)?;
    let resets_seq_num = outline.flag(13)?;
    Ok(Inbound::Logon(Logon {
        heart_bt_int,
        resets_seq_num,
    }))
}
