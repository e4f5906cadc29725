//! The fields of session messages.

ghost use Rattle.std.specs.Prelude.{◌≡◌, ◌++◌, OnOk};
ghost use Rattle.gu_msgs.specs.WrittenBodies.{business_fields, logon_fields, optional_field, reason_fields, reject_fields};

use crate::coded_values::BusinessRejectReason;
use crate::draft::Draft;
use crate::outbound::{BusinessMessageReject, Reject};
use crate::tags::{
    BUSINESS_REJECT_REASON, BUSINESS_REJECT_REF_ID, DEFAULT_APPL_VER_ID, ENCRYPT_METHOD,
    HEART_BT_INT, REF_MSG_TYPE, REF_SEQ_NUM, REF_TAG_ID, RESET_SEQ_NUM_FLAG, SESSION_REJECT_REASON,
};
use crate::type_code::TypeCode;
use std::alloc::AllocError;

/// Appends the body of a Logon.
pub fn push_logon(
    draft: &mut Draft,
    heart_bt_int: u64,
    resets_seq_num: bool,
) -> Result<(), AllocError>
    ensures { OnOk result (draft.new ≡ draft.old ++ logon_fields heart_bt_int resets_seq_num) }
{
    draft.push_number(ENCRYPT_METHOD, 0)?;
    draft.push_number(HEART_BT_INT, heart_bt_int)?;
    draft.push_number(DEFAULT_APPL_VER_ID, 9)?;
    if resets_seq_num {
        draft.push(RESET_SEQ_NUM_FLAG, b"Y")?;
    }
    Ok(())
}

/// Appends the type of a rejected message, if it is known.
fn push_type(draft: &mut Draft, msg_type: &Option<TypeCode>) -> Result<(), AllocError>
    ensures { OnOk result (draft.new ≡ draft.old ++ optional_field REF_MSG_TYPE msg_type.now) }
{
    match msg_type {
        Some(code) => draft.push(REF_MSG_TYPE, code.get()),
        None => Ok(()),
    }
}

/// Appends the body of a Reject.
pub fn push_reject(draft: &mut Draft, message: &Reject) -> Result<(), AllocError>
    ensures { OnOk result (draft.new ≡ draft.old ++ reject_fields message.now) }
{
    draft.push_number(REF_SEQ_NUM, message.ref_seq_num)?;
    if message.ref_tag_id != 0 {
        draft.push_number(REF_TAG_ID, u64::from(message.ref_tag_id))?;
    }
    push_type(draft, &message.ref_msg_type)?;
    draft.push_number(SESSION_REJECT_REASON, message.reason.number())
}

/// Appends the reason for a BusinessMessageReject.
fn push_reason(draft: &mut Draft, reason: &BusinessRejectReason) -> Result<(), AllocError>
    ensures { OnOk result (draft.new ≡ draft.old ++ reason_fields reason.now) }
{
    let number = reason.number();
    match reason {
        BusinessRejectReason::Other { offer, rejection } => {
            draft.push_number(BUSINESS_REJECT_REF_ID, offer.get())?;
            draft.push(REF_MSG_TYPE, b"AT")?;
            draft.push_number(BUSINESS_REJECT_REASON, number)?;
            draft.push_rejection(rejection)
        }
        BusinessRejectReason::UnsupportedMessageType(code) => {
            draft.push(REF_MSG_TYPE, code.get())?;
            draft.push_number(BUSINESS_REJECT_REASON, number)
        }
    }
}

/// Appends the body of a BusinessMessageReject.
pub fn push_business_reject(
    draft: &mut Draft,
    message: &BusinessMessageReject,
) -> Result<(), AllocError>
    ensures { OnOk result (draft.new ≡ draft.old ++ business_fields message.now) }
{
    draft.push_number(REF_SEQ_NUM, message.ref_seq_num)?;
    push_reason(draft, &message.reason)
}
