//! The fault of a first message, if its session refuses it.

use gu_fix::{FieldFault, Fields};
use gu_log::LogonFault;
use gu_msgs::{Inbound, ReadMessage, is_numeral, read_with_header};
use gu_terms::FirmId;
use std::alloc::{AllocError, Global};

/// Tags of a Logon: MsgSeqNum, EncryptMethod, HeartBtInt, DefaultApplVerID.
const MSG_SEQ_NUM: u32 = 34;

const ENCRYPT_METHOD: u32 = 98;

const HEART_BT_INT: u32 = 108;

const DEFAULT_APPL_VER_ID: u32 = 1137;

/// Returns the fault of a Logon at this tag.
fn fault_at(tag: u32) -> LogonFault {
    match tag {
        MSG_SEQ_NUM => LogonFault::Number,
        ENCRYPT_METHOD => LogonFault::Encryption,
        HEART_BT_INT => LogonFault::Heartbeat,
        DEFAULT_APPL_VER_ID => LogonFault::Version,
        _ => LogonFault::Other(tag),
    }
}

/// Returns whether a header's MsgSeqNum is a number.
fn has_number(text: Option<&[u8]>) -> bool {
    match text {
        Some(text) => is_numeral(text),
        None => false,
    }
}

/// Returns the fault of a first message from this firm, or from no known firm, if its session refuses it. If all else is right, its
/// TargetCompID is the only thing left that a session can refuse.
pub fn suspect(
    alloc: Global,
    firm: Option<FirmId>,
    fields: &Fields,
    malformed: Option<FieldFault>,
) -> Result<LogonFault, AllocError> {
    if firm.is_none() {
        return Ok(LogonFault::Sender);
    }
    if let Some(fault) = malformed {
        return Ok(fault_at(fault.tag));
    }
    let ReadMessage { content, header } = read_with_header(alloc, fields)?;
    let has_number = has_number(header.msg_seq_num);
    Ok(match content {
        Ok(Inbound::Logon(_)) if has_number => LogonFault::Target,
        Ok(Inbound::Logon(_)) => LogonFault::Number,
        Ok(_) => LogonFault::NotALogon,
        Err(fault) => fault_at(fault.tag),
    })
}
