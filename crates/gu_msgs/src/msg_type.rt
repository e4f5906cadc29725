//! The types of messages that are read.

ghost use Rattle.std.specs.Prelude.{◌≡◌, ◌≢◌, ◌↔◌, IsTrue, MatchOption};
ghost use Rattle.std.specs.List.{list_all};
ghost use Rattle.gu_msgs.specs.MsgTypes.{code_of, is_type_text, is_type_byte};
ghost use Rattle.gu_msgs.specs.declared.msg_type.MsgType.{MsgType as TypeOf};

/// The type of a message that is read (FIX: MsgType, tag 35).
#[derive(Clone, Copy)]
pub enum MsgType {
    Heartbeat,
    TestRequest,
    ResendRequest,
    Reject,
    SequenceReset,
    Logout,
    Logon,
    TradeCaptureReport,
    AllocationInstruction,
    AllocationReportAck,
    RequestForPositions,
}

impl MsgType {
    /// Returns the type with this code.
    pub fn of_code(code: &[u8]) -> Option<MsgType>
        ensures { MatchOption result ((kind : TypeOf) → code.now ≢ code_of kind) (λ kind. code.now ≡ code_of kind) }
    {
        match code {
            b"0" => Some(MsgType::Heartbeat),
            b"1" => Some(MsgType::TestRequest),
            b"2" => Some(MsgType::ResendRequest),
            b"3" => Some(MsgType::Reject),
            b"4" => Some(MsgType::SequenceReset),
            b"5" => Some(MsgType::Logout),
            b"A" => Some(MsgType::Logon),
            b"AE" => Some(MsgType::TradeCaptureReport),
            b"J" => Some(MsgType::AllocationInstruction),
            b"AT" => Some(MsgType::AllocationReportAck),
            b"AN" => Some(MsgType::RequestForPositions),
            _ => None,
        }
    }
}

fn is_type_byte(byte: u8) -> bool
    ensures { result ≡ is_type_byte byte }
{
    byte.is_ascii_alphanumeric()
}

/// Returns whether each byte is allowed in a type's text.
fn are_type_bytes(text: &[u8]) -> bool
    ensures { result ≡ list_all is_type_byte text.now }
{
    text.iter().all(|byte| is_type_byte(*byte))
}

/// Returns whether a text has the form of a message's type.
pub fn is_type_text(text: &[u8]) -> bool
    ensures { result ≡ is_type_text text.now }
{
    1 <= text.len() && text.len() <= 3 && are_type_bytes(text)
}
