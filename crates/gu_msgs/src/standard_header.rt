//! The header of a message.

/// The contents of a header (FIX: Standard Header), as bytes.
#[derive(Drop)]
pub struct Header {
    /// The type: the first MsgType.
    pub msg_type: Option<Vec<u8>>,
    pub sender_comp_id: Option<Vec<u8>>,
    pub target_comp_id: Option<Vec<u8>>,
    pub msg_seq_num: Option<Vec<u8>>,
    pub poss_dup_flag: Option<Vec<u8>>,
}

/// The same, as references into the message.
#[derive(Clone, Copy)]
pub struct HeaderRef<'a> {
    /// The type: the first MsgType.
    pub msg_type: Option<&'a [u8]>,
    pub sender_comp_id: Option<&'a [u8]>,
    pub target_comp_id: Option<&'a [u8]>,
    pub msg_seq_num: Option<&'a [u8]>,
    pub poss_dup_flag: Option<&'a [u8]>,
}
