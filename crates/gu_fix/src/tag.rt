//! The tags that frame a message.

pub const BEGIN_STRING: u32 = 8;

pub const BODY_LENGTH: u32 = 9;

pub const CHECK_SUM: u32 = 10;

pub const MSG_TYPE: u32 = 35;
