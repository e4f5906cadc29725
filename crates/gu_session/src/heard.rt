//! The content of a frame, as a session reads it.

use crate::seq_num::SeqNum;
use gu_msgs::{Fault, Inbound, TypeCode};
use gu_terms::FirmId;

/// The header of a frame.
#[derive(Clone, Copy)]
pub struct Heading {
    /// Its number, if it occurs once and is valid.
    pub number: Option<SeqNum>,
    /// Its type, if it has the form of one.
    pub msg_type: Option<TypeCode>,
    /// Its sender, if it occurs once and is a firm's name.
    pub sender: Option<FirmId>,
    /// Whether its target is the house.
    pub is_to_house: bool,
    /// Whether it is marked as sent again (FIX: PossDupFlag).
    pub is_poss_dup: bool,
}

/// The content of a frame: its header, and its message or first fault.
#[derive(Drop)]
pub struct Heard {
    pub heading: Heading,
    pub content: Result<Inbound, Fault>,
}
