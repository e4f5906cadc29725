//! The header of a message, read regardless of its other fields.

ghost use Rattle.std.specs.Prelude.{◌≡◌, ◌∷◌, [], List, ℕ, IfOk};
ghost use Rattle.gu_fix.specs.TagValue.{TagValue, tag_value};
ghost use Rattle.gu_msgs.specs.HeaderWalk.{only_after};
ghost use Rattle.gu_msgs.specs.StandardHeader.{IsHeader, IsHeaderIn};
ghost use Rattle.std.specs.Option.{option_map};

use crate::field_values::first_value;
use crate::run::Run;
use crate::standard_header::{Header, HeaderRef};
use crate::tags::{MSG_SEQ_NUM, POSS_DUP_FLAG, SENDER_COMP_ID, TARGET_COMP_ID};
use gu_fix::{Field, Fields, MSG_TYPE};
use std::alloc::{AllocError, Global};

/// Returns a copy of the bytes.
fn bytes_of(alloc: Global, value: Option<&[u8]>) -> Result<Option<Vec<u8>>, AllocError>
    ensures { IfOk result (λ copy. option_map (λ bytes. bytes.items) copy ≡ option_map (λ bytes. bytes.now) value.entry) }
{
    match value {
        Some(bytes) => Ok(Some(Vec::from_slice(alloc, bytes)?)),
        None => Ok(None),
    }
}

/// The fields found so far with one tag.
#[derive(Clone, Copy)]
enum Found<'a> {
    /// No field has it so far.
    Nowhere,
    /// One field has it, with this value.
    Once(&'a [u8]),
    /// More than one field has it.
    Twice,
}

impl<'a> Found<'a> {
    /// Returns what is found after one more field.
    #[inline(always)]
    fn after(self, tag: u32, field: Field<'a>) -> Self
        ensures { (rest : List TagValue) → only_after result tag rest
            ≡ only_after self.entry tag (tag_value field.entry.tag field.entry.value.now ∷ rest) }
    {
        if field.tag != tag {
            return self;
        }
        match self {
            Found::Nowhere => Found::Once(field.value),
            Found::Once(_) | Found::Twice => Found::Twice,
        }
    }

    /// Returns the value of the tag, if it occurs exactly once.
    fn only(self) -> Option<&'a [u8]>
        ensures { (tag : ℕ) → option_map (λ bytes. bytes.now) result ≡ only_after self.entry tag [] }
    {
        match self {
            Found::Once(value) => Some(value),
            Found::Nowhere | Found::Twice => None,
        }
    }
}

/// Returns the header of a message as references: the first MsgType, and each other tag that occurs exactly once. It takes one pass.
pub fn header_in(fields: &Fields) -> HeaderRef<'_>
    ensures { IsHeaderIn fields.now result }
{
    let mut sender = Found::Nowhere;
    let mut target = Found::Nowhere;
    let mut number = Found::Nowhere;
    let mut flag = Found::Nowhere;
    for field in fields {
        sender = sender.after(SENDER_COMP_ID, field);
        target = target.after(TARGET_COMP_ID, field);
        number = number.after(MSG_SEQ_NUM, field);
        flag = flag.after(POSS_DUP_FLAG, field);
    }
    HeaderRef {
        msg_type: first_value(&Run::of(fields), MSG_TYPE),
        sender_comp_id: sender.only(),
        target_comp_id: target.only(),
        msg_seq_num: number.only(),
        poss_dup_flag: flag.only(),
    }
}

/// Returns a copy of the header.
pub fn header(alloc: Global, fields: &Fields) -> Result<Header, AllocError>
    ensures { IfOk result (λ header. IsHeader fields.now header) }
{
    let parts = header_in(fields);
    let msg_type = bytes_of(alloc, parts.msg_type)?;
    let sender_comp_id = bytes_of(alloc, parts.sender_comp_id)?;
    let target_comp_id = bytes_of(alloc, parts.target_comp_id)?;
    let msg_seq_num = bytes_of(alloc, parts.msg_seq_num)?;
    let poss_dup_flag = bytes_of(alloc, parts.poss_dup_flag)?;
    Ok(Header {
        msg_type,
        sender_comp_id,
        target_comp_id,
        msg_seq_num,
        poss_dup_flag,
    })
}
