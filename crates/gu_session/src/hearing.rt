//! Reading frames.

ghost use Rattle.std.specs.Prelude.{◌≡◌, codes, IfOk, List, option_and_then, Some};
ghost use Rattle.std.specs.Option.{option_map};
ghost use Rattle.gu_fix.specs.TagValue.{TagValue};
ghost use Rattle.gu_msgs.specs.StandardHeader.{IsHeaderIn};
ghost use Rattle.gu_session.specs.Hearing.{IsContent, IsFirmIn, IsHeading, IsNumberIn, Hears, code_in, is_given};

use crate::heard::{Heading, Heard};
use crate::seq_num::SeqNum;
use gu_fix::{FieldFault, Fields, Frame, fields_over, into_fields};
use gu_msgs::{
    Fault, HeaderRef, ReadMessage, SessionRejectReason, TypeCode, header_in, is_numeral, number_of,
    read_with_header, short_number,
};
use gu_terms::FirmId;
use std::alloc::{AllocError, Global};

/// The house's name as a target.
const HOUSE: &[u8] = b"GIVEUP";

/// Returns the number in a text of any length, if a message can have it.
#[inline(never)]
fn number_in_any(text: &[u8]) -> Option<SeqNum>
    ensures { IsNumberIn (Some text.now) result }
{
    if !is_numeral(text) {
        return None;
    }
    match number_of(text) {
        Some(number) => SeqNum::new(number),
        None => None,
    }
}

/// Returns the number in a text, if a message can have it. Most are short.
fn number_in(text: Option<&[u8]>) -> Option<SeqNum>
    ensures { IsNumberIn (option_map (λ bytes. bytes.now) text.entry) result }
{
    let Some(text) = text else {
        return None;
    };
    match short_number(text) {
        Some(number) => SeqNum::new(number),
        None => number_in_any(text),
    }
}

/// Returns the firm with this name.
fn firm_in(name: Option<&[u8]>) -> Option<FirmId>
    ensures { IsFirmIn (option_map (λ bytes. bytes.now) name.entry) result }
{
    match name {
        Some(name) => FirmId::new(name),
        None => None,
    }
}

/// Returns the code of a type, if the text has the form of one.
fn code_in(text: Option<&[u8]>) -> Option<TypeCode>
    ensures { result ≡ option_and_then code_in (option_map (λ bytes. bytes.now) text.entry) }
{
    match text {
        Some(text) => TypeCode::new(text),
        None => None,
    }
}

/// Returns whether a value is given and is the house's name.
fn is_house(value: Option<&[u8]>) -> bool
    ensures { result ≡ is_given (codes "GIVEUP") (option_map (λ bytes. bytes.now) value.entry) }
{
    match value {
        Some(value) => value == HOUSE,
        None => false,
    }
}

/// Returns whether a value is given and is `Y`.
fn is_yes(value: Option<&[u8]>) -> bool
    ensures { result ≡ is_given (codes "Y") (option_map (λ bytes. bytes.now) value.entry) }
{
    match value {
        Some(value) => value == b"Y".as_slice(),
        None => false,
    }
}

/// Returns the heading for this header, which is that of these fields.
fn heading_of(header: &HeaderRef<'_>) -> Heading
    ensures { (fields : List TagValue) → IsHeaderIn fields header.now → IsHeading fields result }
{
    Heading {
        number: number_in(header.msg_seq_num),
        msg_type: code_in(header.msg_type),
        sender: firm_in(header.sender_comp_id),
        is_to_house: is_house(header.target_comp_id),
        is_poss_dup: is_yes(header.poss_dup_flag),
    }
}

/// Returns the content of fields with a malformed one.
fn malformed(fields: &Fields, fault: FieldFault) -> Heard
    ensures heading { IsHeading fields.now result.heading }
    ensures content { IsContent (Some fault) fields.now result.content }
{
    let reason = SessionRejectReason::from(fault.reason);
    Heard {
        heading: heading_of(&header_in(fields)),
        content: Err(Fault {
            tag: fault.tag,
            reason,
        }),
    }
}

/// Returns the content of these fields: their header, and their message or first fault; a malformed field comes first.
#[inline(always)]
fn hear(alloc: Global, fields: &Fields, fault: Option<FieldFault>) -> Result<Heard, AllocError>
    ensures heading { IfOk result (λ heard. IsHeading fields.now heard.heading) }
    ensures content { IfOk result (λ heard. IsContent fault fields.now heard.content) }
{
    if let Some(fault) = fault {
        return Ok(malformed(fields, fault));
    }
    let ReadMessage { content, header } = read_with_header(alloc, fields)?;
    let heading = heading_of(&header);
    Ok(Heard { heading, content })
}

/// The most bytes in a message whose fields are kept, so that an idle session keeps little.
const MOST_KEPT: usize = 1_024;

/// A reader of frames, which reuses the memory for their fields.
pub struct Reader {
    alloc: Global,
    fields: Fields,
}

impl Drop for Reader {
    fn drop(self) {
        let Reader { alloc: _, fields } = self;
        drop(fields);
    }
}

impl Reader {
    /// Returns a reader without capacity.
    pub fn new(alloc: Global) -> Self {
        Reader {
            alloc,
            fields: Fields::new(alloc),
        }
    }

    /// Returns its allocator.
    pub fn alloc(&self) -> Global {
        self.alloc
    }

    /// Returns the content of a long frame, whose fields aren't kept.
    #[inline(never)]
    fn hear_long(&self, frame: Frame) -> Result<Heard, AllocError>
        ensures { IfOk result (Hears frame) }
    {
        let (fields, fault) = into_fields(self.alloc, frame)?;
        hear(self.alloc, &fields, fault)
    }

    /// Returns the content of a frame.
    pub fn hear(&mut self, frame: Frame) -> Result<Heard, AllocError>
        ensures { IfOk result (Hears frame) }
    {
        if frame.bytes().len() > MOST_KEPT {
            return self.hear_long(frame);
        }
        let fault = fields_over(self.alloc, &mut self.fields, frame)?;
        hear(self.alloc, &self.fields, fault)
    }
}
