//! Encoding fields as a message.
ghost use Rattle.std.specs.Prelude.{◌≡◌, ◌==◌, ◌≤◌, ◌<◌, ◌+◌, ◌++◌, ◌↔◌, List, ℕ, [], ◌∷◌, length, drop, sum, ◌%◌, Some, None, IfOk, OnOk, OnErr, IsErrOf, MatchOption, MatchResult, IsTrue, not, ◌&&◌, vec_len, vec_capacity};
ghost use Rattle.std.specs.List.{list_any, list_all};
ghost use Rattle.std.specs.Fmt.{decimal};
ghost use Rattle.gu_fix.specs.WholeMessage.{soh, front_of, trailer_after, IsWhole};
ghost use Rattle.gu_fix.specs.TagValue.{TagValue, tag_value};
ghost use Rattle.gu_fix.specs.Encoding.{field_text, fields_text, message_of, fault_of, is_body_tag, begins_with_type, is_empty, has_soh};
ghost use Rattle.gu_fix.specs.SoundLength.{IsSound, IsFirstFault};

use crate::body_text::BodyText;
use crate::error::EncodeError;
use crate::field::{Field, Fields};
use crate::prefix::{FIXED_LENGTH, LONGEST, OPENING, SOH, checksum, trailer};
use crate::tag::{BEGIN_STRING, BODY_LENGTH, CHECK_SUM, MSG_TYPE};
use itoa::Buffer;
use std::alloc::{AllocError, Global};

/// Returns whether a field of a body may have this tag.
fn is_free_tag(tag: u32) -> bool
    ensures { result ≡ is_body_tag tag }
{
    !matches!(tag, 0 | BEGIN_STRING | BODY_LENGTH | CHECK_SUM) && tag <= 999_999_999
}

fn has_free_tags(fields: &Fields) -> bool
    ensures { result ≡ list_all (λ f. is_body_tag f.tag) fields.now }
{
    for field in fields {
        if !is_free_tag(field.tag) {
            return false;
        }
    }
    true
}

fn begins_with_message_type(fields: &Fields) -> bool
    ensures { result ≡ begins_with_type fields.now }
{
    match fields.iter().next() {
        Some(field) => field.tag == MSG_TYPE,
        None => false,
    }
}

fn has_message_tags(fields: &Fields) -> bool
    ensures { result ≡ (begins_with_type fields.now && list_all (λ f. is_body_tag f.tag) fields.now) }
{
    begins_with_message_type(fields) && has_free_tags(fields)
}

fn has_empty_value(fields: &Fields) -> bool
    ensures { result ≡ list_any (λ f. is_empty f.value) fields.now }
{
    for field in fields {
        if field.value.is_empty() {
            return true;
        }
    }
    false
}

fn contains_soh(value: &[u8]) -> bool
    ensures { result ≡ has_soh value.now }
{
    for byte in value {
        if *byte == SOH {
            return true;
        }
    }
    false
}

fn has_soh_in_value(fields: &Fields) -> bool
    ensures { result ≡ list_any (λ f. has_soh f.value) fields.now }
{
    // The values are in one buffer, which usually has no SOH.
    if !fields.lie_with_soh() {
        return false;
    }
    for field in fields {
        if contains_soh(field.value) {
            return true;
        }
    }
    false
}

/// Returns the two digits of a tag, followed by `=`.
#[inline(always)]
fn two_digits(tag: u32) -> [u8; 3]
    requires { (10 ≤ tag) × (tag < 100) }
    ensures { result ≡ decimal tag ++ 61 ∷ [] }
{
    [b'0' + (tag / 10) as u8, b'0' + (tag % 10) as u8, b'=']
}

/// Returns the three digits of a tag, followed by `=`.
#[inline(always)]
fn three_digits(tag: u32) -> [u8; 4]
    requires { (100 ≤ tag) × (tag < 1000) }
    ensures { result ≡ decimal tag ++ 61 ∷ [] }
{
    [
        b'0' + (tag / 100) as u8,
        b'0' + (tag / 10 % 10) as u8,
        b'0' + (tag % 10) as u8,
        b'=',
    ]
}

/// The most bytes in a tag and `=`.
pub(crate) const TAG_ROOM: usize = 11;

/// Appends bytes one by one. There is room for them.
#[inline(always)]
pub(crate) fn extend_reserved(out: &mut Vec<u8>, bytes: &[u8])
    requires { vec_len out.old + length bytes.now ≤ vec_capacity out.old }
    ensures items { out.new.items ≡ out.old.items ++ bytes.now }
    ensures len { vec_len out.new ≡ vec_len out.old + length bytes.now }
    ensures capacity { vec_capacity out.new ≡ vec_capacity out.old }
{
    for byte in bytes {
        out.push_reserved(*byte);
    }
}

/// Appends a tag, usually of two or three digits, and `=`. There is room for them.
#[inline(always)]
pub(crate) fn push_tag_reserved(out: &mut Vec<u8>, tag: u32)
    requires { vec_len out.old + TAG_ROOM ≤ vec_capacity out.old }
    ensures items { out.new.items ≡ out.old.items ++ decimal tag ++ 61 ∷ [] }
    ensures len { vec_len out.new ≤ vec_len out.old + TAG_ROOM }
    ensures capacity { vec_capacity out.new ≡ vec_capacity out.old }
{
    if 10 <= tag {
        if tag < 100 {
            return extend_reserved(out, &two_digits(tag));
        }
        if tag < 1000 {
            return extend_reserved(out, &three_digits(tag));
        }
    }
    let mut digits = Buffer::new();
    extend_reserved(out, digits.format(tag).as_bytes());
    out.push_reserved(b'=');
}

/// Appends a tag and `=`.
#[inline(always)]
pub(crate) fn push_tag(out: &mut Vec<u8>, tag: u32) -> Result<(), AllocError>
    ensures ok { OnOk result (out.new.items ≡ out.old.items ++ decimal tag ++ 61 ∷ []) }
    ensures err { OnErr result (out.new.items ≡ out.old.items) }
{
    out.reserve(TAG_ROOM)?;
    push_tag_reserved(out, tag);
    Ok(())
}

fn push_field(out: &mut Vec<u8>, field: Field) -> Result<(), AllocError>
    ensures ok { OnOk result (out.new.items ≡ out.old.items ++ field_text (tag_value field.entry.tag field.entry.value.now)) }
    ensures err { OnErr result ((tail : List ℕ) × (out.new.items ≡ out.old.items ++ tail)) }
{
    push_tag(out, field.tag)?;
    out.extend_from_slice(field.value)?;
    out.push(SOH)?;
    Ok(())
}

fn push_fields(out: &mut Vec<u8>, fields: &Fields) -> Result<(), AllocError>
    ensures ok { OnOk result (out.new.items ≡ out.old.items ++ fields_text fields.now) }
    ensures err { OnErr result ((tail : List ℕ) × (out.new.items ≡ out.old.items ++ tail)) }
{
    for field in fields {
        push_field(out, field)?;
    }
    Ok(())
}

/// Returns the number of digits in a number.
fn digits_of(number: u32) -> usize
    ensures digits { result ≡ length (decimal number) }
    ensures most { result ≤ 10 }
{
    if number < 10 {
        return 1;
    }
    if number < 100 {
        return 2;
    }
    if number < 1000 {
        return 3;
    }
    let mut digits = Buffer::new();
    digits.format(number).len()
}

/// Returns the length of the fields' text, unless it is above the most in a message.
fn body_length(fields: &Fields) -> Option<usize>
    ensures { MatchOption result (65536 < length (fields_text fields.now))
        (λ n. (n ≡ length (fields_text fields.now)) × (n ≤ 65536)) }
{
    let mut total = 0;
    for field in fields {
        total += digits_of(field.tag) + field.value.len() + 2;
        if total > LONGEST {
            return None;
        }
    }
    Some(total)
}

/// Returns the sum of the bytes from a position on, modulo 256.
fn checksum_from(bytes: &[u8], start: usize) -> u8
    requires { start ≤ length bytes.now }
    ensures { result ≡ sum (drop start bytes.now) % 256 }
{
    checksum(&bytes[start..])
}

/// Appends the message with this text of fields, whose length has these digits.
fn push_message(out: &mut Vec<u8>, digits: &[u8], text: &[u8]) -> Result<(), AllocError>
    requires { FIXED_LENGTH + length digits.now + length text.now ≤ LONGEST }
    ensures ok { OnOk result (let front = front_of digits.now text.now in out.new.items ≡ out.old.items ++ front ++ trailer_after front) }
    ensures err { OnErr result ((tail : List ℕ) × (out.new.items ≡ out.old.items ++ tail)) }
{
    out.reserve(FIXED_LENGTH + digits.len() + text.len())?;
    let start = out.len();
    out.extend_from_slice(OPENING)?;
    out.extend_from_slice(digits)?;
    out.push(SOH)?;
    out.extend_from_slice(text)?;
    let sum = checksum_from(out, start);
    out.extend_from_slice(&trailer(sum))?;
    Ok(())
}

/// Returns the message with these fields, whose text has a length with these digits.
fn message(alloc: Global, digits: &[u8], fields: &Fields) -> Result<Vec<u8>, AllocError>
    requires { FIXED_LENGTH + length digits.now + length (fields_text fields.now) ≤ LONGEST }
    ensures { IfOk result (λ v. let front = front_of digits.now (fields_text fields.now) in v.items ≡ front ++ trailer_after front) }
{
    let mut text = Vec::new(alloc);
    push_fields(&mut text, fields)?;
    let mut out = Vec::new(alloc);
    push_message(&mut out, digits, &text)?;
    Ok(out)
}

/// Returns the length of the fields' text, or their first fault.
fn sound_length(fields: &Fields) -> Result<usize, EncodeError>
    ensures { MatchResult result (IsSound fields.now) (IsFirstFault fields.now) }
{
    if !has_message_tags(fields) {
        return Err(EncodeError::BadTag);
    }
    if has_empty_value(fields) {
        return Err(EncodeError::EmptyValue);
    }
    if has_soh_in_value(fields) {
        return Err(EncodeError::SohInValue);
    }
    let Some(len) = body_length(fields) else {
        return Err(EncodeError::TooLong);
    };
    let mut digits = Buffer::new();
    if FIXED_LENGTH + digits.format(len).len() + len > LONGEST {
        return Err(EncodeError::TooLong);
    }
    Ok(len)
}

/// Returns the message with these fields. Every fault is looked for before anything is allocated.
pub fn encode(alloc: Global, fields: &Fields) -> Result<Vec<u8>, EncodeError>
    ensures message { IfOk result (λ v. v.items ≡ message_of fields.now) }
    ensures whole { IfOk result (λ v. IsWhole v.items) }
    ensures sound { OnOk result (fault_of fields.now ≡ None) }

    // Each fault, exactly if it is the first, and Memory only if there is none.
    ensures bad_tag { IsErrOf result EncodeError.BadTag ↔ (fault_of fields.now ≡ Some EncodeError.BadTag) }
    ensures empty_value { IsErrOf result EncodeError.EmptyValue ↔ (fault_of fields.now ≡ Some EncodeError.EmptyValue) }
    ensures soh_in_value { IsErrOf result EncodeError.SohInValue ↔ (fault_of fields.now ≡ Some EncodeError.SohInValue) }
    ensures too_long { IsErrOf result EncodeError.TooLong ↔ (fault_of fields.now ≡ Some EncodeError.TooLong) }
    ensures memory { IsErrOf result EncodeError.Memory → fault_of fields.now ≡ None }
{
    let len = match sound_length(fields) {
        Ok(len) => len,
        Err(fault) => return Err(fault),
    };
    let mut digits = Buffer::new();
    match message(alloc, digits.format(len).as_bytes(), fields) {
        Ok(out) => Ok(out),
        Err(_) => Err(EncodeError::Memory),
    }
}

/// Appends the message with these fields, which have no fault, so that none is looked for.
pub fn encode_onto(output: &mut Vec<u8>, fields: &BodyText) -> Result<(), AllocError>
    requires { fault_of fields.now ≡ None }
    ensures message { OnOk result (output.new.items ≡ output.old.items ++ message_of fields.now) }
    ensures whole { IsWhole (message_of fields.now) }
    ensures refused { OnErr result (output.new.items ≡ output.old.items) }
{
    let text = fields.text();
    let mut digits = Buffer::new();
    let start = output.len();
    let pushed = push_message(output, digits.format(text.len()).as_bytes(), text);
    if pushed.is_err() {
        output.truncate(start);
    }
    pushed
}
