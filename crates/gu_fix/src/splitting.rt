//! Splitting a message into its fields.
ghost use Rattle.std.specs.Prelude.{◌≡◌, ◌+◌, ◌≤◌, [], MatchOption, MatchResult, IfOk, OnErr, is_some, if◌then◌else◌, length, take, drop, Some};
ghost use Rattle.gu_fix.specs.WholeMessage.{IsWhole};
ghost use Rattle.gu_fix.specs.TagValue.{tag_value};
ghost use Rattle.gu_fix.specs.Fields.{IsTag, IsField, IsFault, HasFields, HasNoTag, NoSoh, equals};
ghost use Rattle.gu_fix.specs.Spans.{AreWithin, EndsPart, HasNumber, LiesBefore, StandsAt, fields_in, soh_marks};

use crate::error::{FieldFault, SessionRejectReason};
use crate::field::{Field, Fields, Span};
use crate::frame::Frame;
use crate::prefix::SOH;
use std::alloc::{AllocError, Global};
use std::simd::prelude::*;

/// Returns the number before a part's first `=`, which has at most nine digits, and the position of the `=`.
fn number_in_front(part: &[u8]) -> Option<(u32, usize)>
    ensures { MatchOption result (HasNoTag part.now) (λ r. HasNumber part.now r.0 r.1) }
{
    let mut number: u32 = 0;
    for (count, byte) in part.iter().enumerate() {
        if *byte == b'=' {
            return Some((number, count));
        }
        if count == 9 {
            return None;
        }
        if !byte.is_ascii_digit() {
            return None;
        }
        number = 10 * number + u32::from(*byte - b'0');
    }
    None
}

/// The sum of the bytes of the digits `00`.
const TWO_ZEROS: u32 = 11 * b'0' as u32;

/// The sum of the bytes of the digits `000`.
const THREE_ZEROS: u32 = 111 * b'0' as u32;

/// Returns the tag before a part's first `=`, and the position of the `=`.
fn tag_in_front(part: &[u8]) -> Option<(u32, usize)>
    ensures { MatchOption result (HasNoTag part.now) (λ r. IsTag (take r.1 part.now) r.0 × StandsAt equals r.1 part.now) }
{
    // Most tags have two or three digits.
    if let [tens @ b'1'..=b'9', ones @ b'0'..=b'9', b'=', ..] = part {
        return Some((10 * u32::from(*tens) + u32::from(*ones) - TWO_ZEROS, 2));
    }
    if let [
        hundreds @ b'1'..=b'9',
        tens @ b'0'..=b'9',
        ones @ b'0'..=b'9',
        b'=',
        ..
    ] = part
    {
        let front = 100 * u32::from(*hundreds) + 10 * u32::from(*tens);
        return Some((front + u32::from(*ones) - THREE_ZEROS, 3));
    }
    if let [digit @ b'1'..=b'9', b'=', ..] = part {
        return Some((u32::from(*digit - b'0'), 1));
    }
    let Some((number, end)) = number_in_front(part) else {
        return None;
    };
    if end == 0 {
        return None;
    }
    if part[0] == b'0' {
        return None;
    }
    Some((number, end))
}

/// The fault of a part in which no tag can be read.
const WITHOUT_TAG: FieldFault = FieldFault {
    tag: 0,
    reason: SessionRejectReason::InvalidTagNumber,
};

/// Returns a part as a field, or its fault.
fn read_part(part: &[u8]) -> Result<Field<'_>, FieldFault>
    ensures { MatchResult result (λ f. IsField (tag_value f.tag f.value.now) part.now) (λ f. IsFault f part.now) }
{
    let Some((tag, end)) = tag_in_front(part) else {
        return Err(WITHOUT_TAG);
    };
    let value = &part[end + 1..];
    if value.is_empty() {
        return Err(FieldFault {
            tag,
            reason: SessionRejectReason::TagSpecifiedWithoutAValue,
        });
    }
    Ok(Field { tag, value })
}

/// Returns the earlier fault.
fn first_of(fault: Option<FieldFault>, found: FieldFault) -> Option<FieldFault>
    ensures { result ≡ (if is_some fault then fault else Some found) }
{
    match fault {
        Some(earlier) => Some(earlier),
        None => Some(found),
    }
}

/// Returns the place of a field's value among the bytes, given how many bytes follow its SOH.
fn span_of(bytes: &[u8], field: Field<'_>, left: usize) -> Span
    requires { length field.value.now + 1 + left ≤ length bytes.now }
    ensures { LiesBefore result bytes.now field.entry.tag (length field.entry.value.now) left }
{
    let len = field.value.len();
    Span::new(field.tag, bytes.len() - left - 1 - len, len)
}

/// Returns a bit mask of the SOHs among sixteen bytes.
#[inline(always)]
fn marks_at(bytes: &[u8], place: usize) -> u64
    requires { place + 16 ≤ length bytes.now }
    ensures { result ≡ soh_marks (take 16 (drop place bytes.now)) }
{
    u8x16::from_slice(&bytes[place..])
        .simd_eq(u8x16::splat(SOH))
        .to_bitmask()
}

/// Returns a bit mask of the SOHs among the next sixteen bytes, or fewer at the end.
#[inline(always)]
fn next_marks(bytes: &[u8], start: usize) -> u64
    requires { (16 ≤ length bytes.now) × (start ≤ length bytes.now) }
    ensures { result ≡ soh_marks (take 16 (drop start bytes.now)) }
{
    let last = bytes.len() - 16;
    if start <= last {
        marks_at(bytes, start)
    } else {
        marks_at(bytes, last) >> (start - last)
    }
}

/// Returns the length of the part that begins at a position: up to the next SOH. Most parts are short.
#[inline(always)]
fn part_len(bytes: &[u8], start: usize) -> Option<usize>
    requires { (16 ≤ length bytes.now) × (start ≤ length bytes.now) }
    ensures { MatchOption result (NoSoh (drop start bytes.now)) (λ len. EndsPart bytes.now start (start + len)) }
{
    let marks = next_marks(bytes, start);
    if marks != 0 {
        return Some(marks.trailing_zeros() as usize);
    }
    let mut place = start;
    'stretches: while bytes.len() - place > 16 {
        place += 16;
        let marks = next_marks(bytes, place);
        if marks != 0 {
            return Some(place - start + marks.trailing_zeros() as usize);
        }
    }
    None
}

/// Returns the position of the next SOH at or after a position.
#[inline(always)]
fn next_soh(bytes: &[u8], start: usize) -> Option<usize>
    requires { (16 ≤ length bytes.now) × (start ≤ length bytes.now) }
    ensures { MatchOption result (NoSoh (drop start bytes.now)) (EndsPart bytes.now start) }
{
    match part_len(bytes, start) {
        Some(len) => Some(start + len),
        None => None,
    }
}

/// Writes the places of the values of a message's fields to an empty list, and returns the first malformed part's fault.
fn spans_of(
    mut spans: Vec<Span>,
    bytes: &[u8],
) -> Result<(Vec<Span>, Option<FieldFault>), AllocError>
    requires whole { IsWhole bytes.now }
    requires none { spans.items ≡ [] }
    ensures within { IfOk result (λ r. AreWithin bytes.now r.0.items) }
    ensures fields { IfOk result (λ r. HasFields bytes.now (fields_in bytes.now r.0.items) r.1) }
{
    // A field takes at least four bytes, so the list doesn't grow again.
    spans.reserve(bytes.len() / 4)?;
    let mut fault = None;
    let mut start = 0;
    'parts: while let Some(end) = next_soh(bytes, start) {
        match read_part(&bytes[start..end]) {
            Ok(field) => {
                spans.push_reserved(span_of(bytes, field, bytes.len() - end - 1));
                start = end + 1;
            }
            Err(found) => {
                fault = first_of(fault, found);
                start = end + 1;
                continue;
            }
        }
    }
    Ok((spans, fault))
}

/// Returns the fields of a message, with their values in its own bytes, and the first malformed part's fault.
fn fields_of(room: Vec<Span>, bytes: Vec<u8>) -> Result<(Fields, Option<FieldFault>), AllocError>
    requires whole { IsWhole bytes.items }
    requires none { room.items ≡ [] }
    ensures { IfOk result (λ r. HasFields bytes.items r.0 r.1) }
{
    let (spans, fault) = spans_of(room, &bytes)?;
    Ok((Fields::lying_in(bytes, spans), fault))
}

/// Returns the well-formed fields of a message in order, and the first malformed part's fault.
pub fn fields(alloc: Global, frame: &Frame) -> Result<(Fields, Option<FieldFault>), AllocError>
    ensures { IfOk result (λ r. HasFields frame.now r.0 r.1) }
{
    fields_of(Vec::new(alloc), Vec::from_slice(alloc, frame.bytes())?)
}

/// Returns the same for a message that is no longer used: its bytes hold the values.
pub fn into_fields(alloc: Global, frame: Frame) -> Result<(Fields, Option<FieldFault>), AllocError>
    ensures { IfOk result (λ r. HasFields frame r.0 r.1) }
{
    fields_of(Vec::new(alloc), frame.into_bytes())
}

/// Replaces earlier fields by those of a message, reusing the storage of their list. If an allocation fails, no fields are left.
pub fn fields_over(
    alloc: Global,
    earlier: &mut Fields,
    frame: Frame,
) -> Result<Option<FieldFault>, AllocError>
    ensures fields { IfOk result (λ fault. HasFields frame earlier.new fault) }
    ensures refused { OnErr result (earlier.new ≡ []) }
{
    let (fields, fault) = fields_of(earlier.take_room(alloc), frame.into_bytes())?;
    *earlier = fields;
    Ok(fault)
}
