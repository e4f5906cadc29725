//! The body of a message being written: its fields as text.
ghost use Rattle.std.specs.Prelude.{◌≡◌, ◌+◌, List, ℕ, [], ◌∷◌, ◌++◌, ◌≤◌, length, vec_len, vec_capacity, IfOk, OnOk, OnErr};
ghost use Rattle.std.specs.Fmt.{decimal};
ghost use Rattle.std.specs.List.{flat_map};
ghost use Rattle.gu_fix.specs.Encoding.{field_text, fields_text};
ghost use Rattle.gu_fix.specs.TagValue.{tag_value};

use crate::encoding::{TAG_ROOM, extend_reserved, push_tag, push_tag_reserved};
use crate::field::{Fields, Span};
use crate::prefix::SOH;
use std::alloc::{AllocError, Global};
use std::marker::Model;
use std::mem::replace;

/// Appends parts in order.
#[inline(always)]
fn extend_by_each(bytes: &mut Vec<u8>, parts: &[&[u8]]) -> Result<(), AllocError>
    ensures ok { OnOk result (bytes.new.items ≡ bytes.old.items ++ flat_map (λ part. part.now) parts.now) }
    ensures err { OnErr result ((tail : List ℕ) × (bytes.new.items ≡ bytes.old.items ++ tail)) }
{
    for part in parts {
        bytes.extend_from_slice(part)?;
    }
    Ok(())
}

/// Appends the text of a field whose value is these parts joined, and returns the position of the value.
#[inline(always)]
fn push_parts(text: &mut Vec<u8>, tag: u32, parts: &[&[u8]]) -> Result<usize, AllocError>
    ensures ok { OnOk result (text.new.items ≡ text.old.items ++ field_text (tag_value tag (flat_map (λ part. part.now) parts.now))) }
    ensures start { IfOk result (λ start. start ≡ length text.old.items + length (decimal tag) + 1) }
    ensures err { OnErr result ((tail : List ℕ) × (text.new.items ≡ text.old.items ++ tail)) }
{
    push_tag(text, tag)?;
    let start = text.len();
    extend_by_each(text, parts)?;
    // Reserves room here: `push` would be a call for each field.
    text.reserve(1)?;
    text.push_reserved(SOH);
    Ok(start)
}

/// The most bytes in a value that is copied byte by byte.
const SHORT: usize = 32;

/// Returns the text with one more field, for which it has room, and the position of the value. The text is passed by value, so that its
/// length isn't written and read again for each byte.
#[inline(always)]
fn with_field(mut text: Vec<u8>, tag: u32, value: &[u8]) -> (Vec<u8>, usize)
    requires { vec_len text + TAG_ROOM + length value.now + 1 ≤ vec_capacity text }
    ensures text { result.0.items ≡ text.items ++ field_text (tag_value tag value.now) }
    ensures start { result.1 ≡ length text.items + length (decimal tag) + 1 }
{
    push_tag_reserved(&mut text, tag);
    let start = text.len();
    extend_reserved(&mut text, value);
    text.push_reserved(SOH);
    (text, start)
}

/// The fields of a body, stored as their text in a message. To a contract they are the list of their tags and values.
#[derive(Drop)]
pub struct BodyText {
    text: Vec<u8>,
    /// The positions of the values in the text.
    spans: Vec<Span>,
}

impl Model for BodyText {
    ghost use Rattle.std.specs.Prelude.{List};
    ghost use Rattle.gu_fix.specs.TagValue.{TagValue};

    ghost Value = { List TagValue };

    ghost use Rattle.gu_fix.specs.Spans.{fields_in, AreSpelled};

    ghost view = { λ b. fields_in b.text.items b.spans.items };

    ghost invariant = { λ b. AreSpelled b.text.items b.spans.items };
}

impl BodyText {
    /// Returns no fields.
    pub fn new(alloc: Global) -> Self
        ensures { result ≡ [] }
    {
        BodyText {
            text: Vec::new(alloc),
            spans: Vec::new(alloc),
        }
    }

    /// Returns no fields, with room for this many bytes of text, at sixteen bytes a field.
    pub fn with_room(alloc: Global, bytes: usize) -> Result<Self, AllocError>
        ensures { IfOk result (λ body. body ≡ []) }
    {
        Ok(BodyText {
            text: Vec::with_capacity(alloc, bytes)?,
            spans: Vec::with_capacity(alloc, bytes / 16)?,
        })
    }

    /// Removes all fields. Their room stays.
    pub fn clear(&mut self)
        ensures { self.new ≡ [] }
    {
        self.text.clear();
        self.spans.clear();
    }

    /// Appends a field whose value is these parts joined.
    #[inline(always)]
    pub fn push_joined(&mut self, tag: u32, parts: &[&[u8]]) -> Result<(), AllocError>
        ensures ok { OnOk result (self.new ≡ self.old ++ tag_value tag (flat_map (λ part. part.now) parts.now) ∷ []) }
        ensures err { OnErr result (self.new ≡ self.old) }
    {
        self.spans.reserve(1)?;
        let had = self.text.len();
        let Ok(start) = push_parts(&mut self.text, tag, parts) else {
            self.text.truncate(had);
            return Err(AllocError);
        };
        let len = self.text.len() - 1 - start;
        self.spans.push_reserved(Span::new(tag, start, len));
        Ok(())
    }

    /// Appends a field with this value.
    #[inline(always)]
    pub fn push(&mut self, tag: u32, value: &[u8]) -> Result<(), AllocError>
        ensures ok { OnOk result (self.new ≡ self.old ++ tag_value tag value.now ∷ []) }
        ensures err { OnErr result (self.new ≡ self.old) }
    {
        if value.len() > SHORT {
            return self.push_long(tag, value);
        }
        self.spans.reserve(1)?;
        self.text.reserve(TAG_ROOM + value.len() + 1)?;
        let alloc = *self.text.allocator();
        let (text, start) = with_field(replace(&mut self.text, Vec::new(alloc)), tag, value);
        self.text = text;
        self.spans.push_reserved(Span::new(tag, start, value.len()));
        Ok(())
    }

    /// Appends a field whose value is long.
    #[inline(never)]
    fn push_long(&mut self, tag: u32, value: &[u8]) -> Result<(), AllocError>
        ensures ok { OnOk result (self.new ≡ self.old ++ tag_value tag value.now ∷ []) }
        ensures err { OnErr result (self.new ≡ self.old) }
    {
        self.push_joined(tag, &[value])
    }

    /// Returns their text in a message.
    pub(crate) fn text(&self) -> &[u8]
        ensures { result.now ≡ fields_text self.now }
    {
        &self.text
    }

    /// Returns the same fields as `Fields`.
    pub fn into_fields(self) -> Fields
        ensures { result ≡ self }
    {
        let BodyText { text, spans } = self;
        Fields::lying_in(text, spans)
    }
}
