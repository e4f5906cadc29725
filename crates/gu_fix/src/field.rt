//! Fields in order: tags and their values, which are stored in one buffer.
ghost use Rattle.std.specs.Prelude.{◌≡◌, false, ◌+◌, ◌≤◌, ◌<◌, [], ◌∷◌, ◌++◌, length, take, drop, slice_get, Some, IfOk, OnOk, OnErr, IsTrue, ◌↔◌};
ghost use Rattle.std.specs.Iterator.{YieldsFirstBy, item_count};
ghost use Rattle.std.specs.List.{list_any};
ghost use Rattle.gu_fix.specs.Encoding.{has_soh};
ghost use Rattle.gu_fix.specs.Spans.{AreWithin, fields_in};
ghost use Rattle.gu_fix.specs.TagValue.{TagValue, tag_value};

use crate::prefix::SOH;
use std::alloc::{AllocError, Global};
use std::marker::Model;
use std::mem::replace;

/// A field of a message or of a list of fields.
#[derive(Clone, Copy, Debug, PartialEq, Eq)]
pub struct Field<'a> {
    pub tag: u32,
    pub value: &'a [u8],
}

/// A tag, and the place of its value.
#[derive(Clone, Copy)]
pub struct Span {
    tag: u32,
    start: usize,
    len: usize,
}

impl Span {
    /// Returns a span for this tag and place.
    pub(crate) fn new(tag: u32, start: usize, len: usize) -> Self
        ensures tag { result.tag ≡ tag }
        ensures start { result.start ≡ start }
        ensures len { result.len ≡ len }
    {
        Span { tag, start, len }
    }

    /// Returns the field with its value in these bytes.
    fn field_in(self, bytes: &[u8]) -> Field<'_>
        requires { self.start + self.len ≤ length bytes.now }
        ensures tag { result.tag ≡ self.tag }
        ensures value { result.value.now ≡ take self.len (drop self.start bytes.now) }
    {
        Field {
            tag: self.tag,
            value: &bytes[self.start..self.start + self.len],
        }
    }
}

/// A list of fields. To a contract it is the list of their tags and values.
#[derive(Drop)]
pub struct Fields {
    bytes: Vec<u8>,
    spans: Vec<Span>,
}

impl Model for Fields {
    ghost use Rattle.std.specs.Prelude.{List};
    ghost use Rattle.gu_fix.specs.TagValue.{TagValue};

    ghost Value = { List TagValue };

    ghost use Rattle.gu_fix.specs.Spans.{fields_in, AreWithin};

    ghost view = { λ f. fields_in f.bytes.items f.spans.items };

    ghost invariant = { λ f. AreWithin f.bytes.items f.spans.items };
}

impl Fields {
    /// Returns no fields.
    pub fn new(alloc: Global) -> Self
        ensures { result ≡ [] }
    {
        Fields {
            bytes: Vec::new(alloc),
            spans: Vec::new(alloc),
        }
    }

    /// Returns the fields with their values at these places in a buffer.
    pub(crate) fn lying_in(bytes: Vec<u8>, spans: Vec<Span>) -> Self
        requires { AreWithin bytes.items spans.items }
        ensures { result ≡ fields_in bytes.items spans.items }
    {
        Fields { bytes, spans }
    }

    /// Returns whether the buffer of values contains SOH.
    pub(crate) fn lie_with_soh(&self) -> bool
        ensures { result ≡ false → list_any (λ f. has_soh f.value) self.now ≡ false }
    {
        self.bytes.contains(&SOH)
    }

    /// Takes the storage of their list, and leaves no fields.
    pub(crate) fn take_room(&mut self, alloc: Global) -> Vec<Span>
        ensures room { result.items ≡ [] }
        ensures none { self.new ≡ [] }
    {
        let mut room = replace(&mut self.spans, Vec::new(alloc));
        room.clear();
        room
    }

    /// Returns the number of fields.
    pub fn len(&self) -> usize
        ensures { result ≡ length self.now }
    {
        self.spans.len()
    }

    /// Returns whether there are no fields.
    pub fn is_empty(&self) -> bool
        ensures { IsTrue result ↔ (self.now ≡ []) }
    {
        self.spans.is_empty()
    }

    /// Returns the field at an index, counted from 0.
    pub fn get(&self, index: usize) -> Field<'_>
        requires { index < length self.now }
        ensures { slice_get self.now index ≡ Some (tag_value result.tag result.value.now) }
    {
        self.spans[index].field_in(&self.bytes)
    }

    /// Returns the fields in order.
    pub fn iter(&self) -> Iter<'_>
        ensures { result ≡ self.now }
    {
        Iter {
            bytes: &self.bytes,
            spans: &self.spans,
        }
    }

    /// Appends a field with a copy of the value.
    #[inline(always)]
    pub fn push(&mut self, tag: u32, value: &[u8]) -> Result<(), AllocError>
        ensures ok { OnOk result (self.new ≡ self.old ++ tag_value tag value.now ∷ []) }
        ensures err { OnErr result (self.new ≡ self.old) }
    {
        self.spans.reserve(1)?;
        let start = self.bytes.len();
        self.bytes.extend_from_slice(value)?;
        self.spans.push_reserved(Span {
            tag,
            start,
            len: value.len(),
        });
        Ok(())
    }

    /// Returns the same fields in a separate buffer.
    pub fn copy(&self, alloc: Global) -> Result<Fields, AllocError>
        ensures { IfOk result (λ copy. copy ≡ self.now) }
    {
        let bytes = Vec::from_slice(alloc, &self.bytes)?;
        let spans = Vec::from_slice(alloc, &self.spans)?;
        Ok(Fields { bytes, spans })
    }
}

/// An iterator over the remaining fields.
#[derive(Drop)]
pub struct Iter<'a> {
    bytes: &'a [u8],
    spans: &'a [Span],
}

impl<'a> Model for Iter<'a> {
    ghost use Rattle.std.specs.Prelude.{List};
    ghost use Rattle.gu_fix.specs.TagValue.{TagValue};

    ghost Value = { List TagValue };

    ghost use Rattle.gu_fix.specs.Spans.{fields_in, AreWithin};

    ghost view = { λ it. fields_in it.bytes.now it.spans.now };

    ghost invariant = { λ it. AreWithin it.bytes.now it.spans.now };
}

impl<'a> Iterator for Iter<'a> {
    type Item = Field<'a>;

    ghost next_gives = { YieldsFirstBy (λ field. tag_value field.tag field.value.now) (λ left. left) };

    ghost remaining = { item_count (λ left. left) };

    fn next(&mut self) -> Option<Field<'a>> {
        let (span, others) = self.spans.split_first()?;
        self.spans = others;
        Some(span.field_in(self.bytes))
    }
}

impl<'a> IntoIterator for &'a Fields {
    type Item = Field<'a>;

    type IntoIter = Iter<'a>;

    ghost into_iter_gives = { λ fields it. it ≡ fields.now };

    fn into_iter(self) -> Iter<'a> {
        self.iter()
    }
}
