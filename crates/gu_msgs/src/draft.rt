//! A message being written.

ghost use Rattle.std.specs.Prelude.{◌≡◌, ◌∷◌, ◌++◌, [], List, ℕ, IfOk, IsTrue, OnOk};
ghost use Rattle.std.specs.List.{flat_map};
ghost use Rattle.gu_fix.specs.TagValue.{tag_value};
ghost use Rattle.gu_terms.specs.Names.{IsName};
ghost use Rattle.gu_msgs.specs.Encodable.{ArePlain, is_plain};
ghost use Rattle.gu_msgs.specs.Rejections.{rejection_text};
ghost use Rattle.gu_terms.specs.WrittenNumbers.{date_text, price_text};
ghost use Rattle.gu_msgs.specs.MomentTexts.{WritesMoment};
ghost use Rattle.gu_msgs.specs.WrittenBodies.{number_field};

use crate::rejection::Rejection;
use crate::stamp::Stamp;
use crate::tags::TEXT;
use gu_fix::{BodyText, Fields};
use gu_terms::{Day, Id, Price};
use itoa::Buffer;
use std::alloc::{AllocError, Global};
use std::marker::Model;

/// The initial capacity of a draft, in bytes: more than any message needs, apart from ids of TestRequests.
const ROOM: usize = 512;

/// A message being written, in memory reused from earlier ones: its fields so far, whose values can all be encoded. To a contract they are
/// the list of their tags and values.
#[derive(Drop)]
pub struct Draft {
    alloc: Global,
    fields: BodyText,
}

impl Model for Draft {
    ghost use Rattle.std.specs.Prelude.{List};
    ghost use Rattle.gu_fix.specs.TagValue.{TagValue};

    ghost Value = { List TagValue };

    ghost use Rattle.gu_msgs.specs.Encodable.{ArePlain};

    ghost view = { λ d. d.fields };

    ghost invariant = { λ d. ArePlain d.fields };
}

impl Draft {
    /// Returns an empty draft without capacity.
    pub fn new(alloc: Global) -> Draft
        ensures { result ≡ [] }
    {
        Draft {
            alloc,
            fields: BodyText::new(alloc),
        }
    }

    /// Returns an empty draft with room for the fields of a message.
    pub fn with_room(alloc: Global) -> Result<Draft, AllocError>
        ensures { IfOk result (λ draft. draft ≡ []) }
    {
        let fields = BodyText::with_room(alloc, ROOM)?;
        Ok(Draft { alloc, fields })
    }

    /// Removes all fields. Their room stays.
    pub fn clear(&mut self)
        ensures { self.new ≡ [] }
    {
        self.fields.clear();
    }

    /// Returns the allocator of its texts.
    pub fn alloc(&self) -> Global {
        self.alloc
    }

    /// Appends a value that can be encoded.
    #[inline(always)]
    pub fn push(&mut self, tag: u32, value: &[u8]) -> Result<(), AllocError>
        requires { IsTrue (is_plain value.now) }
        ensures { OnOk result (self.new ≡ self.old ++ tag_value tag value.now ∷ []) }
    {
        self.fields.push(tag, value)
    }

    /// Appends a number.
    #[inline(always)]
    pub fn push_number(&mut self, tag: u32, number: u64) -> Result<(), AllocError>
        ensures { OnOk result (self.new ≡ self.old ++ number_field tag number ∷ []) }
    {
        let mut digits = Buffer::new();
        self.push(tag, digits.format(number).as_bytes())
    }

    /// Appends a firm's own id.
    #[inline(always)]
    pub fn push_id(&mut self, tag: u32, id: Id) -> Result<(), AllocError>
        ensures { OnOk result (self.new ≡ self.old ++ tag_value tag id ∷ []) }
    {
        self.push(tag, id.get())
    }

    /// Appends a name that the house gave.
    #[inline(always)]
    pub fn push_name(&mut self, tag: u32, name: &[u8]) -> Result<(), AllocError>
        requires { IsName name.now }
        ensures { OnOk result (self.new ≡ self.old ++ tag_value tag name.now ∷ []) }
    {
        self.push(tag, name)
    }

    /// Appends a value made of these parts joined, which can be encoded.
    #[inline(always)]
    pub fn push_joined(&mut self, tag: u32, parts: &[&[u8]]) -> Result<(), AllocError>
        requires { IsTrue (is_plain (flat_map (λ part. part.now) parts.now)) }
        ensures { OnOk result (self.new ≡ self.old ++ tag_value tag (flat_map (λ part. part.now) parts.now) ∷ []) }
    {
        self.fields.push_joined(tag, parts)
    }

    /// Appends a price.
    pub fn push_price(&mut self, tag: u32, price: Price) -> Result<(), AllocError>
        ensures { OnOk result (self.new ≡ self.old ++ tag_value tag (price_text price) ∷ []) }
    {
        self.push(tag, price.text().get())
    }

    /// Appends a day.
    pub fn push_day(&mut self, tag: u32, day: Day) -> Result<(), AllocError>
        ensures { OnOk result (self.new ≡ self.old ++ tag_value tag (date_text day.year day.month day.day) ∷ []) }
    {
        self.push(tag, &day.text())
    }

    /// Appends a moment.
    #[inline(always)]
    pub fn push_moment(&mut self, tag: u32, moment: &Stamp) -> Result<(), AllocError>
        ensures { OnOk result ((text : List ℕ) × WritesMoment moment.now text × (self.new ≡ self.old ++ tag_value tag text ∷ [])) }
    {
        self.push(tag, &moment.text())
    }

    /// Appends the reason that a command isn't in the book.
    pub fn push_rejection(&mut self, rejection: &Rejection) -> Result<(), AllocError>
        ensures { OnOk result (self.new ≡ self.old ++ tag_value TEXT (rejection_text rejection.now) ∷ []) }
    {
        match rejection {
            Rejection::Refused(refusal) => self.push(TEXT, refusal.text().get()),
            Rejection::Memory => self.push(TEXT, b"Memory"),
            Rejection::Full => self.push(TEXT, b"Full"),
        }
    }

    /// Returns the fields as the text that `gu_fix::encode_onto` takes.
    pub fn fields(&self) -> &BodyText
        ensures fields { result.now ≡ self.now }
        ensures plain { ArePlain self.now }
    {
        &self.fields
    }

    /// Returns the fields as `Fields`.
    pub fn into_fields(self) -> Fields
        ensures { result ≡ self }
    {
        self.fields.into_fields()
    }
}
