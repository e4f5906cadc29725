//! The table of messages that are read: a row for each tag.

ghost use Rattle.std.specs.Prelude.{◌≡◌};
ghost use Rattle.gu_msgs.specs.Rows.{tag_of, is_required};

/// The kind of value that a field's text must have.
#[derive(Clone, Copy)]
pub enum Kind {
    /// Any bytes.
    Text,
    /// The id of a TestRequest.
    TestReqId,
    /// `Y` or `N`.
    YesOrNo,
    /// An id that a firm gave.
    Id,
    /// A name that the house gave.
    Name,
    /// A number of lots.
    Lots,
    /// A price.
    Price,
    /// A date in eight digits.
    Date,
    /// A whole number from the first number to the second.
    Number(u64, u64),
    /// The whole number of an AllocStatus.
    Status,
}

/// A tag that is read, and the kind of its value.
#[derive(Clone, Copy)]
pub enum Row {
    /// A required tag.
    Required(u32, Kind),
    /// A tag that may be absent.
    Optional(u32, Kind),
}

impl Row {
    /// Returns the tag.
    pub fn tag(self) -> u32
        ensures { result ≡ tag_of self }
    {
        match self {
            Row::Required(tag, _) | Row::Optional(tag, _) => tag,
        }
    }

    /// Returns whether the tag is required.
    pub fn is_required(self) -> bool
        ensures { result ≡ is_required self }
    {
        match self {
            Row::Required(_, _) => true,
            Row::Optional(_, _) => false,
        }
    }
}
