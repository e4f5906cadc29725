//! Repeating groups: a counter followed by entries.

ghost use Rattle.std.specs.Prelude.{◌≡◌, ◌∷◌, ◌==◌, ◌+◌, ◌<◌, ◌≤◌, ◌^◌, ℕ, [], length, Some, Ok, Err, IsTrue, MatchOption, MatchResult};
ghost use Rattle.gu_msgs.specs.Groups.{entries_by, group_of, up_to};
ghost use Rattle.gu_msgs.specs.Rows.{is_listed};
ghost use Rattle.gu_msgs.specs.Standings.{IsStanding};
ghost use Rattle.gu_msgs.specs.Tables.{outer_rows};
ghost use Rattle.gu_msgs.specs.Values.{first_value, stands};

use crate::fault::Fault;
use crate::field_values::first_value;
use crate::msg_type::MsgType;
use crate::places::outer_place;
use crate::reject_reason::SessionRejectReason;
use crate::run::Run;
use crate::standings::fields_after;

/// Returns whether a tag is read at the outer level of a message of this type.
#[inline(always)]
pub fn is_outer(msg_type: MsgType, tag: u32) -> bool
    ensures { result ≡ is_listed (outer_rows msg_type) tag }
{
    outer_place(msg_type, tag).is_some()
}

/// Returns the number of fields from the first one read at the outer level to the end.
#[inline(always)]
fn left_from_outer(fields: &Run<'_>, msg_type: MsgType) -> usize
    ensures { result + length (up_to (is_listed (outer_rows msg_type)) fields.now) ≡ length fields.now }
{
    let mut left = fields.len();
    for field in fields {
        if is_outer(msg_type, field.tag) {
            break;
        }
        left -= 1;
    }
    left
}

/// Returns the number of fields from the first one with this tag to the end.
fn left_from_tag(fields: &Run<'_>, tag: u32) -> usize
    ensures { result + length (up_to (λ t. t == tag) fields.now) ≡ length fields.now }
{
    let mut left = fields.len();
    for field in fields {
        if field.tag == tag {
            break;
        }
        left -= 1;
    }
    left
}

/// Returns the fields before the first one read at the outer level.
#[inline(always)]
fn up_to_outer<'a>(fields: &Run<'a>, msg_type: MsgType) -> Run<'a>
    ensures fields { result ≡ up_to (is_listed (outer_rows msg_type)) fields.now }
    ensures short { length result < 2 ^ 64 }
{
    fields.first(fields.len() - left_from_outer(fields, msg_type))
}

/// Returns the group after the field with this number, which is the first with the group's counter.
#[inline(always)]
pub fn group_after<'a>(fields: &Run<'a>, msg_type: MsgType, number: usize) -> Run<'a>
    requires { number ≤ length fields.now }
    ensures fields { (counter : ℕ) → IsStanding fields.now counter number → result ≡ group_of msg_type counter fields.now }
    ensures short { length result < 2 ^ 64 }
{
    up_to_outer(&fields_after(fields, number), msg_type)
}

/// Takes the next entry of a group whose entries begin with this tag.
pub fn next_entry<'a>(rest: &mut Run<'a>, first: u32) -> Option<Run<'a>>
    ensures { MatchOption result (entries_by first rest.old ≡ [])
        (λ entry. entries_by first rest.old ≡ entry ∷ entries_by first rest.new) }
{
    let mut here = rest.copy();
    while let Some(field) = rest.next() {
        if field.tag == first {
            return Some(here.first(here.len() - left_from_tag(rest, first)));
        }
        here = rest.copy();
    }
    None
}

/// Returns whether a group has this number of entries, given the tag that each begins with.
pub fn has_entries(group: &Run<'_>, first: u32, number: u64) -> bool
    ensures { result ≡ (number == length (entries_by first group.now)) }
{
    let mut left = number;
    for field in group {
        if field.tag == first {
            if left == 0 {
                return false;
            }
            left -= 1;
        }
    }
    left == 0
}

/// Returns the text of a tag that an entry has.
pub fn text_at<'a>(entry: &Run<'a>, tag: u32) -> &'a [u8]
    requires { IsTrue (stands tag entry.now) }
    ensures { first_value tag entry.now ≡ Some result.now }
{
    let Some(text) = first_value(entry, tag) else {
        unreachable!();
    };
    text
}

/// Returns the value read from the text of a tag in an entry, or its fault.
pub fn value_at<T: Drop>(tag: u32, read: Result<T, SessionRejectReason>) -> Result<T, Fault>
    ensures { MatchResult result (λ value. read ≡ Ok value) (λ fault. (read ≡ Err fault.reason) × (fault.tag ≡ tag)) }
{
    match read {
        Ok(value) => Ok(value),
        Err(reason) => Err(Fault { tag, reason }),
    }
}
