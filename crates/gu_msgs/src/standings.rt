//! The first field with each tag of a table.

ghost use Rattle.std.specs.Prelude.{◌≡◌, ◌≤◌, length, false, IfSome, List, MatchOption, None, Some, ⊤};
ghost use Rattle.gu_fix.specs.TagValue.{TagValue};
ghost use Rattle.gu_msgs.specs.Rows.{is_listed};
ghost use Rattle.gu_msgs.specs.Shape.{missing, repeated};
ghost use Rattle.gu_msgs.specs.Standings.{AreStandings, IsTable, Notes, fields_after, value_numbered};
ghost use Rattle.gu_msgs.specs.Tables.{outer_rows};

use crate::msg_type::MsgType;
use crate::places::row_of;
use crate::row::Row;
use crate::run::Run;

/// The most rows in a table.
const MOST_ROWS: usize = 20;

/// For each row of a table, the number of the first field with its tag, counted from 1; 0 if there is none.
pub type Standings = [usize; MOST_ROWS];

/// The standings if no field has a tag of the table.
pub const NONE_STANDS: Standings = [0; MOST_ROWS];

/// Records the number of the first field with a tag, unless one was recorded before.
#[inline(always)]
fn note(
    rows: &[Row],
    outer: Option<MsgType>,
    numbers: &mut Standings,
    tag: u32,
    number: usize,
) -> bool
    requires few { length rows.now ≤ 20 }
    requires outer { IfSome outer (λ msg_type. rows.now ≡ outer_rows msg_type) }
    ensures { Notes result rows.now tag number numbers.old numbers.new }
{
    let Some(place) = row_of(rows, outer, tag) else {
        return true;
    };
    if numbers[place] != 0 {
        return false;
    }
    numbers[place] = number;
    true
}

/// Finds the first fields with the tags of these rows, unless a tag is repeated: then returns the leftmost such tag. If a type is given,
/// the rows are those of the outer level of its messages.
#[inline(always)]
pub fn standings(
    fields: &Run<'_>,
    rows: &[Row],
    outer: Option<MsgType>,
    numbers: &mut Standings,
) -> Option<u32>
    requires table { IsTable rows.now }
    requires outer { IfSome outer (λ msg_type. rows.now ≡ outer_rows msg_type) }
    ensures once { MatchOption result (repeated rows.now fields.now ≡ None) (λ tag. repeated rows.now fields.now ≡ Some tag) }
    ensures first { MatchOption result (AreStandings rows.now fields.now numbers.new) (λ tag. ⊤) }
{
    *numbers = NONE_STANDS;
    let mut seen = 0;
    for field in fields {
        seen += 1;
        if !note(rows, outer, numbers, field.tag, seen) {
            return Some(field.tag);
        }
    }
    None
}

/// Returns the first required tag of these rows that is missing.
#[inline(always)]
pub fn missing(rows: &[Row], numbers: &Standings) -> Option<u32>
    requires { length rows.now ≤ 20 }
    ensures { (fields : List TagValue) → AreStandings rows.now fields numbers.now → result ≡ missing rows.now fields }
{
    for (place, row) in rows.iter().enumerate() {
        if row.is_required() && numbers[place] == 0 {
            return Some(row.tag());
        }
    }
    None
}

/// Returns the fields after the one with this number.
pub fn fields_after<'a>(fields: &Run<'a>, number: usize) -> Run<'a>
    requires { number ≤ length fields.now }
    ensures { result ≡ fields_after fields.now number }
{
    if number == 0 {
        return fields.first(0);
    }
    fields.from(number)
}

/// Returns the value of the field with this number.
pub fn value_numbered<'a>(fields: &Run<'a>, number: usize) -> Option<&'a [u8]>
    requires { number ≤ length fields.now }
    ensures { MatchOption result (value_numbered fields.now number ≡ None) (λ value. value_numbered fields.now number ≡ Some value.now) }
{
    if number == 0 {
        return None;
    }
    Some(fields.get(number - 1).value)
}
