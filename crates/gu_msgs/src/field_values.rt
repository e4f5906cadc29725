//! Look-up of field values by tag.

ghost use Rattle.std.specs.Prelude.{◌≡◌, Some, None, MatchOption};
ghost use Rattle.gu_msgs.specs.Values.{first_value};

use crate::run::Run;

/// Returns the value of the first field with this tag.
pub fn first_value<'a>(fields: &Run<'a>, tag: u32) -> Option<&'a [u8]>
    ensures { MatchOption result (first_value tag fields.now ≡ None) (λ value. first_value tag fields.now ≡ Some value.now) }
{
    for field in fields {
        if field.tag == tag {
            return Some(field.value);
        }
    }
    None
}
