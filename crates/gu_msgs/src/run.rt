//! Consecutive fields of a message.

ghost use Rattle.std.specs.Prelude.{◌≡◌, ◌<◌, ◌≤◌, ◌^◌, length, slice_get, Some, take, drop};
ghost use Rattle.gu_fix.specs.TagValue.{tag_value};

use gu_fix::{Field, Fields};
use std::marker::Model;

/// Consecutive fields of a message. To a contract they are the list of their tags and values.
#[derive(Drop)]
pub struct Run<'a> {
    fields: &'a Fields,
    from: usize,
    to: usize,
}

impl<'a> Model for Run<'a> {
    ghost use Rattle.std.specs.Prelude.{List};
    ghost use Rattle.gu_fix.specs.TagValue.{TagValue};

    ghost Value = { List TagValue };

    ghost use Rattle.gu_msgs.specs.Runs.{fields_between, IsBetween};

    ghost view = { λ r. fields_between r.fields.now r.from r.to };

    ghost invariant = { λ r. IsBetween r.fields.now r.from r.to };
}

impl<'a> Run<'a> {
    /// Returns all of these fields.
    pub fn of(fields: &'a Fields) -> Run<'a>
        ensures { result ≡ fields.now }
    {
        Run {
            fields,
            from: 0,
            to: fields.len(),
        }
    }

    /// Returns the same fields again.
    pub fn copy(&self) -> Run<'a>
        ensures { result ≡ self.now }
    {
        Run {
            fields: self.fields,
            from: self.from,
            to: self.to,
        }
    }

    /// Returns the number of fields.
    pub fn len(&self) -> usize
        ensures { result ≡ length self.now }
    {
        self.to - self.from
    }

    /// Returns the field at an index, counted from 0.
    pub fn get(&self, index: usize) -> Field<'a>
        requires { index < length self.now }
        ensures { slice_get self.now index ≡ Some (tag_value result.tag result.value.now) }
    {
        let left = self.len() - index;
        self.fields.get(self.to - left)
    }

    /// Returns the first `count` fields.
    pub fn first(&self, count: usize) -> Run<'a>
        requires { count ≤ length self.now }
        ensures first { result ≡ take count self.now }
        ensures short { length result < 2 ^ 64 }
    {
        Run {
            fields: self.fields,
            from: self.from,
            to: self.from + count,
        }
    }

    /// Returns the fields after the first `count`.
    pub fn from(&self, count: usize) -> Run<'a>
        requires { count ≤ length self.now }
        ensures { result ≡ drop count self.now }
    {
        Run {
            fields: self.fields,
            from: self.from + count,
            to: self.to,
        }
    }
}

impl<'a> Iterator for Run<'a> {
    type Item = Field<'a>;

    ghost use Rattle.std.specs.Iterator.{YieldsFirstBy, item_count};
    ghost use Rattle.gu_fix.specs.TagValue.{tag_value};

    ghost next_gives = { YieldsFirstBy (λ field. tag_value field.tag field.value.now) (λ left. left) };

    ghost remaining = { item_count (λ left. left) };

    fn next(&mut self) -> Option<Field<'a>> {
        if self.from == self.to {
            return None;
        }
        let field = self.fields.get(self.from);
        self.from += 1;
        Some(field)
    }
}

impl<'r, 'a> IntoIterator for &'r Run<'a> {
    type Item = Field<'a>;

    type IntoIter = Run<'a>;

    ghost into_iter_gives = { λ run it. it ≡ run.now };

    fn into_iter(self) -> Run<'a> {
        self.copy()
    }
}
