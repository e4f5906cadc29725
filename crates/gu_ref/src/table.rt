//! Tables of rows by name, in the order of the file.

ghost use Rattle.std.specs.Prelude.{◌≡◌, ◌++◌, ◌∷◌, [], None, if◌then◌else◌, is_some};
ghost use Rattle.std.specs.List.{find};
ghost use Rattle.std.specs.Result.{is_ok};

use indexmap::IndexMap;
use std::alloc::{AllocError, Global};
use std::hash::Hash;
use std::marker::Model;

/// A row with a name that no other row of its kind has.
pub(crate) trait Named: Copy {
    type Name: Copy + Eq + Hash;

    ghost name: { Self → Self.Name };

    fn name(&self) -> Self::Name
        ensures { result ≡ name self.now };
}

/// A table of rows, with each name once. To a contract it is their list.
pub(crate) struct Table<R: Named> {
    rows: IndexMap<R::Name, R>,
}

impl<R: Named> Drop for Table<R> {
    fn drop(self) {
        let Table { rows } = self;
        drop(rows);
    }
}

impl<R: Named> Model for Table<R> {
    ghost use Rattle.std.specs.Prelude.{◌≡◌, List, map};
    ghost use Rattle.indexmap.specs.IndexMap.{keys, values};

    ghost Value = { List R };

    ghost view = { λ table. values table.rows };

    ghost invariant = { λ table. keys table.rows ≡ map R.name (values table.rows) };
}

impl<R: Named> Table<R> {
    /// Returns an empty table.
    pub(crate) fn new(alloc: Global) -> Self
        ensures { result ≡ [] }
    {
        Table {
            rows: IndexMap::new(alloc),
        }
    }

    /// Returns all rows, in order.
    pub(crate) fn as_slice(&self) -> &[R]
        ensures { result.now ≡ self.now }
    {
        self.rows.values().as_slice()
    }

    /// Returns the row with this name.
    pub(crate) fn get(&self, name: R::Name) -> Option<R>
        ensures { result ≡ find (λ row. R.Name.eq (R.name row) name) self.now }
    {
        self.rows.get(&name).copied()
    }

    /// Returns whether there is a row with this name.
    pub(crate) fn contains(&self, name: R::Name) -> bool
        ensures { result ≡ is_some (find (λ row. R.Name.eq (R.name row) name) self.now) }
    {
        self.rows.contains_key(&name)
    }

    /// Adds a row whose name is new.
    pub(crate) fn push(&mut self, row: R) -> Result<(), AllocError>
        requires { find (λ other. R.Name.eq (R.name other) (R.name row)) self.old ≡ None }
        ensures { self.new ≡ (if is_ok result then self.old ++ row ∷ [] else self.old) }
    {
        self.rows.insert(row.name(), row)?;
        Ok(())
    }
}
