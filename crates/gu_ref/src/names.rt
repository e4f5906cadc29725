//! The names of firms and of product groups, in the order of their rows.

ghost use Rattle.std.specs.Prelude.{◌≡◌, ◌++◌, ◌∷◌, [], false, if◌then◌else◌};
ghost use Rattle.std.specs.List.{list_any};
ghost use Rattle.std.specs.Result.{is_ok};

use indexmap::IndexSet;
use std::alloc::{AllocError, Global};
use std::hash::Hash;
use std::marker::Model;

/// A table of names of one kind, each once. To a contract it is their list.
pub(crate) struct Names<N: Copy + Eq + Hash> {
    rows: IndexSet<N>,
}

impl<N: Copy + Eq + Hash> Drop for Names<N> {
    fn drop(self) {
        let Names { rows } = self;
        drop(rows);
    }
}

impl<N: Copy + Eq + Hash> Model for Names<N> {
    ghost use Rattle.std.specs.Prelude.{List};

    ghost Value = { List N };

    ghost view = { λ names. names.rows.keys };
}

impl<N: Copy + Eq + Hash> Names<N> {
    /// Returns an empty table.
    pub(crate) fn new(alloc: Global) -> Self
        ensures { result ≡ [] }
    {
        Names {
            rows: IndexSet::new(alloc),
        }
    }

    /// Returns all names, in order.
    pub(crate) fn as_slice(&self) -> &[N]
        ensures { result.now ≡ self.now }
    {
        self.rows.as_slice()
    }

    /// Returns whether the name is in the table.
    pub(crate) fn contains(&self, name: N) -> bool
        ensures { result ≡ list_any (λ n. N.eq n name) self.now }
    {
        self.rows.contains(&name)
    }

    /// Adds a name that isn't in the table.
    pub(crate) fn push(&mut self, name: N) -> Result<(), AllocError>
        requires { list_any (λ n. N.eq n name) self.old ≡ false }
        ensures { self.new ≡ (if is_ok result then self.old ++ name ∷ [] else self.old) }
    {
        self.rows.insert(name)?;
        Ok(())
    }
}
