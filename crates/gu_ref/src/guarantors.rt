//! The guarantors of a reference, in the order of their rows.

ghost use Rattle.std.specs.Prelude.{◌≡◌, ◌++◌, ◌∷◌, [], None, if◌then◌else◌, OnOk, OnErr};
ghost use Rattle.indexmap.specs.IndexMap.{insert_entry};
ghost use Rattle.indexmap.specs.IndexSet.{insert_key};
ghost use Rattle.std.specs.Result.{is_ok};

use gu_terms::FirmId;
use indexmap::{IndexMap, IndexSet};
use std::alloc::{AllocError, Global};
use std::marker::Model;

/// A guarantor and the firm that it guarantees.
#[derive(Clone, Copy, Debug, PartialEq, Eq)]
pub struct Guarantor {
    pub guarantor: FirmId,
    pub firm: FirmId,
}

/// A table of guarantors, at most one for each firm. To a contract it is the list of their rows.
pub(crate) struct Guarantors {
    /// The rows by guaranteed firm.
    rows: IndexMap<FirmId, Guarantor>,
    /// The firms that guarantee at least one other.
    guarantors: IndexSet<FirmId>,
}

impl Drop for Guarantors {
    fn drop(self) {
        let Guarantors { rows, guarantors } = self;
        drop(rows);
        drop(guarantors);
    }
}

impl Model for Guarantors {
    ghost use Rattle.std.specs.Prelude.{List};
    ghost use Rattle.indexmap.specs.IndexMap.{values};
    ghost use Rattle.gu_ref.specs.declared.guarantors.Guarantor.{Guarantor as Row};

    ghost Value = { List Row };

    ghost use Rattle.gu_ref.specs.Kept.{IsGuaranteed};

    ghost view = { λ r. values r.rows };

    ghost invariant = { IsGuaranteed };
}

/// Adds a row under the firm that it guarantees, and its guarantor to the guarantors. All allocations come first, so a failure leaves both
/// unchanged.
fn add(
    rows: &mut IndexMap<FirmId, Guarantor>,
    guarantors: &mut IndexSet<FirmId>,
    row: &Guarantor,
) -> Result<(), AllocError>
    ensures named { OnOk result (rows.new.entries
        ≡ insert_entry ⟦<FirmId as PartialEq>⟧.eq rows.old.entries row.now.firm row.now) }
    ensures guarding { OnOk result (guarantors.new.keys
        ≡ insert_key ⟦<FirmId as PartialEq>⟧.eq guarantors.old.keys row.now.guarantor) }
    ensures err { OnErr result ((rows.new.entries ≡ rows.old.entries) × (guarantors.new.keys ≡ guarantors.old.keys)) }
{
    rows.reserve(1)?;
    guarantors.insert(row.guarantor)?;
    let _ = rows.insert(row.firm, *row);
    Ok(())
}

impl Guarantors {
    ghost use Rattle.gu_ref.specs.Listed.{guarantor_for, is_guarantor_in};

    /// Returns an empty table.
    pub(crate) fn new(alloc: Global) -> Self
        ensures { result ≡ [] }
    {
        Guarantors {
            rows: IndexMap::new(alloc),
            guarantors: IndexSet::new(alloc),
        }
    }

    /// Returns all rows, in order.
    pub(crate) fn as_slice(&self) -> &[Guarantor]
        ensures { result.now ≡ self.now }
    {
        self.rows.values().as_slice()
    }

    /// Returns the row that gives a firm its guarantor.
    pub(crate) fn get(&self, firm: FirmId) -> Option<Guarantor>
        ensures { result ≡ guarantor_for self.now firm }
    {
        self.rows.get(&firm).copied()
    }

    /// Returns whether the firm is the guarantor in one of the rows.
    pub(crate) fn guards(&self, firm: FirmId) -> bool
        ensures { result ≡ is_guarantor_in self.now firm }
    {
        self.guarantors.contains(&firm)
    }

    /// Adds a row whose firm has no guarantor yet.
    pub(crate) fn push(&mut self, row: Guarantor) -> Result<(), AllocError>
        requires { guarantor_for self.old row.firm ≡ None }
        ensures { self.new ≡ (if is_ok result then self.old ++ row ∷ [] else self.old) }
    {
        add(&mut self.rows, &mut self.guarantors, &row)
    }
}
