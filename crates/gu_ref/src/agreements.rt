//! The agreements of a reference, in the order of their rows.

ghost use Rattle.std.specs.Prelude.{◌≡◌, ◌++◌, ◌∷◌, [], None, if◌then◌else◌, is_some, OnOk, OnErr};
ghost use Rattle.indexmap.specs.IndexMap.{insert_entry};
ghost use Rattle.std.specs.Result.{is_ok};

use gu_terms::{AccountId, AgreementId, FirmId};
use indexmap::IndexMap;
use std::alloc::{AllocError, Global};
use std::marker::Model;

/// An agreement under which the executing firm may give trades up to the account.
#[derive(Clone, Copy, Debug, PartialEq, Eq)]
pub struct Agreement {
    pub id: AgreementId,
    pub executing: FirmId,
    pub account: AccountId,
}

/// The parties to an agreement. No two agreements have the same.
#[derive(Clone, Copy, Debug, PartialEq, Eq, Hash)]
struct Pair {
    executing: FirmId,
    account: AccountId,
}

/// A table of agreements, with each name and each pair once. To a contract it is their list.
pub(crate) struct Agreements {
    rows: IndexMap<AgreementId, Agreement>,
    pairs: IndexMap<Pair, Agreement>,
}

impl Drop for Agreements {
    fn drop(self) {
        let Agreements { rows, pairs } = self;
        drop(rows);
        drop(pairs);
    }
}

impl Model for Agreements {
    ghost use Rattle.std.specs.Prelude.{List};
    ghost use Rattle.indexmap.specs.IndexMap.{values};
    ghost use Rattle.gu_ref.specs.declared.agreements.Agreement.{Agreement as Row};

    ghost Value = { List Row };

    ghost use Rattle.gu_ref.specs.Kept.{IsKept};

    ghost view = { λ r. values r.rows };

    ghost invariant = { IsKept };
}

/// Indexes an agreement by its pair.
fn pair_up(pairs: &mut IndexMap<Pair, Agreement>, agreement: &Agreement) -> Result<(), AllocError>
    ensures paired { OnOk result (pairs.new.entries ≡ insert_entry ⟦<Pair as PartialEq>⟧.eq pairs.old.entries
        (record { executing = agreement.now.executing; account = agreement.now.account }) agreement.now) }
    ensures err { OnErr result (pairs.new.entries ≡ pairs.old.entries) }
{
    let pair = Pair {
        executing: agreement.executing,
        account: agreement.account,
    };
    pairs.insert(pair, *agreement)?;
    Ok(())
}

/// Adds an agreement under its name and its pair. All allocations come first, so a failed one leaves both tables unchanged.
fn add(
    rows: &mut IndexMap<AgreementId, Agreement>,
    pairs: &mut IndexMap<Pair, Agreement>,
    agreement: &Agreement,
) -> Result<(), AllocError>
    ensures named { OnOk result (rows.new.entries
        ≡ insert_entry ⟦<AgreementId as PartialEq>⟧.eq rows.old.entries agreement.now.id agreement.now) }
    ensures paired { OnOk result (pairs.new.entries ≡ insert_entry ⟦<Pair as PartialEq>⟧.eq pairs.old.entries
        (record { executing = agreement.now.executing; account = agreement.now.account }) agreement.now) }
    ensures err { OnErr result ((rows.new.entries ≡ rows.old.entries) × (pairs.new.entries ≡ pairs.old.entries)) }
{
    rows.reserve(1)?;
    pair_up(pairs, agreement)?;
    let _ = rows.insert(agreement.id, *agreement);
    Ok(())
}

impl Agreements {
    ghost use Rattle.gu_ref.specs.Listed.{agreement_in, agreement_for};

    /// Returns an empty table.
    pub(crate) fn new(alloc: Global) -> Self
        ensures { result ≡ [] }
    {
        Agreements {
            rows: IndexMap::new(alloc),
            pairs: IndexMap::new(alloc),
        }
    }

    /// Returns all agreements, in order.
    pub(crate) fn as_slice(&self) -> &[Agreement]
        ensures { result.now ≡ self.now }
    {
        self.rows.values().as_slice()
    }

    /// Returns the agreement with this name.
    pub(crate) fn get(&self, id: AgreementId) -> Option<Agreement>
        ensures { result ≡ agreement_in self.now id }
    {
        self.rows.get(&id).copied()
    }

    /// Returns whether there is an agreement with this name.
    pub(crate) fn contains(&self, id: AgreementId) -> bool
        ensures { result ≡ is_some (agreement_in self.now id) }
    {
        self.rows.contains_key(&id)
    }

    /// Returns the agreement between this executing firm and this account.
    pub(crate) fn between(&self, executing: FirmId, account: AccountId) -> Option<Agreement>
        ensures { result ≡ agreement_for self.now executing account }
    {
        self.pairs.get(&Pair { executing, account }).copied()
    }

    /// Adds an agreement whose name and whose pair are new.
    pub(crate) fn push(&mut self, agreement: Agreement) -> Result<(), AllocError>
        requires name { agreement_in self.old agreement.id ≡ None }
        requires pair { agreement_for self.old agreement.executing agreement.account ≡ None }
        ensures { self.new ≡ (if is_ok result then self.old ++ agreement ∷ [] else self.old) }
    {
        add(&mut self.rows, &mut self.pairs, &agreement)
    }
}
