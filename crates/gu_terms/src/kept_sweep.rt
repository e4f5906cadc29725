//! Sweeps as the history stores them: as lists, without a cut's hash tables.

ghost use Rattle.std.specs.Prelude.{◌≡◌, ◌↔◌, IsTrue, IfOk};

use crate::cut::Cut;
use crate::entry::SweepEntry;
use crate::group::Group;
use crate::limit_key::LimitKey;
use crate::offer_no::OfferNo;
use crate::seed::Seed;
use crate::takes::{Take, Takes};
use std::alloc::{AllocError, Global};
use std::marker::Model;

/// A sweep as lists without spare capacity. To a contract it is the sweep.
pub struct KeptSweep {
    group: Group,
    lots: u64,
    takes: Takes,
    keys: Vec<LimitKey>,
    offers: Vec<OfferNo>,
}

impl Model for KeptSweep {
    ghost use Rattle.std.specs.List.{IsDistinct};
    ghost use Rattle.gu_terms.specs.declared.entry.SweepEntry.{SweepEntry};

    ghost Value = { SweepEntry };

    ghost view = { λ s. record {
      group = s.group;
      takes = s.takes;
      cut = record { keys = s.keys.items; offers = s.offers.items };
      lots = s.lots;
    } };

    ghost invariant = { λ s.
        IsDistinct ⟦<LimitKey as PartialEq>⟧.eq s.keys.items × IsDistinct ⟦<OfferNo as PartialEq>⟧.eq s.offers.items };
}

// By hand, so that a caller's exit drops it with one call.
impl Drop for KeptSweep {
    fn drop(self) {
        let KeptSweep {
            group: _,
            lots: _,
            takes,
            keys,
            offers,
        } = self;
        drop(takes);
        drop(keys);
        drop(offers);
    }
}

impl KeptSweep {
    /// Returns the sweep of a group with these takes, this number of lots and the cut that bounds them.
    pub fn of(
        alloc: Global,
        group: Group,
        takes: &Takes,
        cut: &Cut,
        lots: u64,
    ) -> Result<KeptSweep, AllocError>
        ensures { IfOk result (λ sweep. sweep ≡ record { group = group; takes = takes.now; cut = cut.now; lots = lots }) }
    {
        let takes = takes.copy()?;
        let keys = Vec::from_slice(alloc, cut.keys())?;
        let offers = Vec::from_slice(alloc, cut.offers())?;
        Ok(KeptSweep {
            group,
            lots,
            takes,
            keys,
            offers,
        })
    }

    /// Returns its takes.
    pub(crate) fn takes(&self) -> &[Take]
        ensures { result.now ≡ self.now.takes }
    {
        self.takes.as_slice()
    }

    /// Returns the lots that it takes.
    pub(crate) fn lots(&self) -> u64
        ensures { result ≡ self.now.lots }
    {
        self.lots
    }

    /// Returns the sweep, with a cut that can be searched for keys and offers.
    pub(crate) fn entry(&self, alloc: Global) -> Result<SweepEntry, AllocError>
        ensures { IfOk result (λ sweep. sweep ≡ self.now) }
    {
        let takes = self.takes.copy()?;
        let cut = Cut::of(alloc, Seed::new(0), &self.keys, &self.offers)?;
        Ok(SweepEntry {
            group: self.group,
            takes,
            cut,
            lots: self.lots,
        })
    }

    /// Returns whether this is the stored form of a sweep.
    pub(crate) fn is_same(&self, sweep: &SweepEntry) -> bool
        ensures { IsTrue result ↔ (self.now ≡ sweep.now) }
    {
        self.group == sweep.group
            && self.lots == sweep.lots
            && self.takes.is_same(&sweep.takes)
            && sweep.cut.is_of(&self.keys, &self.offers)
    }
}
