//! Receipts with their entries packed as a history packs its own.

ghost use Rattle.std.specs.Prelude.{◌≡◌, ◌<◌, [], ◌∷◌, ◌++◌, length, slice_get, Some, IfOk, OnErr, OnOk};

use gu_terms::{Entry, History, KeptSweep, Receipt};
use std::alloc::{AllocError, Global};
use std::marker::Model;

/// A list of receipts: their numbers beside a history of their entries. To a contract it is their list.
pub(crate) struct PackedReceipts {
    numbers: Vec<u64>,
    entries: History,
    alloc: Global,
}

impl Model for PackedReceipts {
    ghost use Rattle.std.specs.Prelude.{◌≡◌, List, length};
    ghost use Rattle.gu_terms.specs.declared.receipt.Receipt.{Receipt as ReceiptOf};
    ghost use Rattle.gu_desk.specs.PackedReceipts.{receipts_of};

    ghost Value = { List ReceiptOf };

    ghost view = { λ r. receipts_of r.numbers.items r.entries };

    ghost invariant = { λ r. length r.numbers.items ≡ length r.entries };
}

// By hand, so that each exit of a caller drops it with one call.
impl Drop for PackedReceipts {
    fn drop(self) {
        let PackedReceipts {
            numbers,
            entries,
            alloc: _,
        } = self;
        drop(numbers);
        drop(entries);
    }
}

/// Adds a copy of an entry after the others.
fn push_entry(alloc: Global, entries: &mut History, entry: &Entry) -> Result<(), AllocError>
    ensures added { OnOk result (entries.new ≡ entries.old ++ entry.now ∷ []) }
    ensures refused { OnErr result (entries.new ≡ entries.old) }
{
    match entry {
        Entry::Asked { command, reply } => entries.push_asked(command, *reply),
        Entry::Swept(sweep) => {
            let kept = KeptSweep::of(alloc, sweep.group, &sweep.takes, &sweep.cut, sweep.lots)?;
            entries.push_swept(kept)
        }
    }
}

impl PackedReceipts {
    /// Returns an empty list.
    pub(crate) fn new(alloc: Global) -> Self
        ensures { result ≡ [] }
    {
        PackedReceipts {
            numbers: Vec::new(alloc),
            entries: History::new(alloc),
            alloc,
        }
    }

    #[tactic(auto, using(crate::proofs::ReceiptLists::as_many_receipts))]
    /// Returns the number of receipts.
    pub(crate) fn len(&self) -> usize
        ensures { result ≡ length self.now }
    {
        self.numbers.len()
    }

    #[tactic(auto, using(crate::proofs::ReceiptLists::as_many_receipts, crate::proofs::ReceiptLists::receipt_at))]
    /// Returns a copy of the receipt at an index, counted from 0.
    pub(crate) fn at(&self, place: usize) -> Result<Receipt, AllocError>
        requires { place < length self.now }
        ensures { IfOk result (λ receipt. slice_get self.now place ≡ Some receipt) }
    {
        let entry = self.entries.at(place)?;
        Ok(Receipt {
            number: self.numbers[place],
            entry,
        })
    }

    #[tactic(auto, using(crate::proofs::ReceiptLists::one_receipt_more))]
    /// Adds a copy of a receipt after the others.
    pub(crate) fn push(&mut self, receipt: &Receipt) -> Result<(), AllocError>
        ensures added { OnOk result (self.new ≡ self.old ++ receipt.now ∷ []) }
        ensures refused { OnErr result (self.new ≡ self.old) }
    {
        self.numbers.reserve(1)?;
        push_entry(self.alloc, &mut self.entries, &receipt.entry)?;
        self.numbers.push_reserved(receipt.number);
        Ok(())
    }
}
