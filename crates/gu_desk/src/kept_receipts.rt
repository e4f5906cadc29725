//! Receipts kept for an audit.

ghost use Rattle.std.specs.Prelude.{◌≡◌, ◌↔◌, List, [], ◌∷◌, ◌++◌, IfOk, IfSome, IsNone, OnOk};
ghost use Rattle.gu_terms.specs.declared.receipt.Receipt.{Receipt as ReceiptOf};

use crate::packed_receipts::PackedReceipts;
use gu_terms::Receipt;
use std::alloc::{AllocError, Global};

/// A list of receipts kept for an audit. The last one is kept as it is, and packed with the others when room is made for the next: so
/// adding a receipt for which there is room allocates nothing.
pub struct KeptReceipts {
    pub(crate) earlier: PackedReceipts,
    pub(crate) last: Option<Receipt>,
}

// By hand, so that each exit of a caller drops it with one call.
impl Drop for KeptReceipts {
    fn drop(self) {
        let KeptReceipts { earlier, last } = self;
        drop(earlier);
        drop(last);
    }
}

impl KeptReceipts {
    ghost use Rattle.gu_desk.specs.KeptReceipts.{receipts_in, HasRoom};

    /// Returns an empty list.
    pub fn new(alloc: Global) -> Self
        ensures { receipts_in result ≡ [] }
    {
        KeptReceipts {
            earlier: PackedReceipts::new(alloc),
            last: None,
        }
    }

    /// Returns a list of these receipts.
    pub fn of(alloc: Global, receipts: Vec<Receipt>) -> Result<Self, AllocError>
        ensures { IfOk result (λ kept. receipts_in kept ≡ receipts.items) }
    {
        let mut kept = KeptReceipts::new(alloc);
        for receipt in receipts {
            kept.reserve()?;
            kept.push_reserved(receipt);
        }
        Ok(kept)
    }

    /// Makes room for one more receipt. The receipts stay the same.
    pub fn reserve(&mut self) -> Result<(), AllocError>
        ensures room { OnOk result (HasRoom self.new) }
        ensures same { receipts_in self.new ≡ receipts_in self.old }
    {
        if let Some(receipt) = &self.last {
            self.earlier.push(receipt)?;
            self.last = None;
        }
        Ok(())
    }

    /// Adds a receipt, for which there is room, after the others.
    pub fn push_reserved(&mut self, receipt: Receipt)
        requires { HasRoom self.old }
        ensures { receipts_in self.new ≡ receipts_in self.old ++ receipt ∷ [] }
    {
        self.last = Some(receipt);
    }

    /// Returns the last receipt, unless room was made for another since.
    pub fn last(&self) -> Option<&Receipt>
        ensures last { IfSome result (λ last. (earlier : List ReceiptOf) × (receipts_in self.now ≡ earlier ++ last.now ∷ [])) }
        ensures none { IsNone result ↔ HasRoom self.now }
    {
        self.last.as_ref()
    }
}
