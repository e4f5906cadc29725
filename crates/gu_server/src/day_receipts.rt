//! The receipts of a day, in the parts that its threads hand back.

ghost use Rattle.std.specs.Prelude.{◌≡◌, ◌++◌, IfErr, IfOk, OnOk};
ghost use Rattle.gu_desk.specs.Audits.{AreReceiptsOf, IsFirstFault};
ghost use Rattle.gu_desk.specs.KeptReceipts.{receipts_in};

use gu_book::Book;
use gu_desk::{AuditFault, KeptReceipts, audit_kept};
use gu_terms::Receipt;
use std::alloc::{AllocError, Global};
use std::marker::Model;

/// Receipts in parts, one for each thread that kept some. To a contract it is the list of all receipts.
///
/// A part is added as it is: no receipt is moved, and where there is room for the part nothing is allocated.
#[derive(Drop)]
pub struct DayReceipts {
    parts: Vec<KeptReceipts>,
}

impl Model for DayReceipts {
    ghost use Rattle.std.specs.Prelude.{List};
    ghost use Rattle.std.specs.List.{flat_map};
    ghost use Rattle.gu_terms.specs.declared.receipt.Receipt.{Receipt as ReceiptOf};
    ghost use Rattle.gu_desk.specs.KeptReceipts.{receipts_in};

    ghost Value = { List ReceiptOf };

    ghost view = { λ r. flat_map receipts_in r.parts.items };
}

impl DayReceipts {
    /// Creates one with these receipts, and room for this many more parts.
    pub fn new(alloc: Global, first: Vec<Receipt>, more: usize) -> Result<Self, AllocError>
        ensures { IfOk result (λ receipts. receipts ≡ first.items) }
    {
        let mut parts = Vec::with_capacity(alloc, more.saturating_add(1))?;
        let first = KeptReceipts::of(alloc, first)?;
        parts.push(first)?;
        Ok(DayReceipts { parts })
    }

    /// Adds a part after the others.
    pub fn add(&mut self, part: KeptReceipts) -> Result<(), AllocError>
        ensures { OnOk result (self.new ≡ self.old ++ receipts_in part) }
    {
        self.parts.push(part)?;
        Ok(())
    }

    /// Audits them: each entry of the book has exactly one of them, and there are no others. Otherwise the first fault is the error.
    pub fn audit(&self, alloc: Global, book: &Book) -> Result<(), AuditFault>
        ensures ok { OnOk result (AreReceiptsOf book.now.history self.now) }
        ensures fault { IfErr result (IsFirstFault book.now.history self.now) }
    {
        audit_kept(alloc, book, self.parts.as_slice())
    }
}
