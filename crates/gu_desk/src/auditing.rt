//! Audits.

ghost use Rattle.std.specs.Prelude.{◌≡◌, ◌-◌, ◌<◌, ◌≤◌, ◌∷◌, ◌++◌, [], ℕ, Bool, List, true, false, length, slice_get, IfErr, IfNone, IfOk, IfSome, OnOk, Some};
ghost use Rattle.std.specs.List.{flat_map};
ghost use Rattle.gu_terms.specs.declared.entry.Entry.{Entry as EntryOf};
ghost use Rattle.gu_terms.specs.declared.receipt.Receipt.{Receipt as ReceiptOf};
ghost use Rattle.gu_desk.specs.Audits.{AreReceiptsOf, IsFaultOf, IsFirstFault, IsNumber, IsReceiptOf};
ghost use Rattle.gu_desk.specs.KeptReceipts.{receipts_in};
ghost use Rattle.gu_desk.specs.Marks.{AreMarks};

use crate::error::AuditFault;
use crate::kept_receipts::KeptReceipts;
use gu_book::Book;
use gu_terms::{History, Receipt};
use std::alloc::{AllocError, Global};

#[tactic(auto, using(crate::proofs::AuditLemmas::entry_number, crate::proofs::AuditLemmas::no_entry))]
/// Returns the fault of a receipt, if it has one, given which entries already have a receipt.
fn fault_of(history: &History, with_receipt: &[bool], receipt: &Receipt) -> Option<AuditFault>
    requires { length with_receipt.now ≡ length history.now }
    ensures fault { IfSome result (λ fault. (has_earlier : Bool)
        → (IsNumber history.now receipt.now.number → slice_get with_receipt.now (receipt.now.number - 1) ≡ Some has_earlier)
        → IsFaultOf history.now has_earlier receipt.now fault) }
    ensures sound { IfNone result
        (IsReceiptOf history.now receipt.now × (slice_get with_receipt.now (receipt.now.number - 1) ≡ Some false)) }
{
    let number = receipt.number;
    match history.is_entry(number, &receipt.entry) {
        None => Some(AuditFault::Missing(number)),
        Some(false) => Some(AuditFault::Differs(number)),
        Some(true) if with_receipt[number as usize - 1] => Some(AuditFault::Twice(number)),
        Some(true) => None,
    }
}

/// Marks the entry of a receipt, or returns the receipt's fault.
fn mark(
    history: &History,
    with_receipt: &mut Vec<bool>,
    receipt: &Receipt,
) -> Result<(), AuditFault>
    requires { length with_receipt.old.items ≡ length history.now }
    ensures sized { length with_receipt.new.items ≡ length history.now }
    ensures ok { (seen : List ReceiptOf) → AreMarks history.now seen with_receipt.old.items
        → OnOk result (AreMarks history.now (seen ++ receipt.now ∷ []) with_receipt.new.items) }
    ensures fault { (seen rest : List ReceiptOf) → AreMarks history.now seen with_receipt.old.items
        → IfErr result (IsFirstFault history.now (seen ++ receipt.now ∷ rest)) }
{
    if let Some(fault) = fault_of(history, with_receipt.as_slice(), receipt) {
        return Err(fault);
    }
    with_receipt[receipt.number as usize - 1] = true;
    Ok(())
}

/// Marks the entries of receipts in order, up to the first that has a fault.
fn mark_kept(
    history: &History,
    with_receipt: &mut Vec<bool>,
    receipts: &KeptReceipts,
) -> Result<(), AuditFault>
    requires { length with_receipt.old.items ≡ length history.now }
    ensures sized { length with_receipt.new.items ≡ length history.now }
    ensures ok { (seen : List ReceiptOf) → AreMarks history.now seen with_receipt.old.items
        → OnOk result (AreMarks history.now (seen ++ receipts_in receipts.now) with_receipt.new.items) }
    ensures fault { (seen rest : List ReceiptOf) → AreMarks history.now seen with_receipt.old.items
        → IfErr result (IsFirstFault history.now (seen ++ (receipts_in receipts.now ++ rest))) }
{
    for place in 0..receipts.earlier.len() {
        let receipt = receipts.earlier.at(place)?;
        mark(history, with_receipt, &receipt)?;
    }
    match &receipts.last {
        Some(last) => mark(history, with_receipt, last),
        None => Ok(()),
    }
}

/// Returns the lowest number of an entry without a receipt.
fn first_without(with_receipt: &[bool]) -> Option<u64>
    ensures some { IfSome result (λ number.
        (1 ≤ number) × (slice_get with_receipt.now (number - 1) ≡ Some false)
        × ((lesser : ℕ) → 1 ≤ lesser → lesser < number → slice_get with_receipt.now (lesser - 1) ≡ Some true)) }
    ensures none { IfNone result ((number : ℕ) → 1 ≤ number → number ≤ length with_receipt.now
        → slice_get with_receipt.now (number - 1) ≡ Some true) }
{
    for place in 0..with_receipt.len() {
        if !with_receipt[place] {
            return Some(place as u64 + 1);
        }
    }
    None
}

/// Checks that each entry is marked, or returns the lowest number of one that isn't.
fn end(with_receipt: &[bool]) -> Result<(), AuditFault>
    ensures ok { (history : List EntryOf) (receipts : List ReceiptOf) → AreMarks history receipts with_receipt.now
        → OnOk result (AreReceiptsOf history receipts) }
    ensures fault { (history : List EntryOf) (receipts : List ReceiptOf) → AreMarks history receipts with_receipt.now
        → IfErr result (IsFirstFault history receipts) }
{
    match first_without(with_receipt) {
        Some(number) => Err(AuditFault::Unclaimed(number)),
        None => Ok(()),
    }
}

/// Returns marks for the entries of a history, none of which has a receipt yet.
fn no_marks(alloc: Global, history: &History) -> Result<Vec<bool>, AllocError>
    ensures { IfOk result (λ marks. AreMarks history.now [] marks.items) }
{
    vec![in alloc; false; history.len()]
}

/// Checks that the receipts are those of a book, one for each entry, or returns their first fault. It takes one byte an entry, and copies
/// no entry.
pub fn audit(alloc: Global, book: &Book, receipts: &[Receipt]) -> Result<(), AuditFault>
    ensures ok { OnOk result (AreReceiptsOf book.now.history receipts.now) }
    ensures fault { IfErr result (IsFirstFault book.now.history receipts.now) }
{
    let history = book.history();
    let mut with_receipt = no_marks(alloc, history)?;
    for receipt in receipts {
        mark(history, &mut with_receipt, receipt)?;
    }
    end(with_receipt.as_slice())
}

/// Checks that the receipts of all parts are those of a book, one for each entry, or returns their first fault. It takes one byte an entry,
/// and copies one entry at a time.
pub fn audit_kept(alloc: Global, book: &Book, parts: &[KeptReceipts]) -> Result<(), AuditFault>
    ensures ok { OnOk result (AreReceiptsOf book.now.history (flat_map receipts_in parts.now)) }
    ensures fault { IfErr result (IsFirstFault book.now.history (flat_map receipts_in parts.now)) }
{
    let history = book.history();
    let mut with_receipt = no_marks(alloc, history)?;
    for part in parts {
        mark_kept(history, &mut with_receipt, part)?;
    }
    end(with_receipt.as_slice())
}
