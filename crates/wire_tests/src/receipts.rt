//! Receipts that are copied.
use crate::rows::{Subject, check, first_word, number};
use crate::words::Values;
use crate::{cut, takes};
use gu_terms::{Cut, Entry, Receipt, SweepEntry, Takes};
use std::alloc::{AllocError, Global};

/// Takes of this many offers.
fn takes_of(alloc: Global, count: u64) -> Takes {
    let mut made = Takes::new(alloc);
    let _ = takes::add_all(&mut made, count, false);
    made
}

/// Returns the receipt of a sweep of this many offers, with as many keys and as many offers in its cut.
fn receipt_of(alloc: Global, w: &Values, count: u64) -> Result<Receipt, AllocError> {
    let takes = takes_of(alloc, count);
    let mut cut = Cut::new(alloc);
    let _ = cut::add_all(alloc, &mut cut, count)?;
    let group = w.group;
    let lots = count;
    let sweep = SweepEntry {
        group,
        takes,
        cut,
        lots,
    };
    Ok(Receipt {
        number: 7,
        entry: Entry::Swept(sweep),
    })
}

/// Returns whether a copy of a receipt is that receipt.
fn is_copied(receipt: &Receipt) -> Result<bool, AllocError> {
    let copy = receipt.copy()?;
    let is_same = copy.number == receipt.number && copy.entry.is_same(&receipt.entry);
    drop(copy);
    Ok(is_same)
}

/// Returns how many copies of a receipt, of this many, are that receipt.
fn count_copies(receipt: &Receipt, times: u64) -> Result<u64, AllocError> {
    let mut count: u64 = 0;
    for _ in 0..times {
        if is_copied(receipt)? {
            count = count.saturating_add(1);
        }
    }
    Ok(count)
}

/// Returns how many takes a receipt has, and how many copies of this many are that receipt.
pub fn told(alloc: Global, w: &Values, words: &str) -> Result<String, AllocError> {
    let (count, times) = first_word(words);
    let receipt = receipt_of(alloc, w, number(count))?;
    let copies = count_copies(&receipt, number(times))?;
    let takes = match &receipt.entry {
        Entry::Swept(sweep) => sweep.takes.as_slice().len(),
        Entry::Asked { .. } => 0,
    };
    drop(receipt);
    format!(in alloc; "{takes} {copies}")
}

/// A sweep looks at 4,096 offers at most.
const COPIES: &str = "\
4096 4 -> 4096 4
3 5000 -> 3 5000
";

#[test]
fn receipts_of_thousands_of_takes_are_copied_and_thousands_of_them(rt: HostRuntime) {
    check(&rt, rt.alloc(), Subject::Receipts, COPIES);
}
