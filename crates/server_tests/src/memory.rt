//! The end of a day if allocations fail. The test passes whichever fail.

use crate::opening::{A_TRADE, book_after};
use gu_book::Book;
use gu_server::{Closed, DayEnd, DayReceipts};
use gu_terms::Receipt;
use std::alloc::Global;
use std::process::Abort;

/// Returns a day that has ended with this book and these receipts. None if an allocation fails.
fn closed_of(alloc: Global, book: Book, receipts: Vec<Receipt>) -> Option<Closed> {
    let Ok(receipts) = DayReceipts::new(alloc, receipts, 0) else {
        drop(book);
        return None;
    };
    Some(Closed {
        book,
        receipts,
        fault: None,
    })
}

/// Asserts that the lines of a day's end are these, if there was memory for them.
fn check_lines(rt: &impl Abort, end: DayEnd, lines: &str) {
    if let Ok((text, is_well)) = end {
        assert!(rt; is_well);
        assert_eq!(rt; text.as_str(), lines);
    }
}

#[test]
fn refused_to_the_end_of_a_day_gives_its_book_back(rt: HostRuntime) {
    let Ok((book, receipts)) = book_after(rt.alloc(), A_TRADE) else {
        return;
    };
    let Some(closed) = closed_of(rt.alloc(), book, receipts) else {
        return;
    };
    let (end, book, fault) = closed.end(rt.alloc());
    assert_eq!(&rt; book.history().len(), 7);
    assert!(&rt; fault.is_none());
    check_lines(&rt, end, "ENTRIES 7\nSWEPT 0\nAUDIT OK\n");
    drop(book);
}
