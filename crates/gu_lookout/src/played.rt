//! What a desk that follows has played.

use gu_book::Book;

/// What a desk that follows has: its book, and how many batches of the log led to it.
#[derive(Clone, Copy)]
pub struct Played<'a> {
    pub book: &'a Book,
    pub batches: u64,
}
