//! Questions that borrow the book.

ghost use Rattle.std.specs.Prelude.{OnOk};

use gu_book::Book;
use std::alloc::AllocError;

/// A question to the book, asked while the lock is held: so it must be short, as no other thread has the lock. The book is unchanged.
pub trait Question {
    ghost use Rattle.gu_rules.specs.BookState.{BookState};

    // The relation between the question before, the book, and the question after.
    ghost tells: { Self → BookState → Self → Type 0 };

    /// Asks the book. The question keeps what it learns.
    fn ask(&mut self, book: &Book) -> Result<(), AllocError>
        ensures { OnOk result (Self.tells self.old book.now self.new) };
}
