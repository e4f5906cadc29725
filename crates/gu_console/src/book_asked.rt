//! Questions of operators, asked of the book.

ghost use Rattle.std.specs.Prelude.{◌≡◌, ◌++◌, [], OnOk};
ghost use Rattle.gu_console.specs.Answers.{answer_of};

use crate::request::BookQuestion;
use gu_book::Book;
use gu_desk::Question;
use gu_script::{answer_interest, answer_limits, answer_position};
use std::alloc::{AllocError, Global};

/// Appends the answer of a book to a question.
pub fn append_answer(
    book: &Book,
    question: BookQuestion,
    output: &mut Vec<u8>,
) -> Result<(), AllocError>
    ensures { OnOk result (output.new.items ≡ output.old.items ++ answer_of book.now question) }
{
    match question {
        BookQuestion::Position(account, symbol) => answer_position(book, account, symbol, output),
        BookQuestion::Interest(symbol) => answer_interest(book, symbol, output),
        BookQuestion::Limits(group) => answer_limits(book, group, output),
    }
}

/// A question to the book, and the answer.
#[derive(Drop)]
pub(crate) struct BookAsked {
    pub(crate) question: BookQuestion,
    pub(crate) text: Vec<u8>,
}

impl BookAsked {
    /// Creates a question that wasn't asked yet.
    pub(crate) fn new(alloc: Global, question: BookQuestion) -> Self
        ensures { (result.question ≡ question) × (result.text.items ≡ []) }
    {
        BookAsked {
            question,
            text: Vec::new(alloc),
        }
    }
}

impl Question for BookAsked {
    ghost use Rattle.std.specs.Prelude.{◌≡◌, ◌++◌};
    ghost use Rattle.gu_console.specs.Answers.{answer_of};

    ghost tells = { λ old book new. new.text.items ≡ old.text.items ++ answer_of book old.question };

    fn ask(&mut self, book: &Book) -> Result<(), AllocError> {
        append_answer(book, self.question, &mut self.text)
    }
}
