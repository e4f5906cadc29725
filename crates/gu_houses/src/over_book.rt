//! A book, as a house.

ghost use Rattle.std.specs.Prelude.{◌≡◌, ◌⊎◌, IfOk};
ghost use Rattle.gu_houses.specs.BookHouse.{IsEntered, IsLeftOut, IsTold};

use gu_book::{Answer, AskError, Book, EnterError};
use gu_engine::{Answered, Ask, House};
use gu_msgs::Request;
use gu_session::{Failure, Outcome};
use gu_terms::{Command, FirmId, Query, Stretch};
use std::alloc::AllocError;
use std::marker::Model;

/// A book, as a house: it answers every request at once. To a contract it is the book.
#[derive(Drop)]
pub struct OverBook {
    book: Book,
}

impl Model for OverBook {
    ghost use Rattle.gu_rules.specs.BookState.{BookState};

    ghost Value = { BookState };

    ghost view = { λ house. house.book };
}

impl OverBook {
    /// Returns the house of a book.
    pub fn new(book: Book) -> Self
        ensures { result ≡ book }
    {
        OverBook { book }
    }

    /// Returns its book.
    pub fn book(&self) -> &Book
        ensures { result.now ≡ self.now }
    {
        &self.book
    }

    /// Returns its book by value.
    pub fn into_book(self) -> Book
        ensures { result ≡ self }
    {
        let OverBook { book } = self;
        book
    }

    /// Enters a command, and returns its outcome.
    fn enter(&mut self, command: &Command) -> Outcome
        ensures { IsEntered self.old command.now result self.new ⊎ IsLeftOut self.old result self.new }
    {
        match self.book.reply_to(command) {
            Ok(reply) => Outcome::Replied(reply),
            Err(EnterError::Full) => Outcome::Failed(Failure::Full),
            Err(EnterError::Memory) => Outcome::Failed(Failure::Memory),
        }
    }
}

impl OverBook {
    /// Answers a question.
    fn tell(&self, query: Query) -> Result<Outcome, AllocError>
        ensures { IfOk result (IsTold self.now query) }
    {
        match self.book.answer(query) {
            Ok(Answer::Positions(rows)) => Ok(Outcome::Positions(rows)),
            Err(AskError::Memory) => Err(AllocError),
            Ok(_) | Err(AskError::UnknownGroup) => Ok(Outcome::Positions(None)),
        }
    }
}

impl House for OverBook {
    ghost use Rattle.gu_houses.specs.BookHouse.{rules_of_book};

    ghost rules = { rules_of_book };

    fn answer(&mut self, ask: Ask, from: u64) -> Result<Answered, AllocError> {
        let Ask { firm, request, .. } = ask;
        match request {
            Request::Enter(command) => Ok(Answered {
                outcome: self.enter(&command),
                stretch: self.book.stretch(firm, from).ok(),
            }),
            Request::Ask(query) => Ok(Answered {
                outcome: self.tell(query)?,
                stretch: None,
            }),
        }
    }

    fn notices(&mut self, firm: &FirmId, from: u64) -> Result<Stretch, AllocError> {
        let stretch = self.book.stretch(*firm, from)?;
        Ok(stretch)
    }
}
