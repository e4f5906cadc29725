//! The house of a worker: a book that workers share, which informs them of each entry.

use crate::watches::Ring;
use gu_engine::{Answered, Ask, House};
use gu_houses::OverBook;
use gu_msgs::Request;
use gu_posts::Posts;
use gu_session::{Failure, Outcome};
use gu_terms::{Command, FirmId, Moment, Stretch};
use gu_workers::AnswersMany;
use std::alloc::AllocError;
use std::cell::{Cell, RefCell};

/// What workers share of a book.
#[derive(Drop)]
pub struct SharedBook {
    house: RefCell<OverBook>,
    /// A command that is entered once, as soon as a firm has its notices.
    besides: RefCell<Option<Command>>,
    /// The most give-ups that any connection has counted.
    pub most_give_ups: Cell<u64>,
    /// The connection whose command or question came last.
    pub last: Cell<u64>,
    /// Whether it has no notices for anyone.
    pub has_failed: Cell<bool>,
}

impl SharedBook {
    /// Shares a book.
    pub fn new(house: OverBook) -> Self {
        SharedBook {
            house: RefCell::new(house),
            besides: RefCell::new(None),
            most_give_ups: Cell::new(0),
            last: Cell::new(0),
            has_failed: Cell::new(false),
        }
    }

    /// Returns how many entries it has.
    pub fn entries(&self) -> usize {
        match self.house.try_borrow() {
            Ok(house) => house.book().history().len(),
            Err(_) => 0,
        }
    }

    /// Enters a command as soon as a firm was given its notices.
    pub fn enter_besides(&self, command: Command) {
        let _ = self.besides.try_replace(Some(command));
    }

    /// Enters what is to be entered besides, if anything is.
    fn enter(&self, posts: &Posts<Ring>) {
        let Ok(Some(command)) = self.besides.try_replace(None) else {
            return;
        };
        let before = self.entries();
        if let Ok(mut house) = self.house.try_borrow_mut() {
            enter_command(&mut house, command);
        }
        self.inform(before, posts);
    }

    /// Informs workers of the last entry, if there are more than before.
    fn inform(&self, before: usize, posts: &Posts<Ring>) {
        let Ok(house) = self.house.try_borrow() else {
            return;
        };
        let number = house.book().history().len() as u64;
        let firms = house.book().informs(number);
        drop(house);
        if number > before as u64 {
            posts.inform(number, firms);
        }
    }
}

/// Enters a command, whoever asks.
fn enter_command(house: &mut OverBook, command: Command) {
    let (Some(firm), Some(now)) = (FirmId::new(b"E1"), Moment::new(0)) else {
        return;
    };
    let ask = Ask {
        firm,
        number: 1,
        now,
        request: Request::Enter(command),
    };
    drop(house.answer(ask, 1));
}

/// The house of a worker over a book that workers share.
#[derive(Drop)]
pub struct BookHouse<'a> {
    shared: &'a SharedBook,
    posts: &'a Posts<Ring>,
    connection: u64,
    give_ups: u64,
}

/// Returns the answer if the book is in use, which doesn't happen.
fn left_out(ask: Ask) -> Answered {
    drop(ask);
    Answered {
        outcome: Outcome::Failed(Failure::Memory),
        stretch: None,
    }
}

impl<'a> BookHouse<'a> {
    /// Returns the house over a book, which informs these workers.
    pub fn new(shared: &'a SharedBook, posts: &'a Posts<Ring>) -> Self {
        BookHouse {
            shared,
            posts,
            connection: 0,
            give_ups: 0,
        }
    }

    /// Counts a give-up.
    fn count(&mut self) {
        self.give_ups = self.give_ups.saturating_add(1);
        let most = &self.shared.most_give_ups;
        most.set(most.get().max(self.give_ups));
    }
}

impl AnswersMany for BookHouse<'_> {
    fn resume(&mut self, connection: u64, give_ups: u64) {
        self.connection = connection;
        self.give_ups = give_ups;
    }

    fn give_ups(&self) -> u64 {
        self.give_ups
    }

    fn seen(&self) -> u64 {
        self.shared.entries() as u64
    }
}

impl House for BookHouse<'_> {
    ghost use Rattle.gu_engine.specs.Houses.{HouseRules};

    ghost rules = { record { answers = λ old request outcome new. Unit {0}; tells = λ old firm from stretch new. Unit {0} } };

    fn answer(&mut self, ask: Ask, from: u64) -> Result<Answered, AllocError> {
        if matches!(&ask.request, Request::Enter(Command::GiveUp(_))) {
            self.count();
        }
        self.shared.last.set(self.connection);
        let before = self.shared.entries();
        let Ok(mut house) = self.shared.house.try_borrow_mut() else {
            return Ok(left_out(ask));
        };
        let answered = house.answer(ask, from)?;
        drop(house);
        self.shared.inform(before, self.posts);
        Ok(answered)
    }

    fn notices(&mut self, firm: &FirmId, from: u64) -> Result<Stretch, AllocError> {
        if self.shared.has_failed.get() {
            return Err(AllocError);
        }
        let Ok(mut house) = self.shared.house.try_borrow_mut() else {
            return Err(AllocError);
        };
        let stretch = house.notices(firm, from)?;
        drop(house);
        self.shared.enter(self.posts);
        Ok(stretch)
    }
}
