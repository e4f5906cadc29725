//! Answers to queries.

ghost use Rattle.std.specs.Prelude.{◌≡◌, ◌↔◌, IfOk, IsErrOf};
ghost use Rattle.gu_book.specs.Questions.{IsAnswer, IsUnknown};

use crate::book::Book;
use crate::error::AskError;
use gu_terms::{AccountId, FirmId, Group, Notices, PositionRows, Query};
use gu_view::View;

/// The book's answer to a query: for each kind, the result of the call of that name.
#[derive(Drop)]
pub enum Answer {
    /// The lots that the account holds in the instrument.
    Position { long: u64, short: u64 },
    /// The open interest of the instrument.
    Interest { lots: u64 },
    /// The account's positions. None if the account is unknown or another firm's.
    Positions(Option<PositionRows>),
    /// The group's open offers and rooms.
    Look(View),
    /// The firm's notices.
    Notices(Notices),
}

/// Returns the positions of a firm's account.
fn positions(book: &Book, firm: FirmId, account: AccountId) -> Result<Answer, AskError>
    ensures answer { IfOk result (IsAnswer book.now (Query.Positions firm account)) }
    ensures known { IsErrOf result AskError.UnknownGroup ↔ IsUnknown book.now.reference (Query.Positions firm account) }
{
    Ok(Answer::Positions(book.positions(firm, account)?))
}

/// Returns a group's open offers and rooms.
fn look(book: &Book, group: &Group) -> Result<Answer, AskError>
    ensures answer { IfOk result (IsAnswer book.now (Query.Look group.now)) }
    ensures unknown { IsErrOf result AskError.UnknownGroup ↔ IsUnknown book.now.reference (Query.Look group.now) }
{
    Ok(Answer::Look(book.view(group)?))
}

/// Returns a firm's notices.
fn notices(book: &Book, firm: FirmId, from: u64) -> Result<Answer, AskError>
    ensures answer { IfOk result (IsAnswer book.now (Query.Notices firm from)) }
    ensures known { IsErrOf result AskError.UnknownGroup ↔ IsUnknown book.now.reference (Query.Notices firm from) }
{
    Ok(Answer::Notices(book.notices(firm, from)?))
}

impl Book {
    /// Answers a query of any kind.
    pub fn answer(&self, query: Query) -> Result<Answer, AskError>
        ensures answer { IfOk result (IsAnswer self.now query) }
        ensures unknown { IsErrOf result AskError.UnknownGroup ↔ IsUnknown self.now.reference query }
    {
        match query {
            Query::Position { account, symbol } => {
                let (long, short) = self.position(account, symbol);
                Ok(Answer::Position { long, short })
            }
            Query::Interest { symbol } => Ok(Answer::Interest {
                lots: self.open_interest(symbol),
            }),
            Query::Positions { firm, account } => positions(self, firm, account),
            Query::Look { group } => look(self, &group),
            Query::Notices { firm, from } => notices(self, firm, from),
        }
    }
}
