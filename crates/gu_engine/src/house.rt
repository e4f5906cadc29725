//! The house that answers a connection's firm, and has notices for it.

ghost use Rattle.std.specs.Prelude.{◌≡◌, ◌<◌, false, IfOk, IsOk};
ghost use Rattle.gu_engine.specs.Houses.{AnswersAsk, IsCommand};

use gu_msgs::Request;
use gu_session::Outcome;
use gu_terms::{FirmId, Moment, Stretch};
use std::alloc::AllocError;

/// A firm's request to a house.
#[derive(Drop)]
pub struct Ask {
    /// The firm that asks.
    pub firm: FirmId,
    /// The MsgSeqNum (34) of the message with the request.
    pub number: u64,
    /// The moment of the turn that brought the message.
    pub now: Moment,
    /// The command to enter, or the question.
    pub request: Request,
}

/// A house's answer to an `Ask`.
#[derive(Drop)]
pub struct Answered {
    /// What became of it.
    pub outcome: Outcome,
    /// Notices for the firm that asked, if the house had them at hand. If not, they are requested separately.
    pub stretch: Option<Stretch>,
}

/// A house answers the requests of a connection, and has notices for its firm.
pub trait House {
    ghost use Rattle.gu_engine.specs.Houses.{HouseRules};

    /// The rules of its answers.
    ghost rules: { HouseRules Self };

    /// Carries out a request, and returns its outcome. The house may add a batch of the firm's notices of the entries from a number on, the
    /// next that the firm would ask for. A command always has an outcome, even if it isn't entered.
    fn answer(&mut self, ask: Ask, from: u64) -> Result<Answered, AllocError>
        ensures answered { IfOk result (λ answered. AnswersAsk rules self.old ask from answered self.new) }
        ensures commands { IsCommand ask.request → IsOk result };

    /// Returns a batch of a firm's notices of the entries from a number on.
    fn notices(&mut self, firm: &FirmId, from: u64) -> Result<Stretch, AllocError>
        ensures told { IfOk result (λ stretch. rules.tells self.old firm.now from stretch self.new) }
        ensures goes_on { IfOk result (λ stretch. stretch.is_last ≡ false → from < stretch.notices.next) };
}

/// A borrowed house answers as the house itself.
impl<H: House> House for &mut H {
    ghost use Rattle.gu_engine.specs.Houses.{lent};

    ghost rules = { lent H.rules };

    fn answer(&mut self, ask: Ask, from: u64) -> Result<Answered, AllocError> {
        House::answer(&mut **self, ask, from)
    }

    fn notices(&mut self, firm: &FirmId, from: u64) -> Result<Stretch, AllocError> {
        House::notices(&mut **self, firm, from)
    }
}
