//! A house that asks whether a firm may have a place before it answers it.

ghost use Rattle.std.specs.Prelude.{◌≡◌, ◌<◌, false, is_some, IfOk, IsSome, OnOk};
ghost use Rattle.gu_workers.specs.Admitting.{inside};

use crate::admission::Admission;
use crate::answers_many::AnswersMany;
use crate::card::Card;
use gu_engine::{Answered, Ask, House};
use gu_terms::{FirmId, Stretch};
use std::alloc::AllocError;

/// The house of a worker, which admits firms. When a firm has just logged on, the first request is for its notices; the house then asks
/// whether the firm may have a place. If not, it gives none, so the turn fails and nothing that the firm sent after its Logon is answered.
#[derive(Drop)]
pub struct AdmittingHouse<'a, H, A> {
    house: H,
    admission: &'a A,
    /// The number of the connection that it answers.
    connection: u64,
    /// The firm of the connection that it answers, if it has a place.
    firm: Option<FirmId>,
    /// Whether a firm of that connection was refused a place.
    has_refused: bool,
}

impl<'a, H, A> AdmittingHouse<'a, H, A> {
    /// Creates the house of a worker that answers no connection yet.
    pub fn new(house: H, admission: &'a A) -> Self
        ensures { result.house ≡ house }
    {
        AdmittingHouse {
            house,
            admission,
            connection: 0,
            firm: None,
            has_refused: false,
        }
    }

    /// Returns the firm of the connection that it answers, if it has a place.
    pub fn firm(&self) -> Option<FirmId>
        ensures { result ≡ self.now.firm }
    {
        self.firm
    }

    /// Returns whether a firm of the connection that it answers was refused a place.
    pub fn has_refused(&self) -> bool {
        self.has_refused
    }

    /// Returns the inner house.
    pub fn into_house(self) -> H
        ensures { result ≡ self.entry.house }
    {
        let AdmittingHouse {
            house,
            admission: _,
            connection: _,
            firm: _,
            has_refused: _,
        } = self;
        house
    }
}

impl<H: AnswersMany, A> AdmittingHouse<'_, H, A> {
    /// Turns to a connection. Its firm has a place if it was admitted before.
    pub fn resume(&mut self, card: &Card) {
        self.house.resume(card.number, card.give_ups);
        self.connection = card.number;
        self.firm = card.firm();
        self.has_refused = false;
    }

    /// Returns the count of give-ups of the connection that it answers.
    pub fn give_ups(&self) -> u64 {
        self.house.give_ups()
    }

    /// Returns how many entries it has seen.
    pub fn seen(&self) -> u64 {
        self.house.seen()
    }
}

impl<H, A: Admission> AdmittingHouse<'_, H, A> {
    /// Returns whether the firm has a place: it had one before, or may have one.
    pub fn admit(&mut self, firm: &FirmId) -> bool
        ensures house { self.new.house ≡ self.old.house }
        ensures admitted { result ≡ is_some self.new.firm }
        ensures kept { IsSome self.old.firm → self.new.firm ≡ self.old.firm }
    {
        if self.firm.is_none() {
            if self.admission.admit(self.connection, firm) {
                self.firm = Some(*firm);
            } else {
                self.has_refused = true;
            }
        }
        self.firm.is_some()
    }
}

impl<H: House, A: Admission> House for AdmittingHouse<'_, H, A> {
    ghost rules = { inside H.rules };

    fn answer(&mut self, ask: Ask, from: u64) -> Result<Answered, AllocError> {
        self.house.answer(ask, from)
    }

    fn notices(&mut self, firm: &FirmId, from: u64) -> Result<Stretch, AllocError>
        ensures told { IfOk result (λ stretch. H.rules.tells self.old.house firm.now from stretch self.new.house) }
        ensures goes_on { IfOk result (λ stretch. stretch.is_last ≡ false → from < stretch.notices.next) }

        // Only a firm that has a place gets notices.
        ensures admitted { OnOk result (IsSome self.new.firm) }
    {
        if !self.admit(firm) {
            return Err(AllocError);
        }
        self.house.notices(firm, from)
    }
}
