//! Why commands are refused.

ghost use Rattle.std.specs.Prelude.{◌≡◌, ◌↔◌, ◌≤◌, length, IsTrue, None};
ghost use Rattle.gu_terms.specs.Refusals.{IsRefusalText, key_in, number_of, name_of, refusal_of, text_of};

use crate::limit_key::LimitKey;
use crate::refusal_text::RefusalText;

/// The reason that a command is refused, in the order in which the tests are made.
#[derive(Clone, Copy, Debug, PartialEq, Eq)]
pub enum Refusal {
    /// No day is open yet.
    NoDay,
    /// The day isn't later than the open one, or a report's day isn't the open one.
    WrongDay,
    /// The reference has no such instrument.
    UnknownInstrument,
    /// The reference has no such account.
    UnknownAccount,
    /// The account is another firm's, or the offer is to another firm's account.
    NotYours,
    /// The firm has already used this id, for a report or for a give-up.
    DuplicateId,
    /// The trade has both its sides, or its one side disagrees.
    MatchConflict,
    /// The firm has no report with this id.
    UnknownTrade,
    /// The report has no matching side yet.
    NotMatched,
    /// The firm has no agreement for the account.
    NoAgreement,
    /// The lines have more lots than the report has free.
    TooManyLots,
    /// The product group would have more than 4,096 open offers.
    TooManyOffers,
    /// There is no such offer.
    UnknownOffer,
    /// Nothing is left of the offer.
    OfferClosed,
    /// There is less room under this key than is left of the offer.
    LimitReached(LimitKey),
    /// The reference doesn't have the group, or doesn't have what the key names.
    UnknownKey,
    /// The limit is above 1,000,000,000 lots.
    TooHigh,
    /// Lots of the offer are left.
    OfferOpen,
    /// Nothing was moved for the offer since the day was opened, or it has been reversed.
    NothingToReverse,
}

impl Refusal {
    /// Returns its number in a reply, as one byte.
    pub(crate) fn code(self) -> u8
        ensures number { result ≡ number_of self }
        ensures back { key_in self ≡ None → refusal_of result ≡ self }
    {
        match self {
            Refusal::NoDay => 1,
            Refusal::WrongDay => 2,
            Refusal::UnknownInstrument => 3,
            Refusal::UnknownAccount => 4,
            Refusal::NotYours => 5,
            Refusal::DuplicateId => 6,
            Refusal::MatchConflict => 7,
            Refusal::UnknownTrade => 8,
            Refusal::NotMatched => 9,
            Refusal::NoAgreement => 10,
            Refusal::TooManyLots => 11,
            Refusal::TooManyOffers => 12,
            Refusal::UnknownOffer => 13,
            Refusal::OfferClosed => 14,
            Refusal::LimitReached(_) => 15,
            Refusal::UnknownKey => 16,
            Refusal::TooHigh => 17,
            Refusal::OfferOpen => 18,
            Refusal::NothingToReverse => 19,
        }
    }

    /// Returns the refusal with this number, among those that name no key.
    pub(crate) fn of_code(code: u8) -> Refusal
        ensures { result ≡ refusal_of code }
    {
        match code {
            1 => Refusal::NoDay,
            2 => Refusal::WrongDay,
            3 => Refusal::UnknownInstrument,
            4 => Refusal::UnknownAccount,
            5 => Refusal::NotYours,
            6 => Refusal::DuplicateId,
            7 => Refusal::MatchConflict,
            8 => Refusal::UnknownTrade,
            9 => Refusal::NotMatched,
            10 => Refusal::NoAgreement,
            11 => Refusal::TooManyLots,
            12 => Refusal::TooManyOffers,
            13 => Refusal::UnknownOffer,
            14 => Refusal::OfferClosed,
            16 => Refusal::UnknownKey,
            17 => Refusal::TooHigh,
            18 => Refusal::OfferOpen,
            _ => Refusal::NothingToReverse,
        }
    }

    /// Returns its number in a reply.
    pub fn number(self) -> u64
        ensures { result ≡ number_of self }
    {
        u64::from(self.code())
    }

    /// Returns its name in a reply.
    pub fn name(self) -> &'static str
        ensures name { result.now ≡ name_of self }
        ensures short { length result.now ≤ 20 }
    {
        match self {
            Refusal::NoDay => "NoDay",
            Refusal::WrongDay => "WrongDay",
            Refusal::UnknownInstrument => "UnknownInstrument",
            Refusal::UnknownAccount => "UnknownAccount",
            Refusal::NotYours => "NotYours",
            Refusal::DuplicateId => "DuplicateId",
            Refusal::MatchConflict => "MatchConflict",
            Refusal::UnknownTrade => "UnknownTrade",
            Refusal::NotMatched => "NotMatched",
            Refusal::NoAgreement => "NoAgreement",
            Refusal::TooManyLots => "TooManyLots",
            Refusal::TooManyOffers => "TooManyOffers",
            Refusal::UnknownOffer => "UnknownOffer",
            Refusal::OfferClosed => "OfferClosed",
            Refusal::LimitReached(_) => "LimitReached",
            Refusal::UnknownKey => "UnknownKey",
            Refusal::TooHigh => "TooHigh",
            Refusal::OfferOpen => "OfferOpen",
            Refusal::NothingToReverse => "NothingToReverse",
        }
    }

    /// Returns the key that it names.
    pub fn key(&self) -> Option<LimitKey>
        ensures { result ≡ key_in self.now }
    {
        match self {
            Refusal::LimitReached(key) => Some(*key),
            _ => None,
        }
    }

    /// Returns whether two refusals are the same.
    pub fn is_same(&self, other: &Refusal) -> bool
        ensures { IsTrue result ↔ (self.now ≡ other.now) }
    {
        let key = self.key();
        let key_of_other = other.key();
        self.number() == other.number() && key == key_of_other
    }

    /// Returns its text in a reply: its name, and after LimitReached the kind and the name of the key.
    pub fn text(&self) -> RefusalText
        ensures text { result ≡ text_of self.now }
        ensures sound { IsRefusalText (text_of self.now) }
    {
        let key = self.key();
        let name = self.name();
        match key {
            Some(key) => RefusalText::of_key(name, key),
            None => RefusalText::of_name(name),
        }
    }
}
