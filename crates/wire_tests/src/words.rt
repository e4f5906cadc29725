//! The values that messages here say, and notices, replies, outcomes and positions by their words.
use crate::rows::{first_word, number};
use gu_msgs::Rejection;
use gu_session::{Failure, Outcome};
use gu_terms::{
    AccountId, AgreementId, AllocReject, Day, Done, FirmId, Group, Id, LimitKey, Lots, Moment,
    Notice, OfferEvent, OfferNo, OfferNotice, PositionRow, PositionRows, Price, Refusal, Reply,
    Report, Side, Symbol,
};
use std::alloc::{AllocError, Global};

/// The values that the messages here say.
#[derive(Clone, Copy)]
pub struct Values {
    pub firm: FirmId,
    pub nine: Moment,
    pub id: Id,
    pub match_id: Id,
    pub account: AccountId,
    pub symbol: Symbol,
    pub lots: Lots,
    pub price: Price,
    pub day: Day,
    pub offer: OfferNo,
    pub group: Group,
}

/// Returns firm E1, nine o'clock on 2026-01-05, id R1, match M1, account A1, ten lots of XF6 at 101.5, offer 1, and group G1.
pub fn sample() -> Option<Values> {
    Some(Values {
        firm: FirmId::new(b"E1")?,
        nine: Moment::new(1_767_603_600_000)?,
        id: Id::new(b"R1")?,
        match_id: Id::new(b"M1")?,
        account: AccountId::new(b"A1")?,
        symbol: Symbol::new(b"XF6")?,
        lots: Lots::new(10)?,
        price: Price::new(101_500_000)?,
        day: Day::new(2026, 1, 5)?,
        offer: OfferNo::new(1)?,
        group: Group::new(b"G1")?,
    })
}

/// Returns a side by its word.
pub fn side_of(word: &str) -> Side {
    match word {
        "sell" => Side::Sell,
        _ => Side::Buy,
    }
}

/// Returns an event of an offer by its words. A refusal has its number.
pub fn event_of(words: &str) -> Option<OfferEvent> {
    match words {
        "offered" => Some(OfferEvent::Offered),
        "claimed" => Some(OfferEvent::Claimed),
        "refused 1" => Some(OfferEvent::Refused(AllocReject::BlockLevel)),
        "refused 2" => Some(OfferEvent::Refused(AllocReject::AccountLevel)),
        "refused 5" => Some(OfferEvent::Refused(AllocReject::Intermediary)),
        "reversed" => Some(OfferEvent::Reversed),
        _ => None,
    }
}

/// Returns the notice of entry 7, which made a trade of a report.
fn matched(w: &Values, side: Side) -> Notice {
    Notice::Matched {
        entry: 7,
        report: Report {
            firm: w.firm,
            id: w.id,
            match_id: w.match_id,
            symbol: w.symbol,
            lots: w.lots,
            price: w.price,
            day: w.day,
            side,
            account: w.account,
        },
    }
}

/// Returns the notice of an event of the offer.
fn offered(w: &Values, side: Side, event: OfferEvent) -> Notice {
    Notice::Offer(OfferNotice {
        offer: w.offer,
        event,
        lots: w.lots,
        account: w.account,
        symbol: w.symbol,
        side,
        price: w.price,
        day: w.day,
    })
}

/// Returns a notice by its words: of a trade that was matched, or of an event of an offer.
pub fn notice_of(w: &Values, side: Side, words: &str) -> Option<Notice> {
    if words == "matched" {
        return Some(matched(w, side));
    }
    Some(offered(w, side, event_of(words)?))
}

/// Returns what was done, by its word; after it comes how many offers or lots there are, ten lots if no number does.
fn done_of(w: &Values, words: &str) -> Option<Done> {
    let (word, count) = first_word(words);
    let count = number(count);
    let lots = Lots::new(count).unwrap_or(w.lots);
    match word {
        "open" => Some(Done::Reported { matched: false }),
        "matched" => Some(Done::Reported { matched: true }),
        "offered" => Some(Done::Offered {
            group: w.group,
            first: w.offer,
            count: count.min(255) as u8,
        }),
        "claimed" => Some(Done::Claimed { lots }),
        "refused" => Some(Done::Refused { lots }),
        "reversed" => Some(Done::Reversed { lots }),
        "opened" => Some(Done::Opened),
        _ => None,
    }
}

/// Returns the key of a limit by its word.
fn limit_key_of(w: &Values, word: &str) -> Option<LimitKey> {
    match word {
        "EXEC" => Some(LimitKey::Exec(w.firm)),
        "AGR" => Some(LimitKey::Agr(AgreementId::new(b"P1")?)),
        "ACCT" => Some(LimitKey::Acct(w.account)),
        "CARRY" => Some(LimitKey::Carry(w.firm)),
        "GUAR" => Some(LimitKey::Guar(w.firm)),
        _ => None,
    }
}

/// Returns a refusal by its words: its name, and the word of the limit that is reached.
fn refusal_of(w: &Values, words: &str) -> Option<Refusal> {
    let (name, key) = first_word(words);
    match name {
        "NoDay" => Some(Refusal::NoDay),
        "UnknownInstrument" => Some(Refusal::UnknownInstrument),
        "UnknownAccount" => Some(Refusal::UnknownAccount),
        "NotYours" => Some(Refusal::NotYours),
        "MatchConflict" => Some(Refusal::MatchConflict),
        "TooManyLots" => Some(Refusal::TooManyLots),
        "TooManyOffers" => Some(Refusal::TooManyOffers),
        "UnknownOffer" => Some(Refusal::UnknownOffer),
        "OfferClosed" => Some(Refusal::OfferClosed),
        "LimitReached" => Some(Refusal::LimitReached(limit_key_of(w, key)?)),
        "OfferOpen" => Some(Refusal::OfferOpen),
        "NothingToReverse" => Some(Refusal::NothingToReverse),
        _ => None,
    }
}

/// Returns a reply by its words.
pub fn reply_of(w: &Values, words: &str) -> Option<Reply> {
    match done_of(w, words) {
        Some(done) => Some(Reply::Accepted(done)),
        None => Some(Reply::Denied(refusal_of(w, words)?)),
    }
}

/// Returns why something isn't in the book, by its words. Other words say that it is.
pub fn rejection_of(w: &Values, words: &str) -> Option<Rejection> {
    match words {
        "Memory" => Some(Rejection::Memory),
        "Full" => Some(Rejection::Full),
        _ => Some(Rejection::Refused(refusal_of(w, words)?)),
    }
}

/// Returns ten lots long in this many instruments, on an open day or a closed one, by their words. Other words are no answer.
pub fn rows_of(alloc: Global, w: &Values, words: &str) -> Result<Option<PositionRows>, AllocError> {
    let (word, count) = first_word(words);
    let day = match word {
        "rows" => Some(w.day),
        "closed" => None,
        _ => return Ok(None),
    };
    let mut rows = Vec::new(alloc);
    for _ in 0..number(count) {
        rows.push(PositionRow {
            symbol: w.symbol,
            long: w.lots.get(),
            short: 0,
        })?;
    }
    Ok(Some(PositionRows { day, rows }))
}

/// Returns an outcome by its words: what was done, why it wasn't, or positions.
pub fn outcome_of(alloc: Global, w: &Values, words: &str) -> Result<Outcome, AllocError> {
    if let Some(reply) = reply_of(w, words) {
        return Ok(Outcome::Replied(reply));
    }
    match words {
        "Memory" => Ok(Outcome::Failed(Failure::Memory)),
        "Full" => Ok(Outcome::Failed(Failure::Full)),
        _ => Ok(Outcome::Positions(rows_of(alloc, w, words)?)),
    }
}
