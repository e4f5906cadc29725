//! Which offers and rooms make a view.
use crate::rows::{Subject, check, first_word, number};
use gu_terms::{AgreementId, Group, LimitKey, Name, OfferNo, Path};
use gu_view::{Room, View, ViewError, ViewOffer};
use std::alloc::{AllocError, Global};

/// Returns the key of a kind with a name.
pub fn key_of(words: &str) -> Option<LimitKey> {
    let (kind, name) = first_word(words);
    LimitKey::of(kind.as_bytes(), Name::new(name.as_bytes())?)
}

/// Returns the path of these four keys, with a `,` between two of them.
fn path_of(words: &str) -> Option<Path> {
    let (executing, rest) = words.split_once(',')?;
    let (agreement, rest) = rest.split_once(',')?;
    let (account, carrying) = rest.split_once(',')?;
    let LimitKey::Exec(executing) = key_of(executing)? else {
        return None;
    };
    let LimitKey::Agr(agreement) = key_of(agreement)? else {
        return None;
    };
    let LimitKey::Acct(account) = key_of(account)? else {
        return None;
    };
    let LimitKey::Carry(carrying) = key_of(carrying)? else {
        return None;
    };
    Some(Path::new(executing, agreement, account, carrying, None))
}

/// Returns the offer of these numbers and this agreement, with a path.
fn offer_of(number_of: u64, lots: u64, agreement: &str, path: Path) -> Option<ViewOffer> {
    Some(ViewOffer {
        number: OfferNo::new(number_of)?,
        lots,
        agreement: AgreementId::new(agreement.as_bytes())?,
        path,
    })
}

/// Returns the offer of a line: its number, its lots, its agreement, and the keys of its path.
fn offer_in(line: &str) -> Option<ViewOffer> {
    let (first, rest) = first_word(line);
    let (lots, rest) = first_word(rest);
    let (agreement, keys) = first_word(rest);
    offer_of(number(first), number(lots), agreement, path_of(keys)?)
}

/// Returns the offers of lines.
fn offers_in(alloc: Global, lines: &str) -> Result<Vec<ViewOffer>, AllocError> {
    let mut offers = Vec::new(alloc);
    for line in lines.split('|') {
        offers.push(offer_in(line).ok_or(AllocError)?)?;
    }
    Ok(offers)
}

/// Returns the rooms of lines: their lots and their keys. A line without a key has none.
fn rooms_in(alloc: Global, lines: &str) -> Result<Vec<Room>, AllocError> {
    let mut rooms = Vec::new(alloc);
    for line in lines.split('|') {
        let (lots, words) = first_word(line);
        let found: Option<LimitKey> = key_of(words);
        if let Some(key) = found {
            let lots = number(lots);
            rooms.push(Room { key, lots })?;
        }
    }
    Ok(rooms)
}

/// Returns the view of offers and, after a `/`, of rooms.
fn made(alloc: Global, asked: &str) -> Result<View, ViewError> {
    let (offers, rooms) = asked.split_once('/').unwrap_or((asked, ""));
    let offers = offers_in(alloc, offers)?;
    let rooms = rooms_in(alloc, rooms)?;
    let group = Group::new(b"G1").ok_or(ViewError::Memory)?;
    View::new(alloc, group, 11, offers, rooms)
}

/// Returns whether a view is nested, and whether its copy is the same.
fn view_text(alloc: Global, view: &View) -> Result<String, AllocError> {
    let copy = view.copy()?;
    format!(in alloc; "{} {}", view.nested(), copy.is_same(view))
}

/// Returns a refusal and the offer that it names.
fn refusal_text(alloc: Global, name: &str, offer: OfferNo) -> Result<String, AllocError> {
    format!(in alloc; "{name} {}", offer.get())
}

/// Returns why offers and rooms make no view.
fn error_text(alloc: Global, error: ViewError) -> Result<String, AllocError> {
    match error {
        ViewError::BadOffer(offer) => refusal_text(alloc, "BadOffer", offer),
        ViewError::PathDiffers(offer) => refusal_text(alloc, "PathDiffers", offer),
        ViewError::BadRooms => String::from_str(alloc, "BadRooms"),
        ViewError::Memory => Err(AllocError),
    }
}

/// Returns the same for the view of offers and rooms, or why they make none.
pub fn told(alloc: Global, asked: &str) -> Result<String, AllocError> {
    match made(alloc, asked) {
        Ok(view) => view_text(alloc, &view),
        Err(error) => error_text(alloc, error),
    }
}

/// Offers that descend, have no lots, have two paths, or name another agreement; and rooms of which one lacks, is too high, or isn't.
const VIEWS: &str = "\
2 5 P1 EXEC E1,AGR P1,ACCT A1,CARRY C1|1 5 P1 EXEC E1,AGR P1,ACCT A1,CARRY C1 -> BadOffer 1
1 0 P1 EXEC E1,AGR P1,ACCT A1,CARRY C1 -> BadOffer 1
1 5 P1 EXEC E1,AGR P1,ACCT A1,CARRY C1|2 5 P1 EXEC E1,AGR P1,ACCT A2,CARRY C1 -> PathDiffers 2
1 5 P1 EXEC E1,AGR P2,ACCT A1,CARRY C1 -> PathDiffers 1
1 5 P1 EXEC E1,AGR P1,ACCT A1,CARRY C1/100 EXEC E1|100 AGR P1|100 ACCT A1 -> BadRooms
1 5 P1 EXEC E1,AGR P1,ACCT A1,CARRY C1/100 EXEC E1|1000000001 AGR P1|100 ACCT A1|100 CARRY C1 -> BadRooms
1 5 P1 EXEC E1,AGR P1,ACCT A1,CARRY C1/100 EXEC E1|1000000000 AGR P1|100 ACCT A1|100 CARRY C1 -> true true
";

#[test]
fn is_refused_by_the_first_rule_that_is_broken(rt: HostRuntime) {
    check(&rt, rt.alloc(), Subject::Views, VIEWS);
}
