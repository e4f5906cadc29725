//! Small views beside a search through all lots that could be taken.
ghost use Rattle.std.specs.Prelude.{◌<◌};

use crate::rows::{Subject, check_row, first_word, told};
use crate::sheets::Question;
use crate::sweep::Telling;
use gu_view::{Room, View, ViewOffer};
use std::alloc::{AllocError, Global};

/// The keys that offers may come under. No two kinds have a name in common.
const KEYS: &str = "\
EXEC E1
EXEC E2
AGR P1
AGR P2
AGR P3
AGR P4
AGR P5
AGR P6
ACCT A1
ACCT A2
ACCT A3
CARRY C1
CARRY C2
GUAR F1
GUAR F2
";

/// Returns the next number of a series, and a part of it below a bound.
fn draw(seed: &mut u64, below: u64) -> u64
    requires { 0 < below }
    ensures { result < below }
{
    *seed = seed
        .wrapping_mul(6_364_136_223_846_793_005)
        .wrapping_add(1_442_695_040_888_963_407);
    (*seed >> 33) % below
}

/// Returns the guarantor of a carrying firm in a turn: none has one, the first alone, both the same, or each its own.
fn guarantor(turn: u64, carrier: u64) -> &'static str {
    match (turn % 4, carrier) {
        (0, _) | (1, 2) => "",
        (3, 2) => " F2",
        _ => " F1",
    }
}

/// Returns an agreement's firm, account, carrying firm and guarantor. Three of the six belong to each firm, each with its account.
fn parties(alloc: Global, turn: u64, agreement: u64) -> Result<String, AllocError> {
    let firm = if agreement <= 3 { 1 } else { 2 };
    let account = agreement % 3 + 1;
    let carrier = if account == 2 { 2 } else { 1 };
    let guarantor = guarantor(turn, carrier);
    format!(in alloc; "E{firm} A{account} C{carrier}{guarantor}")
}

/// Returns an offer of one to four lots.
fn offer_line(alloc: Global, seed: &mut u64, turn: u64, number: u64) -> Result<String, AllocError> {
    let agreement = draw(seed, 6) + 1;
    let lots = draw(seed, 4) + 1;
    let parties = parties(alloc, turn, agreement)?;
    format!(in alloc; "OFFER {number} {lots} P{agreement} {parties}|")
}

/// Returns one to five offers, after six older ones.
fn offer_lines(alloc: Global, seed: &mut u64, turn: u64) -> Result<String, AllocError> {
    let mut text = String::new(alloc);
    for number in 7..=draw(seed, 5) + 7 {
        text.push_str(&offer_line(alloc, seed, turn, number)?)?;
    }
    Ok(text)
}

/// Returns six older offers, which mention firms and accounts in an order of their own. Each is of an agreement of its own.
fn older_lines(alloc: Global, seed: &mut u64, turn: u64) -> Result<String, AllocError> {
    let mut text = String::new(alloc);
    let first = draw(seed, 6);
    let step = if draw(seed, 2) == 0 { 1 } else { 5 };
    for number in 1_u64..=6 {
        let agreement = first.wrapping_add(number.wrapping_mul(step)) % 6 + 1;
        let parties = parties(alloc, turn, agreement)?;
        text.push_str(&format!(in alloc; "OFFER {number} 1 Q{number} {parties}|")?)?;
    }
    Ok(text)
}

/// Returns the room of a key with this many lots, if one of the offers comes under it.
fn room_line(alloc: Global, offers: &str, key: &str, lots: u64) -> Result<String, AllocError> {
    let (_, name) = first_word(key);
    if offers.contains(name) {
        format!(in alloc; "ROOM {key} {lots}|")
    } else {
        String::from_str(alloc, "")
    }
}

/// Returns a room of 0 to 7 lots for each of the keys of offers that are of firms or of six agreements.
fn room_lines(alloc: Global, seed: &mut u64, offers: &str) -> Result<String, AllocError> {
    let mut rooms = String::new(alloc);
    for key in KEYS.lines() {
        let lots = draw(seed, 8);
        rooms.push_str(&room_line(alloc, offers, key, lots)?)?;
    }
    Ok(rooms)
}

/// Returns a sheet of these offers and rooms.
fn sheet_of(alloc: Global, offers: &str, rooms: &str) -> Result<String, AllocError> {
    format!(in alloc; "SHEET G1 11|{offers}{rooms}END|")
}

/// Offers, and a room of 0 to 7 lots for each of their keys.
fn sheet_drawn(alloc: Global, seed: &mut u64, turn: u64) -> Result<String, AllocError> {
    let offers = offer_lines(alloc, seed, turn)?;
    let rooms = room_lines(alloc, seed, &offers)?;
    sheet_of(alloc, &offers, &rooms)
}

/// The agreements of the six older offers, under which nothing can be taken.
const NO_ROOMS: &str =
    "ROOM AGR Q1 0|ROOM AGR Q2 0|ROOM AGR Q3 0|ROOM AGR Q4 0|ROOM AGR Q5 0|ROOM AGR Q6 0|";

/// The takes of the six older offers.
const NO_TAKES: &str = "TAKE 1 0|TAKE 2 0|TAKE 3 0|TAKE 4 0|TAKE 5 0|TAKE 6 0|";

/// Returns a sheet, and the same after six older offers under which nothing can be taken. Those mention all keys of firms and accounts, and
/// a room comes at the first mention of its key, so the second sheet has its rooms in another order.
fn sheets_drawn(alloc: Global, seed: &mut u64, turn: u64) -> Result<(String, String), AllocError> {
    let offers = offer_lines(alloc, seed, turn)?;
    let older = older_lines(alloc, seed, turn)?;
    let mut same = *seed;
    let rooms = room_lines(alloc, &mut same, &offers)?;
    let sheet = sheet_of(alloc, &offers, &rooms)?;
    let all = format!(in alloc; "{older}{offers}")?;
    let rooms = format!(in alloc; "{NO_ROOMS}{}", room_lines(alloc, seed, &all)?)?;
    Ok((sheet, sheet_of(alloc, &all, &rooms)?))
}

/// Returns the lots that a code takes of the offer at a place: its digit to the base of five.
fn digit(code: u64, place: usize) -> u64 {
    let powers = [1, 5, 25, 125, 625];
    match powers.get(place) {
        Some(power) => code / *power % 5,
        None => 0,
    }
}

/// Returns the lots that a code takes of the offers that come under a room.
fn lots_under(code: u64, offers: &[ViewOffer], room: &Room) -> u64 {
    let mut sum = 0u64;
    for (place, offer) in offers.iter().enumerate() {
        if offer.path.keys().contains(&room.key) {
            sum = sum.saturating_add(digit(code, place));
        }
    }
    sum
}

/// Returns the lots that a code takes of offers, if it takes no more than each of them has.
fn lots(code: u64, offers: &[ViewOffer]) -> Option<u64> {
    let mut sum = 0u64;
    for (place, offer) in offers.iter().enumerate() {
        let lots = digit(code, place);
        if offer.lots < lots {
            return None;
        }
        sum = sum.saturating_add(lots);
    }
    Some(sum)
}

/// Returns whether a code takes no more under each key than its room.
fn fits(code: u64, view: &View) -> bool {
    view.rooms()
        .iter()
        .all(|room| lots_under(code, view.offers(), room) <= room.lots)
}

/// Returns the most lots that any admissible code takes of a view with up to five offers.
pub fn most(view: &View) -> u64 {
    let mut most = 0u64;
    for code in 0..3_125 {
        if let Some(lots) = lots(code, view.offers()) {
            if most < lots && fits(code, view) {
                most = lots;
            }
        }
    }
    most
}

/// Returns whether a code takes more than another of the first offer of which they take different lots.
fn gives_older_more(code: u64, other: u64) -> bool {
    for place in 0..5 {
        let (lots, others) = (digit(code, place), digit(other, place));
        if lots != others {
            return others < lots;
        }
    }
    false
}

/// Returns, among the admissible codes with the most lots, the one that gives older offers more.
fn oldest(view: &View) -> u64 {
    let most = most(view);
    let mut oldest = 0u64;
    for code in 0..3_125 {
        let is_most = lots(code, view.offers()) == Some(most);
        if is_most && fits(code, view) && gives_older_more(code, oldest) {
            oldest = code;
        }
    }
    oldest
}

/// Returns the takes of a view with up to five offers that are greatest and oldest first over the group.
pub fn oldest_takes(alloc: Global, view: &View) -> Result<String, AllocError> {
    let code = oldest(view);
    let mut text = String::new(alloc);
    for (place, offer) in view.offers().iter().enumerate() {
        let lots = digit(code, place);
        let number = offer.number.get();
        text.push_str(&format!(in alloc; "TAKE {number} {lots}|")?)?;
    }
    Ok(text)
}

#[test]
fn finds_no_admissible_lots_that_are_more_nor_older(rt: HostRuntime) {
    let sought = Subject::Sheets(Question::Most);
    let swept = Subject::Sheets(Question::Sweep(Telling::Lots));
    let oldest = Subject::Sheets(Question::Oldest);
    let given = Subject::Sheets(Question::Sweep(Telling::Given));
    let mut seed = 20_260_105;
    for turn in 0..60 {
        let sheet = sheet_drawn(rt.alloc(), &mut seed, turn).expect(&rt, "memory");
        let most = told(rt.alloc(), sought, &sheet).expect(&rt, "memory");
        check_row(&rt, rt.alloc(), swept, &sheet, &most);
        let takes = told(rt.alloc(), oldest, &sheet).expect(&rt, "memory");
        check_row(&rt, rt.alloc(), given, &sheet, &takes);
    }
}

#[test]
fn gives_the_same_in_whatever_order_the_rooms_come(rt: HostRuntime) {
    let oldest = Subject::Sheets(Question::Oldest);
    let given = Subject::Sheets(Question::Sweep(Telling::Given));
    let mut seed = 20_260_106;
    for turn in 0..60 {
        let (sheet, other) = sheets_drawn(rt.alloc(), &mut seed, turn).expect(&rt, "memory");
        let takes = told(rt.alloc(), oldest, &sheet).expect(&rt, "memory");
        let takes = format!(in rt.alloc(); "{NO_TAKES}{takes}").expect(&rt, "memory");
        check_row(&rt, rt.alloc(), given, &other, &takes);
    }
}
