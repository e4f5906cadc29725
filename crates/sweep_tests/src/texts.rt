//! Replies, outcomes, sweeps, positions, interests and limits as lines.
use crate::rows::{Subject, check, first_word, number, shown};
use crate::sheets::Question;
use crate::view::key_of;
use gu_terms::{
    AccountId, Command, Day, Done, Entry, Group, LimitRow, Lots, OfferNo, OpenDay, Receipt,
    Refusal, Reply, SweepEntry, Symbol, Take,
};
use gu_text::{
    Sheet, append_unknown, interest_text, limit_text, outcome_text, position_text, reply_text,
    verdict_text,
};
use gu_world::Outcome;
use std::alloc::{AllocError, Global};

/// Returns what was done, by its words.
fn done_of(words: &str) -> Option<Done> {
    let (word, rest) = first_word(words);
    let (first, second) = first_word(rest);
    match word {
        "opened" => Some(Done::Opened),
        "limited" => Some(Done::LimitSet),
        "open" => Some(Done::Reported { matched: false }),
        "matched" => Some(Done::Reported { matched: true }),
        "offered" => Some(Done::Offered {
            group: Group::new(b"G1")?,
            first: OfferNo::new(number(first))?,
            count: number(second).min(255) as u8,
        }),
        "claimed" => Some(Done::Claimed {
            lots: Lots::new(number(first))?,
        }),
        "refused" => Some(Done::Refused {
            lots: Lots::new(number(first))?,
        }),
        "reversed" => Some(Done::Reversed {
            lots: Lots::new(number(first))?,
        }),
        _ => None,
    }
}

/// Returns a refusal by its words.
fn refusal_of(words: &str) -> Option<Refusal> {
    let (word, key) = first_word(words);
    match word {
        "NoDay" => Some(Refusal::NoDay),
        "WrongDay" => Some(Refusal::WrongDay),
        "UnknownInstrument" => Some(Refusal::UnknownInstrument),
        "UnknownAccount" => Some(Refusal::UnknownAccount),
        "NotYours" => Some(Refusal::NotYours),
        "DuplicateId" => Some(Refusal::DuplicateId),
        "MatchConflict" => Some(Refusal::MatchConflict),
        "UnknownTrade" => Some(Refusal::UnknownTrade),
        "NotMatched" => Some(Refusal::NotMatched),
        "NoAgreement" => Some(Refusal::NoAgreement),
        "TooManyLots" => Some(Refusal::TooManyLots),
        "TooManyOffers" => Some(Refusal::TooManyOffers),
        "UnknownOffer" => Some(Refusal::UnknownOffer),
        "OfferClosed" => Some(Refusal::OfferClosed),
        "LimitReached" => Some(Refusal::LimitReached(key_of(key)?)),
        "UnknownKey" => Some(Refusal::UnknownKey),
        "TooHigh" => Some(Refusal::TooHigh),
        "OfferOpen" => Some(Refusal::OfferOpen),
        "NothingToReverse" => Some(Refusal::NothingToReverse),
        _ => None,
    }
}

/// Returns a reply by its words.
fn reply_of(words: &str) -> Option<Reply> {
    if let Some(done) = done_of(words) {
        return Some(Reply::Accepted(done));
    }
    let refusal: Refusal = refusal_of(words)?;
    Some(Reply::Denied(refusal))
}

/// Returns the text of a reply, by the number of its entry and its words.
pub fn reply_told(alloc: Global, asked: &str) -> Result<String, AllocError> {
    let (entry, words) = first_word(asked);
    match reply_of(words) {
        Some(reply) => shown(alloc, reply_text(alloc, number(entry), &reply)),
        None => String::from_str(alloc, "?"),
    }
}

/// Returns the outcome of entering the command to open a day.
fn opened() -> Option<Outcome> {
    let day = Day::new(2026, 1, 5)?;
    Some(Outcome::Asked(Receipt {
        number: 1,
        entry: Entry::Asked {
            command: Command::OpenDay(OpenDay { day }),
            reply: Reply::Accepted(Done::Opened),
        },
    }))
}

/// Returns an outcome by its words.
fn outcome_of(words: &str) -> Option<Outcome> {
    let (word, rest) = first_word(words);
    let (first, second) = first_word(rest);
    match word {
        "full" => Some(Outcome::Full),
        "seen" => Some(Outcome::Seen(number(first))),
        "strange" => Some(Outcome::NoGroup),
        "proposed" => Some(Outcome::Proposed(number(first))),
        "stale" => Some(Outcome::Stale {
            seen: number(first),
            now: number(second),
        }),
        "foreign" => Some(Outcome::Foreign),
        "nothing" => Some(Outcome::Nothing),
        _ => opened(),
    }
}

/// Returns the text of an outcome by its words, which may mean a look at G1.
pub fn outcome_told(alloc: Global, asked: &str) -> Result<String, AllocError> {
    let looked = if asked.starts_with("seen") {
        Group::new(b"G1")
    } else {
        None
    };
    match outcome_of(asked) {
        Some(outcome) => shown(alloc, outcome_text(alloc, None, looked, &outcome)),
        None => String::from_str(alloc, "?"),
    }
}

/// Returns the sweep of a sheet's takes and cut, which has this many lots.
fn sweep_entry(sheet: &Sheet, lots: u64) -> Result<SweepEntry, AllocError> {
    let takes = sheet.takes.copy()?;
    let cut = sheet.cut.copy()?;
    let group = sheet.view.group();
    Ok(SweepEntry {
        group,
        takes,
        cut,
        lots,
    })
}

/// Returns the lots of takes.
fn lots_of(takes: &[Take]) -> u64 {
    let mut lots = 0u64;
    for take in takes {
        lots = lots.saturating_add(take.lots);
    }
    lots
}

/// Returns the outcome of that sweep, as the entry two after the version of its view.
fn swept(sheet: &Sheet) -> Result<Outcome, AllocError> {
    let lots = lots_of(sheet.takes.as_slice());
    let entry = Entry::Swept(sweep_entry(sheet, lots)?);
    let number = sheet.view.version().saturating_add(2);
    Ok(Outcome::Swept(Receipt { number, entry }))
}

/// Returns the text of that sweep, first without its view and then with it.
pub fn entered_text(alloc: Global, sheet: &Sheet) -> Result<String, AllocError> {
    let outcome = swept(sheet)?;
    let without = shown(alloc, outcome_text(alloc, None, None, &outcome));
    let with = shown(
        alloc,
        outcome_text(alloc, Some(&sheet.view), None, &outcome),
    );
    drop(outcome);
    format!(in alloc; "{} and {}", without?, with?)
}

/// Returns the text of a position: its account, its instrument, its long lots and its short ones.
fn position_told(alloc: Global, words: &str) -> Result<String, AllocError> {
    let (account, rest) = first_word(words);
    let (symbol, rest) = first_word(rest);
    let (long, short) = first_word(rest);
    let account = AccountId::new(account.as_bytes()).ok_or(AllocError)?;
    let symbol = Symbol::new(symbol.as_bytes()).ok_or(AllocError)?;
    let text = position_text(alloc, &account, &symbol, number(long), number(short));
    shown(alloc, text)
}

/// Returns the text of an open interest: its instrument and its lots.
fn interest_told(alloc: Global, words: &str) -> Result<String, AllocError> {
    let (symbol, lots) = first_word(words);
    let symbol = Symbol::new(symbol.as_bytes()).ok_or(AllocError)?;
    shown(alloc, interest_text(alloc, &symbol, number(lots)))
}

/// Returns the text of a limit in G1: its lots, its use, its room and its key.
fn limit_told(alloc: Global, words: &str) -> Result<String, AllocError> {
    let (limit, rest) = first_word(words);
    let (used, rest) = first_word(rest);
    let (room, key) = first_word(rest);
    let row = LimitRow {
        key: key_of(key).ok_or(AllocError)?,
        limit: number(limit),
        used: number(used),
        room: number(room),
    };
    let group = Group::new(b"G1").ok_or(AllocError)?;
    shown(alloc, limit_text(alloc, &group, &row))
}

/// Returns the answer for a name that the reference lacks, after what was there.
fn unknown_after(alloc: Global, front: &str) -> Result<String, AllocError> {
    let mut output = Vec::from_slice(alloc, front.as_bytes())?;
    append_unknown(&mut output)?;
    shown(alloc, Ok(output))
}

/// Returns the text of an answer by its words.
pub fn answer_told(alloc: Global, asked: &str) -> Result<String, AllocError> {
    let (word, rest) = first_word(asked);
    match word {
        "position" => position_told(alloc, rest),
        "interest" => interest_told(alloc, rest),
        "limit" => limit_told(alloc, rest),
        "right" => shown(alloc, verdict_text(alloc, &Ok(number(rest)))),
        _ => unknown_after(alloc, rest),
    }
}

/// Entries, what their commands did, and the replies.
const ACCEPTED: &str = "\
1 opened -> 1 OK|
1000000 limited -> 1000000 OK|
2 open -> 2 OK OPEN|
4 matched -> 4 OK MATCHED|
8 offered 1 1 -> 8 OK OFFERS 1 1|
12 offered 1 2 -> 12 OK OFFERS 1 2|
9 offered 15999985 16 -> 9 OK OFFERS 15999985 16000000|
9 claimed 10 -> 9 OK LOTS 10|
10 refused 1000000 -> 10 OK LOTS 1000000|
11 reversed 2 -> 11 OK LOTS 2|
";

/// Entries, why their commands were refused, and the replies.
const DENIED: &str = "\
1 NoDay -> 1 NO 1 NoDay|
13 WrongDay -> 13 NO 2 WrongDay|
2 UnknownInstrument -> 2 NO 3 UnknownInstrument|
3 UnknownAccount -> 3 NO 4 UnknownAccount|
14 NotYours -> 14 NO 5 NotYours|
6 DuplicateId -> 6 NO 6 DuplicateId|
3 MatchConflict -> 3 NO 7 MatchConflict|
4 UnknownTrade -> 4 NO 8 UnknownTrade|
5 NotMatched -> 5 NO 9 NotMatched|
10 NoAgreement -> 10 NO 10 NoAgreement|
9 TooManyLots -> 9 NO 11 TooManyLots|
264 TooManyOffers -> 264 NO 12 TooManyOffers|
15 UnknownOffer -> 15 NO 13 UnknownOffer|
13 OfferClosed -> 13 NO 14 OfferClosed|
9 LimitReached ACCT A1 -> 9 NO 15 LimitReached ACCT A1|
11 LimitReached GUAR E2 -> 11 NO 15 LimitReached GUAR E2|
12 UnknownKey -> 12 NO 16 UnknownKey|
6 TooHigh -> 6 NO 17 TooHigh|
14 OfferOpen -> 14 NO 18 OfferOpen|
11 NothingToReverse -> 11 NO 19 NothingToReverse|
";

/// What came of steps.
const OUTCOMES: &str = "\
full -> FULL|
seen 6 -> SEEN G1 6|
strange -> UNKNOWN GROUP|
proposed 10 -> PROPOSED 10|
stale 6 7 -> STALE 6 7|
foreign -> FOREIGN|
nothing -> NOTHING|
opened -> 1 OK|
";

/// Sheets, and how their sweeps are written without the view and with it: of nothing, and of an agreement with less room
/// than its offers have.
const SWEEPS: &str = "\
SHEET G1 8|END| -> 10 SWEPT G1 0| and 10 SWEPT G1 0|SHEET G1 8|END|
shared:TAKE 2 2|TAKE 1 5|CUT AGR P1| -> 9 SWEPT G1 7| and 9 SWEPT G1 7|\
    SHEET G1 7|OFFER 1 5 P1 E1 A1 C1|OFFER 2 5 P1 E1 A1 C1|\
    ROOM EXEC E1 100|ROOM AGR P1 7|ROOM ACCT A1 100|ROOM CARRY C1 100|\
    TAKE 1 5|TAKE 2 2|CUT AGR P1|END|
";

/// Positions, interests, limits with their use and room, lots of right takes, and what isn't known.
const ANSWERS: &str = "\
position H1 XF6 10 0 -> POSITION H1 XF6 10 0|
position H1 XF6 0 18446744073709551615 -> POSITION H1 XF6 0 18446744073709551615|
interest XF6 10 -> INTEREST XF6 10|
limit 100 10 90 EXEC E1 -> LIMIT G1 EXEC E1 100 10 90|
limit 7 5 2 AGR P1 -> LIMIT G1 AGR P1 7 5 2|
limit 3 5 0 ACCT A1 -> LIMIT G1 ACCT A1 3 5 0|
limit 1000000000 0 1000000000 GUAR E2 -> LIMIT G1 GUAR E2 1000000000 0 1000000000|
right 20 -> OK 20|
right 0 -> OK 0|
right 4096000000 -> OK 4096000000|
unknown 1 OK| -> 1 OK|UNKNOWN|
";

#[test]
fn say_what_came_of_commands_steps_and_questions(rt: HostRuntime) {
    check(&rt, rt.alloc(), Subject::Replies, ACCEPTED);
    check(&rt, rt.alloc(), Subject::Replies, DENIED);
    check(&rt, rt.alloc(), Subject::Outcomes, OUTCOMES);
    check(&rt, rt.alloc(), Subject::Sheets(Question::Entered), SWEEPS);
    check(&rt, rt.alloc(), Subject::Answers, ANSWERS);
}
