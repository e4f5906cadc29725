//! What a desk answers from one seat to lines of a script, and to questions:
//!
//! - `SWEEP G1`: one sweep; `SEE 0 G1`: a look, and what is then read
//! - `POSITION A1 XF6`, `INTEREST XF6`: asked of the desk; `VIEW G1`, `HELD C1 A1`, `NOTICES C1 1`: the other queries
//! - `STRETCH C1 1`: a stretch of a firm's notices

use gu_desk::{Answer, Desk, Direct, EntryLedger, LotLedger, Seat};
use gu_terms::{AccountId, Command, Entry, FirmId, Group, Notices, Query, Receipt, Stretch};
use gu_text::{Line, reply_text};
use gu_view::View;
use gu_world::Step;
use std::alloc::{AllocError, Global};
use std::process::Abort;
use std::sync::Wait;

/// Returns a view: its version, and the number and the lots of each offer.
pub fn view_text(alloc: Global, view: &View) -> Result<String, AllocError> {
    let mut text = format!(in alloc; "VERSION {}", view.version())?;
    for offer in view.offers() {
        let one = format!(in alloc; ", OFFER {} {}", offer.number.get(), offer.lots)?;
        text.push_str(&one)?;
    }
    Ok(text)
}

/// Returns a receipt: the reply to a command, or the lots of a sweep.
pub fn receipt_text(alloc: Global, receipt: &Receipt) -> Result<String, AllocError> {
    match &receipt.entry {
        Entry::Asked { reply, .. } => {
            let text = reply_text(alloc, receipt.number, reply)?;
            match String::from_utf8(text) {
                Ok(text) => format!(in alloc; "{}", text.trim_end()),
                Err(_) => Ok(String::new(alloc)),
            }
        }
        Entry::Swept(sweep) => format!(in alloc; "{} SWEPT {}", receipt.number, sweep.lots),
    }
}

/// Returns an answer to a query.
fn answer_text(alloc: Global, answer: &Answer) -> Result<String, AllocError> {
    match answer {
        Answer::Position { long, short } => format!(in alloc; "LONG {long} SHORT {short}"),
        Answer::Interest { lots } => format!(in alloc; "LOTS {lots}"),
        Answer::Positions(None) => format!(in alloc; "UNKNOWN"),
        Answer::Positions(Some(rows)) => format!(in alloc; "ROWS {}", rows.rows.len()),
        Answer::Look(view) => view_text(alloc, view),
        Answer::Notices(notices) => {
            format!(in alloc; "NOTICES {} NEXT {}", notices.list.len(), notices.next)
        }
    }
}

/// Returns a stretch of notices.
pub fn stretch_text(alloc: Global, stretch: &Stretch) -> Result<String, AllocError> {
    let Notices { next, list } = &stretch.notices;
    let end = if stretch.is_last { "LAST" } else { "MORE" };
    format!(in alloc; "NOTICES {} NEXT {next} {end}", list.len())
}

/// Returns a word of a line.
fn word(line: &str, place: usize) -> &str {
    line.split(' ').nth(place).unwrap_or("")
}

/// Returns the query that a line asks, if it asks one that isn't of a script.
fn query_of(line: &str) -> Option<Query> {
    let name = word(line, 1).as_bytes();
    match word(line, 0) {
        "VIEW" => Some(Query::Look {
            group: Group::new(name)?,
        }),
        "HELD" => Some(Query::Positions {
            firm: FirmId::new(name)?,
            account: AccountId::new(word(line, 2).as_bytes())?,
        }),
        "NOTICES" => Some(Query::Notices {
            firm: FirmId::new(name)?,
            from: word(line, 2).parse().ok()?,
        }),
        _ => None,
    }
}

/// Returns the firm and the number of a line that asks for a stretch.
fn stretch_of(line: &str) -> Option<(FirmId, u64)> {
    if word(line, 0) != "STRETCH" {
        return None;
    }
    let firm = FirmId::new(word(line, 1).as_bytes())?;
    Some((firm, word(line, 2).parse().ok()?))
}

/// Returns what is answered to a question for a stretch.
fn answer_to_stretch<E: EntryLedger, S: LotLedger, R: Wait>(
    rt: &R,
    alloc: Global,
    desk: &Desk<E, S>,
    seat: &mut Seat<E, S>,
    firm: FirmId,
    from: u64,
) -> Result<String, AllocError> {
    let stretch = desk.hold(rt).stretch(seat, firm, from)?;
    stretch_text(alloc, &stretch)
}

/// Returns what is answered to a command.
fn answer_to_command<E: EntryLedger, S: LotLedger, R: Wait>(
    rt: &R,
    alloc: Global,
    desk: &Desk<E, S>,
    seat: &mut Seat<E, S>,
    command: Command,
) -> Result<String, AllocError> {
    match desk.submit(rt, seat, command) {
        Ok(receipt) => receipt_text(alloc, &receipt),
        Err(error) => format!(in alloc; "{error}"),
    }
}

/// Returns what is answered to a sweep.
fn answer_to_sweep<E: EntryLedger, S: LotLedger, R: Wait>(
    rt: &R,
    alloc: Global,
    desk: &Desk<E, S>,
    seat: &mut Seat<E, S>,
    group: Group,
) -> Result<String, AllocError> {
    match desk.sweep_once(rt, seat, group, &Direct) {
        Ok(receipt) => receipt_text(alloc, &receipt),
        Err(error) => format!(in alloc; "{error}"),
    }
}

/// Returns what is read after a look.
fn answer_to_look<E: EntryLedger, S: LotLedger, R: Wait>(
    rt: &R,
    alloc: Global,
    desk: &Desk<E, S>,
    seat: &mut Seat<E, S>,
    group: Group,
) -> Result<String, AllocError> {
    match desk.look(rt, seat, group) {
        Ok(token) => view_text(alloc, desk.read(&token)),
        Err(error) => format!(in alloc; "{error}"),
    }
}

/// Returns what is answered to a query.
fn answer_to_query<E: EntryLedger, S: LotLedger, R: Wait>(
    rt: &R,
    alloc: Global,
    desk: &Desk<E, S>,
    seat: &mut Seat<E, S>,
    query: Query,
) -> Result<String, AllocError> {
    match desk.ask(rt, seat, query) {
        Ok(answer) => answer_text(alloc, &answer),
        Err(error) => format!(in alloc; "{error}"),
    }
}

/// Returns what is answered to a line.
pub fn answer_to<E: EntryLedger, S: LotLedger, R: Wait>(
    rt: &R,
    alloc: Global,
    desk: &Desk<E, S>,
    seat: &mut Seat<E, S>,
    line: &str,
) -> Result<String, AllocError> {
    if let Some((firm, from)) = stretch_of(line) {
        return answer_to_stretch(rt, alloc, desk, seat, firm, from);
    }
    if let Some(query) = query_of(line) {
        return answer_to_query(rt, alloc, desk, seat, query);
    }
    match Line::read(alloc, line.as_bytes(), 1) {
        Ok(Some(Line::Step(Step::Enter(command)))) => {
            answer_to_command(rt, alloc, desk, seat, command)
        }
        Ok(Some(Line::Step(Step::See(_, group)))) => answer_to_look(rt, alloc, desk, seat, group),
        Ok(Some(Line::Sweep(group))) => answer_to_sweep(rt, alloc, desk, seat, group),
        Ok(Some(Line::Position(account, symbol))) => {
            answer_to_query(rt, alloc, desk, seat, Query::Position { account, symbol })
        }
        Ok(Some(Line::Interest(symbol))) => {
            answer_to_query(rt, alloc, desk, seat, Query::Interest { symbol })
        }
        _ => format!(in alloc; "NO LINE"),
    }
}

/// Sends each line to the desk from a seat, and compares the answer with the text after ` = `.
pub fn follow<E: EntryLedger, S: LotLedger, R: Wait + Abort>(
    rt: &R,
    alloc: Global,
    desk: &Desk<E, S>,
    seat: &mut Seat<E, S>,
    lines: &str,
) {
    for line in lines.lines() {
        let (said, want) = line.split_once(" = ").unwrap_or((line, ""));
        let answer = answer_to(rt, alloc, desk, seat, said);
        let answer = answer.ok().expect(rt, "memory");
        assert_eq!(rt; answer.as_str(), want, "{said}");
    }
}
