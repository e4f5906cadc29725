//! What a firm asks for, as a text.
use crate::messages::text_in;
use gu_msgs::Request;
use gu_terms::{Command, Day, FirmId, Id, Lines, OfferNo, Query, ReportSide, Side};
use std::alloc::{AllocError, Global};

/// Appends what a firm says about a trade: its action and the ids.
fn tell_trade(
    text: &mut String,
    firm: &FirmId,
    verb: &str,
    id: &Id,
    other: &Id,
) -> Result<(), AllocError> {
    let id = text_in(id.get());
    let other = text_in(other.get());
    write!(text, "{} {verb} {id} of {other}", text_in(firm.get()))
}

/// Appends what an account does with lots of an instrument at a price.
fn tell_side(text: &mut String, report: &ReportSide) -> Result<(), AllocError> {
    let account = text_in(report.account.get());
    let symbol = text_in(report.symbol.get());
    let (lots, price) = (report.lots.get(), report.price.get());
    let verb = match report.side {
        Side::Buy => "buys",
        Side::Sell => "sells",
    };
    write!(text, ": {account} {verb} {lots} {symbol} at {price}")
}

/// Appends the day of a report.
fn tell_day(text: &mut String, day: &Option<Day>) -> Result<(), AllocError> {
    match day {
        Some(day) => write!(text, " on {:?}", day.get()),
        None => text.push_str(" on the open day"),
    }
}

/// Appends lines, and how many lots they have in all.
fn tell_lines(text: &mut String, lines: &Lines) -> Result<(), AllocError> {
    write!(text, ", {} lots:", lines.lots())?;
    for line in lines.as_slice() {
        write!(text, " {} {}", text_in(line.account.get()), line.lots.get())?;
    }
    Ok(())
}

/// Appends what a firm does with an offer.
fn tell_offer(
    text: &mut String,
    firm: &FirmId,
    verb: &str,
    offer: &OfferNo,
) -> Result<(), AllocError> {
    write!(text, "{} {verb} {}", text_in(firm.get()), offer.get())
}

/// Appends a command as words.
fn tell_command(text: &mut String, command: &Command) -> Result<(), AllocError> {
    match command {
        Command::ReportSide(it) => {
            tell_trade(text, &it.firm, "reports", &it.id, &it.match_id)?;
            tell_side(text, it)?;
            tell_day(text, &it.day)
        }
        Command::GiveUp(it) => {
            tell_trade(text, &it.firm, "gives up", &it.id, &it.report)?;
            tell_lines(text, &it.lines)
        }
        Command::Claim(it) => tell_offer(text, &it.firm, "claims", &it.offer),
        Command::Refuse(it) => {
            tell_offer(text, &it.firm, "refuses", &it.offer)?;
            write!(text, " by {}", it.why.number())
        }
        Command::Reverse(it) => tell_offer(text, &it.firm, "reverses", &it.offer),
        Command::OpenDay(_) | Command::SetLimit(_) => text.push_str("no firm's"),
    }
}

/// Appends what is asked for.
pub fn tell_request(text: &mut String, request: &Request) -> Result<(), AllocError> {
    match request {
        Request::Enter(command) => tell_command(text, command),
        Request::Ask(Query::Positions { firm, account }) => write!(
            text,
            "{} asks for the positions of {}",
            text_in(firm.get()),
            text_in(account.get())
        ),
        Request::Ask(_) => text.push_str("no firm's"),
    }
}

/// Returns what is asked for, as a text.
pub fn request_text(alloc: Global, request: &Request) -> Result<String, AllocError> {
    let mut text = String::new(alloc);
    tell_request(&mut text, request)?;
    Ok(text)
}
