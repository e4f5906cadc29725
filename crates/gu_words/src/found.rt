//! What was found in the words of a command that clap accepted.

ghost use Rattle.std.specs.Prelude.{◌≡◌, ◌≤◌, ◌||◌, [], IfOk, IfSome, codes, map, nat_lt, option_map, unwrap_or};
ghost use Rattle.clap.specs.Words.{IsUnsignedIn, all_of, first_of, found_of, rows_of};
ghost use Rattle.gu_words.specs.Misfits.{has, has_bad_port, is_one_path, misfit_in, port_of};
ghost use Rattle.gu_words.specs.ProgramWords.{HasCounts, is_set, keeping_by, keeping_of, lasting_by, lasting_of, number_of, port_word, served_by, text_of, wanted_of, word_in};

use crate::misfit::Misfit;
use crate::serving::{Counted, Journal, Serving, Span, UntilClosed};
use crate::words::Task;
use clap::ArgMatches;
use std::alloc::{AllocError, Global};

/// Returns the word that was given for a name.
pub fn word<'a>(found: &ArgMatches<'a>, name: &str) -> &'a str
    ensures { result.now ≡ word_in (rows_of (found_of found.now)) name.now }
{
    found.get_str(name).unwrap_or("")
}

/// Returns the number that a word means, from `least` to `most`; a parsed command has no other word.
fn number(word: &str, least: u16, most: u16) -> u16
    requires { least ≤ most }
    ensures number { IsUnsignedIn least most word.now → result ≡ number_of word.now }
    ensures from_least { least ≤ result }
    ensures to_most { result ≤ most }
{
    match word.parse::<u16>() {
        Ok(number) if least <= number && number <= most => number,
        _ => least,
    }
}

/// Returns whether an option without a value is given.
fn is_set(found: &ArgMatches<'_>, name: &str) -> bool
    ensures { result ≡ is_set (rows_of (found_of found.now)) name.now }
{
    match found.get_str(name) {
        Some(word) => word == "true",
        None => false,
    }
}

/// Returns whether an option is given.
fn has(found: &ArgMatches<'_>, name: &str) -> bool
    ensures { result ≡ has (rows_of (found_of found.now)) name.now }
{
    found.get_str(name).is_some()
}

/// Returns the number that a word means, if it is a port.
fn port_number(word: &str) -> Option<u16>
    ensures number { result ≡ port_of word.now }
    ensures from_one { 1 ≤ unwrap_or result 1 }
{
    match word.parse::<u16>() {
        Ok(number) if number >= 1 => Some(number),
        _ => None,
    }
}

/// Returns the word of a server's port, if it has one.
fn port_word<'a>(found: &ArgMatches<'a>) -> Option<&'a str>
    ensures { text_of result ≡ port_word (rows_of (found_of found.now)) }
{
    let word = word(found, "PORT");
    if word == "-" { None } else { Some(word) }
}

/// Returns whether the word given for a server's port isn't a port.
fn has_bad_port(found: &ArgMatches<'_>) -> bool
    ensures { result ≡ has_bad_port (rows_of (found_of found.now)) }
{
    match port_word(found) {
        Some(word) => port_number(word).is_none(),
        None => false,
    }
}

/// Returns whether there are more connections than a server of a counted day may have.
fn has_many_connections(found: &ArgMatches<'_>) -> bool
    ensures { IsUnsignedIn 1 1024 (word_in (rows_of (found_of found.now)) (codes "N"))
        → result ≡ nat_lt 32 (number_of (word_in (rows_of (found_of found.now)) (codes "N"))) }
{
    number(word(found, "N"), 1, 1024) > 32
}

/// Returns whether the console and the watch are one socket.
fn has_one_path(found: &ArgMatches<'_>) -> bool
    ensures { result ≡ is_one_path (first_of (codes "console") (rows_of (found_of found.now))) (first_of (codes "watch") (rows_of (found_of found.now))) }
{
    match (found.get_str("console"), found.get_str("watch")) {
        (Some(console), Some(watch)) => console == watch,
        _ => false,
    }
}

/// Returns whether the desk stands by for another one.
fn stands_by(found: &ArgMatches<'_>) -> bool
    ensures { result ≡ is_set (rows_of (found_of found.now)) (codes "standby") }
{
    is_set(found, "standby")
}

/// Returns whether the day goes on that a journal has.
fn goes_on(found: &ArgMatches<'_>) -> bool
    ensures { result ≡ (is_set (rows_of (found_of found.now)) (codes "resume") || is_set (rows_of (found_of found.now)) (codes "standby")) }
{
    is_set(found, "resume") || stands_by(found)
}

/// Returns why the words of `serve` don't go together, if they don't.
pub fn misfit_in(found: &ArgMatches<'_>) -> Option<Misfit>
    ensures { IsUnsignedIn 1 1024 (word_in (rows_of (found_of found.now)) (codes "N")) → result ≡ misfit_in (rows_of (found_of found.now)) }
{
    let is_until_closed = is_set(found, "until-closed");
    let has_port = port_word(found).is_some();
    if has_bad_port(found) {
        Some(Misfit::NotAPort)
    } else if is_until_closed && !has(found, "console") {
        Some(Misfit::NoConsole)
    } else if !is_until_closed && has(found, "W") {
        Some(Misfit::NotUntilClosed)
    } else if !is_until_closed && has_many_connections(found) {
        Some(Misfit::ManyConnections)
    } else if has_one_path(found) {
        Some(Misfit::OnePath)
    } else if goes_on(found) && !has(found, "journal") {
        Some(Misfit::NoJournal)
    } else if !has_port && !has(found, "doors") {
        Some(Misfit::NoDoors)
    } else if has_port && has(found, "doors") && !has(found, "secrets") {
        Some(Misfit::NoSecrets)
    } else {
        None
    }
}

/// Returns how many threads serve the connections, if a number is given.
fn workers_in(found: &ArgMatches<'_>) -> Option<u16>
    ensures number { IfSome (first_of (codes "W") (rows_of (found_of found.now))) (IsUnsignedIn 1 60)
        → result ≡ option_map number_of (first_of (codes "W") (rows_of (found_of found.now))) }
    ensures from_one { 1 ≤ unwrap_or result 1 }
    ensures to_60 { unwrap_or result 1 ≤ 60 }
{
    match found.get_str("W") {
        Some(word) => Some(number(word, 1, 60)),
        None => None,
    }
}

/// Returns how long a server goes on.
fn span_in<'a>(found: &ArgMatches<'a>) -> Span<'a>
    ensures { HasCounts (rows_of (found_of found.now)) → misfit_in (rows_of (found_of found.now)) ≡ None
        → lasting_of result ≡ lasting_by (rows_of (found_of found.now)) }
{
    if is_set(found, "until-closed") {
        Span::UntilClosed(UntilClosed {
            console: word(found, "console"),
            places: number(word(found, "N"), 1, 1024),
            workers: workers_in(found),
        })
    } else {
        Span::Counted(Counted {
            connections: number(word(found, "N"), 1, 32),
            console: found.get_str("console"),
        })
    }
}

/// Returns the file to which the day is written, if it is.
fn journal_in<'a>(found: &ArgMatches<'a>) -> Option<Journal<'a>>
    ensures { keeping_of result ≡ keeping_by (rows_of (found_of found.now)) }
{
    match found.get_str("journal") {
        Some(path) => Some(Journal {
            path,
            resumes: is_set(found, "resume"),
            stands_by: stands_by(found),
        }),
        None => None,
    }
}

/// Returns the port on which a server listens, if it has one.
fn port_in(found: &ArgMatches<'_>) -> Option<u16>
    ensures number { misfit_in (rows_of (found_of found.now)) ≡ None → result ≡ option_map number_of (port_word (rows_of (found_of found.now))) }
    ensures from_one { 1 ≤ unwrap_or result 1 }
{
    port_number(port_word(found)?)
}

/// Returns what the words of `serve` ask for.
pub fn serving_in<'a>(found: &ArgMatches<'a>) -> Serving<'a>
    ensures { HasCounts (rows_of (found_of found.now)) → misfit_in (rows_of (found_of found.now)) ≡ None
        → wanted_of (Task.Serve result) ≡ served_by (rows_of (found_of found.now)) }
{
    Serving {
        reference: word(found, "REF"),
        port: port_in(found),
        script: found.get_str("script"),
        span: span_in(found),
        every: number(word(found, "K"), 0, 1000),
        journal: journal_in(found),
        watch: found.get_str("watch"),
        doors: found.get_str("doors"),
        secrets: found.get_str("secrets"),
        log: is_set(found, "log"),
        share: number(word(found, "PERCENT"), 1, 100),
    }
}

/// Returns the lines of `tell`.
pub fn lines_in<'a>(alloc: Global, found: &ArgMatches<'a>) -> Result<Vec<&'a str>, AllocError>
    ensures { IfOk result (λ lines. map (λ line. line.now) lines.items ≡ unwrap_or (all_of (codes "LINE") (rows_of (found_of found.now))) []) }
{
    match found.get_strs("LINE") {
        Some(lines) => Vec::from_slice(alloc, lines),
        None => Ok(Vec::new(alloc)),
    }
}
