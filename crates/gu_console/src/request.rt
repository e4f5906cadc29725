//! What a line of an operator asks for.

ghost use Rattle.std.specs.Prelude.{◌≡◌, ◌≢◌, ◌++◌, ℕ, List, false, true, codes, IfOk, MatchOption};
ghost use Rattle.gu_text.specs.Scripts.{Says};
ghost use Rattle.gu_text.specs.declared.script_line.Line.{Line as LineOf};
ghost use Rattle.gu_console.specs.Requests.{IsAsked, IsAskedByScript, IsCut, IsMeant, IsPlainWord, IsWord, WritesNumber, allowed, may_ask, request_of};
ghost use Rattle.gu_console.specs.declared.request.Request.{Request as RequestOf};

use gu_terms::{AccountId, Command, Group, Symbol, are_digits, value_of};
use gu_text::{Line, TextError, a_line_says_one_thing};
use gu_world::Step;
use std::alloc::{AllocError, Global};

/// The digits that a number has at most.
const MOST_DIGITS: usize = 12;

/// The greatest number of so many digits.
const MOST: u64 = 999_999_999_999;

/// What is asked of the book.
#[derive(Clone, Copy, Debug)]
pub enum BookQuestion {
    /// What does this account hold of this instrument?
    Position(AccountId, Symbol),
    /// What is the open interest of this instrument?
    Interest(Symbol),
    /// What limits are set in this group?
    Limits(Group),
}

/// What a line of an operator asks for.
#[derive(Debug, Drop)]
pub enum Request {
    /// Nothing: the line is empty, or a comment.
    Nothing,
    /// Enter this command.
    Enter(Command),
    /// Sweep this group.
    Sweep(Group),
    /// Answer this question.
    Ask(BookQuestion),
    /// Show the desk, and the connections of firms.
    Status,
    /// Show the next entries.
    Journal,
    /// Drop the connection of this number.
    Cut(u64),
    /// Close the day.
    Close,
    /// Take the lead over the log of the day.
    Lead,
}

/// Returns the number that one to twelve digits write.
fn number_of(digits: &[u8]) -> Option<u64>
    ensures { MatchOption result ((n : ℕ) → ¬ WritesNumber digits.now n) (WritesNumber digits.now) }
{
    if digits.is_empty() || digits.len() > MOST_DIGITS || !are_digits(digits) {
        return None;
    }
    value_of(digits, MOST)
}

/// Returns what a line asks for that is one of the console's words and no more.
fn plain_word_said(line: &[u8]) -> Option<Request>
    ensures { MatchOption result ((asked : RequestOf) → ¬ IsPlainWord line.now asked) (IsPlainWord line.now) }
{
    match line {
        b"STATUS" => Some(Request::Status),
        b"JOURNAL" => Some(Request::Journal),
        b"CLOSE" => Some(Request::Close),
        b"LEAD" => Some(Request::Lead),
        _ => None,
    }
}

/// Returns what comes after `CUT `.
fn after_cut(line: &[u8]) -> Option<&[u8]>
    ensures { MatchOption result ((rest : List ℕ) → line.now ≢ codes "CUT " ++ rest) (λ rest. line.now ≡ codes "CUT " ++ rest.now) }
{
    match line {
        [b'C', b'U', b'T', b' ', rest @ ..] => Some(rest),
        _ => None,
    }
}

/// Returns the number of the connection that a line cuts.
fn cut_said(line: &[u8]) -> Option<u64>
    ensures { MatchOption result ((number : ℕ) → ¬ IsCut line.now number) (IsCut line.now) }
{
    number_of(after_cut(line)?)
}

/// Returns what a word of the console asks for.
fn word_said(line: &[u8]) -> Option<Request>
    ensures { MatchOption result ((asked : RequestOf) → ¬ IsWord line.now asked) (IsWord line.now) }
{
    if let Some(asked) = plain_word_said(line) {
        return Some(asked);
    }
    let Some(number) = cut_said(line) else {
        return None;
    };
    Some(Request::Cut(number))
}

/// Returns what a line of a script asks a desk for, if it is an operator's.
fn request_of(said: Line) -> Option<Request>
    ensures { result ≡ request_of said }
{
    match said {
        Line::Step(Step::Enter(command)) => Some(Request::Enter(command)),
        Line::Step(step) => {
            drop(step);
            None
        }
        Line::Sweep(group) => Some(Request::Sweep(group)),
        Line::Position(account, symbol) => {
            Some(Request::Ask(BookQuestion::Position(account, symbol)))
        }
        Line::Interest(symbol) => Some(Request::Ask(BookQuestion::Interest(symbol))),
        Line::Limits(group) => Some(Request::Ask(BookQuestion::Limits(group))),
    }
}

/// Returns what a line asks for as a line of a script.
fn script_said(alloc: Global, line: &[u8]) -> Result<Option<Request>, AllocError>
    ensures { IfOk result (IsAskedByScript line.now) }
{
    // Shows the prover: a line says one thing.
    a_line_says_one_thing();
    match Line::read(alloc, line, 1) {
        Ok(Some(said)) => Ok(request_of(said)),
        Ok(None) => Ok(Some(Request::Nothing)),
        Err(TextError::BadLine(_)) => Ok(None),
        Err(TextError::Memory) => Err(AllocError),
    }
}

/// Returns what a line of an operator asks for, whether it may be asked or not.
fn meant(alloc: Global, line: &[u8]) -> Result<Option<Request>, AllocError>
    ensures { IfOk result (IsMeant line.now) }
{
    if let Some(asked) = word_said(line) {
        return Ok(Some(asked));
    }
    script_said(alloc, line)
}

/// Returns what is asked for, if it may be asked.
fn allowed(asked: Option<Request>, is_watch: bool) -> Option<Request>
    ensures { result ≡ allowed is_watch asked }
{
    match asked {
        Some(asked) if asked.may_be_asked(is_watch) => Some(asked),
        Some(asked) => {
            drop(asked);
            None
        }
        None => None,
    }
}

impl Request {
    /// Returns whether it may be asked: who only watches asks for what changes nothing.
    fn may_be_asked(&self, is_watch: bool) -> bool
        ensures { result ≡ may_ask is_watch self.now }
    {
        !is_watch
            || matches!(
                self,
                Request::Nothing | Request::Ask(_) | Request::Status | Request::Journal
            )
    }

    /// Returns what a line of an operator asks for, if it may be asked.
    pub fn read(alloc: Global, line: &[u8], is_watch: bool) -> Result<Option<Request>, AllocError>
        ensures { IfOk result (IsAsked is_watch line.now) }
    {
        let asked = meant(alloc, line)?;
        Ok(allowed(asked, is_watch))
    }
}
