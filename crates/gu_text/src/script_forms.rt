//! The forms of script lines.

ghost use Rattle.std.specs.Prelude.{◌≡◌, ◌≢◌, ◌<◌, length, IfOk, IfSome, MatchOption};
ghost use Rattle.gu_text.specs.ScriptForms.{form_word, ReadsLines, ReadsOver, WritesLine, WritesNoLine};
ghost use Rattle.gu_text.specs.Words.{words_of};
ghost use Rattle.gu_text.specs.declared.script_forms.Form.{Form as FormOf};

use crate::error::TextError;
use crate::script_line::Line;
use crate::values::{
    day_of, key_said, lots_of, name_of, number_of, offer_no_of, price_of, reject_of, side_of,
    worker_of,
};
use crate::words::{first_three_words, first_word, has_words, only_word, three_words, two_words};
use gu_terms::{
    AccountId, Claim, Command, FirmId, GiveUp, Group, Id, Line as GiveUpLine, Lines, OpenDay,
    Refuse, ReportSide, Reverse, SetLimit, Symbol,
};
use gu_world::Step;
use std::alloc::{AllocError, Global};

/// Gives what was read, or returns early with the end of the reading if nothing was. (`ok_or` and `?` would move it twice.)
macro_rules! told {
    ($read:expr, $number:expr) => {
        match $read {
            Some(value) => value,
            None => return Err(TextError::BadLine($number)),
        }
    };
}

/// The forms of script lines. Each form has its own first word.
#[derive(Clone, Copy)]
pub(crate) enum Form {
    Day,
    Limit,
    Report,
    GiveUp,
    Claim,
    Refuse,
    Reverse,
    See,
    Propose,
    Commit,
    Sweep,
    Position,
    Interest,
    Limits,
}

impl Form {
    /// Returns the form with this first word.
    #[inline(always)]
    pub(crate) fn begun(word: &[u8]) -> Option<Form>
        ensures { MatchOption result ((form : FormOf) → word.now ≢ form_word form) (λ form. word.now ≡ form_word form) }
    {
        match word {
            b"DAY" => Some(Form::Day),
            b"LIMIT" => Some(Form::Limit),
            b"REPORT" => Some(Form::Report),
            b"GIVEUP" => Some(Form::GiveUp),
            b"CLAIM" => Some(Form::Claim),
            b"REFUSE" => Some(Form::Refuse),
            b"REVERSE" => Some(Form::Reverse),
            b"SEE" => Some(Form::See),
            b"PROPOSE" => Some(Form::Propose),
            b"COMMIT" => Some(Form::Commit),
            b"SWEEP" => Some(Form::Sweep),
            b"POSITION" => Some(Form::Position),
            b"INTEREST" => Some(Form::Interest),
            b"LIMITS" => Some(Form::Limits),
            _ => None,
        }
    }
}

/// Reads an opening: the day.
#[inline(never)]
pub(crate) fn day_said(said: &mut Option<Line>, words: &[u8], number: u64) -> Result<(), TextError>
    ensures { ReadsOver Form.Day (words_of words.now) number result said.old said.new }
{
    let word = told!(only_word(words), number);
    let day = told!(day_of(word), number);
    *said = Some(Line::Step(Step::Enter(Command::OpenDay(OpenDay { day }))));
    Ok(())
}

/// Reads a limit: its group, its key and its lots.
#[inline(never)]
pub(crate) fn limit_said(
    said: &mut Option<Line>,
    words: &[u8],
    number: u64,
) -> Result<(), TextError>
    ensures { ReadsOver Form.Limit (words_of words.now) number result said.old said.new }
{
    let (group, kind, name, rest) = told!(first_three_words(words), number);
    let lots = told!(only_word(rest), number);
    let group = told!(name_of(group), number);
    let key = told!(key_said(kind, name), number);
    let lots = told!(number_of(lots), number);
    *said = Some(Line::Step(Step::Enter(Command::SetLimit(SetLimit {
        group: Group { name: group },
        key,
        lots,
    }))));
    Ok(())
}

/// Reads a firm's side of a trade, for the open day.
#[inline(never)]
pub(crate) fn report_said(
    said: &mut Option<Line>,
    words: &[u8],
    number: u64,
) -> Result<(), TextError>
    ensures { ReadsOver Form.Report (words_of words.now) number result said.old said.new }
{
    let (firm, id, match_id, rest) = told!(first_three_words(words), number);
    let (side, symbol, lots, rest) = told!(first_three_words(rest), number);
    let (price, account) = told!(two_words(rest), number);
    let firm = told!(name_of(firm), number);
    let id = told!(Id::new(id), number);
    let match_id = told!(Id::new(match_id), number);
    let side = told!(side_of(side), number);
    let symbol = told!(name_of(symbol), number);
    let lots = told!(lots_of(lots), number);
    let price = told!(price_of(price), number);
    let account = told!(name_of(account), number);
    *said = Some(Line::Step(Step::Enter(Command::ReportSide(ReportSide {
        firm: FirmId { name: firm },
        id,
        match_id,
        symbol: Symbol { name: symbol },
        lots,
        price,
        day: None,
        side,
        account: AccountId { name: account },
    }))));
    Ok(())
}

/// Returns the first two words as a line of a give-up, and the words that remain.
fn pair_said(words: &[u8]) -> Option<(GiveUpLine, &[u8])>
    ensures line { MatchOption result (WritesNoLine (words_of words.now))
        (λ pair. WritesLine (words_of words.now) pair.0 (words_of pair.1.now)) }
    ensures shorter { IfSome result (λ pair. length pair.1.now < length words.now) }
{
    let (account, rest) = first_word(words)?;
    let (lots, rest) = first_word(rest)?;
    let name = name_of(account)?;
    let lots = lots_of(lots)?;
    let account = AccountId { name };
    Some((GiveUpLine { account, lots }, rest))
}

/// Returns the lines of a give-up.
fn lines_said(alloc: Global, words: &[u8]) -> Result<Option<Lines>, AllocError>
    ensures { IfOk result (ReadsLines (words_of words.now)) }
{
    let mut lines = Vec::new(alloc);
    let mut rest = words;
    'pairs: while has_words(rest) {
        let Some((line, behind)) = pair_said(rest) else {
            return Ok(None);
        };
        lines.push(line)?;
        rest = behind;
    }
    Ok(Lines::new(lines))
}

/// Reads a give-up: the firm, its ids for the give-up and the report, and accounts with lots.
#[inline(never)]
pub(crate) fn give_up_said(
    alloc: Global,
    said: &mut Option<Line>,
    words: &[u8],
    number: u64,
) -> Result<(), TextError>
    ensures { ReadsOver Form.GiveUp (words_of words.now) number result said.old said.new }
{
    let (firm, id, report, pairs) = told!(first_three_words(words), number);
    let name = told!(name_of(firm), number);
    let id = told!(Id::new(id), number);
    let report = told!(Id::new(report), number);
    let lines = told!(lines_said(alloc, pairs)?, number);
    *said = Some(Line::Step(Step::Enter(Command::GiveUp(GiveUp {
        firm: FirmId { name },
        id,
        report,
        lines,
    }))));
    Ok(())
}

/// Reads a claim: the firm, and the number of the offer.
#[inline(never)]
pub(crate) fn claim_said(
    said: &mut Option<Line>,
    words: &[u8],
    number: u64,
) -> Result<(), TextError>
    ensures { ReadsOver Form.Claim (words_of words.now) number result said.old said.new }
{
    let (firm, offer) = told!(two_words(words), number);
    let name = told!(name_of(firm), number);
    let offer = told!(offer_no_of(offer), number);
    *said = Some(Line::Step(Step::Enter(Command::Claim(Claim {
        firm: FirmId { name },
        offer,
    }))));
    Ok(())
}

/// Reads a refusal: the firm, the number of the offer, and the reason.
#[inline(never)]
pub(crate) fn refuse_said(
    said: &mut Option<Line>,
    words: &[u8],
    number: u64,
) -> Result<(), TextError>
    ensures { ReadsOver Form.Refuse (words_of words.now) number result said.old said.new }
{
    let (firm, offer, why) = told!(three_words(words), number);
    let name = told!(name_of(firm), number);
    let offer = told!(offer_no_of(offer), number);
    let why = told!(reject_of(why), number);
    *said = Some(Line::Step(Step::Enter(Command::Refuse(Refuse {
        firm: FirmId { name },
        offer,
        why,
    }))));
    Ok(())
}

/// Reads a reversal: the firm, and the number of the offer.
#[inline(never)]
pub(crate) fn reverse_said(
    said: &mut Option<Line>,
    words: &[u8],
    number: u64,
) -> Result<(), TextError>
    ensures { ReadsOver Form.Reverse (words_of words.now) number result said.old said.new }
{
    let (firm, offer) = told!(two_words(words), number);
    let name = told!(name_of(firm), number);
    let offer = told!(offer_no_of(offer), number);
    *said = Some(Line::Step(Step::Enter(Command::Reverse(Reverse {
        firm: FirmId { name },
        offer,
    }))));
    Ok(())
}

/// Reads a look: the worker, and the group.
#[inline(never)]
pub(crate) fn see_said(said: &mut Option<Line>, words: &[u8], number: u64) -> Result<(), TextError>
    ensures { ReadsOver Form.See (words_of words.now) number result said.old said.new }
{
    let (worker, group) = told!(two_words(words), number);
    let worker = told!(worker_of(worker), number);
    let name = told!(name_of(group), number);
    *said = Some(Line::Step(Step::See(worker, Group { name })));
    Ok(())
}

/// Reads a proposal: the worker.
#[inline(never)]
pub(crate) fn propose_said(
    said: &mut Option<Line>,
    words: &[u8],
    number: u64,
) -> Result<(), TextError>
    ensures { ReadsOver Form.Propose (words_of words.now) number result said.old said.new }
{
    let word = told!(only_word(words), number);
    let worker = told!(worker_of(word), number);
    *said = Some(Line::Step(Step::Propose(worker)));
    Ok(())
}

/// Reads a commit: the worker.
#[inline(never)]
pub(crate) fn commit_said(
    said: &mut Option<Line>,
    words: &[u8],
    number: u64,
) -> Result<(), TextError>
    ensures { ReadsOver Form.Commit (words_of words.now) number result said.old said.new }
{
    let word = told!(only_word(words), number);
    let worker = told!(worker_of(word), number);
    *said = Some(Line::Step(Step::Commit(worker)));
    Ok(())
}

/// Reads a whole sweep: the group.
#[inline(never)]
pub(crate) fn sweep_said(
    said: &mut Option<Line>,
    words: &[u8],
    number: u64,
) -> Result<(), TextError>
    ensures { ReadsOver Form.Sweep (words_of words.now) number result said.old said.new }
{
    let word = told!(only_word(words), number);
    let name = told!(name_of(word), number);
    *said = Some(Line::Sweep(Group { name }));
    Ok(())
}

/// Reads a question for a position: the account, and the instrument.
#[inline(never)]
pub(crate) fn position_said(
    said: &mut Option<Line>,
    words: &[u8],
    number: u64,
) -> Result<(), TextError>
    ensures { ReadsOver Form.Position (words_of words.now) number result said.old said.new }
{
    let (account, symbol) = told!(two_words(words), number);
    let account = told!(name_of(account), number);
    let symbol = told!(name_of(symbol), number);
    *said = Some(Line::Position(AccountId { name: account }, Symbol { name: symbol }));
    Ok(())
}

/// Reads a question for the open interest: the instrument.
#[inline(never)]
pub(crate) fn interest_said(
    said: &mut Option<Line>,
    words: &[u8],
    number: u64,
) -> Result<(), TextError>
    ensures { ReadsOver Form.Interest (words_of words.now) number result said.old said.new }
{
    let word = told!(only_word(words), number);
    let name = told!(name_of(word), number);
    *said = Some(Line::Interest(Symbol { name }));
    Ok(())
}

/// Reads a question for limits: the group.
#[inline(never)]
pub(crate) fn limits_said(
    said: &mut Option<Line>,
    words: &[u8],
    number: u64,
) -> Result<(), TextError>
    ensures { ReadsOver Form.Limits (words_of words.now) number result said.old said.new }
{
    let word = told!(only_word(words), number);
    let name = told!(name_of(word), number);
    *said = Some(Line::Limits(Group { name }));
    Ok(())
}
