//! The content of a script line.

ghost use Rattle.std.specs.Prelude.{◌≡◌, ℕ, false, IfOk, IsErrOf, IsTrue, MatchOption, OnErr, OnOk};
ghost use Rattle.gu_text.specs.Lines.{is_silent};
ghost use Rattle.gu_text.specs.ScriptForms.{IsBegun};
ghost use Rattle.gu_text.specs.Scripts.{IsBad, Says};
ghost use Rattle.gu_text.specs.Words.{words_of};

use crate::error::TextError;
use crate::lines::{LONGEST_LINE, is_silent};
use crate::script_forms::{
    Form, claim_said, commit_said, day_said, give_up_said, interest_said, limit_said, limits_said,
    position_said, propose_said, refuse_said, report_said, reverse_said, see_said, sweep_said,
};
use crate::words::{first_word, is_ragged};
use gu_terms::{AccountId, Group, Symbol};
use gu_world::Step;
use std::alloc::Global;

/// The content of a script line.
#[derive(Debug, Drop)]
pub enum Line {
    /// A step: a command, or a step of a worker from 0 to 62.
    Step(Step),
    /// A whole sweep of a group: a look, a proposal and its commit.
    Sweep(Group),
    /// A question: what does this account hold in this instrument?
    Position(AccountId, Symbol),
    /// A question: what is the open interest of this instrument?
    Interest(Symbol),
    /// A question: what limits are set in this group?
    Limits(Group),
}

#[tactic(auto, using(crate::proofs::ScriptLemmas::is_begun))]
/// Returns the form of a line that isn't silent, and the words after its first word.
#[inline(always)]
fn begun(line: &[u8]) -> Option<(Form, &[u8])>
    requires { is_silent line.now ≡ false }
    ensures { MatchOption result (IsBad line.now) (λ begun. IsBegun line.now begun.0 (words_of begun.1.now)) }
{
    if line.len() > LONGEST_LINE || is_ragged(line) {
        return None;
    }
    let (kind, words) = first_word(line)?;
    let form = Form::begun(kind)?;
    Some((form, words))
}

impl Line {
    /// Reads the line with this number over the content read before; a silent line has none. A returned value would be moved by each call
    /// that returns it. After an error the content is unchanged.
    #[inline(always)]
    pub fn read_over(
        alloc: Global,
        said: &mut Option<Line>,
        line: &[u8],
        number: u64,
    ) -> Result<(), TextError>
        ensures said { OnOk result (MatchOption said.new (IsTrue (is_silent line.now)) (Says line.now)) }
        ensures bad { (n : ℕ) → IsErrOf result (TextError.BadLine n) → (n ≡ number) × IsBad line.now }
        ensures refused { OnErr result (said.new ≡ said.old) }
    {
        if is_silent(line) {
            *said = None;
            return Ok(());
        }
        let Some((form, words)) = begun(line) else {
            return Err(TextError::BadLine(number));
        };
        match form {
            Form::Day => day_said(said, words, number),
            Form::Limit => limit_said(said, words, number),
            Form::Report => report_said(said, words, number),
            Form::GiveUp => give_up_said(alloc, said, words, number),
            Form::Claim => claim_said(said, words, number),
            Form::Refuse => refuse_said(said, words, number),
            Form::Reverse => reverse_said(said, words, number),
            Form::See => see_said(said, words, number),
            Form::Propose => propose_said(said, words, number),
            Form::Commit => commit_said(said, words, number),
            Form::Sweep => sweep_said(said, words, number),
            Form::Position => position_said(said, words, number),
            Form::Interest => interest_said(said, words, number),
            Form::Limits => limits_said(said, words, number),
        }
    }

    /// Returns the content of the line with this number, or None if the line is silent.
    pub fn read(alloc: Global, line: &[u8], number: u64) -> Result<Option<Line>, TextError>
        ensures said { IfOk result (λ said. MatchOption said (IsTrue (is_silent line.now)) (Says line.now)) }
        ensures bad { (n : ℕ) → IsErrOf result (TextError.BadLine n) → (n ≡ number) × IsBad line.now }
    {
        let mut said = None;
        Line::read_over(alloc, &mut said, line, number)?;
        Ok(said)
    }
}
