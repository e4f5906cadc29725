//! A script read piece by piece and answered line by line.

ghost use Rattle.std.specs.Prelude.{◌≡◌, ◌+◌, ◌^◌, ◌<◌, ◌≤◌, ◌++◌, ◌∷◌, [], ℕ, length, OnOk, IsErrOf};
ghost use Rattle.std.specs.Str.Lines.{strip_carriage_return};
ghost use Rattle.gu_world.specs.Runs.{beginning};
ghost use Rattle.gu_text.specs.LineFeeds.{HasNoLineFeed, IsTooLong};
ghost use Rattle.gu_text.specs.Scripts.{IsBad};
ghost use Rattle.gu_script.specs.ScriptPieces.{AnswersEnd, AnswersPiece, whole_line};
ghost use Rattle.gu_script.specs.ScriptSteps.{AnswersLine, AnswersLines, AnswersSaid};

use crate::line_watcher::LineWatcher;
use crate::questions::{answer_interest, answer_limits, answer_position};
use crate::stepping::{answer_borrowed, answer_sweep};
use gu_ref::Reference;
use gu_terms::Seed;
use gu_text::{Line, TextError, is_too_long, split_at_line_feed, without_return};
use gu_world::World;
use std::alloc::{AllocError, Global};
use std::marker::Model;

/// Carries out a line, and appends its text.
#[inline(always)]
fn answer_line(world: &mut World, said: &Line, output: &mut Vec<u8>) -> Result<(), AllocError>
    ensures { OnOk result (AnswersLine world.old said.now output.old.items world.new output.new.items) }
{
    match said {
        Line::Step(step) => answer_borrowed(world, step, output),
        Line::Sweep(group) => answer_sweep(world, *group, output),
        Line::Position(account, symbol) => answer_position(world.book(), *account, *symbol, output),
        Line::Interest(symbol) => answer_interest(world.book(), *symbol, output),
        Line::Limits(group) => answer_limits(world.book(), *group, output),
    }
}

/// Extends the bytes before a part of a line by the part, if there are any.
fn extend_begun(rest: &mut Vec<u8>, part: &[u8]) -> Result<(), AllocError>
    ensures whole { OnOk result (whole_line rest.new.items part.now ≡ rest.old.items ++ part.now) }
    ensures none { HasNoLineFeed rest.old.items → HasNoLineFeed part.now → HasNoLineFeed rest.new.items }
{
    if rest.is_empty() {
        return Ok(());
    }
    rest.extend_from_slice(part)
}

/// Returns the whole line: the extended bytes, or the part if there were none.
fn whole_line<'a>(rest: &'a [u8], part: &'a [u8]) -> &'a [u8]
    ensures { result.now ≡ whole_line rest.now part.now }
{
    if rest.is_empty() { part } else { rest }
}

/// A script being read: the world that its lines so far led to, and the bytes that wait for more. To a contract it is a place in a script.
pub struct Script {
    alloc: Global,
    world: World,
    /// The number of lines done, including silent ones.
    count: u64,
    /// The bytes after the last LF.
    rest: Vec<u8>,
}

impl Model for Script {
    ghost use Rattle.gu_text.specs.LineFeeds.{HasNoLineFeed};
    ghost use Rattle.gu_script.specs.ScriptPieces.{Place};

    ghost Value = { Place };

    ghost view = { λ s. record { course = s.world; count = s.count; rest = s.rest.items } };

    ghost invariant = { λ s. HasNoLineFeed s.rest.items };
}

// By hand, so that a script is dropped with one call.
impl Drop for Script {
    fn drop(self) {
        let Script {
            alloc: _,
            world,
            count: _,
            rest,
        } = self;
        drop(world);
        drop(rest);
    }
}

impl Script {
    /// Returns a script before its first line, with an empty book whose tables of ids use `seed`. The seed affects no answer.
    pub fn new(alloc: Global, reference: Reference, seed: Seed) -> Self
        ensures { result ≡ record { course = beginning reference; count = 0; rest = [] } }
    {
        Script {
            alloc,
            world: World::seeded(alloc, reference, seed),
            count: 0,
            rest: Vec::new(alloc),
        }
    }

    /// Carries out the content of a line, which empties the rest, and shows the world to the watcher.
    #[inline(always)]
    fn answer<L: LineWatcher>(
        &mut self,
        said: &Option<Line>,
        output: &mut Vec<u8>,
        watcher: &mut L,
    ) -> Result<(), AllocError>
        requires { self.old.count + 1 < 2 ^ 64 }
        ensures answered { OnOk result (AnswersSaid self.old.course said.now output.old.items self.new.course output.new.items) }
        ensures counted { self.new.count ≡ self.old.count + 1 }
        ensures done { self.new.rest ≡ [] }
    {
        self.count += 1;
        self.rest.clear();
        if let Some(said) = said {
            answer_line(&mut self.world, said, output)?;
        }
        watcher.see(self.count, &self.world)
    }

    /// Answers a line ended by an LF: the rest so far, followed by the bytes before the LF. Its content is read over that of the last line.
    fn end_line<L: LineWatcher>(
        &mut self,
        part: &[u8],
        said: &mut Option<Line>,
        output: &mut Vec<u8>,
        watcher: &mut L,
    ) -> Result<(), TextError>
        requires room { self.old.count + 1 < 2 ^ 64 }
        requires none { HasNoLineFeed part.now }
        ensures answered { OnOk result (AnswersLines self.old.course (strip_carriage_return (self.old.rest ++ part.now) ∷ [])
            output.old.items self.new.course output.new.items) }
        ensures counted { OnOk result (self.new.count ≡ self.old.count + 1) }
        ensures done { OnOk result (self.new.rest ≡ []) }
        ensures bad { (n : ℕ) → IsErrOf result (TextError.BadLine n)
            → (n ≡ self.old.count + 1) × IsBad (strip_carriage_return (self.old.rest ++ part.now)) × (output.new.items ≡ output.old.items) }
    {
        extend_begun(&mut self.rest, part)?;
        let line = without_return(whole_line(&self.rest, part));
        Line::read_over(self.alloc, said, line, self.count + 1)?;
        self.answer(said, output, watcher)?;
        Ok(())
    }

    /// Keeps the bytes after the last LF, unless they are longer than any valid line.
    fn keep(&mut self, bytes: &[u8]) -> Result<(), TextError>
        requires room { self.old.count + 1 < 2 ^ 64 }
        requires none { HasNoLineFeed bytes.now }
        ensures kept { OnOk result (self.new ≡ record self.old { rest = self.old.rest ++ bytes.now }) }
        ensures bad { (n : ℕ) → IsErrOf result (TextError.BadLine n) → (n ≡ self.old.count + 1) × IsTooLong (self.old.rest ++ bytes.now) }
    {
        self.rest.extend_from_slice(bytes)?;
        if is_too_long(&self.rest) {
            return Err(TextError::BadLine(self.count + 1));
        }
        Ok(())
    }

    /// Answers the lines that a piece ends, and keeps the bytes after the last LF.
    pub fn take<L: LineWatcher>(
        &mut self,
        piece: &[u8],
        output: &mut Vec<u8>,
        watcher: &mut L,
    ) -> Result<(), TextError>
        requires { self.old.count + length piece.now + 1 < 2 ^ 64 }
        ensures answered { AnswersPiece result self.old piece.now output.old.items self.new output.new.items }
        ensures counted { OnOk result (self.new.count ≤ self.old.count + length piece.now) }
    {
        // Shows the prover: the length of the bytes that wait.
        let _waiting = self.rest.len();
        let mut said = None;
        let mut left = piece;
        'lines: while let Some((part, after)) = split_at_line_feed(left) {
            self.end_line(part, &mut said, output, watcher)?;
            left = after;
        }
        self.keep(left)
    }

    /// Answers the bytes after the last LF, given that nothing more follows.
    pub fn end<L: LineWatcher>(
        &mut self,
        output: &mut Vec<u8>,
        watcher: &mut L,
    ) -> Result<(), TextError>
        requires { self.old.count + 1 < 2 ^ 64 }
        ensures answered { AnswersEnd result self.old output.old.items self.new.course output.new.items }
    {
        if self.rest.is_empty() {
            return Ok(());
        }
        let said = Line::read(self.alloc, &self.rest, self.count + 1)?;
        let answered = self.answer(&said, output, watcher);
        drop(said);
        answered?;
        Ok(())
    }

    /// Returns the number of lines done, including silent ones.
    pub fn count(&self) -> u64
        ensures { result ≡ self.now.count }
    {
        self.count
    }

    /// Returns the world that the lines so far led to.
    pub fn world(&self) -> &World
        ensures { result.now ≡ self.now.course }
    {
        &self.world
    }

    /// Returns the world that the lines led to.
    pub fn into_world(self) -> World
        ensures { result ≡ self.course }
    {
        let Script {
            alloc: _,
            world,
            count: _,
            rest,
        } = self;
        drop(rest);
        world
    }
}
