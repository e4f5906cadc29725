//! An operator's connection at a desk that follows.

ghost use Rattle.std.specs.Prelude.{◌≡◌, ◌++◌, [], None, IfOk, OnOk};
ghost use Rattle.gu_console.specs.Answers.{bad_text};
ghost use Rattle.gu_lookout.specs.Answers.{Answers, AnswersLine, IsAnswered, ShowsNext, end_of, wish_of};

use crate::lead_answer::append_not_leading;
use crate::played::Played;
use crate::status::append_status;
use gu_book::Book;
use gu_console::{Request, append_answer, next_stretch};
use gu_standby::Wish;
use gu_terms::Day;
use gu_text::append_unknown;
use gu_text::texts::{append_last_word, append_word};
use std::alloc::{AllocError, Global};
use std::marker::Model;

/// An operator's connection at a desk that follows. To a contract it is how many entries JOURNAL has shown, the day that is open after these,
/// and whether it only watches.
#[derive(Drop)]
pub struct Onlooker {
    /// How many entries JOURNAL has shown.
    shown: usize,
    /// The day that is open after these.
    today: Option<Day>,
    is_watch: bool,
}

impl Model for Onlooker {
    ghost use Rattle.gu_lookout.specs.Answers.{OnlookerState};

    ghost Value = { OnlookerState };

    ghost view = { λ o. record { shown = o.shown; today = o.today; is_watch = o.is_watch } };
}

/// Says that a line is bad, in a text without bytes.
fn say_bad(text: &mut Vec<u8>) -> Result<(), AllocError>
    requires { text.old.items ≡ [] }
    ensures { OnOk result (text.new.items ≡ bad_text) }
{
    append_word(text, b"BAD")?;
    append_last_word(text, b"LINE")
}

/// Returns what a request wishes of the desk, if it wishes anything.
fn wish_of(asked: &Option<Request>) -> Option<Wish>
    ensures { result ≡ wish_of asked.now }
{
    match asked {
        Some(Request::Lead) => Some(Wish::Lead),
        Some(Request::Close) => Some(Wish::Close),
        _ => None,
    }
}

/// Appends the empty line that ends an answer. That to LEAD is still to come.
fn end_answer(wish: Option<Wish>, output: &mut Vec<u8>) -> Result<(), AllocError>
    ensures { OnOk result (output.new.items ≡ output.old.items ++ end_of wish) }
{
    match wish {
        Some(Wish::Lead) => Ok(()),
        Some(Wish::Close) | None => {
            output.push(b'\n')?;
            Ok(())
        }
    }
}

impl Onlooker {
    /// Creates a connection to which no entry was shown yet.
    pub fn new(is_watch: bool) -> Self
        ensures { result ≡ record { shown = 0; today = None; is_watch = is_watch } }
    {
        Onlooker {
            shown: 0,
            today: None,
            is_watch,
        }
    }

    /// Answers JOURNAL by the next stretch, in a text without bytes.
    fn journal(&mut self, alloc: Global, book: &Book, text: &mut Vec<u8>) -> Result<(), AllocError>
        requires { text.old.items ≡ [] }
        ensures { OnOk result (ShowsNext book.now.history self.old text.new.items self.new) }
    {
        let lines = next_stretch(alloc, book, self.shown, self.today)?;
        // No book has that many entries.
        let Some(shown) = self.shown.checked_add(lines.count) else {
            return Err(AllocError);
        };
        text.extend_from_slice(&lines.text)?;
        self.shown = shown;
        self.today = lines.today;
        Ok(())
    }

    /// Answers what is asked for, in a text without bytes.
    fn answer_request(
        &mut self,
        alloc: Global,
        played: Played<'_>,
        asked: Request,
        text: &mut Vec<u8>,
    ) -> Result<(), AllocError>
        requires { text.old.items ≡ [] }
        ensures { OnOk result (Answers played.entry.book.now played.entry.batches self.old asked text.new.items self.new) }
    {
        match asked {
            Request::Nothing => Ok(()),
            Request::Enter(command) => {
                drop(command);
                append_not_leading(text)
            }
            Request::Sweep(_) => append_not_leading(text),
            Request::Ask(question) => append_answer(played.book, question, text),
            Request::Status => append_status(played.book, played.batches, text),
            Request::Journal => self.journal(alloc, played.book, text),
            // No firm is connected.
            Request::Cut(_) => append_unknown(text),
            Request::Close => append_last_word(text, b"CLOSING"),
            Request::Lead => Ok(()),
        }
    }

    /// Answers a line, in a text without bytes, and returns what it wishes of the desk.
    fn answer_line(
        &mut self,
        alloc: Global,
        played: Played<'_>,
        line: &[u8],
        text: &mut Vec<u8>,
    ) -> Result<Option<Wish>, AllocError>
        requires { text.old.items ≡ [] }
        ensures { IfOk result (λ wish. AnswersLine played.entry.book.now played.entry.batches self.old line.now text.new.items wish self.new) }
    {
        let asked = Request::read(alloc, line, self.is_watch)?;
        let wish = wish_of(&asked);
        match asked {
            Some(asked) => {
                self.answer_request(alloc, played, asked, text)?;
                Ok(wish)
            }
            None => {
                say_bad(text)?;
                Ok(wish)
            }
        }
    }

    /// Answers a line, which has no LF, from what the desk has played, appends the answer to an output, and returns what the line wishes of
    /// the desk. The answer to LEAD comes later. After an error the connection is to be closed, since an answer is missing.
    pub fn answer(
        &mut self,
        alloc: Global,
        played: Played<'_>,
        line: &[u8],
        output: &mut Vec<u8>,
    ) -> Result<Option<Wish>, AllocError>
        ensures { IfOk result (λ wish. IsAnswered played.entry.book.now played.entry.batches self.old line.now output.old.items output.new.items wish self.new) }
    {
        let mut text = Vec::new(alloc);
        let wish = self.answer_line(alloc, played, line, &mut text)?;
        end_answer(wish, &mut text)?;
        output.extend_from_slice(&text)?;
        Ok(wish)
    }
}
