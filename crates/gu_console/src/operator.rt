//! An operator's connection at a desk.

ghost use Rattle.std.specs.Prelude.{◌≡◌, ◌≤◌, [], None, length, take, IfOk, OnErr, OnOk};
ghost use Rattle.gu_console.specs.Answers.{Answers, AnswersLine, ClosesOnly, GoesOnFrom, IsAnswered, IsCutText, IsLeadText, after_answer, bad_text, closing_text, sent_as};
ghost use Rattle.gu_console.specs.Shown.{day_after};
ghost use Rattle.gu_console.specs.declared.request.Request.TheVariants as request;

use crate::answering::{ask, enter, say_memory};
use crate::console::Console;
use crate::office::Office;
use crate::request::Request;
use crate::said::Said;
use crate::status::{BookCounts, show_status};
use crate::stretch::{EntryCopies, stretch_of};
use crate::sweeping::sweep;
use gu_desk::{EntryLedger, LotLedger};
use gu_houses::{Informs, SeatReceipts};
use gu_terms::Day;
use gu_text::append_unknown;
use gu_text::texts::{append_last_word, append_word};
use std::alloc::AllocError;
use std::marker::Model;
use std::mem::swap;
use std::sync::Wait;

/// The room that an answer of one line is given.
const LINE_ROOM: usize = 192;

/// An operator's connection at a desk. To a contract it is its seat, how many entries JOURNAL has shown and STATUS has counted, and whether
/// it only watches.
pub struct Operator<'a, E: EntryLedger, S: LotLedger, R: Wait, O: Office, I: Informs> {
    console: Console<'a, E, S, R, O, I>,
    seat: SeatReceipts<E, S>,
    /// How many entries JOURNAL has shown.
    shown: usize,
    /// The day that is open after these.
    today: Option<Day>,
    counts: BookCounts,
}

impl<'a, E: EntryLedger, S: LotLedger, R: Wait, O: Office, I: Informs> Drop
    for Operator<'a, E, S, R, O, I> {
    fn drop(self) {
        drop(self.into_seat());
    }
}

impl<'a, E: EntryLedger, S: LotLedger, R: Wait, O: Office, I: Informs> Model
    for Operator<'a, E, S, R, O, I> {
    ghost use Rattle.std.specs.Prelude.{◌≡◌, ◌≤◌, None, length, take};
    ghost use Rattle.gu_console.specs.Answers.{OperatorState};
    ghost use Rattle.gu_console.specs.Shown.{day_after};

    ghost Value = { OperatorState };

    ghost view = { λ o. record { seat = o.seat; shown = o.shown; counted = o.counts.entries; is_watch = o.console.is_watch } };

    ghost invariant = { λ o. (o.shown ≤ length o.seat.front) × (o.today ≡ day_after None (take o.shown o.seat.front)) };
}

/// Returns that the connection goes on after an answer.
fn goes_on(answered: Result<(), AllocError>) -> Result<Said, AllocError>
    ensures { result ≡ after_answer answered }
{
    match answered {
        Ok(()) => Ok(Said::GoesOn),
        Err(AllocError) => Err(AllocError),
    }
}

/// Says that a line is bad, in a text without bytes.
fn say_bad(text: &mut Vec<u8>) -> Result<(), AllocError>
    requires { text.old.items ≡ [] }
    ensures { OnOk result (text.new.items ≡ bad_text) }
{
    append_word(text, b"BAD")?;
    append_last_word(text, b"LINE")
}

/// Ends an answer by an empty line, unless it is the last one.
fn end_answer(text: &mut Vec<u8>, said: Said) -> Result<(), AllocError>
    ensures { OnOk result (text.new.items ≡ sent_as said text.old.items) }
{
    match said {
        Said::GoesOn => {
            text.push(b'\n')?;
            Ok(())
        }
        Said::Closes => Ok(()),
    }
}

impl<'a, E: EntryLedger, S: LotLedger, R: Wait, O: Office, I: Informs> Operator<'a, E, S, R, O, I> {
    /// Creates an operator's connection from a seat, to which no entry was shown yet.
    pub fn new(console: Console<'a, E, S, R, O, I>, seat: SeatReceipts<E, S>) -> Self
        ensures { result ≡ record { seat = seat; shown = 0; counted = 0; is_watch = console.entry.is_watch } }
    {
        Operator {
            console,
            seat,
            shown: 0,
            today: None,
            counts: BookCounts::new(),
        }
    }

    /// Returns the seat, with its receipts.
    pub fn into_seat(self) -> SeatReceipts<E, S>
        ensures { result ≡ self.entry.seat }
    {
        let Operator {
            console: _,
            seat,
            shown: _,
            today: _,
            counts: _,
        } = self;
        seat
    }

    /// Returns how many entries its seat has seen. No answer so far shows more of the desk's one history.
    pub fn seen(&self) -> u64
        ensures { result ≡ length self.now.seat.front }
    {
        self.seat.seen()
    }

    /// Goes back to this place in the journal that it follows.
    fn go_back(&mut self, shown: usize, today: Option<Day>)
        requires { (shown ≤ length self.old.seat.front) × (today ≡ day_after None (take shown self.old.seat.front)) }
        ensures { self.new ≡ record self.old { shown = shown } }
    {
        self.shown = shown;
        self.today = today;
    }

    /// Begins the next connection, to which no entry was shown yet. The entries that STATUS has counted aren't read again.
    pub fn begin(&mut self)
        ensures { self.new ≡ record self.old { shown = 0 } }
    {
        self.go_back(0, None);
    }

    /// Answers STATUS, in a text without bytes.
    fn status(&mut self, text: &mut Vec<u8>) -> Result<(), AllocError>
        requires { text.old.items ≡ [] }
        ensures answered { OnOk result (Answers E.reference self.old request.Status text.new.items self.new) }
        ensures goes_on { GoesOnFrom self.old.seat self.new.seat }
        ensures watch { self.new.is_watch ≡ self.old.is_watch }
    {
        let Ok(mut status) = show_status(&self.console, &mut self.seat, &mut self.counts) else {
            return say_memory(text);
        };
        swap(text, &mut status);
        Ok(())
    }

    /// Answers JOURNAL by the next stretch, in a text without bytes.
    fn journal(&mut self, text: &mut Vec<u8>) -> Result<(), AllocError>
        requires { text.old.items ≡ [] }
        ensures answered { OnOk result (Answers E.reference self.old request.Journal text.new.items self.new) }
        ensures goes_on { GoesOnFrom self.old.seat self.new.seat }
        ensures watch { self.new.is_watch ≡ self.old.is_watch }
    {
        let alloc = self.console.alloc;
        let mut copies = EntryCopies::after(alloc, self.shown);
        let Ok(()) = self.seat.put(&self.console.tools.access, &mut copies) else {
            return say_memory(text);
        };
        match stretch_of(alloc, self.today, &copies.entries) {
            Ok(mut lines) => {
                swap(text, &mut lines.text);
                self.shown += lines.count;
                self.today = lines.today;
                Ok(())
            }
            Err(AllocError) => say_memory(text),
        }
    }

    /// Answers CUT, in a text without bytes.
    fn cut(&self, number: u64, text: &mut Vec<u8>) -> Result<(), AllocError>
        requires { text.old.items ≡ [] }
        ensures { OnOk result (IsCutText text.new.items) }
    {
        if self.console.office.cut(number) {
            append_last_word(text, b"CUT")
        } else {
            append_unknown(text)
        }
    }

    /// Closes the day, and answers CLOSE in a text without bytes.
    fn close(&self, text: &mut Vec<u8>) -> Result<Said, AllocError>
        requires { text.old.items ≡ [] }
        ensures { OnOk result (text.new.items ≡ closing_text) }
    {
        append_last_word(text, b"CLOSING")?;
        if self.console.office.close() {
            Ok(Said::Closes)
        } else {
            Ok(Said::GoesOn)
        }
    }

    /// Answers LEAD, in a text without bytes: a desk that leads has nothing to take, and one without a log doesn't know the word.
    fn lead(&self, text: &mut Vec<u8>) -> Result<(), AllocError>
        requires { text.old.items ≡ [] }
        ensures { OnOk result (IsLeadText text.new.items) }
    {
        if self.console.office.leads_log() {
            append_last_word(text, b"LEADING")
        } else {
            say_bad(text)
        }
    }

    /// Answers what is asked for, in a text without bytes.
    fn answer_request(&mut self, asked: Request, text: &mut Vec<u8>) -> Result<Said, AllocError>
        requires { text.old.items ≡ [] }
        ensures answered { OnOk result (Answers E.reference self.old asked text.new.items self.new) }
        ensures closes { IfOk result (λ said. ClosesOnly said asked) }
        ensures goes_on { GoesOnFrom self.old.seat self.new.seat }
        ensures watch { self.new.is_watch ≡ self.old.is_watch }
    {
        match asked {
            Request::Nothing => Ok(Said::GoesOn),
            Request::Enter(command) => {
                goes_on(enter(&self.console, &mut self.seat, command, text))
            }
            Request::Sweep(group) => goes_on(sweep(&self.console, &mut self.seat, group, text)),
            Request::Ask(question) => goes_on(ask(&self.console, &mut self.seat, question, text)),
            Request::Status => goes_on(self.status(text)),
            Request::Journal => goes_on(self.journal(text)),
            Request::Cut(number) => goes_on(self.cut(number, text)),
            Request::Close => self.close(text),
            Request::Lead => goes_on(self.lead(text)),
        }
    }

    /// Answers a line, in a text without bytes.
    fn answer_line(&mut self, line: &[u8], text: &mut Vec<u8>) -> Result<Said, AllocError>
        requires { text.old.items ≡ [] }
        ensures answered { IfOk result (λ said. AnswersLine E.reference self.old line.now text.new.items said self.new) }
        ensures goes_on { GoesOnFrom self.old.seat self.new.seat }
        ensures watch { self.new.is_watch ≡ self.old.is_watch }
    {
        match Request::read(self.console.alloc, line, self.console.is_watch) {
            Ok(Some(asked)) => self.answer_request(asked, text),
            Ok(None) => goes_on(say_bad(text)),
            Err(AllocError) => goes_on(say_memory(text)),
        }
    }

    /// Answers a line, and appends the answer to an output, unless memory fails for it.
    fn append_answer(&mut self, line: &[u8], output: &mut Vec<u8>) -> Result<Said, AllocError>
        ensures answered { IfOk result (λ said. IsAnswered E.reference self.old line.now output.old.items output.new.items said self.new) }
        ensures goes_on { GoesOnFrom self.old.seat self.new.seat }
        ensures watch { self.new.is_watch ≡ self.old.is_watch }
        ensures refused { OnErr result (output.new.items ≡ output.old.items) }
    {
        let mut text = Vec::with_capacity(self.console.alloc, LINE_ROOM)?;
        output.reserve(LINE_ROOM)?;
        let said = self.answer_line(line, &mut text)?;
        end_answer(&mut text, said)?;
        output.extend_from_slice(&text)?;
        Ok(said)
    }

    /// Answers a line, which has no LF, and appends the answer to an output. Room for an answer of one line is made before anything is
    /// done. After an error the output is as it was, JOURNAL goes on where it was, and the connection is to be closed, since an answer is
    /// missing.
    pub fn answer(&mut self, line: &[u8], output: &mut Vec<u8>) -> Result<Said, AllocError>
        ensures answered { IfOk result (λ said. IsAnswered E.reference self.old line.now output.old.items output.new.items said self.new) }
        ensures goes_on { GoesOnFrom self.old.seat self.new.seat }
        ensures watch { self.new.is_watch ≡ self.old.is_watch }
        ensures refused { OnErr result (output.new.items ≡ output.old.items) }
        ensures unshown { OnErr result (self.new.shown ≡ self.old.shown) }
    {
        let shown = self.shown;
        let today = self.today;
        match self.append_answer(line, output) {
            Ok(said) => Ok(said),
            Err(AllocError) => {
                self.go_back(shown, today);
                Err(AllocError)
            }
        }
    }
}
