//! Trade capture without a session.

ghost use Rattle.std.specs.Prelude.{◌≡◌, ◌≤◌, ◌++◌, IfOk, IsErrOf, IsOk, List, MatchOption, MatchResult, None, OnOk, length, ℕ};
ghost use Rattle.gu_fix.specs.Encoding.{message_of};
ghost use Rattle.gu_fix.specs.TagValue.{TagValue};
ghost use Rattle.gu_fix.specs.WholeMessage.{IsWhole};
ghost use Rattle.gu_streams.specs.Reads.{HasStopped};
ghost use Rattle.gu_streams.specs.Streams.{streams_of};
ghost use Rattle.gu_msgs.specs.Asking.{side_of};
ghost use Rattle.gu_msgs.specs.Faults.{IsFaultOf};
ghost use Rattle.gu_msgs.specs.Messages.{Says};
ghost use Rattle.gu_msgs.specs.declared.inbound.Inbound.TheVariants as inbound;
ghost use Rattle.gu_msgs.specs.declared.inbound.TradeCaptureReport.{TradeCaptureReport as ReportOf};
ghost use Rattle.gu_capture.specs.Capture.{AnswersFrame, Captured, CapturedInPart, CapturedSoFar, IsTextOf, acknowledgement, message_to, number_after, capture_after, capture_at_start, rejection_in, book_after};

use crate::position_lines::positions_text;
use gu_book::{Book, EnterError};
use gu_engine::{Answerer, ClockFault, Event, run};
use gu_fix::{Fields, Frame, encode_onto, fields_over};
use gu_msgs::inbound::TradeCaptureReport;
use gu_msgs::{
    Boxed, Draft, Fault, Inbound, OutboundRef, ReadMessage, Rejection, Stamp, answer_to,
    midnight_of, read_with_header, sender_in, write_over,
};
use gu_ref::Reference;
use gu_streams::{CountedReads, StreamError, send};
use gu_terms::{Command, Day, FirmId, Moment, OpenDay, Seed};
use std::alloc::{AllocError, Global};
use std::io::{Read, Write};
use std::marker::Model;

/// The last number that a message can have.
const LAST_NUMBER: u64 = 1_000_000_000;

/// Returns the report that a message is.
fn report_in(content: Result<Inbound, Fault>) -> Option<Boxed<TradeCaptureReport>>
    ensures { (fields : List TagValue) → MatchResult content (Says fields) (IsFaultOf fields) → MatchOption result
        ((report : ReportOf) → Says fields (inbound.TradeCaptureReport report) → ⊥)
        (λ report. Says fields (inbound.TradeCaptureReport report)) }
{
    match content {
        Ok(message) => message.into_report(),
        Err(_) => None,
    }
}

/// The state of the engine.
#[derive(Drop)]
pub struct Capturing {
    alloc: Global,
    book: Book,
    /// The fields of the last message; the next message's fields reuse their memory.
    fields: Fields,
    /// The buffer in which its messages are written, one after another.
    draft: Draft,
    /// When its messages are sent.
    sending_time: Stamp,
    /// The number of the next message.
    next: u64,
}

impl Model for Capturing {
    ghost use Rattle.std.specs.Prelude.{◌≤◌};
    ghost use Rattle.gu_capture.specs.Capture.{Capture};

    ghost Value = { Capture };

    ghost view = { λ c. record { book = c.book; sending_time = c.sending_time; next = c.next } };

    ghost invariant = { λ c. c.next ≤ 1000000000 };
}

impl Capturing {
    /// Enters a command, and returns why it isn't in the book, if it isn't.
    fn enter(&mut self, command: &Command) -> Result<Option<Rejection>, AllocError>
        ensures rejection { IfOk result (λ rejection. rejection ≡ rejection_in self.old.book command.now) }
        ensures after { OnOk result (self.new ≡ record self.old { book = book_after self.old.book command.now }) }

        // A full book is reported to the firm, and ends nothing.
        ensures full { 1000000 ≤ length self.old.book.history → IsOk result }
    {
        match self.book.reply_to(command) {
            Ok(reply) => Ok(Rejection::of_reply(reply)),
            Err(EnterError::Full) => Ok(Some(Rejection::Full)),
            Err(EnterError::Memory) => Err(AllocError),
        }
    }

    /// Appends the answer to a firm's report.
    fn answer_report(
        &mut self,
        firm: &FirmId,
        report: &TradeCaptureReport,
        rejection: Option<Rejection>,
        output: &mut Vec<u8>,
    ) -> Result<(), AllocError>
        ensures text { OnOk result ((text : List ℕ) × IsTextOf (message_to self.old firm.now report.now rejection) text
            × (output.new.items ≡ output.old.items ++ text)) }
        ensures after { OnOk result (self.new ≡ record self.old { next = number_after self.old.next }) }
    {
        let body = answer_to(report, rejection);
        let message = OutboundRef {
            firm: *firm,
            msg_seq_num: self.next,
            sending_time: self.sending_time.moment(),
            orig_sending_time: None,
            body: &body,
        };
        write_over(&mut self.draft, &message, &self.sending_time)?;
        encode_onto(output, self.draft.fields())?;
        self.next = (self.next + 1).min(LAST_NUMBER);
        Ok(())
    }

    /// Enters a firm's report, and appends its acknowledgement.
    fn acknowledge(
        &mut self,
        firm: &FirmId,
        report: &TradeCaptureReport,
        output: &mut Vec<u8>,
    ) -> Result<(), AllocError>
        ensures text { OnOk result ((text : List ℕ) × IsTextOf (acknowledgement self.old firm.now report.now) text
            × (output.new.items ≡ output.old.items ++ text)) }
        ensures after { OnOk result (self.new ≡ capture_after self.old (Command.ReportSide (side_of firm.now report.now))) }
    {
        let command = Command::ReportSide(report.side_of(*firm));
        match self.enter(&command) {
            Ok(rejection) => self.answer_report(firm, report, rejection, output),
            Err(refused) => Err(refused),
        }
    }
}

impl Capturing {
    /// Appends the answer to a frame: the acknowledgement of a firm's report, and nothing to anything else.
    fn answer_frame(&mut self, frame: Frame, output: &mut Vec<u8>) -> Result<(), AllocError>
        ensures { OnOk result ((text : List ℕ) × (output.new.items ≡ output.old.items ++ text)
            × AnswersFrame self.old frame text self.new) }
    {
        let fault = fields_over(self.alloc, &mut self.fields, frame)?;
        if fault.is_some() {
            return Ok(());
        }
        let ReadMessage { content, header } = read_with_header(self.alloc, &self.fields)?;
        let Some(report) = report_in(content) else {
            return Ok(());
        };
        match sender_in(&header) {
            Some(firm) => self.acknowledge(&firm, report.get(), output),
            None => Ok(()),
        }
    }
}

impl Answerer for Capturing {
    ghost use Rattle.gu_capture.specs.Capture.{capturing};

    ghost engine = { capturing };

    ghost parts_left = { λ capture. 0 };

    fn is_done(&self) -> bool {
        false
    }

    fn is_due(&self) -> bool {
        false
    }

    fn begin_turn(&mut self) -> Result<Moment, ClockFault> {
        Ok(self.sending_time.moment())
    }

    fn answer(
        &mut self,
        event: Event,
        _now: Moment,
        output: &mut Vec<u8>,
    ) -> Result<(), AllocError> {
        match event {
            Event::Frame(frame) => self.answer_frame(frame, output),
            Event::Silence | Event::More | Event::Over => Ok(()),
        }
    }
}

/// Returns the engine at its start: a book in which the day is open.
fn opened(
    alloc: Global,
    reference: Reference,
    day: Day,
    seed: Seed,
) -> Result<Capturing, AllocError>
    ensures { IfOk result (λ capturing. capturing ≡ capture_at_start reference day) }
{
    let mut book = Book::seeded(alloc, reference, seed);
    match book.enter(Command::OpenDay(OpenDay { day })) {
        Ok(_) => Ok(Capturing {
            alloc,
            book,
            fields: Fields::new(alloc),
            draft: Draft::new(alloc),
            sending_time: Stamp::new(midnight_of(day)),
            next: 1,
        }),
        Err(_) => Err(AllocError),
    }
}

/// Answers each sound report of a stream of messages on a book in which the day is open, and then writes the positions. The seed is
/// that of the book's tables of ids; nothing that is written depends on it.
pub fn capture<R: Read, W: Write>(
    alloc: Global,
    reference: Reference,
    day: Day,
    seed: Seed,
    reads: &mut CountedReads<R>,
    writer: &mut W,
) -> Result<(), StreamError>
    ensures done { OnOk result (Captured reference day (streams_of R.remaining W.contents reads.old reads.new writer.old writer.new)) }

    // If the reader failed, or no read was left, all that was read is answered, and exactly that was written.
    ensures stopped { IsErrOf result StreamError.Read → HasStopped reads.new }
    ensures answered { IsErrOf result StreamError.Read → CapturedSoFar reference day (streams_of R.remaining W.contents reads.old reads.new writer.old writer.new) }

    // In any case, including after an error.
    ensures part { CapturedInPart reference day (streams_of R.remaining W.contents reads.old reads.new writer.old writer.new) }
{
    let mut capturing = opened(alloc, reference, day, seed)?;
    run(alloc, reads, writer, &mut capturing)?;
    let lines = positions_text(alloc, &capturing.book)?;
    send(writer, &lines)
}
