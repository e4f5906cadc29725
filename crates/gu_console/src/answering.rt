//! Answers to what asks for one command or one question.

ghost use Rattle.std.specs.Prelude.{◌≡◌, [], OnOk};
ghost use Rattle.gu_console.specs.Answers.{AnswersCommand, GoesOnFrom, IsTold, left_out_text, memory_text};

use crate::book_asked::BookAsked;
use crate::console::Console;
use crate::office::Office;
use crate::request::BookQuestion;
use gu_book::EnterError;
use gu_desk::{Entered, EntryLedger, LotLedger};
use gu_houses::{Informs, SeatReceipts};
use gu_terms::Command;
use gu_text::append_reply;
use gu_text::texts::append_last_word;
use std::alloc::AllocError;
use std::mem::swap;
use std::sync::Wait;

/// Says that memory failed, in a text without bytes.
pub(crate) fn say_memory(text: &mut Vec<u8>) -> Result<(), AllocError>
    requires { text.old.items ≡ [] }
    ensures { OnOk result (text.new.items ≡ memory_text) }
{
    append_last_word(text, b"MEMORY")
}

/// Says why a command isn't entered, in a text without bytes.
fn say_left_out(text: &mut Vec<u8>, why: EnterError) -> Result<(), AllocError>
    requires { text.old.items ≡ [] }
    ensures { OnOk result (text.new.items ≡ left_out_text why) }
{
    match why {
        EnterError::Full => append_last_word(text, b"FULL"),
        EnterError::Memory => say_memory(text),
    }
}

/// Enters a command from a seat, and writes its reply to an empty text. Others are informed of the entry.
pub(crate) fn enter<E: EntryLedger, S: LotLedger, R: Wait, O: Office, I: Informs>(
    console: &Console<'_, E, S, R, O, I>,
    seat: &mut SeatReceipts<E, S>,
    command: Command,
    text: &mut Vec<u8>,
) -> Result<(), AllocError>
    requires { text.old.items ≡ [] }
    ensures answered { OnOk result (AnswersCommand E.reference seat.old command text.new.items seat.new) }
    ensures goes_on { GoesOnFrom seat.old seat.new }
{
    match seat.enter(&console.tools.access, command, None) {
        Ok(entered) => {
            let Entered {
                number,
                reply,
                informs,
                stretch: _,
            } = entered;
            console.tools.tally.add_entry();
            let origin = console.origin();
            console.tools.informs.inform(number, informs, origin);
            append_reply(text, number, &reply)
        }
        Err(why) => say_left_out(text, why),
    }
}

/// Answers a question, in a text without bytes.
pub(crate) fn ask<E: EntryLedger, S: LotLedger, R: Wait, O: Office, I: Informs>(
    console: &Console<'_, E, S, R, O, I>,
    seat: &mut SeatReceipts<E, S>,
    question: BookQuestion,
    text: &mut Vec<u8>,
) -> Result<(), AllocError>
    requires { text.old.items ≡ [] }
    ensures answered { OnOk result (IsTold E.reference seat.old question text.new.items seat.new) }
    ensures goes_on { GoesOnFrom seat.old seat.new }
{
    let mut asked = BookAsked::new(console.alloc, question);
    match seat.put(&console.tools.access, &mut asked) {
        Ok(()) => {
            swap(text, &mut asked.text);
            Ok(())
        }
        Err(AllocError) => say_memory(text),
    }
}
