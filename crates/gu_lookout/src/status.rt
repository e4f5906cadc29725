//! What STATUS shows of a desk that follows.

ghost use Rattle.std.specs.Prelude.{◌≡◌, ◌++◌, OnOk, codes};
ghost use Rattle.std.specs.Fmt.{decimal};
ghost use Rattle.gu_text.specs.Texts.{word};
ghost use Rattle.gu_console.specs.Status.{day_words, desk_words};
ghost use Rattle.gu_lookout.specs.Answers.{count_words, status_text};

use gu_book::Book;
use gu_terms::{Day, MOST_ENTRIES};
use gu_text::texts::{append_last_number, append_number, append_word};
use std::alloc::AllocError;

/// Appends a name and a number.
fn append_named(text: &mut Vec<u8>, name: &[u8], number: u64) -> Result<(), AllocError>
    ensures { OnOk result (text.new.items ≡ text.old.items ++ (word name.now ++ word (decimal number))) }
{
    append_word(text, name)?;
    append_number(text, number)
}

/// Appends the open day, or `-` before the first.
fn append_day(text: &mut Vec<u8>, day: Option<Day>) -> Result<(), AllocError>
    ensures { OnOk result (text.new.items ≡ text.old.items ++ day_words day) }
{
    append_word(text, b"DAY")?;
    match day {
        Some(day) => append_word(text, &day.text()),
        None => append_word(text, b"-"),
    }
}

/// Appends the first words of the status: which day is open, and how many entries there are.
fn append_desk(text: &mut Vec<u8>, day: Option<Day>, entries: u64) -> Result<(), AllocError>
    ensures { OnOk result (text.new.items ≡ text.old.items ++ desk_words (codes "FOLLOWING") day entries) }
{
    append_word(text, b"DESK")?;
    append_word(text, b"FOLLOWING")?;
    append_day(text, day)?;
    append_named(text, b"ENTRIES", entries)
}

/// Appends the last words of the status: how many entries there may be, how many lots were swept, and how many batches were played.
fn append_counts(text: &mut Vec<u8>, lots: u64, batches: u64) -> Result<(), AllocError>
    ensures { OnOk result (text.new.items ≡ text.old.items ++ count_words lots batches) }
{
    append_named(text, b"OF", MOST_ENTRIES as u64)?;
    append_named(text, b"SWEPT", lots)?;
    append_word(text, b"BATCHES")?;
    append_last_number(text, batches)
}

/// Appends the status of a desk that has played this number of batches, and that has this book.
pub(crate) fn append_status(book: &Book, batches: u64, text: &mut Vec<u8>) -> Result<(), AllocError>
    ensures { OnOk result (text.new.items ≡ text.old.items ++ status_text book.now.history batches) }
{
    append_desk(text, book.day(), book.history().len() as u64)?;
    append_counts(text, book.lots_swept(), batches)
}
