//! The fields of a line: keys and values.

ghost use Rattle.std.specs.Prelude.{◌<◌};
ghost use Rattle.gu_log.specs.Lines.{Continues, IsShown};

use gu_terms::FirmId;
use itoa::Buffer;
use std::alloc::AllocError;

/// The most bytes of a value that are written between its quotes.
const LONGEST_VALUE: usize = 1_024;

/// The end of a value that was cut short.
const CUT: &[u8] = b"..";

/// Returns whether a byte of a value is written as it is, without quotes about the value.
fn is_plain(byte: u8) -> bool {
    byte > b' ' && byte <= b'~' && byte != b'"' && byte != b'=' && byte != b'\\'
}

/// Returns whether a text is written as it is, without quotes.
fn is_plain_text(text: &[u8]) -> bool {
    !text.is_empty() && text.len() <= LONGEST_VALUE && text.iter().all(|byte| is_plain(*byte))
}

/// Returns the digit of a number below 16.
fn hex_digit(number: u8) -> u8
    requires { number < 16 }
    ensures { IsShown result }
{
    if number < 10 {
        b'0' + number
    } else {
        b'A' + (number - 10)
    }
}

/// Appends a byte that a line may have, and `?` instead of any other.
fn push_shown(line: &mut Vec<u8>, byte: u8) -> Result<(), AllocError>
    ensures { Continues line.old.items line.new.items }
{
    let shown = match byte {
        b' '..=b'~' => byte,
        _ => b'?',
    };
    line.push(shown)?;
    Ok(())
}

/// Appends bytes, each as it may appear in a line.
pub(crate) fn append_shown(line: &mut Vec<u8>, text: &[u8]) -> Result<(), AllocError>
    ensures { Continues line.old.items line.new.items }
{
    for byte in text {
        push_shown(line, *byte)?;
    }
    Ok(())
}

/// Returns how many bytes a byte is written by, between quotes.
fn written_len(byte: u8) -> usize {
    match byte {
        b'"' | b'\\' => 2,
        b' '..=b'~' => 1,
        _ => 4,
    }
}

/// Appends a byte, as it is written between quotes.
fn append_escaped(line: &mut Vec<u8>, byte: u8) -> Result<(), AllocError>
    ensures { Continues line.old.items line.new.items }
{
    match byte {
        b'"' | b'\\' => append_shown(line, &[b'\\', byte]),
        b' '..=b'~' => push_shown(line, byte),
        _ => append_shown(
            line,
            &[b'\\', b'x', hex_digit(byte / 16), hex_digit(byte % 16)],
        ),
    }
}

/// Appends a text as it is written between quotes, cut short if it is too long.
fn append_all_escaped(line: &mut Vec<u8>, text: &[u8]) -> Result<(), AllocError>
    ensures { Continues line.old.items line.new.items }
{
    let mut room = LONGEST_VALUE;
    for byte in text {
        let len = written_len(*byte);
        if len > room {
            return append_shown(line, CUT);
        }
        room -= len;
        append_escaped(line, *byte)?;
    }
    Ok(())
}

/// Appends a value, with quotes unless it is plain.
fn append_value(line: &mut Vec<u8>, text: &[u8]) -> Result<(), AllocError>
    ensures { Continues line.old.items line.new.items }
{
    if is_plain_text(text) {
        return append_shown(line, text);
    }
    append_shown(line, b"\"")?;
    append_all_escaped(line, text)?;
    append_shown(line, b"\"")
}

/// Appends a blank, a key and `=`.
fn append_key(line: &mut Vec<u8>, key: &str) -> Result<(), AllocError>
    ensures { Continues line.old.items line.new.items }
{
    append_shown(line, b" ")?;
    append_shown(line, key.as_bytes())?;
    append_shown(line, b"=")
}

/// Appends a key with a text, which may have any bytes.
pub(crate) fn append_text(line: &mut Vec<u8>, key: &str, text: &[u8]) -> Result<(), AllocError>
    ensures { Continues line.old.items line.new.items }
{
    append_key(line, key)?;
    append_value(line, text)
}

/// Appends a key with a number.
pub(crate) fn append_number(line: &mut Vec<u8>, key: &str, number: u64) -> Result<(), AllocError>
    ensures { Continues line.old.items line.new.items }
{
    append_key(line, key)?;
    let mut digits = Buffer::new();
    append_shown(line, digits.format(number).as_bytes())
}

/// Appends a key with a number, if there is one.
pub(crate) fn append_number_if(
    line: &mut Vec<u8>,
    key: &str,
    number: Option<u64>,
) -> Result<(), AllocError>
    ensures { Continues line.old.items line.new.items }
{
    match number {
        Some(number) => append_number(line, key, number),
        None => Ok(()),
    }
}

/// Appends a firm, if there is one.
pub(crate) fn append_firm_if(line: &mut Vec<u8>, firm: &Option<FirmId>) -> Result<(), AllocError>
    ensures { Continues line.old.items line.new.items }
{
    match firm {
        Some(firm) => append_text(line, "firm", firm.get()),
        None => Ok(()),
    }
}
