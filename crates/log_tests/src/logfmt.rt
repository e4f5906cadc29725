//! A reader of the log's lines: a moment, a name, and fields.

use gu_log::{Beginning, Event, append_beginning, append_line};
use gu_terms::Moment;
use std::alloc::{AllocError, Global};
use std::process::Abort;

/// A key and its value.
#[derive(Drop)]
pub struct Field {
    pub key: Vec<u8>,
    pub value: Vec<u8>,
}

/// A line, read.
pub struct Row {
    pub moment: Vec<u8>,
    pub name: Vec<u8>,
    pub fields: Vec<Field>,
}

// By hand, so that each exit of a caller drops a row by one call.
impl Drop for Row {
    fn drop(self) {
        let Row {
            moment,
            name,
            fields,
        } = self;
        drop(moment);
        drop(name);
        drop(fields);
    }
}

/// The position of a reader within a line.
#[derive(Clone, Copy, PartialEq, Eq)]
enum At {
    Moment,
    Name,
    Key,
    /// Before a value.
    Value,
    /// In a value without quotes.
    Plain,
    /// Between quotes.
    Quoted,
    /// After `\`.
    Escape,
    /// After `\x`.
    High,
    /// After `\x` and a digit.
    Low(u8),
    /// After the second quote.
    Closed,
    /// After the LF.
    End,
}

/// A line that is being read.
struct Reading {
    alloc: Global,
    row: Row,
    key: Vec<u8>,
    value: Vec<u8>,
    at: At,
}

/// Returns the number that a digit of the base 16 writes.
fn hex_value(digit: u8) -> Option<u8> {
    match digit {
        b'0'..=b'9' => Some(digit - b'0'),
        b'A'..=b'F' => Some(digit - b'A' + 10),
        _ => None,
    }
}

impl Reading {
    /// Creates a reader at the beginning of a line.
    fn new(alloc: Global) -> Self {
        let row = Row {
            moment: Vec::new(alloc),
            name: Vec::new(alloc),
            fields: Vec::new(alloc),
        };
        Reading {
            alloc,
            row,
            key: Vec::new(alloc),
            value: Vec::new(alloc),
            at: At::Moment,
        }
    }

    /// Ends the field, if one is being read.
    fn end_field(&mut self) -> Result<(), AllocError> {
        if self.key.is_empty() {
            return Ok(());
        }
        let key = Vec::from_slice(self.alloc, &self.key)?;
        let value = Vec::from_slice(self.alloc, &self.value)?;
        self.row.fields.push(Field { key, value })?;
        self.key.clear();
        self.value.clear();
        Ok(())
    }

    /// Takes a byte of the moment or of the name, and returns whether it may be there.
    fn take_word(&mut self, byte: u8) -> Result<bool, AllocError> {
        let is_moment = self.at == At::Moment;
        match byte {
            b' ' => self.at = if is_moment { At::Name } else { At::Key },
            b'\n' if !is_moment => self.at = At::End,
            b'\n' | b'=' | b'"' => return Ok(false),
            _ if is_moment => self.row.moment.push(byte)?,
            _ => self.row.name.push(byte)?,
        }
        Ok(true)
    }

    /// Takes a byte of a key, and returns whether it may be there.
    fn take_key(&mut self, byte: u8) -> Result<bool, AllocError> {
        match byte {
            b'=' => self.at = At::Value,
            b'a'..=b'z' => self.key.push(byte)?,
            _ => return Ok(false),
        }
        Ok(true)
    }

    /// Takes a byte of a value without quotes, or the first byte of a value, and returns whether it may be there.
    fn take_plain(&mut self, byte: u8) -> Result<bool, AllocError> {
        let is_first = self.at == At::Value;
        match byte {
            b'"' if is_first => self.at = At::Quoted,
            b' ' | b'\n' if !is_first => return self.take_end(byte),
            b'!'..=b'~' if byte != b'"' && byte != b'=' && byte != b'\\' => {
                self.at = At::Plain;
                self.value.push(byte)?;
            }
            _ => return Ok(false),
        }
        Ok(true)
    }

    /// Takes the byte after a value, and returns whether it may be there.
    fn take_end(&mut self, byte: u8) -> Result<bool, AllocError> {
        match byte {
            b' ' => self.at = At::Key,
            b'\n' => self.at = At::End,
            _ => return Ok(false),
        }
        self.end_field()?;
        Ok(true)
    }

    /// Takes a byte between quotes, and returns whether it may be there.
    fn take_quoted(&mut self, byte: u8) -> Result<bool, AllocError> {
        match byte {
            b'"' => self.at = At::Closed,
            b'\\' => self.at = At::Escape,
            b' '..=b'~' => self.value.push(byte)?,
            _ => return Ok(false),
        }
        Ok(true)
    }

    /// Takes a byte after `\`, and returns whether it may be there.
    fn take_escape(&mut self, byte: u8) -> Result<bool, AllocError> {
        match byte {
            b'"' | b'\\' => {
                self.value.push(byte)?;
                self.at = At::Quoted;
            }
            b'x' => self.at = At::High,
            _ => return Ok(false),
        }
        Ok(true)
    }

    /// Takes a digit after `\x`, which follows this one if there was one, and returns whether it may be there.
    fn take_digit(&mut self, high: Option<u8>, byte: u8) -> Result<bool, AllocError> {
        let Some(digit) = hex_value(byte) else {
            return Ok(false);
        };
        match high {
            None => self.at = At::Low(digit),
            Some(high) => {
                self.value.push(high.wrapping_mul(16) | digit)?;
                self.at = At::Quoted;
            }
        }
        Ok(true)
    }

    /// Takes a byte, and returns whether a line may have it there.
    fn take(&mut self, byte: u8) -> Result<bool, AllocError> {
        match self.at {
            At::Moment | At::Name => self.take_word(byte),
            At::Key => self.take_key(byte),
            At::Value | At::Plain => self.take_plain(byte),
            At::Quoted => self.take_quoted(byte),
            At::Escape => self.take_escape(byte),
            At::High => self.take_digit(None, byte),
            At::Low(high) => self.take_digit(Some(high), byte),
            At::Closed => self.take_end(byte),
            At::End => Ok(false),
        }
    }

    /// Takes a line with its LF, and returns whether it is one.
    fn take_all(&mut self, line: &[u8]) -> Result<bool, AllocError> {
        for byte in line {
            if !self.take(*byte)? {
                return Ok(false);
            }
        }
        Ok(self.at == At::End)
    }

    /// Returns what was read.
    fn into_row(self) -> Row {
        let Reading {
            alloc: _,
            row,
            key,
            value,
            at: _,
        } = self;
        drop(key);
        drop(value);
        row
    }
}

/// Reads a line with its LF. None if it is none.
pub fn read(alloc: Global, line: &[u8]) -> Result<Option<Row>, AllocError> {
    let mut reading = Reading::new(alloc);
    let is_line = reading.take_all(line);
    let row = reading.into_row();
    Ok(is_line?.then_some(row))
}

/// What has a line.
pub trait HasLine {
    /// Appends the line.
    fn append(&self, line: &mut Vec<u8>, moment: Moment) -> Result<(), AllocError>;
}

impl HasLine for Event {
    fn append(&self, line: &mut Vec<u8>, moment: Moment) -> Result<(), AllocError> {
        append_line(line, moment, self)
    }
}

impl HasLine for Beginning<'_> {
    fn append(&self, line: &mut Vec<u8>, moment: Moment) -> Result<(), AllocError> {
        append_beginning(line, moment, self)
    }
}

/// Returns the line of what happened, two seconds and a millisecond after nine.
pub fn line_of<H: HasLine>(alloc: Global, happened: &H) -> Result<Vec<u8>, AllocError> {
    let mut line = Vec::new(alloc);
    let moment = Moment::new(1_767_603_602_001);
    if let Some(moment) = moment {
        happened.append(&mut line, moment)?;
    }
    Ok(line)
}

/// Asserts that a line is read as this name and these fields.
pub fn check_row(
    rt: &impl Abort,
    alloc: Global,
    line: &[u8],
    name: &str,
    fields: &[(&str, &[u8])],
) {
    let row = read(alloc, line).expect(rt, "memory").expect(rt, "a line");
    assert!(rt; row.moment.as_slice() == b"20260105-09:00:02.001".as_slice());
    assert!(rt; row.name.as_slice() == name.as_bytes());
    assert_eq!(rt; row.fields.len(), fields.len(), "{name}");
    for (field, (key, value)) in row.fields.iter().zip(fields) {
        assert!(rt; field.key.as_slice() == key.as_bytes(), "{name} {key}");
        assert!(rt; field.value.as_slice() == *value, "{name} {key}");
    }
}

/// Asserts that the line of what happened is this text after the moment, and is read as its name and these fields.
pub fn check<H: HasLine>(
    rt: &(impl Abort + AllocGlobal),
    happened: &H,
    text: &str,
    fields: &[(&str, &[u8])],
) {
    let alloc = rt.alloc();
    let line = line_of(alloc, happened).expect(rt, "memory");
    let want = format!(in alloc; "20260105-09:00:02.001 {text}\n").expect(rt, "memory");
    assert!(rt; line.as_slice() == want.as_bytes(), "{text}");
    let name = text.split(' ').next().expect(rt, "a name");
    check_row(rt, alloc, &line, name, fields);
}

/// Returns the fields that a text says after its name, as it has them.
fn fields_in(alloc: Global, text: &str) -> Result<Vec<(&str, &[u8])>, AllocError> {
    let mut fields = Vec::new(alloc);
    for field in text.split(' ').skip(1) {
        let (key, value) = field.split_once('=').unwrap_or((field, ""));
        fields.push((key, value.as_bytes()))?;
    }
    Ok(fields)
}

/// Asserts that the line of what happened is this text after the moment, no value of which needs quotes, and is read as the name and the
/// fields that the text has.
pub fn check_plain<H: HasLine>(rt: &(impl Abort + AllocGlobal), happened: &H, text: &str) {
    let fields = fields_in(rt.alloc(), text).expect(rt, "memory");
    check(rt, happened, text, &fields);
}
