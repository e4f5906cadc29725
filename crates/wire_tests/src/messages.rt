//! Messages that several subjects read, and the bytes and fields of texts. `|` ends a field.
use crate::rows::number;
use gu_fix::{Feed, Fields, Frame};
use std::alloc::{AllocError, Global};

/// A trade capture report of 141 bytes.
pub const FIRST: &str =
    "8=FIXT.1.1|9=117|35=AE|49=E1|56=GIVEUP|34=1|52=20260105-09:00:00|571=R1|880=M1|55=XF6|32=0010.0|31=101.50|75=20260105|552=1|54=1|1=H1|10=222|";

/// Its counterpart, of 136 bytes.
pub const SECOND: &str =
    "8=FIXT.1.1|9=112|35=AE|49=E2|56=GIVEUP|34=1|52=20260105-09:00:00|571=R2|880=M1|55=XF6|32=10|31=101.5|75=20260105|552=1|54=2|1=H2|10=239|";

/// Appends a part of a text: what is to be repeated this many times, and what comes after it.
fn push_part(meant: &mut String, part: &str) -> Result<(), AllocError> {
    let (unit, rest) = part.split_once('*').unwrap_or(("", part));
    let (times, end) = rest.split_once('}').unwrap_or(("", rest));
    for _ in 0..number(times) {
        meant.push_str(unit)?;
    }
    meant.push_str(end)
}

/// Returns a text in which each repeated part is written out.
pub fn meant(alloc: Global, text: &str) -> Result<String, AllocError> {
    let mut meant = String::new(alloc);
    for part in text.split('{') {
        push_part(&mut meant, part)?;
    }
    Ok(meant)
}

/// Returns bytes that are a text.
pub fn text_in(bytes: &[u8]) -> &str {
    str::from_utf8(bytes).unwrap_or("?")
}

/// Returns a text with another part wherever it has this one.
pub fn replaced(alloc: Global, text: &str, part: &str, by: &str) -> Result<String, AllocError> {
    text.replace(alloc, part, by)
}

/// Returns what a text is on the wire.
pub fn wire(alloc: Global, text: &str) -> Result<String, AllocError> {
    let text = meant(alloc, text)?;
    replaced(alloc, text.as_str(), "|", "\x01")
}

/// Returns what bytes on the wire are as a text: `|` ends a field, and a `|` on the wire is `!`.
pub fn shown(alloc: Global, bytes: &[u8]) -> Result<String, AllocError> {
    let text = replaced(alloc, text_in(bytes), "|", "!")?;
    replaced(alloc, text.as_str(), "\x01", "|")
}

/// Returns the last message that a feed gives with a piece.
fn last_with(feed: &mut Feed, piece: &[u8]) -> Result<Frame, AllocError> {
    let mut frames = feed.push(piece).map_err(|_| AllocError)?;
    frames.pop().ok_or(AllocError)
}

/// Returns the one message that a new feed gives of a text.
pub fn frame_in(alloc: Global, text: &str) -> Result<Frame, AllocError> {
    let bytes = wire(alloc, text)?;
    last_with(&mut Feed::new(alloc), bytes.as_bytes())
}

/// Appends the field of a part of a text, retrying once if memory is refused.
fn append(fields: &mut Fields, part: &str) -> Result<(), AllocError> {
    let Some((tag, value)) = part.split_once('=') else {
        return Ok(());
    };
    let tag = tag.parse().unwrap_or(0);
    match fields.push(tag, value.as_bytes()) {
        Ok(()) => Ok(()),
        Err(_) => fields.push(tag, value.as_bytes()),
    }
}

/// Returns the fields of a text.
pub fn fields_of(alloc: Global, text: &str) -> Result<Fields, AllocError> {
    let text = meant(alloc, text)?;
    let mut fields = Fields::new(alloc);
    for part in text.as_str().split('|') {
        append(&mut fields, part)?;
    }
    Ok(fields)
}

/// Returns fields as a text.
pub fn text_of(alloc: Global, fields: &Fields) -> Result<String, AllocError> {
    let mut text = String::new(alloc);
    for field in fields {
        write!(text, "{}={}|", field.tag, text_in(field.value))?;
    }
    Ok(text)
}
