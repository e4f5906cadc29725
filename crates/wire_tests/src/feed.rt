//! What a feed gives.
use crate::messages::{FIRST, SECOND, replaced, shown, wire};
use crate::rows::{Subject, check, number, parts_at};
use gu_fix::{Feed, Frame};
use std::alloc::{AllocError, Global};

/// Returns the messages that a feed gives with a piece, retrying once if memory is refused.
fn pushed(feed: &mut Feed, piece: &[u8]) -> Result<Vec<Frame>, AllocError> {
    match feed.push(piece) {
        Ok(frames) => Ok(frames),
        Err(_) => feed.push(piece).map_err(|_| AllocError),
    }
}

/// Returns the bytes of messages, one after another.
fn joined(alloc: Global, frames: &[Frame]) -> Result<Vec<u8>, AllocError> {
    let mut bytes = Vec::new(alloc);
    for frame in frames {
        bytes.extend_from_slice(frame.bytes())?;
    }
    Ok(bytes)
}

/// Returns the bytes of the messages that a feed gives of a stream in pieces of this many bytes, one after another.
pub fn given_by_pieces(
    alloc: Global,
    feed: &mut Feed,
    stream: &[u8],
    size: usize,
) -> Result<Vec<u8>, AllocError> {
    let mut given = Vec::new(alloc);
    for piece in stream.chunks(size.max(1)) {
        given.extend_from_slice(&given_of(alloc, feed, piece)?)?;
    }
    Ok(given)
}

/// Returns the bytes of the messages that a feed gives of a stream, one after another.
fn given_of(alloc: Global, feed: &mut Feed, stream: &[u8]) -> Result<Vec<u8>, AllocError> {
    let frames = pushed(feed, stream)?;
    joined(alloc, &frames)
}

/// Returns two texts one after another, on the wire.
pub fn stream_of(alloc: Global, first: &str, second: &str) -> Result<String, AllocError> {
    let text = format!(in alloc; "{first}{second}")?;
    wire(alloc, text.as_str())
}

/// Returns the messages that a new feed gives of a front and SECOND after it, which is called by this name.
pub fn told(alloc: Global, front: &str) -> Result<String, AllocError> {
    let stream = stream_of(alloc, front, SECOND)?;
    let given = given_of(alloc, &mut Feed::new(alloc), stream.as_bytes())?;
    let text = shown(alloc, &given)?;
    replaced(alloc, text.as_str(), SECOND, "SECOND")
}

/// Fronts that a message may follow from.
pub const OPEN: &str = "\
8=FIXT.1.1|9=65510|35=
8=FIXT.1.1|9=0000200|35=0|
8=FIXT.1.1|9=200|35=0|
";

/// Fronts whose last byte fits no message.
pub const GARBLED: &str = "\
8=FIXT.1.1|9=5| -> SECOND
 -> SECOND
8=FIXT.1.1|9=65511 -> SECOND
8=FIXT.1.1|9=065510 -> SECOND
8=FIXT.1.1|9=65510|34= -> SECOND
8=FIXT.1.1|9=0000000 -> SECOND
8=FIXT.1.1|9=00000100 -> SECOND
8=FIXT.1.1|9=| -> SECOND
8=FIXT.1.1|9=3| -> SECOND
8=FIXT.1.1|9=5|35=0. -> SECOND
8=FIXT.1.1|9=5|35=0|10=24| -> SECOND
8=FIXT.1.1|9=5|35=0|10=240 -> SECOND
8=FIX.4.4|9=5|35=0|10=163| -> SECOND
8=8=FIXT.1 -> SECOND
8888888888888888 -> SECOND
\0\u{7f}|=|10=000| -> SECOND
";

#[test]
fn a_front_is_kept_while_a_message_may_follow_from_it_and_no_longer(rt: HostRuntime) {
    check(&rt, rt.alloc(), Subject::Fronts, OPEN);
    check(&rt, rt.alloc(), Subject::Fronts, GARBLED);
}

/// A message whose text holds another, with a sound CheckSum and with a wrong one.
pub const INSIDE: &str = "\
8=FIXT.1.1|9=37|35=0|58=x|8=FIXT.1.1|9=5|35=0|10=241|10=112| -> 8=FIXT.1.1|9=37|35=0|58=x|8=FIXT.1.1|9=5|35=0|10=241|10=112|SECOND
8=FIXT.1.1|9=37|35=0|58=x|8=FIXT.1.1|9=5|35=0|10=241|10=113| -> 8=FIXT.1.1|9=5|35=0|10=241|SECOND
";

#[test]
fn a_message_inside_one_with_a_wrong_check_sum_is_found(rt: HostRuntime) {
    check(&rt, rt.alloc(), Subject::Fronts, INSIDE);
}

/// Returns how many bytes messages have.
fn bytes_in(frames: &[Frame]) -> usize {
    let mut bytes: usize = 0;
    for frame in frames {
        bytes = bytes.saturating_add(frame.bytes().len());
    }
    bytes
}

/// Returns how many messages a feed gives of a stream in pieces of this many bytes, and how many bytes they have.
fn given_in(feed: &mut Feed, stream: &[u8], size: usize) -> Result<(usize, usize), AllocError> {
    let mut count: usize = 0;
    let mut bytes: usize = 0;
    for piece in stream.chunks(size.max(1)) {
        let frames = pushed(feed, piece)?;
        count = count.saturating_add(frames.len());
        bytes = bytes.saturating_add(bytes_in(&frames));
    }
    Ok((count, bytes))
}

/// Appends the same for several sizes.
fn tell_given(
    text: &mut String,
    feed: &mut Feed,
    stream: &[u8],
    sizes: &str,
) -> Result<(), AllocError> {
    for size in sizes.split(' ') {
        let given = given_in(feed, stream, number(size) as usize)?;
        write!(text, "{given:?}")?;
    }
    Ok(())
}

/// Returns the same for a new feed, as a text.
fn given_by(alloc: Global, stream: &[u8], sizes: &str) -> Result<String, AllocError> {
    let mut text = String::new(alloc);
    tell_given(&mut text, &mut Feed::new(alloc), stream, sizes)?;
    Ok(text)
}

/// Returns the same for the stream and the sizes of a row.
pub fn pieces_told(alloc: Global, asked: &str) -> Result<String, AllocError> {
    let (stream, sizes) = parts_at(asked, " by ");
    let stream = wire(alloc, stream)?;
    given_by(alloc, stream.as_bytes(), sizes)
}

/// Streams and the sizes of their pieces: how many messages are given each time, and how many bytes they have. Pieces of 9
/// bytes are kept twice before a message is whole. After thousands of openings, one inside another, a message is found
/// when the length that they say has come.
pub const PIECES: &str = "\
{8=FIXT.1.1|9=5|35=0|10=241|*20} by 9 -> (20, 540)
8=FIXT.1.1|9=65510|35=0|58={x*65501}|10=000| by 65536 4096 65535 1000 -> (1, 65536)(1, 65536)(1, 65536)(1, 65536)
{8=FIXT.1.1|9=47|35=0|49=E1|56=GIVEUP|34=2|52=20260105-09:00:00|10=151|*5000} by 70 4096 350000 -> (5000, 350000)(5000, 350000)(5000, 350000)
{8=FIXT.1.1|9=65510|35=*4000}8=FIXT.1.1|9=5|35=0|10=241| by 4096 -> (0, 0)
{8=FIXT.1.1|9=65510|35=*4000}8=FIXT.1.1|9=5|35=0|10=241|{x*65536} by 4096 -> (1, 27)
";

#[test]
fn messages_of_65_536_bytes_and_thousands_in_a_row_are_taken(rt: HostRuntime) {
    check(&rt, rt.alloc(), Subject::Pieces, PIECES);
}

/// A change to a stream at a place.
#[derive(Clone, Copy)]
pub enum Change {
    /// It comes in two pieces, of which the second begins there.
    Cut,
    /// The byte there is one higher.
    Raise,
}

/// Returns how many messages a feed gives with a piece.
fn count_with(feed: &mut Feed, piece: &[u8]) -> Result<usize, AllocError> {
    Ok(pushed(feed, piece)?.len())
}

/// Returns how many messages a feed gives with a piece, and with the next.
fn counts_of(feed: &mut Feed, front: &[u8], rest: &[u8]) -> Result<(usize, usize), AllocError> {
    let before = count_with(feed, front)?;
    Ok((before, count_with(feed, rest)?))
}

/// Returns how many messages a new feed gives of a stream up to a cut, and after it.
fn counts_at(alloc: Global, stream: &[u8], cut: usize) -> Result<(usize, usize), AllocError> {
    let (front, rest) = stream.split_at(cut.min(stream.len()));
    counts_of(&mut Feed::new(alloc), front, rest)
}

/// Returns the messages that a new feed gives of a stream whose byte at a place is one higher, called by their names.
fn left_with(alloc: Global, stream: &[u8], place: usize) -> Result<String, AllocError> {
    let mut bytes = Vec::from_slice(alloc, stream)?;
    if let Some(byte) = bytes.get_mut(place) {
        *byte = byte.wrapping_add(1);
    }
    let given = given_of(alloc, &mut Feed::new(alloc), &bytes)?;
    let text = shown(alloc, &given)?;
    let text = replaced(alloc, text.as_str(), FIRST, "FIRST ")?;
    replaced(alloc, text.as_str(), SECOND, "SECOND ")
}

/// Returns what a new feed gives of a stream that is changed at a place.
fn told_at(
    alloc: Global,
    stream: &[u8],
    change: Change,
    place: usize,
) -> Result<String, AllocError> {
    match change {
        Change::Cut => {
            let counts = counts_at(alloc, stream, place)?;
            format!(in alloc; "{counts:?} ")
        }
        Change::Raise => left_with(alloc, stream, place),
    }
}

/// Returns, for each place of the change, what a new feed gives, unless it is the same as for the place before.
fn places_in(alloc: Global, stream: &[u8], change: Change) -> Result<String, AllocError> {
    let mut text = String::new(alloc);
    let mut last = String::new(alloc);
    for place in 0..278 {
        let told = told_at(alloc, stream, change, place)?;
        if told.as_str() != last.as_str() {
            write!(text, "{place}: {told}")?;
            last = told;
        }
    }
    Ok(text)
}

/// Returns the same for FIRST and SECOND.
pub fn places_told(alloc: Global, change: Change) -> Result<String, AllocError> {
    let stream = stream_of(alloc, FIRST, SECOND)?;
    places_in(alloc, stream.as_bytes(), change)
}

#[test]
fn a_message_is_given_once_its_last_byte_has_come_and_only_as_it_is(rt: HostRuntime) {
    let cut = " -> 0: (0, 2) 141: (1, 1) 277: (2, 0) ";
    check(&rt, rt.alloc(), Subject::Places(Change::Cut), cut);
    let raised = " -> 0: SECOND 141: FIRST 277: FIRST SECOND ";
    check(&rt, rt.alloc(), Subject::Places(Change::Raise), raised);
}
