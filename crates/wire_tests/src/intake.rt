//! What an intake gives, one message at a time.
use crate::feed::{GARBLED, INSIDE, OPEN, PIECES, given_by_pieces, stream_of};
use crate::messages::{SECOND, replaced, shown, wire};
use crate::rows::{Subject, check, number, parts_at};
use gu_fix::{Feed, Frame, Intake};
use std::alloc::{AllocError, Global};

/// Gives a piece to an intake, retrying once if memory is refused.
fn push(intake: &mut Intake, piece: &[u8]) -> Result<(), AllocError> {
    match intake.push(piece) {
        Ok(()) => Ok(()),
        Err(_) => intake.push(piece).map_err(|_| AllocError),
    }
}

/// Returns the next message of an intake, retrying once if memory is refused.
fn next_of(intake: &mut Intake) -> Result<Option<Frame>, AllocError> {
    match intake.next_frame() {
        Ok(next) => Ok(next),
        Err(_) => intake.next_frame().map_err(|_| AllocError),
    }
}

/// Appends the messages that are whole with a piece, and counts them.
fn take_piece(intake: &mut Intake, piece: &[u8], taken: &mut Vec<u8>) -> Result<usize, AllocError> {
    push(intake, piece)?;
    for count in 0..65_536 {
        let Some(frame) = next_of(intake)? else {
            return Ok(count);
        };
        taken.extend_from_slice(frame.bytes())?;
    }
    Ok(65_536)
}

/// Appends the messages of a stream in pieces of this many bytes, and counts them.
fn take_pieces(
    intake: &mut Intake,
    stream: &[u8],
    size: usize,
    taken: &mut Vec<u8>,
) -> Result<usize, AllocError> {
    let mut count: usize = 0;
    for piece in stream.chunks(size.max(1)) {
        count = count.saturating_add(take_piece(intake, piece, taken)?);
    }
    Ok(count)
}

/// Returns the messages that a new intake gives of a front and SECOND after it, which is called by this name.
pub fn told(alloc: Global, front: &str) -> Result<String, AllocError> {
    let stream = stream_of(alloc, front, SECOND)?;
    let mut taken = Vec::new(alloc);
    take_piece(&mut Intake::new(alloc), stream.as_bytes(), &mut taken)?;
    let text = shown(alloc, &taken)?;
    replaced(alloc, text.as_str(), SECOND, "SECOND")
}

#[test]
fn a_front_is_kept_while_a_message_may_follow_from_it_and_no_longer(rt: HostRuntime) {
    check(&rt, rt.alloc(), Subject::TakenAfter, OPEN);
    check(&rt, rt.alloc(), Subject::TakenAfter, GARBLED);
}

#[test]
fn a_message_inside_one_with_a_wrong_check_sum_is_found(rt: HostRuntime) {
    check(&rt, rt.alloc(), Subject::TakenAfter, INSIDE);
}

/// Reports how many messages an intake gives of a stream in pieces of this many bytes, and how many bytes they have.
fn tell_taken(
    alloc: Global,
    text: &mut String,
    intake: &mut Intake,
    stream: &[u8],
    size: usize,
) -> Result<(), AllocError> {
    let mut taken = Vec::new(alloc);
    let count = take_pieces(intake, stream, size, &mut taken)?;
    write!(text, "({count}, {})", taken.len())
}

/// Returns the same for a new intake and several sizes.
fn taken_by(alloc: Global, stream: &[u8], sizes: &str) -> Result<String, AllocError> {
    let mut text = String::new(alloc);
    let mut intake = Intake::new(alloc);
    for size in sizes.split(' ') {
        tell_taken(alloc, &mut text, &mut intake, stream, number(size) as usize)?;
    }
    Ok(text)
}

/// Returns the same for the stream and the sizes of a row.
pub fn pieces_told(alloc: Global, asked: &str) -> Result<String, AllocError> {
    let (stream, sizes) = parts_at(asked, " by ");
    let stream = wire(alloc, stream)?;
    taken_by(alloc, stream.as_bytes(), sizes)
}

#[test]
fn messages_of_65_536_bytes_and_thousands_in_a_row_are_taken(rt: HostRuntime) {
    check(&rt, rt.alloc(), Subject::TakenIn, PIECES);
}

/// Returns whether a new intake gives the messages of a stream in pieces of this many bytes that a new feed gives.
fn gives_alike(alloc: Global, stream: &[u8], size: usize) -> Result<bool, AllocError> {
    let given = given_by_pieces(alloc, &mut Feed::new(alloc), stream, size)?;
    let mut taken = Vec::new(alloc);
    take_pieces(&mut Intake::new(alloc), stream, size, &mut taken)?;
    Ok(taken.as_slice() == given.as_slice())
}

/// Returns the sizes of pieces up to that of the stream with which it doesn't.
fn unlike_sizes(alloc: Global, stream: &[u8]) -> Result<String, AllocError> {
    let mut text = String::new(alloc);
    for size in 1..=stream.len() {
        if !gives_alike(alloc, stream, size)? {
            write!(text, "{size} ")?;
        }
    }
    Ok(text)
}

/// Returns the same for the stream of a row.
pub fn unlike_told(alloc: Global, stream: &str) -> Result<String, AllocError> {
    let stream = wire(alloc, stream)?;
    unlike_sizes(alloc, stream.as_bytes())
}

/// Streams of messages one after another, between garbled bytes, and inside one another.
const STREAMS: &str = "\
{8=FIXT.1.1|9=5|35=0|10=241|*9}
x8=FIXT.1.1|9=5|35=0|10=241|8=8=FIXT.1.1|9=5|35=0|10=240|8888=FIXT.1.1|9=5|35=0|10=241|8=FIXT.1.1|9=
{8=FIXT.1.1|9=5|35=0|10=241|=|*6}8=FIXT.1.1|9=065510|8=FIXT.1.1|9=5|35=0|10=241|
8=FIXT.1.1|9=37|35=0|58=x|8=FIXT.1.1|9=5|35=0|10=241|10=113|8=FIXT.1.1|9=37|35=0|58=x|8=FIXT.1.1|9=5|35=0|10=241|10=112|
{8=FIXT.1.1|9=200|35=*9}{8=FIXT.1.1|9=5|35=0|10=241|*3}{x*200}8=FIXT.1.1|9=5|35=0|10=241|
";

#[test]
fn an_intake_gives_what_a_feed_gives_however_a_stream_is_cut(rt: HostRuntime) {
    check(&rt, rt.alloc(), Subject::Unlike, STREAMS);
}
