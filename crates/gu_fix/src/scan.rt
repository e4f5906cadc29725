//! Finding the frames in contiguous bytes.
ghost use Rattle.std.specs.Prelude.{◌≡◌, ◌<◌, ◌≤◌, IfOk, length, drop};
ghost use Rattle.gu_fix.specs.Stream.{AreFrames, GarbledBefore, IsGarbled, IsOpen, LeadsOn};
ghost use Rattle.gu_fix.specs.Scans.{ComesNext};

use crate::frame::Frame;
use crate::prefix::{Prefix, place_at};
use crate::window::Window;
use memchr::memchr;
use std::alloc::{AllocError, Global};

/// What comes next in a window.
#[derive(Clone, Copy)]
pub enum Next {
    /// A whole message, from the first position up to the second.
    Whole(usize, usize),
    /// A position at which a message may still begin.
    Open(usize),
}

/// Returns the next position after a garbled one at which a message may begin, or the end.
fn next_start(bytes: &[u8]) -> usize
    requires some { 0 < length bytes.now }
    requires garbled { IsGarbled bytes.now }
    ensures goes_on { 0 < result }
    ensures within { result ≤ length bytes.now }
    ensures garbled { GarbledBefore bytes.now result }
{
    match memchr(b'8', &bytes[1..]) {
        Some(index) => index + 1,
        None => bytes.len(),
    }
}

/// Returns what comes next in the window from a position on, skipping garbled bytes.
pub fn next_from(window: &mut Window, from: usize) -> Result<Next, AllocError>
    requires within { from ≤ length window.old }
    ensures next { IfOk result (λ next. ComesNext next window.old from) }
    ensures same { window.new ≡ window.old }
{
    let mut at = from;
    'places: loop {
        let rest = &window.bytes()[at..];
        match place_at(rest, window, at) {
            Prefix::Whole(len) => return Ok(Next::Whole(at, at + len)),
            Prefix::Open => return Ok(Next::Open(at)),
            Prefix::Garbled => {
                at += next_start(rest);
                window.keep_sums()?;
            }
        }
    }
}

/// Returns the frames of the window, and the number of bytes before the position that stays open.
pub fn scan(alloc: Global, window: &mut Window) -> Result<(Vec<Frame>, usize), AllocError>
    ensures within { IfOk result (λ r. r.1 ≤ length window.old) }
    ensures given { IfOk result (λ r. AreFrames window.old r.0.items) }
    ensures stays_open { IfOk result (λ r. IsOpen (drop r.1 window.old)) }
    ensures leads_on { IfOk result (λ r. LeadsOn window.old r.0.items (drop r.1 window.old)) }
    ensures same { window.new ≡ window.old }
{
    let mut frames = Vec::new(alloc);
    let mut at = 0;
    'messages: loop {
        let next = next_from(window, at)?;
        match next {
            Next::Whole(start, end) => {
                frames.push(Frame::new(alloc, &window.bytes()[start..end])?)?;
                at = end;
            }
            Next::Open(place) => return Ok((frames, place)),
        }
    }
}
