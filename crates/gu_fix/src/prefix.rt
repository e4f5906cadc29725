//! Whether a message begins at a position of a stream.
ghost use Rattle.std.specs.Prelude.{◌≡◌, ℕ, ◌+◌, ◌%◌, ◌<◌, ◌≤◌, length, drop, sum};
ghost use Rattle.gu_fix.specs.WholeMessage.{trailer_of};
ghost use Rattle.gu_fix.specs.Places.{Meets, ReadsLength, MeetsBody, StandsAs};

use crate::window::Window;

/// `8=FIXT.1.1`, SOH, `9=`.
pub const OPENING: &[u8] = b"8=FIXT.1.1\x019=";

/// The start of a body.
const TYPE_TAG: &[u8] = b"35=";

pub const SOH: u8 = 1;

/// The most bytes in a message.
pub const LONGEST: usize = 65_536;

/// The length of a message apart from its body and the digits of its length.
pub const FIXED_LENGTH: usize = 21;

/// The result of comparing bytes with a text that they should begin with.
#[derive(Clone, Copy)]
pub enum Meeting {
    /// The bytes begin with the text.
    Begins,
    /// The bytes are a proper prefix of the text.
    Within,
    /// The bytes differ from the text.
    Apart,
}

/// The result of reading the text of a message's length.
#[derive(Clone, Copy)]
pub enum LengthText {
    /// This many digits, with this value, and SOH.
    Read(usize, usize),
    /// A proper prefix of such a text.
    Open,
    /// Nothing that can be continued to one.
    Apart,
}

/// What is at a position of a stream.
#[derive(Clone, Copy)]
pub enum Prefix {
    /// A whole message of this many bytes.
    Whole(usize),
    /// Bytes that can be continued to a whole message.
    Open,
    /// Neither, whatever follows.
    Garbled,
}

/// Compares the bytes with the text.
pub fn meet(bytes: &[u8], text: &[u8]) -> Meeting
    ensures { Meets result bytes.now text.now }
{
    if bytes.starts_with(text) {
        Meeting::Begins
    } else if text.starts_with(bytes) {
        Meeting::Within
    } else {
        Meeting::Apart
    }
}

/// Returns the text of a message's length, read at the start.
pub fn read_length(bytes: &[u8]) -> LengthText
    ensures { ReadsLength result bytes.now }
{
    let mut value: usize = 0;
    for (count, byte) in bytes.iter().enumerate() {
        if *byte == SOH {
            return if 4 <= value && FIXED_LENGTH + count + value <= LONGEST {
                LengthText::Read(count, value)
            } else {
                LengthText::Apart
            };
        }
        if count == 7 || !byte.is_ascii_digit() {
            return LengthText::Apart;
        }
        value = 10 * value + usize::from(*byte - b'0');
    }
    if value < 4 {
        if bytes.len() < 7 {
            LengthText::Open
        } else {
            LengthText::Apart
        }
    } else if FIXED_LENGTH + bytes.len() + value <= LONGEST {
        LengthText::Open
    } else {
        LengthText::Apart
    }
}

/// Compares the bytes with a body of `len` bytes.
pub fn meet_body(bytes: &[u8], len: usize) -> Meeting
    requires { 4 ≤ len }
    ensures { MeetsBody result bytes.now len }
{
    match meet(bytes, TYPE_TAG) {
        Meeting::Begins => {
            if bytes.len() < len {
                Meeting::Within
            } else if bytes[len - 1] == SOH {
                Meeting::Begins
            } else {
                Meeting::Apart
            }
        }
        Meeting::Within => Meeting::Within,
        Meeting::Apart => Meeting::Apart,
    }
}

/// Returns the sum of the bytes, modulo 256.
pub fn checksum(bytes: &[u8]) -> u8
    ensures { result ≡ sum bytes.now % 256 }
{
    let mut total: u8 = 0;
    for byte in bytes {
        total = total.wrapping_add(*byte);
    }
    total
}

/// Returns the trailer with this checksum.
#[tactic(auto, unfolding(crate::specs::WholeMessage::trailer_of))]
pub fn trailer(checksum: u8) -> [u8; 7]
    ensures { result ≡ trailer_of checksum }
{
    [
        b'1',
        b'0',
        b'=',
        b'0' + checksum / 100,
        b'0' + checksum / 10 % 10,
        b'0' + checksum % 10,
        SOH,
    ]
}

/// Returns what is at the start of the bytes, which are those of the window from `place` on.
pub fn place_at(bytes: &[u8], window: &Window, place: usize) -> Prefix
    requires { bytes.now ≡ drop place window.now }
    ensures { StandsAs result bytes.now }
{
    match meet(bytes, OPENING) {
        Meeting::Begins => {}
        Meeting::Within => return Prefix::Open,
        Meeting::Apart => return Prefix::Garbled,
    }
    let (digits, len) = match read_length(&bytes[OPENING.len()..]) {
        LengthText::Read(digits, len) => (digits, len),
        LengthText::Open => return Prefix::Open,
        LengthText::Apart => return Prefix::Garbled,
    };
    let head = OPENING.len() + digits + 1;
    match meet_body(&bytes[head..], len) {
        Meeting::Begins => {}
        Meeting::Within => return Prefix::Open,
        Meeting::Apart => return Prefix::Garbled,
    }
    let end = head + len;
    match meet(&bytes[end..], &trailer(window.checksum(place, end))) {
        Meeting::Begins => Prefix::Whole(end + 7),
        Meeting::Within => Prefix::Open,
        Meeting::Apart => Prefix::Garbled,
    }
}
