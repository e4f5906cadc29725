//! An answer as it comes.

use arrayvec::ArrayVec;

/// How many bytes of an answer's first line are kept.
const MOST_KEPT: usize = 32;

/// An answer as it comes. An empty line ends it, and isn't part of its text.
#[derive(Drop)]
pub(crate) struct SentAnswer {
    /// What has come of the first line, up to its LF, or its first bytes.
    first: ArrayVec<u8, MOST_KEPT>,
    /// Whether the first line has ended.
    has_first: bool,
    /// Whether the next byte begins a line.
    begins: bool,
    /// Whether the empty line has come.
    is_whole: bool,
}

/// Returns the bytes after the digits that a text begins with.
fn after_digits(text: &[u8]) -> &[u8] {
    let mut rest = text;
    'digits: while let [b'0'..=b'9', behind @ ..] = rest {
        rest = behind;
    }
    rest
}

/// Returns whether a line says that a command was refused: the number of its entry, and NO.
fn is_denial(line: &[u8]) -> bool {
    let rest = after_digits(line);
    rest.len() < line.len() && matches!(rest, [b' ', b'N', b'O', b' ', ..])
}

/// Returns whether a line says that nothing was done.
fn is_refusal(line: &[u8]) -> bool {
    match line {
        b"BAD LINE" | b"UNKNOWN" | b"UNKNOWN GROUP" | b"FULL" | b"MEMORY" => true,
        b"NOT LEADING" | b"STALE" => true,
        [b'S', b'T', b'A', b'L', b'E', b' ', ..] => true,
        _ => is_denial(line),
    }
}

impl SentAnswer {
    /// Creates an answer of which nothing has come.
    pub(crate) fn new() -> Self {
        SentAnswer {
            first: ArrayVec::new(),
            has_first: false,
            begins: true,
            is_whole: false,
        }
    }

    /// Returns whether all of it has come.
    pub(crate) fn is_whole(&self) -> bool {
        self.is_whole
    }

    /// Returns whether it says that nothing was done.
    pub(crate) fn is_refusal(&self) -> bool {
        is_refusal(self.first.as_slice())
    }

    /// Takes the next byte, and returns whether it is one of the text.
    fn take_byte(&mut self, byte: u8) -> bool {
        let ends = byte == b'\n';
        if ends && self.begins {
            self.is_whole = true;
            return false;
        }
        self.has_first = self.has_first || ends;
        if !self.has_first {
            let _ = self.first.try_push(byte);
        }
        self.begins = ends;
        true
    }

    /// Takes the next bytes, and returns those that are of its text: all of them, or those before the empty line.
    pub(crate) fn take<'p>(&mut self, piece: &'p [u8]) -> &'p [u8] {
        for place in 0..piece.len() {
            if !self.take_byte(piece[place]) {
                return &piece[..place];
            }
        }
        piece
    }
}
