//! A firm's connection line by line, on 2026-01-05. A line is one of these; `|` ends a field.
//!
//! - `clock 09:00:30.000`: the time of the reads that follow; at first it is nine
//! - `in T N fields`: a read of one message, of type T and number N, from the firm to the house
//! - `and T N fields`: a further message in the same read
//! - `raw text`: a read of these bytes
//! - `silence`: a turn in which the firm has nothing for now
//! - `out T N fields`: a message of type T and number N is sent to the firm at the time of the read
//! - `sent text`: these very bytes are sent
//!
//! Lengths and check sums are worked out here.

use crate::rows::{joined, meant};
use gu_terms::Moment;
use std::alloc::{AllocError, Global};

/// The name of the house in messages.
const HOUSE: &str = "GIVEUP";

/// What is read, piece by piece, at which moments, and what is to be written.
pub struct Talk {
    pub input: String,
    /// How long each piece is; None if there is nothing for now.
    pub lengths: Vec<Option<usize>>,
    pub moments: Vec<Moment>,
    pub output: String,
}

// By hand, so that who holds a connection's lines lets them go by one call.
impl Drop for Talk {
    fn drop(self) {
        let Talk {
            input,
            lengths,
            moments,
            output,
        } = self;
        drop(input);
        drop(lengths);
        drop(moments);
        drop(output);
    }
}

/// How many milliseconds each place of a time as `09:00:30.000` is worth.
const PLACES: [u64; 12] = [
    36_000_000, 3_600_000, 0, 600_000, 60_000, 0, 10_000, 1_000, 0, 100, 10, 1,
];

/// Returns the moment of a time of 2026-01-05.
fn moment_of(time: &str) -> Option<Moment> {
    let mut millis = 1_767_571_200_000_u64;
    for (byte, place) in time.bytes().zip(PLACES) {
        let digit = u64::from(byte.saturating_sub(b'0'));
        millis = millis.saturating_add(digit.saturating_mul(place));
    }
    Moment::new(millis)
}

/// Returns the sum of the bytes of a text on the wire.
fn check_sum(text: &str) -> u8 {
    let mut sum = 0_u8;
    for byte in text.bytes() {
        sum = sum.wrapping_add(if byte == b'|' { 1 } else { byte });
    }
    sum
}

/// Returns the message of a body.
fn framed(alloc: Global, body: &str) -> Result<String, AllocError> {
    let front = format!(in alloc; "8=FIXT.1.1|9={}|{body}", body.len())?;
    let sum = check_sum(&front);
    format!(in alloc; "{front}10={sum:03}|")
}

/// Returns the message of a line, from one side to the other, that is sent at this time.
fn message(
    alloc: Global,
    from: &str,
    to: &str,
    time: &str,
    text: &str,
) -> Result<String, AllocError> {
    let (kind, rest) = text.split_once(' ').unwrap_or((text, ""));
    let (number, fields) = rest.split_once(' ').unwrap_or((rest, ""));
    let parts = [
        "35=",
        kind,
        "|49=",
        from,
        "|56=",
        to,
        "|34=",
        number,
        "|52=20260105-",
        time,
        "|",
        fields,
    ];
    let body = joined(alloc, &parts)?;
    framed(alloc, &body)
}

/// Returns the text of a line on the wire.
fn text_of(
    alloc: Global,
    firm: &str,
    time: &str,
    word: &str,
    text: &str,
) -> Result<String, AllocError> {
    match word {
        "in" | "and" => message(alloc, firm, HOUSE, "09:00:00", text),
        "out" => message(alloc, HOUSE, firm, time, text),
        _ => String::from_str(alloc, text),
    }
}

impl Talk {
    /// Begins a further piece, of this length at this time.
    fn begin(&mut self, length: Option<usize>, time: &str) -> Result<(), AllocError> {
        self.lengths.push(length)?;
        if let Some(now) = moment_of(time) {
            self.moments.push(now)?;
        }
        Ok(())
    }

    /// Adds to the length of the last piece.
    fn lengthen(&mut self, length: usize) {
        if let Some(Some(last)) = self.lengths.last_mut() {
            *last = last.saturating_add(length);
        }
    }

    /// Takes the text of a line to what is read or written.
    fn take(&mut self, word: &str, text: &str, time: &str) -> Result<(), AllocError> {
        match word {
            "silence" => self.begin(None, time)?,
            "in" | "raw" => self.begin(Some(text.len()), time)?,
            "and" => self.lengthen(text.len()),
            _ => return self.output.push_str(text),
        }
        self.input.push_str(text)
    }

    /// Returns the connection of a firm that these lines say.
    pub fn of(alloc: Global, firm: &str, lines: &str) -> Result<Talk, AllocError> {
        let lines = meant(alloc, lines)?;
        let mut talk = Talk {
            input: String::new(alloc),
            lengths: Vec::new(alloc),
            moments: Vec::new(alloc),
            output: String::new(alloc),
        };
        let mut time = String::from_str(alloc, "09:00:00.000")?;
        for line in lines.lines() {
            let (word, text) = line.split_once(' ').unwrap_or((line, ""));
            if word == "clock" {
                time = String::from_str(alloc, text)?;
            } else {
                let text = text_of(alloc, firm, time.as_str(), word, text)?;
                talk.take(word, text.as_str(), time.as_str())?;
            }
        }
        Ok(talk)
    }

    /// Cuts the same into pieces of any length, all at nine.
    pub fn cut(&mut self) -> Result<(), AllocError> {
        self.lengths.clear();
        self.moments.clear();
        for _ in 0..1_000 {
            if let Some(now) = moment_of("09:00:00.000") {
                self.moments.push(now)?;
            }
        }
        Ok(())
    }
}
