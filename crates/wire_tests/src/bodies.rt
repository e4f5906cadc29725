//! Whole messages from their bodies, and from what a line of a conversation says. `|` ends a field.
use crate::messages::meant;
use crate::rows::first_word;
use std::alloc::{AllocError, Global};

/// Returns the sum of the bytes of a text on the wire, modulo 256.
fn sum_of(text: &str) -> u32 {
    let mut sum: u32 = 0;
    for byte in text.as_bytes() {
        let byte = if *byte == b'|' { 1 } else { *byte };
        sum = sum.wrapping_add(u32::from(byte)) % 256;
    }
    sum
}

/// Returns the whole message with this body.
pub fn message_of(alloc: Global, body: &str) -> Result<String, AllocError> {
    let body = meant(alloc, body)?;
    let front = format!(in alloc; "8=FIXT.1.1|9={}|", body.len())?;
    let sum = sum_of(front.as_str()).wrapping_add(sum_of(body.as_str())) % 256;
    format!(in alloc; "{front}{body}10={sum:03}|")
}

/// Returns the message of a type, a number and fields, between these parties at a time.
pub fn message_at(
    alloc: Global,
    parties: &str,
    time: &str,
    text: &str,
) -> Result<String, AllocError> {
    let (kind, rest) = first_word(text);
    let (number, fields) = first_word(rest);
    let body = format!(in alloc; "35={kind}|{parties}|34={number}|52=20260105-{time}|{fields}")?;
    message_of(alloc, body.as_str())
}
