//! The words of a line.

/// Returns a word of a line, or nothing after its last.
pub fn word(line: &str, place: usize) -> &str {
    line.split_whitespace().nth(place).unwrap_or("")
}

/// Returns the number that a word of a line writes.
pub fn number(line: &str, place: usize) -> Option<u64> {
    word(line, place).parse::<u64>().ok()
}
