//! The lines of a file, and the fields of a line.

ghost use Rattle.std.specs.Prelude.{◌≡◌, ◌≢◌, ◌<◌, ◌==◌, ◌∷◌, [], length, IfSome, MatchOption};
ghost use Rattle.std.specs.List.{position, slice_split};
ghost use Rattle.std.specs.Str.Lines.{lines, strip_carriage_return};
ghost use Rattle.gu_secrets.specs.Secrets.{fields_of};

/// Returns the place of the first byte that is the one sought.
fn place_of(bytes: &[u8], sought: u8) -> Option<usize>
    ensures { result ≡ position (λ b. b == sought) bytes.now }
{
    bytes.iter().position(|byte| *byte == sought)
}

/// Returns what comes before the first separator, and what comes after it.
fn split_at(bytes: &[u8], separator: u8) -> Option<(&[u8], &[u8])>
    ensures parts { MatchOption result (slice_split (λ b. b == separator) bytes.now ≡ bytes.now ∷ [])
        (λ parts. slice_split (λ b. b == separator) bytes.now ≡ parts.0.now ∷ slice_split (λ b. b == separator) parts.1.now) }
    ensures shorter { IfSome result (λ parts. length parts.1.now < length bytes.now) }
{
    let place = place_of(bytes, separator)?;
    Some((&bytes[..place], &bytes[place + 1..]))
}

/// Returns the line without the CR at its end.
fn without_return(line: &[u8]) -> &[u8]
    ensures { result.now ≡ strip_carriage_return line.now }
{
    match line {
        [rest @ .., b'\r'] => rest,
        _ => line,
    }
}

/// Returns the first line of a text, and the text of the other lines.
pub(crate) fn first_line(text: &[u8]) -> Option<(&[u8], &[u8])>
    ensures lines { MatchOption result (lines text.now ≡ []) (λ found. lines text.now ≡ found.0.now ∷ lines found.1.now) }
    ensures shorter { IfSome result (λ found. length found.1.now < length text.now) }
{
    if text.is_empty() {
        return None;
    }
    match split_at(text, b'\n') {
        Some((line, others)) => Some((without_return(line), others)),
        None => Some((text, &[])),
    }
}

/// Returns the three fields of a line that has three.
pub(crate) fn three_fields(line: &[u8]) -> Option<(&[u8], &[u8], &[u8])>
    ensures { MatchOption result (length (fields_of line.now) ≢ 3)
        (λ found. fields_of line.now ≡ found.0.now ∷ found.1.now ∷ found.2.now ∷ []) }
{
    let (first, others) = split_at(line, b',')?;
    let (second, third) = split_at(others, b',')?;
    match split_at(third, b',') {
        None => Some((first, second, third)),
        Some(_) => None,
    }
}
