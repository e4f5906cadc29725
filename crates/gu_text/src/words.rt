//! The words of a line.

ghost use Rattle.std.specs.Prelude.{◌≡◌, ◌≢◌, ◌+◌, ◌<◌, ◌≤◌, ◌==◌, ◌↔◌, ◌∷◌, [], ℕ, true, false, if◌then◌else◌, length, slice_index_or, IfSome, IsTrue, MatchOption};
ghost use Rattle.std.specs.Int.{trailing_zeros, w64};
ghost use Rattle.std.specs.List.{position};
ghost use Rattle.gu_text.specs.Words.{is_blank, is_blank_at, is_ragged, words_of};

use std::simd::prelude::*;

fn is_blank_at(line: &[u8], place: usize) -> bool
    ensures { result ≡ is_blank_at line.now place }
{
    match line.get(place) {
        Some(byte) => *byte == b' ',
        None => false,
    }
}

/// Returns whether a line begins or ends with a space.
pub(crate) fn is_ragged(line: &[u8]) -> bool
    ensures { result ≡ is_ragged line.now }
{
    is_blank_at(line, 0) || is_blank_at(line, line.len().saturating_sub(1))
}

/// Returns the text without its leading spaces, of which there is at least one.
#[inline(never)]
fn after_blanks(text: &[u8]) -> &[u8]
    ensures words { words_of result.now ≡ words_of text.now }
    ensures front { is_blank_at result.now 0 ≡ false }
    ensures short { length result.now ≤ length text.now }
{
    let mut rest = text;
    'blanks: while let [b' ', behind @ ..] = rest {
        rest = behind;
    }
    rest
}

/// Returns the text without its leading spaces.
#[inline(always)]
fn without_blanks(text: &[u8]) -> &[u8]
    ensures words { words_of result.now ≡ words_of text.now }
    ensures front { is_blank_at result.now 0 ≡ false }
    ensures short { length result.now ≤ length text.now }
{
    if is_blank_at(text, 0) {
        after_blanks(text)
    } else {
        text
    }
}

/// Returns the index of the lowest set bit, or 8 if none is set.
#[inline(always)]
fn lowest_bit(mask: u64) -> usize
    ensures { result ≡ (if mask == 0 then 8 else trailing_zeros w64 mask) }
{
    if mask == 0 {
        8
    } else {
        mask.trailing_zeros() as usize
    }
}

/// Returns how many of the eight bytes from a position on come before the first space among them, comparing all eight at once.
#[inline(always)]
fn run_in_eight(text: &[u8], place: usize) -> usize
    requires { place + 8 ≤ length text.now }
    ensures before { (k : ℕ) → place ≤ k → k < place + result → is_blank (slice_index_or text.now k 0) ≡ false }
    ensures stops { result < 8 → is_blank (slice_index_or text.now (place + result) 0) ≡ true }
    ensures within { result ≤ 8 }
{
    let blanks = u8x8::from_slice(&text[place..]).simd_eq(u8x8::splat(b' '));
    lowest_bit(blanks.to_bitmask())
}

/// Returns the position of the first space in a short text.
#[inline(never)]
fn short_blank_place(text: &[u8]) -> Option<usize>
    ensures { result ≡ position is_blank text.now }
{
    for place in 0..text.len() {
        if text[place] == b' ' {
            return Some(place);
        }
    }
    None
}

/// Returns the position of the first space in a text of eight bytes or more, eight bytes at a time. The last eight may overlap those before.
#[inline(never)]
fn long_blank_place(text: &[u8]) -> Option<usize>
    requires { 8 ≤ length text.now }
    ensures { result ≡ position is_blank text.now }
{
    let last = text.len() - 8;
    let mut place = 0;
    'eights: while place < last {
        let run = run_in_eight(text, place);
        if run < 8 {
            return Some(place + run);
        }
        place += 8;
    }
    let run = run_in_eight(text, last);
    if run < 8 { Some(last + run) } else { None }
}

/// Returns the position of the first space. Most words have fewer than eight bytes, which are compared at once.
#[inline(always)]
fn blank_place(text: &[u8]) -> Option<usize>
    ensures { result ≡ position is_blank text.now }
{
    if text.len() < 8 {
        return short_blank_place(text);
    }
    let run = run_in_eight(text, 0);
    if run < 8 {
        return Some(run);
    }
    long_blank_place(text)
}

#[tactic(auto, using(crate::proofs::WordLemmas::word_in_front, crate::proofs::WordLemmas::word_alone))]
/// Returns the first word of a text, and the text that remains.
#[inline(always)]
pub(crate) fn first_word(text: &[u8]) -> Option<(&[u8], &[u8])>
    ensures words { MatchOption result (words_of text.now ≡ []) (λ found. words_of text.now ≡ found.0.now ∷ words_of found.1.now) }
    ensures shorter { IfSome result (λ found. length found.1.now < length text.now) }
{
    let text = without_blanks(text);
    if text.is_empty() {
        return None;
    }
    match blank_place(text) {
        Some(place) => Some((&text[..place], &text[place + 1..])),
        None => Some((text, &[])),
    }
}

/// Returns whether a text has words.
pub(crate) fn has_words(text: &[u8]) -> bool
    ensures { IsTrue result ↔ (words_of text.now ≢ []) }
{
    !without_blanks(text).is_empty()
}

/// Returns the first three words of a text, and the text that remains.
#[inline(always)]
pub(crate) fn first_three_words(text: &[u8]) -> Option<(&[u8], &[u8], &[u8], &[u8])>
    ensures { MatchOption result (length (words_of text.now) < 3)
        (λ found. words_of text.now ≡ found.0.now ∷ found.1.now ∷ found.2.now ∷ words_of found.3.now) }
{
    let (first, rest) = first_word(text)?;
    let (second, rest) = first_word(rest)?;
    let (third, rest) = first_word(rest)?;
    Some((first, second, third, rest))
}

/// Returns the words of a text with exactly three.
pub(crate) fn three_words(text: &[u8]) -> Option<(&[u8], &[u8], &[u8])>
    ensures { MatchOption result (length (words_of text.now) ≢ 3)
        (λ found. words_of text.now ≡ found.0.now ∷ found.1.now ∷ found.2.now ∷ []) }
{
    let (first, second, third, rest) = first_three_words(text)?;
    match first_word(rest) {
        None => Some((first, second, third)),
        Some(_) => None,
    }
}

/// Returns the words of a text with exactly two.
#[inline(always)]
pub(crate) fn two_words(text: &[u8]) -> Option<(&[u8], &[u8])>
    ensures { MatchOption result (length (words_of text.now) ≢ 2) (λ found. words_of text.now ≡ found.0.now ∷ found.1.now ∷ []) }
{
    let (first, rest) = first_word(text)?;
    let (second, rest) = first_word(rest)?;
    match first_word(rest) {
        None => Some((first, second)),
        Some(_) => None,
    }
}

/// Returns the word of a text with exactly one.
pub(crate) fn only_word(text: &[u8]) -> Option<&[u8]>
    ensures { MatchOption result (length (words_of text.now) ≢ 1) (λ word. words_of text.now ≡ word.now ∷ []) }
{
    let (word, rest) = first_word(text)?;
    match first_word(rest) {
        None => Some(word),
        Some(_) => None,
    }
}
