//! Values of words: numbers, names, keys, sides, lots, prices, days and workers.

ghost use Rattle.std.specs.Prelude.{◌≡◌, ◌≢◌, ◌≤◌, ℕ, ℤ, MatchOption, length};
ghost use Rattle.std.specs.Option.{option_map};
ghost use Rattle.std.specs.Str.Parse.{AllDigits, digits_value};
ghost use Rattle.gu_terms.specs.Days.{WritesDay};
ghost use Rattle.gu_terms.specs.NumberText.{MeansLots, MeansPrice};
ghost use Rattle.gu_terms.specs.declared.alloc_reject.AllocReject.{AllocReject as RejectOf};
ghost use Rattle.gu_terms.specs.declared.day.Day.{Day as DayOf};
ghost use Rattle.gu_terms.specs.declared.side.Side.{Side as SideOf};
ghost use Rattle.gu_text.specs.ScriptForms.{worker_said, WritesReject};
ghost use Rattle.gu_text.specs.Scripts.{side_word};
ghost use Rattle.gu_text.specs.SheetLines.{key_said, number_of, offer_no_of, name_of};

use gu_terms::{
    AllocReject, Day, LimitKey, Lots, Name, OfferNo, Price, Side, read_lots, read_price,
};
use gu_world::Worker;

/// The most digits in a whole number.
const MOST_DIGITS: usize = 12;

/// The last worker that scripts can name.
const LAST_WORKER: u64 = 62;

/// Returns the value of a word of at most twelve bytes, or None if one of them isn't a digit. It reads each byte once.
#[inline(always)]
fn digits_said(word: &[u8]) -> Option<u64>
    requires { length word.now ≤ 12 }
    ensures { MatchOption result (¬ AllDigits 10 word.now) (λ n. AllDigits 10 word.now × (n ≡ digits_value 10 word.now)) }
{
    let mut value = 0;
    for place in 0..word.len() {
        let byte = word[place];
        if !byte.is_ascii_digit() {
            return None;
        }
        value = 10 * value + u64::from(byte - b'0');
    }
    Some(value)
}

/// Returns the whole number in a word.
pub(crate) fn number_of(word: &[u8]) -> Option<u64>
    ensures { result ≡ number_of word.now }
{
    if word.is_empty() || MOST_DIGITS < word.len() {
        return None;
    }
    digits_said(word)
}

/// Returns the offer number in a word.
pub(crate) fn offer_no_of(word: &[u8]) -> Option<OfferNo>
    ensures { result ≡ offer_no_of word.now }
{
    let number = number_of(word)?;
    OfferNo::new(number)
}

/// Returns the name in a word.
pub(crate) fn name_of(word: &[u8]) -> Option<Name>
    ensures { result ≡ name_of word.now }
{
    Name::new(word)
}

/// Returns the key with this kind and this name.
pub(crate) fn key_said(kind: &[u8], word: &[u8]) -> Option<LimitKey>
    ensures { result ≡ key_said kind.now word.now }
{
    let name = name_of(word)?;
    LimitKey::of(kind, name)
}

/// Returns the worker in a word, among those that scripts can name.
pub(crate) fn worker_of(word: &[u8]) -> Option<Worker>
    ensures { result ≡ worker_said word.now }
{
    let number = number_of(word)?;
    if number > LAST_WORKER {
        return None;
    }
    Worker::new(number as u8)
}

/// Returns the reason of a refusal in a word.
pub(crate) fn reject_of(word: &[u8]) -> Option<AllocReject>
    ensures { MatchOption result ((reject : RejectOf) → ¬ WritesReject word.now reject) (WritesReject word.now) }
{
    let number = number_of(word)?;
    AllocReject::of(number)
}

/// Returns the side with this letter.
pub(crate) fn side_of(word: &[u8]) -> Option<Side>
    ensures { MatchOption result ((side : SideOf) → word.now ≢ side_word side) (λ side. word.now ≡ side_word side) }
{
    match word {
        b"B" => Some(Side::Buy),
        b"S" => Some(Side::Sell),
        _ => None,
    }
}

/// Returns the lots in a word.
pub(crate) fn lots_of(word: &[u8]) -> Option<Lots>
    ensures { MatchOption result ((n : ℕ) → ¬ MeansLots word.now n) (MeansLots word.now) }
{
    match read_lots(word) {
        Ok(lots) => Some(lots),
        Err(_) => None,
    }
}

/// Returns the price in a word.
pub(crate) fn price_of(word: &[u8]) -> Option<Price>
    ensures { MatchOption result ((z : ℤ) → ¬ MeansPrice word.now z) (MeansPrice word.now) }
{
    match read_price(word) {
        Ok(price) => Some(price),
        Err(_) => None,
    }
}

/// Returns the day in a word.
pub(crate) fn day_of(word: &[u8]) -> Option<Day>
    ensures { MatchOption result ((day : DayOf) → ¬ WritesDay word.now day.year day.month day.day)
        (λ day. WritesDay word.now day.year day.month day.day) }
{
    match Day::read(word) {
        Ok(day) => Some(day),
        Err(_) => None,
    }
}
