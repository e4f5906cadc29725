//! Days.

ghost use Rattle.std.specs.Prelude.{◌≡◌, ◌↔◌, ◌<◌, ℕ, pos, ◌≤◌, length, IsTrue, IsSome, IfSome, IfOk, IsErrOf};
ghost use Rattle.std.specs.Str.Parse.{AllDigits, digits_value};
ghost use Rattle.jiff.specs.Words.{IsDate};
ghost use Rattle.gu_terms.specs.Days.{IsDay, IsDayText, WritesDay, date_number, year_of, month_of, day_of};
ghost use Rattle.gu_terms.specs.WrittenNumbers.{date_text};

use crate::digits::two_digits;
use crate::number_text::{NumberError, are_digits, value_of};
use jiff::civil::Date;

/// A date in the years 1 to 9999.
#[derive(Clone, Copy, Debug, PartialEq, Eq, Hash)]
pub struct Day {
    pub year: u16,
    pub month: u8,
    pub day: u8,
    ghost there: { IsDay year month day },
}

/// Returns whether this is a date of the calendar.
fn is_date(year: u16, month: u8, day: u8) -> bool
    requires { (year ≤ 9999) × (month < 100) × (day < 100) }
    ensures { IsTrue result ↔ IsDate (pos year) (pos month) (pos day) }
{
    Date::new(year as i16, month as i8, day as i8).is_ok()
}

/// Returns the value of up to four digits.
fn short_value(digits: &[u8]) -> u16
    requires digits { AllDigits 10 digits.now }
    requires short { length digits.now ≤ 4 }
    ensures { result ≡ digits_value 10 digits.now }
{
    match value_of(digits, 9999) {
        Some(value) => value as u16,
        None => 0,
    }
}

/// Returns the value of two digits.
fn two_digit_value(digits: &[u8]) -> u8
    requires digits { AllDigits 10 digits.now }
    requires short { length digits.now ≤ 2 }
    ensures { result ≡ digits_value 10 digits.now }
{
    match value_of(digits, 99) {
        Some(value) => value as u8,
        None => 0,
    }
}

/// Returns whether the text is eight digits.
fn is_day_text(text: &[u8]) -> bool
    ensures { IsTrue result ↔ IsDayText text.now }
{
    text.len() == 8 && are_digits(text)
}

/// Returns a date as eight digits.
#[tactic(auto, unfolding(crate::specs::WrittenNumbers::date_text))]
fn date_digits(year: u16, month: u8, day: u8) -> [u8; 8]
    requires { (year ≤ 9999) × (month < 100) × (day < 100) }
    ensures { result ≡ date_text year month day }
{
    let mut text = [b'0'; 8];
    text[..2].copy_from_slice(&two_digits((year / 100) as u8));
    text[2..4].copy_from_slice(&two_digits((year % 100) as u8));
    text[4..6].copy_from_slice(&two_digits(month));
    text[6..].copy_from_slice(&two_digits(day));
    text
}

impl Day {
    /// Returns the day with this year, month and day of the month.
    pub fn new(year: u16, month: u8, day: u8) -> Option<Self>
        ensures sound { IsSome result ↔ IsDay year month day }
        ensures same { IfSome result (λ d. (d.year ≡ year) × (d.month ≡ month) × (d.day ≡ day)) }
    {
        if year == 0 || year > 9999 || month >= 100 || day >= 100 || !is_date(year, month, day) {
            return None;
        }
        Some(Day::known(year, month, day))
    }

    /// Returns the day with a year, month and day of the month that are known to be valid.
    pub fn known(year: u16, month: u8, day: u8) -> Self
        requires { IsDay year month day }
        ensures { (result.year ≡ year) × (result.month ≡ month) × (result.day ≡ day) }
    {
        Day { year, month, day }
    }

    /// Returns its year, month and day of the month.
    pub fn get(self) -> (u16, u8, u8)
        ensures year { result.0 ≡ self.year }
        ensures month { result.1 ≡ self.month }
        ensures day { result.2 ≡ self.day }
        ensures sound { IsDay self.year self.month self.day }
    {
        (self.year, self.month, self.day)
    }

    /// Returns the day written in eight digits.
    pub fn read(text: &[u8]) -> Result<Day, NumberError>
        ensures day { IfOk result (λ d. WritesDay text.now d.year d.month d.day) }
        ensures bad_number { IsErrOf result NumberError.BadNumber ↔ (¬ IsDayText text.now) }
        ensures out_of_range { IsErrOf result NumberError.OutOfRange
            ↔ (IsDayText text.now × (¬ IsDay (year_of text.now) (month_of text.now) (day_of text.now))) }
    {
        if !is_day_text(text) {
            return Err(NumberError::BadNumber);
        }
        let year = short_value(&text[..4]);
        let month = two_digit_value(&text[4..6]);
        let day = two_digit_value(&text[6..]);
        match Day::new(year, month, day) {
            Some(day) => Ok(day),
            None => Err(NumberError::OutOfRange),
        }
    }

    /// Returns the day in eight digits: year, month, day of the month. Read back, they give the same day.
    pub fn text(self) -> [u8; 8]
        ensures text { result ≡ date_text self.year self.month self.day }
        ensures writes { WritesDay result self.year self.month self.day }
    {
        date_digits(self.year, self.month, self.day)
    }

    /// Returns whether two days are the same.
    pub fn is_same(self, other: Day) -> bool
        ensures { IsTrue result ↔ (self ≡ other) }
    {
        self.year == other.year && self.month == other.month && self.day == other.day
    }

    /// Returns whether it is earlier than another day.
    pub fn is_before(self, other: Day) -> bool
        ensures { IsTrue result ↔ (date_number self.year self.month self.day < date_number other.year other.month other.day) }
    {
        self.number() < other.number()
    }

    /// Returns its eight digits as a number: year, month, day.
    pub fn number(self) -> u32
        ensures { result ≡ date_number self.year self.month self.day }
    {
        10_000 * u32::from(self.year) + 100 * u32::from(self.month) + u32::from(self.day)
    }
}
