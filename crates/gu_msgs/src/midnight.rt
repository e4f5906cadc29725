//! The midnight at which a day begins.

ghost use Rattle.std.specs.Prelude.{◌≡◌, ◌≤◌, ◌++◌, ℕ, List, pos, codes};
ghost use Rattle.jiff_core.specs.Date.{epoch_day};
ghost use Rattle.gu_terms.specs.WrittenNumbers.{date_text};
ghost use Rattle.gu_msgs.specs.Midnight.{from_zero, midnight_of};
ghost use Rattle.gu_msgs.specs.MomentTexts.{WritesMoment};

use gu_terms::{Day, Moment};
use jiff_core::civil::Date;

/// The milliseconds in a day.
const DAY: u64 = 86_400_000;

/// Returns the date of a day.
fn date_of(day: Day) -> Date
    ensures year { result.year ≡ pos day.year }
    ensures month { result.month ≡ day.month }
    ensures day { result.day ≡ day.day }
{
    let (year, month, day) = day.get();
    let Ok(date) = Date::new(year as i16, month as i8, day as i8) else {
        unreachable!();
    };
    date
}

/// Returns the number of days from 1970-01-01 to a date, or 0 for an earlier date.
fn days_after(date: Date) -> u64
    ensures days { result ≡ from_zero (epoch_day date) }
    ensures most { result ≤ 2932896 }
{
    let days = date.to_unix_epoch_day();
    if days < 0 { 0 } else { days as u64 }
}

/// Returns the midnight at which a day begins (UTC), or the first moment of 1970 for an earlier day.
pub fn midnight_of(day: Day) -> Moment
    ensures midnight { result ≡ midnight_of day }
    ensures text { 1970 ≤ day.year → (text : List ℕ) → WritesMoment result text
        → text ≡ date_text day.year day.month day.day ++ codes "-00:00:00.000" }
{
    Moment::known(DAY * days_after(date_of(day)))
}
