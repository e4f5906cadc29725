//! Moments as messages write them.

ghost use Rattle.std.specs.Prelude.{◌≡◌, ◌≤◌, ◌<◌, ◌++◌, pos, codes};
ghost use Rattle.gu_fix.specs.WholeMessage.{three_digits};
ghost use Rattle.jiff_core.specs.Calendar.{days_from_civil};
ghost use Rattle.jiff_core.specs.Date.{epoch_day};
ghost use Rattle.gu_msgs.specs.MomentTexts.{WritesDateAfter, WritesMoment, time_text};

use gu_terms::{Day, Moment, two_digits};
use jiff_core::civil::Date;

/// The milliseconds in a day.
const DAY: u64 = 86_400_000;

fn three_digits(number: u16) -> [u8; 3]
    requires { number < 1000 }
    ensures { result ≡ three_digits number }
{
    [
        b'0' + (number / 100) as u8,
        b'0' + (number / 10 % 10) as u8,
        b'0' + (number % 10) as u8,
    ]
}

/// Returns the time of day at this number of milliseconds after midnight.
#[tactic(auto, unfolding(crate::specs::MomentTexts::time_text))]
fn time_text(milliseconds: u32) -> [u8; 12]
    requires { milliseconds < 86400000 }
    ensures { result ≡ time_text milliseconds }
{
    let mut text = *b"00:00:00.000";
    text[..2].copy_from_slice(&two_digits((milliseconds / 3_600_000) as u8));
    text[3..5].copy_from_slice(&two_digits((milliseconds / 60_000 % 60) as u8));
    text[6..8].copy_from_slice(&two_digits((milliseconds / 1000 % 60) as u8));
    text[9..].copy_from_slice(&three_digits((milliseconds % 1000) as u16));
    text
}

/// Returns the date this many days after 1970-01-01.
fn date_after(days: u32) -> Date
    requires { days ≤ 2932896 }
    ensures { epoch_day result ≡ pos days }
{
    let Ok(date) = Date::from_unix_epoch_day(i64::from(days)) else {
        unreachable!();
    };
    date
}

/// Returns the day this many days after 1970-01-01.
fn day_after(days: u32) -> Day
    requires { days ≤ 2932896 }
    ensures { days_from_civil (pos result.year) result.month result.day ≡ pos days }
{
    let date = date_after(days);
    Day {
        year: date.year as u16,
        month: date.month,
        day: date.day,
    }
}

/// Returns the date this many days after 1970-01-01, in eight digits.
fn date_text_after(days: u32) -> [u8; 8]
    requires { days ≤ 2932896 }
    ensures { WritesDateAfter days result }
{
    day_after(days).text()
}

/// Returns a date and a time with `-` between them.
fn joined(date: [u8; 8], time: [u8; 12]) -> [u8; 21]
    ensures { result ≡ date ++ codes "-" ++ time }
{
    let mut text = [b'-'; 21];
    text[..8].copy_from_slice(&date);
    text[9..].copy_from_slice(&time);
    text
}

/// Returns the text of a moment (UTC).
pub fn moment_text(moment: Moment) -> [u8; 21]
    ensures { WritesMoment moment result }
{
    let number = moment.get();
    let date = date_text_after((number / DAY) as u32);
    joined(date, time_text((number % DAY) as u32))
}
