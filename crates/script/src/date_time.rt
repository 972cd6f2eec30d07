// Dates, as `-271821-04-19`, and times of day, as `01:30:00.5`.
ghost use Rattle.std.specs.Prelude.{◌≡◌, Some};
ghost use Rattle.script.specs.Cuts.{halves};
ghost use Rattle.script.specs.Dates.{date_in_year, date_cut, date_of, second_of, time_in_hour, time_of};

use crate::bytes::cut;
use crate::number::{fraction, short, signed};
use calendar::IsoDate;
use clock::IsoTime;

// MONTH-DAY behind the year.
fn date_in_year(year: i32, text: &[u8]) -> Option<IsoDate>
    ensures { result ≡ date_in_year (Some year) (halves 45 text.now) }
{
    let (month, day) = cut(text, b'-')?;
    Some(IsoDate {
        year,
        month: short(month)?,
        day: short(day)?,
    })
}

// YEAR-MONTH-DAY behind the year's sign.
fn unsigned_date(negative: bool, text: &[u8]) -> Option<IsoDate>
    ensures { result ≡ date_cut negative (halves 45 text.now) }
{
    let (digits, rest) = cut(text, b'-')?;
    let year = i32::try_from(signed(negative, digits)?).ok()?;
    date_in_year(year, rest)
}

// YEAR-MONTH-DAY; the year may have either sign.
pub(crate) fn date(text: &[u8]) -> Option<IsoDate>
    ensures { result ≡ date_of text.now }
{
    match text {
        [b'-', rest @ ..] => unsigned_date(true, rest),
        [b'+', rest @ ..] => unsigned_date(false, rest),
        _ => unsigned_date(false, text),
    }
}

// SS or SS.F, with the nanoseconds of F.
fn second(text: &[u8]) -> Option<(u8, u32)>
    ensures { result ≡ second_of text.now }
{
    match cut(text, b'.') {
        None => Some((short(text)?, 0)),
        Some((whole, part)) => Some((short(whole)?, fraction(part)?)),
    }
}

// MM, MM:SS or MM:SS.F behind the hour.
fn time_in_hour(hour: u8, text: &[u8]) -> Option<IsoTime>
    ensures { result ≡ time_in_hour hour (halves 58 text.now) text.now }
{
    let (minute, (second, nanosecond)) = match cut(text, b':') {
        None => (short(text)?, (0, 0)),
        Some((minute, rest)) => (short(minute)?, second(rest)?),
    };
    Some(IsoTime {
        hour,
        minute,
        second,
        nanosecond,
    })
}

// HH:MM, HH:MM:SS or HH:MM:SS.F.
pub(crate) fn time(text: &[u8]) -> Option<IsoTime>
    ensures { result ≡ time_of text.now }
{
    let (hour, rest) = cut(text, b':')?;
    time_in_hour(short(hour)?, rest)
}
