//! The time at which a record begins, as a text.

ghost use Rattle.std.specs.Prelude.{◌≡◌, ◌++◌, OnOk, string_bytes};
ghost use Rattle.station_record.specs.KeptFiles.Timestamps.{day_among, day_of, day_text, is_leap, month_lens, time_text, timestamp_text, year_len};

use cip_types::OutOfMemory;

/// A day of the Gregorian calendar.
#[derive(Clone, Copy, PartialEq, Eq)]
pub struct Day {
    pub year: u64,
    pub month: u64,
    pub day: u64,
}

/// Appends a time as RFC 3339 has it, in UTC, by the milliseconds since 1970 began. The last day is the last one of the year
/// 9999.
pub fn push_timestamp(out: &mut String, ms: u64) -> Result<(), OutOfMemory>
    ensures { OnOk result (string_bytes out.new ≡ string_bytes out.old ++ timestamp_text ms) }
{
    push_day(out, day_of(ms / 86_400_000))?;
    push_time(out, ms)
}

/// Appends a day.
fn push_day(out: &mut String, day: Day) -> Result<(), OutOfMemory>
    ensures { OnOk result (string_bytes out.new ≡ string_bytes out.old ++ day_text day) }
{
    let Day { year, month, day } = day;
    write!(out, "{year:04}-{month:02}-{day:02}")?;
    Ok(())
}

/// Appends the time of the day.
fn push_time(out: &mut String, ms: u64) -> Result<(), OutOfMemory>
    ensures { OnOk result (string_bytes out.new ≡ string_bytes out.old ++ time_text ms) }
{
    let hour = ms / 3_600_000 % 24;
    let minute = ms / 60_000 % 60;
    let second = ms / 1_000 % 60;
    let rest = ms % 1_000;
    write!(out, "T{hour:02}:{minute:02}:{second:02}.{rest:03}Z")?;
    Ok(())
}

/// The day that is so many days behind the first one of 1970.
fn day_of(days: u64) -> Day
    ensures { result ≡ day_of days }
{
    let mut left = days;
    let mut year = 1_970;
    while year < 10_000 {
        let len = year_len(year);
        if left < len {
            return day_in(year, left);
        }
        left -= len;
        year += 1;
    }
    Day {
        year: 9_999,
        month: 12,
        day: 31,
    }
}

/// The day of a year that is so many days behind its first one.
fn day_in(year: u64, days: u64) -> Day
    ensures { result ≡ day_among year 1 (month_lens year) days }
{
    let months = month_lens(year);
    let mut left = days;
    let mut month = 1;
    let mut rest: &[u64] = &months;
    while let [len, after @ ..] = rest {
        if left < *len {
            return Day {
                year,
                month,
                day: left + 1,
            };
        }
        left -= *len;
        month += 1;
        rest = after;
    }
    Day {
        year,
        month: 12,
        day: 31,
    }
}

/// The days of the months of a year.
fn month_lens(year: u64) -> [u64; 12]
    ensures { result ≡ month_lens year }
{
    let february = if is_leap(year) { 29 } else { 28 };
    [31, february, 31, 30, 31, 30, 31, 31, 30, 31, 30, 31]
}

/// The days of a year.
fn year_len(year: u64) -> u64
    ensures { result ≡ year_len year }
{
    if is_leap(year) { 366 } else { 365 }
}

/// Whether a year has 366 days.
fn is_leap(year: u64) -> bool
    ensures { result ≡ is_leap year }
{
    year % 4 == 0 && (year % 100 != 0 || year % 400 == 0)
}
