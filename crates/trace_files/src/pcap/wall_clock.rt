//! The wall-clock time at which a record begins, from its first line.

ghost use Rattle.std.specs.Prelude.{◌≡◌, ◌≤◌, true, IfSome, option_map};
ghost use Rattle.trace_files.specs.Pcap.WallClock.{begins_record, date_at, date_of, days_from_civil, days_of_month, ends_there, is_date, is_digit, is_leap, recorded_from, stamp_at, time_at, time_of, two_digits};

/// The words before the time.
const RECORDED: &[u8] = b"# recorded from ";

/// The days from 1 March of the year 0 to 1 January 1970.
const DAYS_TO_1970: u64 = 719_468;

/// The milliseconds of a day.
const DAY_MS: u64 = 86_400_000;

/// The wall-clock time at which a record begins, in milliseconds since 1970-01-01T00:00:00Z, from the first line of the
/// record: `# recorded from 2026-11-26T17:36:10.123Z`, alone or with a space and more words behind it. None for another
/// line, for a date or a time that is none, and for a year before 1970.
///
/// RFC 3339, with Z and three digits behind the second; a leap second is no time here.
pub fn recorded_from(line: &[u8]) -> Option<u64>
    ensures { result ≡ recorded_from line.now }
{
    if line.len() < RECORDED.len() {
        return None;
    }
    let (words, stamp) = line.split_at(RECORDED.len());
    if !begins_record(words) {
        return None;
    }
    stamp_at(stamp)
}

/// Whether these are the words before the time.
fn begins_record(words: &[u8]) -> bool
    ensures { result ≡ begins_record words.now }
{
    words == RECORDED
}

/// The instant of the time stamp at the front of a text. A space follows it, or nothing.
fn stamp_at(text: &[u8]) -> Option<u64>
    ensures { result ≡ stamp_at text.now }
{
    let (days, text) = date_at(text)?;
    let (ms, text) = time_at(text)?;
    if ends_there(text) {
        Some(days * DAY_MS + ms)
    } else {
        None
    }
}

/// Whether a text is empty or begins with a space.
fn ends_there(text: &[u8]) -> bool
    ensures { result ≡ ends_there text.now }
{
    match text {
        [] => true,
        [first, ..] => *first == b' ',
    }
}

/// The date at the front of a text, as days since 1970-01-01, and the text behind it.
fn date_at(text: &[u8]) -> Option<(u64, &[u8])>
    ensures date { option_map (λ got. (got.0, got.1.now)) result ≡ date_at text.now }
    ensures small { IfSome result (λ got. got.0 ≤ 4000000) }
{
    let [a, b, c, d, dash, e, f, other, g, h, rest @ ..] = text else {
        return None;
    };
    if *dash != b'-' || *other != b'-' {
        return None;
    }
    let century = two_digits(*a, *b)?;
    let year = two_digits(*c, *d)?;
    let month = two_digits(*e, *f)?;
    let day = two_digits(*g, *h)?;
    Some((date_of(century * 100 + year, month, day)?, rest))
}

/// The time of a day at the front of a text, in milliseconds, and the text behind it.
fn time_at(text: &[u8]) -> Option<(u64, &[u8])>
    ensures time { option_map (λ got. (got.0, got.1.now)) result ≡ time_at text.now }
    ensures small { IfSome result (λ got. got.0 ≤ 100000000) }
{
    let [
        t,
        a,
        b,
        colon,
        c,
        d,
        other,
        e,
        f,
        dot,
        g,
        h,
        i,
        z,
        rest @ ..,
    ] = text
    else {
        return None;
    };
    if *t != b'T' || *colon != b':' || *other != b':' || *dot != b'.' || *z != b'Z' {
        return None;
    }
    let hour = two_digits(*a, *b)?;
    let minute = two_digits(*c, *d)?;
    let second = two_digits(*e, *f)?;
    let hundredths = two_digits(*g, *h)?;
    let thousandth = two_digits(b'0', *i)?;
    Some((
        time_of(hour, minute, second, hundredths * 10 + thousandth)?,
        rest,
    ))
}

/// The number of two decimal digits.
fn two_digits(tens: u8, ones: u8) -> Option<u64>
    ensures number { result ≡ two_digits tens ones }
    ensures small { IfSome result (λ number. number ≤ 99) }
{
    if is_digit(tens) && is_digit(ones) {
        Some(u64::from(tens - b'0') * 10 + u64::from(ones - b'0'))
    } else {
        None
    }
}

fn is_digit(byte: u8) -> bool
    ensures value { result ≡ is_digit byte }
    ensures range { result ≡ true → 48 ≤ byte }
    ensures short { result ≡ true → byte ≤ 57 }
{
    byte >= b'0' && byte <= b'9'
}

/// The days from 1970-01-01 to a date.
fn date_of(year: u64, month: u64, day: u64) -> Option<u64>
    requires year { year ≤ 9999 }
    requires month { month ≤ 99 }
    requires day { day ≤ 99 }
    ensures date { result ≡ date_of year month day }
    ensures small { IfSome result (λ days. days ≤ 4000000) }
{
    if is_date(year, month, day) {
        Some(days_from_civil(year, month, day))
    } else {
        None
    }
}

/// Whether a date is one, from 1970 on.
fn is_date(year: u64, month: u64, day: u64) -> bool
    ensures { result ≡ is_date year month day }
{
    year >= 1_970 && month >= 1 && month <= 12 && day >= 1 && day <= days_of_month(year, month)
}

fn days_of_month(year: u64, month: u64) -> u64
    ensures { result ≡ days_of_month year month }
{
    match month {
        2 => if is_leap(year) { 29 } else { 28 },
        4 => 30,
        6 => 30,
        9 => 30,
        11 => 30,
        _ => 31,
    }
}

fn is_leap(year: u64) -> bool
    ensures { result ≡ is_leap year }
{
    year % 4 == 0 && (year % 100 != 0 || year % 400 == 0)
}

/// The days from 1970-01-01 to a date of the Gregorian calendar. A year here begins with March, so that a leap day is its
/// last day.
fn days_from_civil(year: u64, month: u64, day: u64) -> u64
    requires year { year ≤ 9999 }
    requires month { month ≤ 99 }
    requires day { day ≤ 99 }
    ensures days { result ≡ days_from_civil year month day }
    ensures small { result ≤ 4000000 }
{
    let year = if month <= 2 {
        year.saturating_sub(1)
    } else {
        year
    };
    let months = (month + 9) % 12;
    let days = year * 365 + year / 4 + year / 400 + (months * 153 + 2) / 5 + day;
    days.saturating_sub(year / 100 + DAYS_TO_1970 + 1)
}

/// The milliseconds from midnight to a time of a day.
fn time_of(hour: u64, minute: u64, second: u64, ms: u64) -> Option<u64>
    requires hour { hour ≤ 99 }
    requires minute { minute ≤ 99 }
    requires second { second ≤ 99 }
    requires ms { ms ≤ 9999 }
    ensures time { result ≡ time_of hour minute second ms }
    ensures small { IfSome result (λ all. all ≤ 100000000) }
{
    if hour <= 23 && minute <= 59 && second <= 59 {
        Some(((hour * 60 + minute) * 60 + second) * 1_000 + ms)
    } else {
        None
    }
}
