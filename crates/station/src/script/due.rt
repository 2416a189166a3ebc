//! When a line is due: the last time up to now, and the next one behind it.

ghost use Rattle.std.specs.Prelude.{◌≡◌};
ghost use Rattle.station.specs.Script.Due.{earlier, last_time, last_round, next_due, next_round, next_time, time_behind, time_until};

use crate::script::lines::{DueTime, ScriptLine};

/// The last time up to this one at which a line is due.
pub fn last_time(due: DueTime, now_ms: u64) -> Option<u64>
    ensures { result ≡ last_time now_ms due }
{
    match due {
        DueTime::At(ms) => time_until(now_ms, u64::from(ms)),
        DueTime::Every(ms) => last_round(now_ms, u64::from(ms)),
    }
}

/// A time, if it is not behind now.
fn time_until(now_ms: u64, ms: u64) -> Option<u64>
    ensures { result ≡ time_until now_ms ms }
{
    if ms <= now_ms { Some(ms) } else { None }
}

/// The last multiple of so many milliseconds up to now, above 0.
fn last_round(now_ms: u64, ms: u64) -> Option<u64>
    ensures { result ≡ last_round now_ms ms }
{
    if ms == 0 || now_ms < ms {
        return None;
    }
    Some(now_ms - now_ms % ms)
}

/// The first time behind this one at which a line is due; None if there is none below 2^64.
pub fn next_time(due: DueTime, now_ms: u64) -> Option<u64>
    ensures { result ≡ next_time now_ms due }
{
    match due {
        DueTime::At(ms) => time_behind(now_ms, u64::from(ms)),
        DueTime::Every(ms) => next_round(now_ms, u64::from(ms)),
    }
}

/// A time, if it is behind now.
fn time_behind(now_ms: u64, ms: u64) -> Option<u64>
    ensures { result ≡ time_behind now_ms ms }
{
    if now_ms < ms { Some(ms) } else { None }
}

/// The first multiple of so many milliseconds behind now.
fn next_round(now_ms: u64, ms: u64) -> Option<u64>
    ensures { result ≡ next_round now_ms ms }
{
    if ms == 0 {
        return None;
    }
    now_ms.checked_add(ms - now_ms % ms)
}

/// The first time behind this one at which a line of these is due; None if there is none below 2^64.
pub fn next_due(lines: &[ScriptLine], now_ms: u64) -> Option<u64>
    ensures { result ≡ next_due now_ms lines.now }
{
    let mut least = None;
    for line in lines {
        least = earlier(least, next_time(line.due, now_ms));
    }
    least
}

/// The earlier one of two times, of which each may be none.
pub(crate) fn earlier(one: Option<u64>, other: Option<u64>) -> Option<u64>
    ensures { result ≡ earlier one other }
{
    match (one, other) {
        (Some(one), Some(other)) => Some(one.min(other)),
        (Some(one), None) => Some(one),
        (None, other) => other,
    }
}
