//! How far ahead of the newest accepted number another one can be, where a limit on it is stated.

ghost use Rattle.std.specs.Prelude.{◌≡◌};
ghost use Rattle.cip_productions.specs.Window.{pace_of, since_accepted, intervals_in, is_near, is_within, accepts_number, SteadyNumbersAreNear};

use crate::acceptance::{Accepted, accepts_sequence};
use cip_netparams::Trigger;
use cip_types::Ms;

/// The largest limit on how far ahead an accepted sequence number is: all that are newer are ahead by less.
///
/// Volume 2, chapter 2, sequenced address item.
pub const FARTHEST_NUMBER: u32 = 1 << 31;

/// The least milliseconds between two datagrams of a producer: its packet interval if it is cyclic, its production
/// inhibit time if it also produces at changes of state. Takes no memory.
///
/// Volume 1, chapter 3, production triggers and production inhibit time.
pub fn pace_of(trigger: Trigger, api_ms: u32, inhibit: u8) -> u32
    ensures { result ≡ pace_of trigger api_ms inhibit }
{
    match trigger {
        Trigger::Cyclic => api_ms,
        Trigger::ChangeOfState => u32::from(inhibit),
    }
}

/// The milliseconds since a connection accepted its newest datagram, by its watchdog's time-out and its deadline. Takes
/// no memory.
///
/// Volume 1, chapter 3, inactivity watchdog.
pub fn since_accepted(clock: Ms, watchdog: Ms, deadline: Ms) -> u64
    ensures { result ≡ since_accepted clock watchdog deadline }
{
    clock
        .0
        .saturating_sub(deadline.0.saturating_sub(watchdog.0))
}

/// How many whole intervals have passed; none of a producer without an interval.
fn intervals_in(since_ms: u64, interval_ms: u32) -> u64
    ensures { result ≡ intervals_in since_ms interval_ms }
{
    if interval_ms == 0 {
        return 0;
    }
    since_ms / u64::from(interval_ms)
}

/// Whether a number that is so far ahead is near: within the limit, which is larger by two for each interval that has
/// passed since the newest accepted datagram. Takes no memory.
///
/// Volume 2, chapter 2, sequenced address item.
pub fn is_near(within: u32, since_ms: u64, interval_ms: u32, ahead: u32) -> bool
    ensures { result ≡ is_near within since_ms interval_ms ahead }
{
    let passed = u128::from(intervals_in(since_ms, interval_ms));
    u128::from(ahead) < u128::from(within) + 2 * passed
}

/// Whether a number is near the last accepted one, if there is one and a limit.
fn is_within(
    within: Option<u32>,
    since_ms: u64,
    interval_ms: u32,
    last: Option<Accepted>,
    number: u32,
) -> bool
    ensures { result ≡ is_within within since_ms interval_ms last number }
{
    match (within, last) {
        (Some(within), Some(last)) => {
            let ahead = number.wrapping_sub(last.number);
            is_near(within, since_ms, interval_ms, ahead)
        }
        (None, _) | (Some(_), None) => true,
    }
}

/// Whether a datagram of this number is accepted: its number is newer than the last accepted one, and near it. Takes no
/// memory.
///
/// Volume 2, chapter 2, sequenced address item.
pub fn accepts_number(
    within: Option<u32>,
    since_ms: u64,
    interval_ms: u32,
    last: Option<Accepted>,
    number: u32,
) -> bool
    ensures { result ≡ accepts_number within since_ms interval_ms last number }
{
    accepts_sequence(last, number) && is_within(within, since_ms, interval_ms, last, number)
}

/// A producer that uses up at most one number in each interval, and one more, is never too far ahead for a limit of 2 or
/// more, however many of its datagrams in a row are lost. The call does nothing: its contract is the law.
pub fn steady_numbers_are_near()
    ensures { SteadyNumbersAreNear }
{}
