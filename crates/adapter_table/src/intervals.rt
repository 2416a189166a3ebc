//! Packet intervals in whole milliseconds, which the clock of a device counts.

ghost use Rattle.std.specs.Prelude.{◌≡◌};
ghost use Rattle.adapter_table.specs.Intervals.{ms_us, least_us};

use cip_types::limits::LONGEST_RPI_US;

/// The microseconds of a millisecond.
pub const MILLISECOND_US: u32 = 1_000;

/// The milliseconds of the greatest packet interval.
const GREATEST_MS: u32 = 10_000;

/// Milliseconds in microseconds, at most the greatest packet interval. Takes no memory.
///
/// Volume 1, chapter 3, requested and actual packet interval.
pub fn ms_us(ms: u32) -> u32
    ensures { result ≡ ms_us ms }
{
    if ms > GREATEST_MS {
        LONGEST_RPI_US
    } else {
        MILLISECOND_US * ms
    }
}

/// The least packet interval, in microseconds: a millisecond, or the maker's least in whole milliseconds. Takes no memory.
///
/// Volume 1, chapter 3, requested and actual packet interval.
pub fn least_us(least: Option<u32>) -> u32
    ensures { result ≡ least_us least }
{
    match least {
        Some(least) => ms_us(least.div_ceil(MILLISECOND_US)),
        None => MILLISECOND_US,
    }
}
