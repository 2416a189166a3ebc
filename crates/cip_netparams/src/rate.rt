//! Packet intervals and watchdogs.

ghost use Rattle.std.specs.Prelude.{◌≡◌, ◌≤◌, Some, None, IfSome, IsSome, ◌↔◌, if◌then◌else◌};
ghost use Rattle.std.specs.Option.{SomeIff};
ghost use Rattle.cip_netparams.specs.Rate.{IsInterval, is_interval, IsApi, interval_ms, timeout};

use cip_types::Ms;
use cip_types::limits::LONGEST_RPI_US;

/// The actual packet interval, in milliseconds, of a requested packet interval in microseconds, rounded up.
/// None where the request lies outside 1 to 10,000,000.
///
/// Volume 1, chapter 3, requested and actual packet interval.
pub fn api_of(rpi: u32) -> Option<u32>
    ensures value { result ≡ (if is_interval rpi then Some (interval_ms rpi) else None) }
    ensures interval { IsSome result ↔ IsInterval rpi }
    ensures least { IfSome result (IsApi rpi) }
{
    if rpi == 0 || rpi > LONGEST_RPI_US {
        return None;
    }
    Some(rpi.div_ceil(1000))
}

/// The time-out of a consumer: 4 times 2 to the multiplier, times the actual packet interval in
/// milliseconds. None where the multiplier is above 7, which the standard reserves.
///
/// Volume 1, chapter 3, connection timeout multiplier.
pub fn timeout_of(mult: u8, api: u32) -> Option<Ms>
    requires { api ≤ 10000 }
    ensures { SomeIff result (mult ≤ 7) (record { 0 = timeout mult api }) }
{
    if mult > 7 {
        return None;
    }
    Some(Ms(u64::from(api) << (mult + 2)))
}
