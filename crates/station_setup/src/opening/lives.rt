//! The lives of a device, one behind another.

ghost use Rattle.std.specs.Prelude.{◌≡◌};
ghost use Rattle.station_setup.specs.Opening.Starts.{more_tries, pause_before_life, pause_within};

use crate::opening::ports::{OpenedPort, open_port};
use cip_tables::Config;
use command_lines::Options;
use station_port::StationFault;
use std::net::Net;
use std::rt::Clock;
use std::thread;
use std::time::{Duration, Instant};

/// The port of the next life is tried again so often, a tenth of a second apart.
const MOST_TRIES: u32 = 50;

const RETRY_MS: u64 = 100;

/// From the beginning of a life to that of the next one it is at least so long.
const LEAST_LIFE_MS: u64 = 1000;

/// A device has fewer lives than so many: one that a peer resets each second has them for more than a century.
pub const MOST_LIVES: u32 = u32::MAX;

/// The milliseconds since a moment. A clock that cannot be read adds none.
pub fn passed_ms<R: Clock>(rt: &R, origin: Instant) -> u64 {
    match Instant::now(rt) {
        Ok(now) => u64::try_from(now.duration_since(origin).as_millis()).unwrap_or(0),
        Err(_) => 0,
    }
}

/// The port of a life. That of a later life is tried again for a while: the system may not have given up the earlier one.
pub fn open_life_port<R>(
    rt: R,
    options: &Options,
    config: &Config,
    life: u32,
) -> Result<OpenedPort<R>, StationFault>
where
    R: AllocGlobal + Net + Clock + Copy + Drop,
{
    for _ in 0..more_tries(life) {
        if let Ok(opened) = open_port(rt, options, config) {
            return Ok(opened);
        }
        thread::sleep(&rt, Duration::from_millis(RETRY_MS));
    }
    open_port(rt, options, config)
}

/// How often the port of a life is tried before the last time.
fn more_tries(life: u32) -> u32
    ensures { result ≡ more_tries life }
{
    if life > 1 { MOST_TRIES } else { 0 }
}

/// Sleeps until the life may begin that follows one of this beginning, in milliseconds since the origin. It ends with what is left of the
/// station's time, if that ends.
pub fn rest_before_life<R: Clock>(rt: &R, origin: Instant, begun_ms: u64, left_ms: Option<u64>) {
    let lived_ms = passed_ms(rt, origin).saturating_sub(begun_ms);
    let pause_ms = pause_within(pause_before_life(lived_ms), left_ms);
    thread::sleep(rt, Duration::from_millis(pause_ms));
}

/// How long it is until the next life may begin, so many milliseconds after the beginning of the last one.
fn pause_before_life(lived_ms: u64) -> u64
    ensures { result ≡ pause_before_life lived_ms }
{
    LEAST_LIFE_MS.saturating_sub(lived_ms)
}

/// A pause that ends with what is left of a time.
fn pause_within(pause_ms: u64, left_ms: Option<u64>) -> u64
    ensures { result ≡ pause_within pause_ms left_ms }
{
    match left_ms {
        Some(left) if left < pause_ms => left,
        _ => pause_ms,
    }
}
