//! When the connections of a packet interval time out.

ghost use Rattle.std.specs.Prelude.{◌≡◌, ◌≤◌};
ghost use Rattle.udp_runner.specs.Times.Timeouts.{before_timeout, nearer, timeout_ms};

/// The longest tick, in milliseconds.
const LONGEST_MS: u64 = 60_000;

/// The first time-out of a connection is at least so many milliseconds.
const LEAST_FIRST_MS: u64 = 10_000;

/// For how many milliseconds no connection of this packet interval times out, whatever its multiplier is, that has accepted no
/// datagram for so long; or, if it has accepted none yet, that was opened so long ago. At most those of the longest tick.
///
/// Volume 1, chapter 3, connection timeout multiplier, inactivity watchdog.
pub fn before_timeout(api_ms: u32, age_ms: u64, is_first: bool) -> u64
    ensures { result ≡ before_timeout api_ms age_ms is_first }
{
    let api_ms = u64::from(api_ms);
    let ms = nearer(LONGEST_MS, age_ms, timeout_ms(api_ms, is_first, 4));
    let ms = nearer(ms, age_ms, timeout_ms(api_ms, is_first, 8));
    let ms = nearer(ms, age_ms, timeout_ms(api_ms, is_first, 16));
    let ms = nearer(ms, age_ms, timeout_ms(api_ms, is_first, 32));
    let ms = nearer(ms, age_ms, timeout_ms(api_ms, is_first, 64));
    let ms = nearer(ms, age_ms, timeout_ms(api_ms, is_first, 128));
    let ms = nearer(ms, age_ms, timeout_ms(api_ms, is_first, 256));
    nearer(ms, age_ms, timeout_ms(api_ms, is_first, 512))
}

/// The time-out by a multiplier: the first one has its least length.
fn timeout_ms(api_ms: u64, is_first: bool, multiplier: u64) -> u64
    requires api { api_ms ≤ 4294967295 }
    requires multiplier { multiplier ≤ 512 }
    ensures { result ≡ timeout_ms api_ms is_first multiplier }
{
    let ms = multiplier * api_ms;
    if is_first { ms.max(LEAST_FIRST_MS) } else { ms }
}

/// The milliseconds that pass before this time-out, if it is to come, or fewer.
fn nearer(ms: u64, age_ms: u64, timeout_ms: u64) -> u64
    ensures { result ≡ nearer ms age_ms timeout_ms }
{
    if age_ms < timeout_ms {
        ms.min(timeout_ms - age_ms - 1)
    } else {
        ms
    }
}
