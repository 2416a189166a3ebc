//! How long a port waits.

ghost use Rattle.std.specs.Prelude.{◌≡◌, ◌*◌, min};
ghost use Rattle.std.specs.Duration.{as_nanos};
ghost use Rattle.udp_runner.specs.Times.Waits.{whole_ms};

use std::time::Duration;

/// The length of a wait of at most so long, if a stream is to be opened or ended, or an inquiry is due, after so many
/// milliseconds.
pub fn wait_length(most: Duration, due_ms: u64) -> Duration
    ensures { as_nanos result ≡ min (as_nanos most) (due_ms * 1000000) }
{
    shorter(most, Duration::from_millis(due_ms))
}

/// The shorter of two durations.
fn shorter(one: Duration, other: Duration) -> Duration
    ensures { as_nanos result ≡ min (as_nanos one) (as_nanos other) }
{
    if other.as_nanos() < one.as_nanos() {
        other
    } else {
        one
    }
}

/// The whole milliseconds of a duration: at most 2^64 - 1.
pub fn whole_ms(length: Duration) -> u64
    ensures { result ≡ whole_ms (as_nanos length) }
{
    length.as_millis().min(u128::from(u64::MAX)) as u64
}
