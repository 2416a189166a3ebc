//! The time that a device is owed.

ghost use Rattle.std.specs.Prelude.{◌≡◌, ◌+◌, min};
ghost use Rattle.std.specs.Duration.{as_nanos};
ghost use Rattle.udp_runner.specs.Times.Time.{begun_ms, owed_after, passed_ms, passed_ns, wait_ns, whole_begun};

use cip_types::limits::LONGEST_TICK_MS;
use std::time::{Duration, Instant};

/// The nanoseconds of a millisecond.
const NANOSECONDS: u64 = 1_000_000;

/// The nanoseconds that have passed, and the milliseconds that the device was given: those that have passed, less what is
/// above the longest tick, or up to the one that has begun.
#[derive(Clone, Copy)]
pub struct OwedTime {
    passed_ns: u64,
    given_ms: u64,
}

impl OwedTime {
    /// No time.
    pub fn none() -> Self
        ensures { result ≡ record { passed_ns = 0; given_ms = 0 } }
    {
        OwedTime {
            passed_ns: 0,
            given_ms: 0,
        }
    }

    /// Adds the time that passed. More than 2^64 nanoseconds together, 584 years, count as so many.
    pub fn add(&mut self, ns: u64)
        ensures { self.new ≡ record self.old { passed_ns = owed_after self.old.passed_ns ns } }
    {
        self.passed_ns = self.passed_ns.saturating_add(ns);
    }

    /// Gives the whole milliseconds that have passed, at most those of the longest tick: none if the device was given
    /// them, or the one that has begun.
    pub fn give(&mut self) -> u64
        ensures given { result ≡ passed_ms self.old.passed_ns self.old.given_ms }
        ensures kept { self.new ≡ record self.old { given_ms = self.old.given_ms + result } }
    {
        let whole = self.passed_ns / NANOSECONDS;
        let ms = of_a_tick(whole.saturating_sub(self.given_ms));
        self.given_ms += ms;
        ms
    }

    /// The milliseconds up to the one that has begun, at most those of the longest tick, that the device was not given.
    pub fn begun(&self) -> u64
        ensures { result ≡ begun_ms self.now.passed_ns self.now.given_ms }
    {
        let whole = whole_begun(self.passed_ns);
        of_a_tick(whole.saturating_sub(self.given_ms))
    }

    /// Gives so many milliseconds, as far as they have begun.
    pub fn bring_up(&mut self, ms: u64)
        ensures { self.new ≡ record self.old {
          given_ms = self.old.given_ms + min ms (begun_ms self.old.passed_ns self.old.given_ms);
        } }
    {
        self.given_ms += ms.min(self.begun());
    }

    /// How long a caller waits until so many milliseconds can be given, if so much time passed since the last reading: not
    /// at all while a whole millisecond is owed.
    pub fn wait(&self, passed: Duration, ms: u64) -> Duration
        ensures { as_nanos result ≡ wait_ns self.now.passed_ns self.now.given_ms (as_nanos passed) ms }
    {
        if self.given_ms < self.passed_ns / NANOSECONDS {
            return Duration::ZERO;
        }
        Duration::from_millis(self.given_ms.saturating_add(ms))
            .saturating_sub(Duration::from_nanos(self.passed_ns))
            .saturating_sub(passed)
    }
}

/// These milliseconds, at most those of the longest tick.
fn of_a_tick(ms: u64) -> u64
    ensures { result ≡ min ms 60000 }
{
    ms.min(u64::from(LONGEST_TICK_MS))
}

/// The milliseconds up to the one that has begun.
fn whole_begun(passed_ns: u64) -> u64
    ensures { result ≡ whole_begun passed_ns }
{
    let whole = passed_ns / NANOSECONDS;
    if passed_ns % NANOSECONDS == 0 {
        whole
    } else {
        whole + 1
    }
}

/// The nanoseconds from the last reading of a clock to this one: none if there is no last one, and none if the clock
/// went back. At most 2^64, which are 584 years.
pub fn passed_ns(last: Option<Instant>, now: Instant) -> u64
    ensures { result ≡ owed_after 0 (passed_ns last now) }
{
    let Some(last) = last else {
        return 0;
    };
    let ns = now.duration_since(last).as_nanos();
    ns.min(u128::from(u64::MAX)) as u64
}
