//! The system's clock.

use cip_types::Ms;
use std::rt::Clock as System;
use std::time::{Duration, Instant};
use udp_runner::{Clock, OwedTime, passed_ns};

/// Whole milliseconds of the system's clock, in answers of at most the longest tick. What an answer does not give is
/// owed, and the next answers give it: a pause of any length reaches the device whole. What a device was told ahead, up to
/// the millisecond that has begun, no later answer gives again. A reading before the last one adds no time, and the next
/// reading counts from it.
#[derive(Drop)]
pub struct SystemClock<R: System + Drop> {
    rt: R,
    last: Option<Instant>,
    owed: OwedTime,
}

impl<R: System + Drop> SystemClock<R> {
    /// A clock that was not read yet.
    pub fn new(rt: R) -> SystemClock<R> {
        SystemClock {
            rt,
            last: None,
            owed: OwedTime::none(),
        }
    }

    /// The time since the last reading: none if the clock went back, or cannot be read.
    fn since(&self, last: Instant) -> Duration {
        match Instant::now(&self.rt) {
            Ok(now) => now.duration_since(last),
            Err(_) => Duration::ZERO,
        }
    }

    /// Adds the time since the last reading to what is owed. A clock that cannot be read adds none.
    fn read(&mut self) {
        if let Ok(now) = Instant::now(&self.rt) {
            self.owed.add(passed_ns(self.last, now));
            self.last = Some(now);
        }
    }
}

impl<R: System + Drop> Clock for SystemClock<R> {
    ghost use Rattle.std.specs.Prelude.{false, []};

    ghost is_scripted = { false };

    ghost coming = { λ clock. [] };

    fn passed(&mut self) -> u64 {
        self.read();
        self.owed.give()
    }

    fn begun(&mut self) -> u64 {
        self.read();
        self.owed.begun()
    }

    fn bring_up(&mut self, ms: u64) {
        self.owed.bring_up(ms);
    }

    fn time_to(&self, ms: Ms) -> Duration {
        match self.last {
            Some(last) => self.owed.wait(self.since(last), ms.0),
            None => Duration::ZERO,
        }
    }
}
