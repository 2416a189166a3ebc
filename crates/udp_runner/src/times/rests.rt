//! When a loop that never waits rests.

ghost use Rattle.std.specs.Prelude.{◌≡◌};
ghost use Rattle.udp_runner.specs.Times.Rests.{after_wait, rest_ns};

/// A loop that has been busy for so many nanoseconds rests: 2 ms.
const BUSY_NS: u64 = 2_000_000;

/// A rest has so many nanoseconds: 0.25 ms.
const REST_NS: u64 = 250_000;

/// A shorter wait is no rest: it is the call itself.
const LEAST_WAIT_NS: u64 = 20_000;

/// Since when a loop has been busy, and how long it has waited meanwhile. Times are in nanoseconds.
#[derive(Clone, Copy)]
pub struct BusyTime {
    since_ns: u64,
    rested_ns: u64,
}

impl BusyTime {
    /// A loop that begins now.
    pub fn begin(now_ns: u64) -> BusyTime
        ensures { result ≡ record { since_ns = now_ns; rested_ns = 0 } }
    {
        BusyTime {
            since_ns: now_ns,
            rested_ns: 0,
        }
    }

    /// How long the loop has to rest now. It has to once it was busy for 2 ms without waiting for 0.25 ms altogether, so that a
    /// system that stops a thread which uses 95 % of a second never stops it.
    pub fn rest_ns(&self, now_ns: u64) -> u64
        ensures { result ≡ rest_ns self.now now_ns }
    {
        if now_ns.saturating_sub(self.since_ns) < BUSY_NS {
            0
        } else {
            REST_NS.saturating_sub(self.rested_ns)
        }
    }

    /// The loop waited from one time to the other.
    pub fn note_wait(&mut self, from_ns: u64, to_ns: u64)
        ensures { self.new ≡ after_wait self.old from_ns to_ns }
    {
        let ns = to_ns.saturating_sub(from_ns);
        if ns < LEAST_WAIT_NS {
            return;
        }
        let rested_ns = self.rested_ns.saturating_add(ns);
        if rested_ns < REST_NS {
            self.rested_ns = rested_ns;
        } else {
            *self = BusyTime::begin(to_ns);
        }
    }
}
