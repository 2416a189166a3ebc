//! The clock of a station.

ghost use Rattle.std.specs.Prelude.{false, []};

use std::collections::VecDeque;
use udp_runner::Clock;

/// Behind the turns of a run so many milliseconds pass at each further one.
const LATER_MS: u64 = 500;

/// A clock that answers the times of a run.
#[derive(Drop)]
pub struct PrintingClock<R> {
    pub rt: R,
    pub times_ms: VecDeque<u64>,
}

impl<R: Print> Clock for PrintingClock<R> {
    ghost is_scripted = { false };

    ghost coming = { λ clock. [] };

    fn passed(&mut self) -> u64 {
        let ms = self.times_ms.pop_front().unwrap_or(LATER_MS);
        if ms > 0 {
            let _ = println!(&self.rt; "passes {ms} ms");
        }
        ms
    }
}
