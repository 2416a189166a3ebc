//! What the host of a station counts, before each request that reads it.

ghost use Rattle.std.specs.Prelude.{◌≡◌};
ghost use Rattle.station.specs.Sources.{Counts};

use crate::sources::StepSource;
use crate::step::StationStep;
use cip_events::Event;
use cip_tables::Device;
use cip_types::{Items, OutOfMemory};

/// What the host of a station has counted of its interface.
pub trait HostCounts {
    /// What the host has counted, if a request waits that reads it: each is told of once. The time is that of the device. Never
    /// waits. The fault: an allocation was refused.
    fn next_counters(&mut self, now_ms: u64) -> Result<Option<Items<u8>>, OutOfMemory>;
}

/// The steps of a station whose device is told what its host has counted, before each request that reads it.
#[derive(Drop)]
pub struct CountedSteps<S, H> {
    steps: S,
    host: H,
}

impl<S: StepSource, H: HostCounts> CountedSteps<S, H> {
    /// These steps, at this host.
    pub fn new(steps: S, host: H) -> CountedSteps<S, H>
    where
        S: Drop,
        H: Drop,
    {
        CountedSteps { steps, host }
    }

    /// The steps.
    pub fn steps(&self) -> &S
        ensures { result.now ≡ self.now.steps }
    {
        &self.steps
    }
}

impl<S: StepSource, H: HostCounts> StepSource for CountedSteps<S, H> {
    ghost gives = { λ old now table step new. Counts S.gives old now table step new };

    fn next_step<D: Device>(
        &mut self,
        now_ms: u64,
        device: &D,
    ) -> Result<StationStep, OutOfMemory> {
        match self.host.next_counters(now_ms)? {
            Some(bytes) => Ok(StationStep::Call(Event::Counters { bytes })),
            None => self.steps.next_step(now_ms, device),
        }
    }
}
