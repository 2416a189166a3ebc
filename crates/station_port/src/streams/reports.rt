//! The reports of a port that its station has not taken yet.

ghost use Rattle.std.specs.Prelude.{◌≡◌, ◌++◌, ◌∷◌, [], drop, slice_get, IfOk};
ghost use Rattle.circular_buffer.specs.Buffer.{buffer, keep_last};

use cip_types::OutOfMemory;
use circular_buffer::HeapCircularBuffer;
use std::alloc::Global;
use udp_runner::PortReport;

/// A port keeps at most so many reports: where no more fit, the oldest one is lost.
const MOST_REPORTS: usize = 64;

/// The reports that were not taken yet, the oldest first.
#[derive(Drop)]
pub struct Reports {
    ring: HeapCircularBuffer<PortReport>,
}

impl Reports {
    /// None. The only fault is a refused allocation.
    pub fn new(alloc: Global) -> Result<Reports, OutOfMemory>
        ensures { IfOk result (λ reports. reports.ring ≡ buffer [] 64) }
    {
        Ok(Reports {
            ring: HeapCircularBuffer::with_capacity(alloc, MOST_REPORTS)?,
        })
    }

    /// Adds a report.
    pub fn push(&mut self, report: PortReport)
        ensures { self.new.ring
            ≡ buffer (keep_last self.old.ring.capacity (self.old.ring.items ++ report ∷ [])) self.old.ring.capacity }
    {
        let _lost = self.ring.push_back(report);
    }

    /// Takes the oldest one.
    pub fn next(&mut self) -> Option<PortReport>
        ensures given { result ≡ slice_get self.old.ring.items 0 }
        ensures left { self.new.ring ≡ buffer (drop 1 self.old.ring.items) self.old.ring.capacity }
    {
        self.ring.pop_front()
    }
}
