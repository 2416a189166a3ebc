//! The pieces of a record, of which each entry with a sum gets the outcome of a fresh device in its place.

use crate::entry_reader::TraceEntry;
use crate::filler::Filler;
use crate::record::filler_of;
use crate::trace_reader::TracePiece;
use cip_tables::Device;
use std::alloc::Global;
use trace_text::TraceFault;

/// Fills the pieces of a record: with the configuration it has a fresh device, which gives each entry with a sum its outcome.
#[derive(Drop)]
pub struct Filling<D> {
    alloc: Global,
    filler: Option<Filler<D>>,
}

impl<D: Device + Drop> Filling<D> {
    /// No configuration is known. Takes no memory.
    pub fn new(alloc: Global) -> Filling<D> {
        Filling {
            alloc,
            filler: None,
        }
    }

    /// The same piece, and in place of a sum the outcome that the device gives. OutOfMemory is the only fault where the device
    /// takes the configuration.
    pub fn fill(&mut self, piece: TracePiece) -> Result<TracePiece, TraceFault> {
        match piece {
            TracePiece::Config(config) => {
                let copy = config.copy(self.alloc)?;
                self.filler = Some(filler_of(self.alloc, copy)?);
                Ok(TracePiece::Config(config))
            }
            TracePiece::Entry(entry) => self.fill_entry(entry),
        }
    }

    fn fill_entry(&mut self, entry: TraceEntry) -> Result<TracePiece, TraceFault> {
        let Some(filler) = &mut self.filler else {
            return Ok(TracePiece::Entry(entry));
        };
        let (event, recorded) = filler.fill(entry)?;
        Ok(TracePiece::Entry(TraceEntry {
            event,
            recorded,
            sum: None,
        }))
    }

    /// The number, from 1, of the first entry that has another sum than the outcome which the device gave.
    pub fn differs(&self) -> Option<u64> {
        self.filler.as_ref()?.differs()
    }
}
