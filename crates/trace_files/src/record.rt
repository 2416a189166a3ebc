//! The text of a record as a trace: an outcome that has its sum in its place is that of a fresh device.

use crate::filler::Filler;
use crate::trace_reader::{TracePiece, TraceReader};
use cip_tables::{Config, Device, Event};
use cip_types::Items;
use std::alloc::{AllocFailed, Global};
use trace_outcomes::PlacedSum;
use trace_stepper::StepperFault;
use trace_text::{Recorded, Trace, TraceFault, first_line};

/// A record whose sums are filled: its trace, the sums that the record has, in their order, and the number, from 1, of the
/// first event that has another sum than the outcome which a fresh device gives.
#[derive(Drop)]
pub struct FilledRecord {
    pub trace: Trace,
    pub sums: Items<PlacedSum>,
    pub differs: Option<u64>,
}

/// Reads the text of a record. It has the trace that `read_trace` has, if it has no sums; where it has one, the entry has the
/// outcome that a fresh device of the profile gives.
///
/// The faults are those of `read_trace`, for which a sum is no bad line: one that is not behind its event, or beside another
/// line of the outcome, is.
pub fn read_record<D: Device + Drop>(
    alloc: Global,
    text: &[u8],
) -> Result<FilledRecord, TraceFault> {
    let mut reader = TraceReader::new(alloc);
    let mut draft: FilledEntries<D> = FilledEntries::new(alloc);
    let mut rest = text;
    for _ in 0..text.len() {
        let Some((line, after)) = first_line(rest) else {
            break;
        };
        if let Some(piece) = reader.feed(line)? {
            draft.take(piece)?;
        }
        rest = after;
    }
    draft.take(reader.end(rest)?)?;
    draft.end()
}

/// A record as far as its text was read.
#[derive(Drop)]
struct FilledEntries<D> {
    alloc: Global,
    config: Option<Config>,
    filler: Option<Filler<D>>,
    events: Vec<(Event, Recorded)>,
    sums: Vec<PlacedSum>,
}

impl<D: Device + Drop> FilledEntries<D> {
    fn new(alloc: Global) -> FilledEntries<D> {
        FilledEntries {
            alloc,
            config: None,
            filler: None,
            events: Vec::new(alloc),
            sums: Vec::new(alloc),
        }
    }

    /// Makes the device of the configuration, or fills an entry.
    fn take(&mut self, piece: TracePiece) -> Result<(), TraceFault> {
        match piece {
            TracePiece::Config(config) => {
                let copy = config.copy(self.alloc)?;
                self.filler = Some(filler_of(self.alloc, copy)?);
                self.config = Some(config);
                Ok(())
            }
            TracePiece::Entry(entry) => {
                if let Some(sum) = entry.sum {
                    let place = self.events.len();
                    pushed(self.sums.push(PlacedSum { place, sum }))?;
                }
                let Some(filler) = &mut self.filler else {
                    return Ok(());
                };
                match filler.fill(entry) {
                    Ok(filled) => pushed(self.events.push(filled)),
                    Err(_) => Err(TraceFault::OutOfMemory),
                }
            }
        }
    }

    fn end(self) -> Result<FilledRecord, TraceFault> {
        let FilledEntries {
            config,
            filler,
            events,
            sums,
            ..
        } = self;
        let (Some(config), Some(filler)) = (config, filler) else {
            return Err(TraceFault::BadLine(1));
        };
        Ok(FilledRecord {
            trace: Trace {
                config,
                events: Items::from_vec(events),
            },
            sums: Items::from_vec(sums),
            differs: filler.differs(),
        })
    }
}

/// A fresh device, of whose profile the reader has found no fault. Each kind of device is taken.
pub(crate) fn filler_of<D: Device + Drop>(
    alloc: Global,
    config: Config,
) -> Result<Filler<D>, TraceFault> {
    match Filler::new(alloc, config) {
        Ok(filler) => Ok(filler),
        Err(StepperFault::Profile) => Err(TraceFault::BadProfile(1)),
        Err(_) => Err(TraceFault::OutOfMemory),
    }
}

/// OutOfMemory, if a value found no room.
fn pushed<T: Drop>(done: Result<(), AllocFailed<T>>) -> Result<(), TraceFault> {
    match done {
        Ok(()) => Ok(()),
        Err(_) => Err(TraceFault::OutOfMemory),
    }
}
