//! Why the program ends early.

use cip_events::NewFault;
use cip_types::OutOfMemory;
use plant_rim::PlantFault;
use station_record::RecordFault;
use std::alloc::{AllocError, AllocFailed};
use std::io;
use thiserror::Error;
use trace_text::{TextFault, TraceFault};

/// Why the program ends early.
#[derive(Debug, Drop, Error)]
pub enum StationRunFault {
    #[error("no memory")]
    OutOfMemory,
    #[error("a line of a run that is none")]
    Line,
    #[error(transparent)]
    Profile(#[from] TraceFault),
    #[error(transparent)]
    New(#[from] NewFault),
    #[error(transparent)]
    Record(#[from] RecordFault),
    #[error(transparent)]
    Io(#[from] io::Error),
}

impl From<OutOfMemory> for StationRunFault {
    fn from(_error: OutOfMemory) -> StationRunFault {
        StationRunFault::OutOfMemory
    }
}

impl From<AllocError> for StationRunFault {
    fn from(_error: AllocError) -> StationRunFault {
        StationRunFault::OutOfMemory
    }
}

impl<T: Drop> From<AllocFailed<T>> for StationRunFault {
    fn from(_refused: AllocFailed<T>) -> StationRunFault {
        StationRunFault::OutOfMemory
    }
}

impl From<TextFault> for StationRunFault {
    fn from(fault: TextFault) -> StationRunFault {
        match fault {
            TextFault::Bad => StationRunFault::Line,
            TextFault::OutOfMemory => StationRunFault::OutOfMemory,
        }
    }
}

impl From<PlantFault> for StationRunFault {
    fn from(fault: PlantFault) -> StationRunFault {
        match fault {
            PlantFault::BadLine(..) => StationRunFault::Line,
            PlantFault::OutOfMemory => StationRunFault::OutOfMemory,
        }
    }
}
