//! Why files are not played, written as a capture file or explained to their end.

ghost use Rattle.std.specs.Prelude.{◌≡◌};
ghost use Rattle.trace_commands.specs.Unread.{broken_fault, traces_status, unread_fault};

use cip_types::OutOfMemory;
use std::alloc::{AllocError, AllocFailed};
use std::io::ErrorKind;
use thiserror::Error;
use trace_files::FileFault;
use trace_stepper::{NotTaken, StepperFault};
use trace_text::TraceFault;

/// Why files are not played, written as a capture file or explained to their end.
#[derive(Clone, Copy, Debug, PartialEq, Eq, Error)]
pub enum TracesFault {
    /// The file at this index is not read, for this reason.
    #[error("{1}")]
    Unread(usize, FileFault),
    /// The files are no trace: a line is bad, counted over all files, or the profile is.
    #[error(transparent)]
    Trace(TraceFault),
    /// The files are no trace, and the output says why.
    #[error("is no trace")]
    NoTrace,
    /// The profile has events behind its lines.
    #[error("has events behind the profile")]
    Events,
    /// The profile is that of a scanner, which has no data sheet.
    #[error("is the profile of a scanner, which has no data sheet")]
    Scanner,
    /// An outcome is not as recorded. The last line of the output names the first such event.
    #[error("an outcome is not as recorded")]
    Differs,
    /// The output cannot be written.
    #[error("fault Write")]
    Write,
    /// An allocation was refused.
    #[error("no memory")]
    OutOfMemory,
}

impl TracesFault {
    /// The status of the program.
    pub fn status(self) -> u8
        ensures { result ≡ traces_status self }
    {
        match self {
            TracesFault::Unread(_, _) => 3,
            TracesFault::Trace(_) => 3,
            TracesFault::NoTrace => 3,
            TracesFault::Events => 3,
            TracesFault::Scanner => 3,
            TracesFault::Differs => 1,
            TracesFault::Write => 1,
            TracesFault::OutOfMemory => 7,
        }
    }
}

impl From<TraceFault> for TracesFault {
    fn from(fault: TraceFault) -> TracesFault {
        match fault {
            TraceFault::OutOfMemory => TracesFault::OutOfMemory,
            other => TracesFault::Trace(other),
        }
    }
}

impl From<StepperFault> for TracesFault {
    fn from(fault: StepperFault) -> TracesFault {
        match fault {
            StepperFault::Write => TracesFault::Write,
            _ => TracesFault::OutOfMemory,
        }
    }
}

impl From<NotTaken> for TracesFault {
    fn from(_refused: NotTaken) -> TracesFault {
        TracesFault::Write
    }
}

impl From<OutOfMemory> for TracesFault {
    fn from(_refused: OutOfMemory) -> TracesFault {
        TracesFault::OutOfMemory
    }
}

impl From<AllocError> for TracesFault {
    fn from(_refused: AllocError) -> TracesFault {
        TracesFault::OutOfMemory
    }
}

impl<T: Drop> From<AllocFailed<T>> for TracesFault {
    fn from(_refused: AllocFailed<T>) -> TracesFault {
        TracesFault::OutOfMemory
    }
}

/// Why the file at an index is not read.
pub(crate) fn unread(place: usize, fault: FileFault) -> TracesFault
    ensures { result ≡ unread_fault place fault }
{
    match fault {
        FileFault::OutOfMemory => TracesFault::OutOfMemory,
        other => TracesFault::Unread(place, other),
    }
}

/// Why the file at an index, which was opened, is not read to its end, by the kind of the system's error.
pub(crate) fn broken(place: usize, kind: ErrorKind) -> TracesFault
    ensures { result ≡ broken_fault place kind }
{
    match kind {
        ErrorKind::OutOfMemory => TracesFault::OutOfMemory,
        _ => TracesFault::Unread(place, FileFault::Unread),
    }
}
