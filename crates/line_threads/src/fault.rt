//! Why a line ends without histories and receipts.

use cip_events::StepFault;
use cip_types::OutOfMemory;
use device_lock::BookFault;
use std::alloc::{AllocError, AllocFailed};
use thiserror::Error;

/// Why a line ends without histories and receipts.
#[derive(Clone, Copy, Debug, PartialEq, Eq, Error)]
pub enum LineFault {
    /// A device refused an event of its script, or one that another device sent.
    #[error(transparent)]
    Step(StepFault),
    /// A device performed 1,048,576 events.
    #[error("the segment is full")]
    TraceFull,
    /// The gate answered no.
    #[error("the gate answered no")]
    Gate,
    /// An allocation was refused.
    #[error("no memory")]
    OutOfMemory,
    /// No world can be made of the configurations.
    #[error("no world of these configurations")]
    World,
    /// A direction of a stream held 1,024 items that its end had not taken.
    #[error("a stream is full")]
    StreamFull,
}

impl From<BookFault> for LineFault {
    fn from(fault: BookFault) -> LineFault {
        match fault {
            BookFault::Step(StepFault::OutOfMemory) => LineFault::OutOfMemory,
            BookFault::Step(fault) => LineFault::Step(fault),
            BookFault::TraceFull => LineFault::TraceFull,
        }
    }
}

impl From<OutOfMemory> for LineFault {
    ghost use Rattle.std.specs.Prelude.{◌≡◌};
    ghost use Rattle.line_threads.specs.declared.fault.LineFault.TheVariants as line;

    ghost from_gives = { λ _ f. f ≡ line.OutOfMemory };

    fn from(_error: OutOfMemory) -> LineFault {
        LineFault::OutOfMemory
    }
}

impl From<AllocError> for LineFault {
    ghost use Rattle.std.specs.Prelude.{◌≡◌};
    ghost use Rattle.line_threads.specs.declared.fault.LineFault.TheVariants as line;

    ghost from_gives = { λ _ f. f ≡ line.OutOfMemory };

    fn from(_error: AllocError) -> LineFault {
        LineFault::OutOfMemory
    }
}

impl<T: Drop> From<AllocFailed<T>> for LineFault {
    fn from(_refused: AllocFailed<T>) -> LineFault {
        LineFault::OutOfMemory
    }
}
