//! Why files are not settled.

ghost use Rattle.std.specs.Prelude.{◌≡◌};
ghost use Rattle.settle_command.specs.Faults.{file_of, status_of};

use cip_types::OutOfMemory;
use std::alloc::{AllocError, AllocFailed};
use thiserror::Error;
use trace_files::FileFault;
use trace_text::TraceFault;

/// Why files are not settled.
#[derive(Clone, Copy, Debug, PartialEq, Eq, Error)]
pub enum SettleFault {
    /// The file at this index is not read, for this reason.
    #[error("{1}")]
    Unread(usize, FileFault),
    /// The first file begins in the middle of a record.
    #[error("begins in the middle of a record: give the files before it too")]
    Middle,
    /// The record that begins with the file at this index is no trace: a line is bad, counted over all its files, or its
    /// profile is.
    #[error("{1}")]
    Trace(usize, TraceFault),
    /// The records do not settle, and the output says why.
    #[error("the records do not settle")]
    Unsettled,
    /// The output cannot be written.
    #[error("standard output cannot be written")]
    Write,
    /// An allocation was refused.
    #[error("no memory")]
    OutOfMemory,
}

impl SettleFault {
    /// The status of the program where files are not settled.
    pub fn status(self) -> u8
        ensures { result ≡ status_of self }
    {
        match self {
            SettleFault::Unsettled => 1,
            SettleFault::Write => 1,
            SettleFault::Unread(_, _) => 3,
            SettleFault::Middle => 3,
            SettleFault::Trace(_, _) => 3,
            SettleFault::OutOfMemory => 7,
        }
    }

    /// The index of the file that the fault is of, if it is of one.
    pub fn file(self) -> Option<usize>
        ensures { result ≡ file_of self }
    {
        match self {
            SettleFault::Unread(place, _) => Some(place),
            SettleFault::Trace(place, _) => Some(place),
            SettleFault::Middle => Some(0),
            _ => None,
        }
    }
}

impl From<OutOfMemory> for SettleFault {
    fn from(_refused: OutOfMemory) -> SettleFault {
        SettleFault::OutOfMemory
    }
}

impl From<AllocError> for SettleFault {
    fn from(_refused: AllocError) -> SettleFault {
        SettleFault::OutOfMemory
    }
}

impl<T: Drop> From<AllocFailed<T>> for SettleFault {
    fn from(_refused: AllocFailed<T>) -> SettleFault {
        SettleFault::OutOfMemory
    }
}
