//! Why a search finds nothing.

ghost use Rattle.std.specs.Prelude.{◌≡◌};
ghost use Rattle.identity_search.specs.Statuses.{search_status};

use cip_types::OutOfMemory;
use std::alloc::{AllocError, AllocFailed};
use thiserror::Error;

/// Why a search finds nothing.
#[derive(Clone, Copy, Debug, PartialEq, Eq, Error)]
pub enum SearchFault {
    /// There is no socket, or it does not take the request.
    #[error("the request cannot be sent")]
    Socket,
    /// No device answered within the time.
    #[error("no device answered")]
    NoAnswer,
    /// The output does not take a line.
    #[error("standard output cannot be written")]
    Output,
    /// An allocation was refused.
    #[error("no memory")]
    OutOfMemory,
}

impl SearchFault {
    /// The status of the program.
    pub fn status(self) -> u8
        ensures { result ≡ search_status self }
    {
        match self {
            SearchFault::NoAnswer => 1,
            SearchFault::Output => 1,
            SearchFault::Socket => 5,
            SearchFault::OutOfMemory => 7,
        }
    }
}

impl From<OutOfMemory> for SearchFault {
    fn from(_refused: OutOfMemory) -> SearchFault {
        SearchFault::OutOfMemory
    }
}

impl From<AllocError> for SearchFault {
    fn from(_refused: AllocError) -> SearchFault {
        SearchFault::OutOfMemory
    }
}

impl<T: Drop> From<AllocFailed<T>> for SearchFault {
    fn from(_refused: AllocFailed<T>) -> SearchFault {
        SearchFault::OutOfMemory
    }
}
