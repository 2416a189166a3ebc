//! Why a record ends.

ghost use Rattle.std.specs.Prelude.{◌≡◌};

use cip_types::OutOfMemory;
use std::alloc::AllocError;
use thiserror::Error;

/// Why a record ends. The device goes on without it.
#[derive(Clone, Copy, Debug, PartialEq, Eq, Error)]
pub enum RecordFault {
    /// The sink did not take all of a text: it has no room, or it failed.
    #[error("the record cannot take more")]
    Refused,
    /// The record has as many bytes as it may have: there is no room for one more event.
    #[error("the record has all its bytes")]
    Full,
    /// An allocation was refused. The record has whole events.
    #[error("no memory for the record")]
    OutOfMemory,
}

impl RecordFault {
    /// The line that says that a record has ended, and why.
    pub fn line(self) -> &'static [u8] {
        match self {
            RecordFault::Full => b"eip_station: the record has all its bytes and has ended\n",
            _ => b"eip_station: the record cannot take more and has ended\n",
        }
    }
}

impl From<OutOfMemory> for RecordFault {
    ghost use Rattle.station_record.specs.declared.fault.RecordFault.TheVariants as fault;

    ghost from_gives = { λ _ f. f ≡ fault.OutOfMemory };

    fn from(_refused: OutOfMemory) -> RecordFault {
        RecordFault::OutOfMemory
    }
}

impl From<AllocError> for RecordFault {
    ghost use Rattle.station_record.specs.declared.fault.RecordFault.TheVariants as fault;

    ghost from_gives = { λ _ f. f ≡ fault.OutOfMemory };

    fn from(_refused: AllocError) -> RecordFault {
        RecordFault::OutOfMemory
    }
}
