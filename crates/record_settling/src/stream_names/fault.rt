//! Why the streams of records get no names.

use cip_types::OutOfMemory;
use std::alloc::AllocFailed;

/// The place of an event: the index of its record, and its index among the events there, from 0.
#[derive(Clone, Copy, PartialEq, Eq)]
pub struct EventPlace {
    pub record: usize,
    pub event: usize,
}

/// Why the streams of records get no names.
#[derive(Clone, Copy, PartialEq, Eq)]
pub enum NamingFault {
    /// This event takes a message that the device at the other end did not send over the stream in its place.
    Unsent(EventPlace),
    /// There are more streams than numbers.
    Streams,
    /// An allocation was refused.
    OutOfMemory,
}

impl From<OutOfMemory> for NamingFault {
    ghost use Rattle.std.specs.Prelude.{◌≡◌};
    ghost use Rattle.record_settling.specs.declared.stream_names.fault.NamingFault.TheVariants as fault;

    ghost from_gives = { λ _ f. f ≡ fault.OutOfMemory };

    fn from(_error: OutOfMemory) -> NamingFault {
        NamingFault::OutOfMemory
    }
}

impl<T: Drop> From<AllocFailed<T>> for NamingFault {
    ghost use Rattle.std.specs.Prelude.{◌≡◌};
    ghost use Rattle.record_settling.specs.declared.stream_names.fault.NamingFault.TheVariants as fault;

    ghost from_gives = { λ _ f. f ≡ fault.OutOfMemory };

    fn from(_error: AllocFailed<T>) -> NamingFault {
        NamingFault::OutOfMemory
    }
}
