//! Why records do not settle.

use crate::stream_names::{EventPlace, NamingFault};
use cip_types::{Node, OutOfMemory};
use std::alloc::{AllocError, AllocFailed};

/// Why records do not settle.
#[derive(Clone, Copy, PartialEq, Eq)]
pub enum RecordsFault {
    /// The profile of the record at this index has a fault.
    Profile(usize),
    /// The records at these two indexes have one incarnation, so that ids of both devices begin alike.
    SameIncarnation(usize, usize),
    /// The records at these two indexes have one address.
    SameNode(usize, usize),
    /// An event has no recorded outcome.
    Unrecorded(EventPlace),
    /// A fresh device does not give the recorded outcome of this event: the first such event of the record.
    Differs(EventPlace),
    /// An event comes from this address, which has no record.
    Outsider(EventPlace, Node),
    /// A request without a stream: no device sends one.
    Streamless(EventPlace),
    /// A datagram that the device of its address never sent.
    Unsent(EventPlace),
    /// A message of a stream that the device at the other end did not send over it in this place.
    UnsentFrame(EventPlace),
    /// The records have more streams than a network has numbers.
    Streams,
    /// The devices of the records at these two indexes have a connection id in common.
    SharedIds(usize, usize),
    /// An event that depends on what is left out: its answer is another one without refused events and stations' messages.
    Foreign(u8, u32),
    /// Nothing brings the event about in any order in which the events of each device stay: what it needs comes later.
    Uncaused(EventPlace),
    /// An allocation was refused.
    OutOfMemory,
}

impl From<OutOfMemory> for RecordsFault {
    ghost use Rattle.std.specs.Prelude.{◌≡◌};
    ghost use Rattle.record_settling.specs.declared.fault.RecordsFault.TheVariants as fault;

    ghost from_gives = { λ _ f. f ≡ fault.OutOfMemory };

    fn from(_error: OutOfMemory) -> RecordsFault {
        RecordsFault::OutOfMemory
    }
}

impl From<AllocError> for RecordsFault {
    ghost use Rattle.std.specs.Prelude.{◌≡◌};
    ghost use Rattle.record_settling.specs.declared.fault.RecordsFault.TheVariants as fault;

    ghost from_gives = { λ _ f. f ≡ fault.OutOfMemory };

    fn from(_error: AllocError) -> RecordsFault {
        RecordsFault::OutOfMemory
    }
}

impl<T: Drop> From<AllocFailed<T>> for RecordsFault {
    ghost use Rattle.std.specs.Prelude.{◌≡◌};
    ghost use Rattle.record_settling.specs.declared.fault.RecordsFault.TheVariants as fault;

    ghost from_gives = { λ _ f. f ≡ fault.OutOfMemory };

    fn from(_error: AllocFailed<T>) -> RecordsFault {
        RecordsFault::OutOfMemory
    }
}

impl From<NamingFault> for RecordsFault {
    fn from(fault: NamingFault) -> RecordsFault {
        match fault {
            NamingFault::Unsent(at) => RecordsFault::UnsentFrame(at),
            NamingFault::Streams => RecordsFault::Streams,
            NamingFault::OutOfMemory => RecordsFault::OutOfMemory,
        }
    }
}
