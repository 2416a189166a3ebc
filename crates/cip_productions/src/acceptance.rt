//! The acceptance of datagrams by their sequence numbers and counts.

ghost use Rattle.std.specs.Prelude.{◌≡◌};
ghost use Rattle.cip_productions.specs.Acceptance.{accepts_sequence, is_duplicate};

use cip_types::{newer32, same16};

/// The sequence number and the sequence count of the last accepted datagram.
#[derive(Clone, Copy, PartialEq, Eq)]
pub struct Accepted {
    pub number: u32,
    pub count: u16,
}

/// Whether a datagram of this sequence number is accepted: the first one is, and a later one if its number is
/// newer than the last accepted one. Takes no memory.
///
/// Volume 2, chapter 2, sequenced address item.
pub fn accepts_sequence(last: Option<Accepted>, sequence: u32) -> bool
    ensures { result ≡ accepts_sequence last sequence }
{
    match last {
        Some(last) => newer32(sequence, last.number),
        None => true,
    }
}

/// Whether a datagram of this count has no new data. Takes no memory.
///
/// Volume 1, chapter 3, class 1 transport.
pub fn is_duplicate(last: Option<Accepted>, count: u16) -> bool
    ensures { result ≡ is_duplicate last count }
{
    match last {
        Some(last) => same16(count, last.count),
        None => false,
    }
}
