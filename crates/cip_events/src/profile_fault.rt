//! The faults of a device's profile.

ghost use Rattle.std.specs.Prelude.{◌≡◌};
ghost use Rattle.cip_events.specs.Faults.{fault_number};

use thiserror::Error;

/// The first fault of a profile.
#[derive(Clone, Copy, Debug, PartialEq, Eq, Error)]
pub enum ProfileFault {
    /// The incarnation is 0, or the ids do not begin at 1 or above, or do not end below 2^32.
    #[error("the incarnation is 0, or the ids are out of range")]
    Incarnation,
    /// The mask is not ones and then zeros, or the address within the network is 0.
    #[error("the address or its mask is none")]
    Address,
    /// No input, or more than 8 inputs or outputs.
    #[error("no input, or more than 8 inputs or outputs")]
    Points,
    /// Two points, heartbeats and the configuration among them, have one instance.
    #[error("two points have one instance")]
    SameInstance,
    /// A point is not of 1 to 1,400 bytes, or the configuration is above 400 bytes or odd.
    #[error("a point's length is out of range")]
    Length,
    /// A packet interval, a multiplier or a time is out of range.
    #[error("a time is out of range")]
    Timing,
    /// The major revision is not in 1 to 127, or the minor one is 0.
    #[error("the revision is out of range")]
    Identity,
    /// The name has more than 32 bytes, the physical address not six, or the inactivity time-out is above 3,600 s.
    #[error("the description is out of range")]
    Description,
    /// A limit that the maker states is out of range.
    #[error("a limit of the maker's is out of range")]
    Limits,
    /// A class of the maker's own is that of another object, or named twice, or there are more than 16.
    #[error("a class of the maker's own is out of range")]
    Objects,
}

impl ProfileFault {
    /// The fault's number, from 1, as programs print it.
    pub fn number(self) -> u8
        ensures { result ≡ fault_number self }
    {
        match self {
            ProfileFault::Incarnation => 1,
            ProfileFault::Address => 2,
            ProfileFault::Points => 3,
            ProfileFault::SameInstance => 4,
            ProfileFault::Length => 5,
            ProfileFault::Timing => 6,
            ProfileFault::Identity => 7,
            ProfileFault::Description => 8,
            ProfileFault::Limits => 9,
            ProfileFault::Objects => 10,
        }
    }
}
