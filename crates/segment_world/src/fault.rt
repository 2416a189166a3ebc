//! Faults of the configurations of a world.

use cip_events::ProfileFault;
use cip_types::OutOfMemory;
use thiserror::Error;

/// Why a world was not made: the first of these, over all its configurations.
#[derive(Clone, Copy, Debug, PartialEq, Eq, Error)]
pub enum WorldFault {
    /// Two devices have the same incarnation, so their connection ids could be equal.
    #[error("two devices have one incarnation")]
    SameIncarnation,
    /// Two devices have the same address.
    #[error("two devices have one address")]
    SameNode,
    /// The profile of a device has a fault: the first fault of the first such device.
    #[error("bad profile: {0}")]
    Profile(ProfileFault),
    /// The world found no memory.
    #[error("no memory")]
    OutOfMemory,
}

impl From<OutOfMemory> for WorldFault {
    ghost use Rattle.std.specs.Prelude.{◌≡◌};
    ghost use Rattle.segment_world.specs.declared.fault.WorldFault.TheVariants as fault;

    ghost from_gives = { λ _ f. f ≡ fault.OutOfMemory };

    fn from(_error: OutOfMemory) -> WorldFault {
        WorldFault::OutOfMemory
    }
}
