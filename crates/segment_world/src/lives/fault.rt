//! Faults of a restart.

use cip_types::OutOfMemory;
use thiserror::Error;

/// Why a device did not restart: the first of these. The plant is unchanged then.
#[derive(Clone, Copy, Debug, PartialEq, Eq, Error)]
pub enum RestartFault {
    /// The plant has no device of this index.
    #[error("no such device")]
    NoSuchDevice,
    /// A life of this plant has the incarnation, so a datagram of that life could be taken for one of the next: the profile
    /// states no connection ids.
    #[error("the incarnation was used")]
    UsedIncarnation,
    /// The incarnation is 0, which begins no connection id.
    #[error("the incarnation is 0")]
    ZeroIncarnation,
    /// The plant found no memory.
    #[error("no memory")]
    OutOfMemory,
}

impl From<OutOfMemory> for RestartFault {
    ghost use Rattle.std.specs.Prelude.{◌≡◌};
    ghost use Rattle.segment_world.specs.declared.lives.fault.RestartFault.TheVariants as fault;

    ghost from_gives = { λ _ f. f ≡ fault.OutOfMemory };

    fn from(_error: OutOfMemory) -> RestartFault {
        RestartFault::OutOfMemory
    }
}
