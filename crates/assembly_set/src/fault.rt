//! The faults of reading and writing a point.

ghost use Rattle.std.specs.Prelude.{◌≡◌};

use cip_events::StepFault;

/// Why a point is not read or written: the first of these that holds.
#[derive(Clone, Copy, Debug, PartialEq, Eq)]
pub enum PointFault {
    /// The instance is no point that can be read or written.
    NoSuchPoint,
    /// The bytes have another length than the point.
    WrongLength,
}

impl From<PointFault> for StepFault {
    ghost use Rattle.assembly_set.specs.Assemblies.{step_fault};

    ghost from_gives = { λ fault given. given ≡ step_fault fault };

    fn from(fault: PointFault) -> StepFault {
        match fault {
            PointFault::NoSuchPoint => StepFault::NoSuchPoint,
            PointFault::WrongLength => StepFault::WrongLength,
        }
    }
}
