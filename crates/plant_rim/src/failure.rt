//! Why a device of a plant fails.

ghost use Rattle.std.specs.Prelude.{◌≡◌};

use cip_tables::NewFault;
use cip_types::OutOfMemory;
use station::EarlyEnd;
use station_port::{SocketCause, StationFault, StationSocket};
use station_record::RecordFault;
use std::alloc::{AllocError, AllocFailed};
use thiserror::Error;

/// Why a device of a plant fails.
#[derive(Clone, Copy, Debug, PartialEq, Eq, Error)]
pub enum DeviceFailure {
    /// A socket cannot be made.
    #[error("the {0} {1}")]
    Socket(StationSocket, SocketCause),
    /// A record cannot be made.
    #[error("its record cannot be written")]
    Record,
    /// A record has ended before its life.
    #[error("its record cannot take more and has ended")]
    RecordEnd,
    /// A life ended before its time.
    #[error(transparent)]
    Early(EarlyEnd),
    /// The profile makes no device.
    #[error("its profile makes no device")]
    Profile,
    /// An allocation was refused.
    #[error("no memory")]
    OutOfMemory,
}

impl From<StationFault> for DeviceFailure {
    ghost use Rattle.plant_rim.specs.Failures.{port_failure};

    ghost from_gives = { λ fault given. given ≡ port_failure fault };

    fn from(fault: StationFault) -> DeviceFailure {
        match fault {
            StationFault::Socket(socket, cause) => DeviceFailure::Socket(socket, cause),
            StationFault::OutOfMemory => DeviceFailure::OutOfMemory,
        }
    }
}

impl From<RecordFault> for DeviceFailure {
    ghost use Rattle.plant_rim.specs.Failures.{record_failure};

    ghost from_gives = { λ fault given. given ≡ record_failure fault };

    fn from(fault: RecordFault) -> DeviceFailure {
        match fault {
            RecordFault::OutOfMemory => DeviceFailure::OutOfMemory,
            RecordFault::Refused => DeviceFailure::Record,
            RecordFault::Full => DeviceFailure::Record,
        }
    }
}

impl From<EarlyEnd> for DeviceFailure {
    ghost use Rattle.plant_rim.specs.Failures.{early_failure};

    ghost from_gives = { λ fault given. given ≡ early_failure fault };

    fn from(end: EarlyEnd) -> DeviceFailure {
        match end {
            EarlyEnd::OutOfMemory => DeviceFailure::OutOfMemory,
            other => DeviceFailure::Early(other),
        }
    }
}

impl From<NewFault> for DeviceFailure {
    ghost use Rattle.plant_rim.specs.Failures.{new_failure};

    ghost from_gives = { λ fault given. given ≡ new_failure fault };

    fn from(fault: NewFault) -> DeviceFailure {
        match fault {
            NewFault::OutOfMemory => DeviceFailure::OutOfMemory,
            _ => DeviceFailure::Profile,
        }
    }
}

impl From<OutOfMemory> for DeviceFailure {
    ghost use Rattle.plant_rim.specs.declared.failure.DeviceFailure.TheVariants as failure;

    ghost from_gives = { λ _ given. given ≡ failure.OutOfMemory };

    fn from(_refused: OutOfMemory) -> DeviceFailure {
        DeviceFailure::OutOfMemory
    }
}

impl From<AllocError> for DeviceFailure {
    ghost use Rattle.plant_rim.specs.declared.failure.DeviceFailure.TheVariants as failure;

    ghost from_gives = { λ _ given. given ≡ failure.OutOfMemory };

    fn from(_refused: AllocError) -> DeviceFailure {
        DeviceFailure::OutOfMemory
    }
}

impl<T: Drop> From<AllocFailed<T>> for DeviceFailure {
    ghost use Rattle.plant_rim.specs.declared.failure.DeviceFailure.TheVariants as failure;

    ghost from_gives = { λ _ given. given ≡ failure.OutOfMemory };

    fn from(_refused: AllocFailed<T>) -> DeviceFailure {
        DeviceFailure::OutOfMemory
    }
}
