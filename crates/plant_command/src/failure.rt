//! Why a plant fails.

ghost use Rattle.std.specs.Prelude.{◌≡◌};
ghost use Rattle.plant_command.specs.Statuses.{device_status, is_reported, status_of};

use cip_types::OutOfMemory;
use plant_rim::DeviceFailure;
use station_port::SocketCause;
use station_setup::ReportFault;
use std::alloc::{AllocError, AllocFailed};
use thiserror::Error;
use trace_files::FileFault;

/// Why a plant fails.
#[derive(Clone, Copy, Debug, PartialEq, Eq, Error)]
pub enum PlantFailure {
    /// The file of the plant is not read, for this reason.
    #[error("{0}")]
    Unread(FileFault),
    /// The file of the plant or a profile is bad, of which a line has told.
    #[error("is bad")]
    Bad,
    /// The folder of the records cannot be made.
    #[error("the folder of the records cannot be made")]
    Folder,
    /// The report on its scripts is not written, for this reason.
    #[error("{0}")]
    Report(ReportFault),
    /// A script has not passed, of which lines have told.
    #[error("a script has not passed")]
    Script,
    /// A device has failed, of which a line has told.
    #[error("a device has failed: {0}")]
    Device(DeviceFailure),
    /// The clock cannot be read.
    #[error("the clock cannot be read")]
    Clock,
    /// An allocation was refused.
    #[error("no memory")]
    OutOfMemory,
}

impl PlantFailure {
    /// The status of the program.
    pub fn status(self) -> u8
        ensures { result ≡ status_of self }
    {
        match self {
            PlantFailure::Unread(_) => 3,
            PlantFailure::Bad => 3,
            PlantFailure::Folder => 6,
            PlantFailure::Report(_) => 6,
            PlantFailure::Script => 8,
            PlantFailure::Device(failure) => device_status(failure),
            PlantFailure::Clock => 1,
            PlantFailure::OutOfMemory => 7,
        }
    }

    /// Whether a line has told it already.
    pub fn is_reported(self) -> bool
        ensures { result ≡ is_reported self }
    {
        match self {
            PlantFailure::Bad => true,
            PlantFailure::Device(_) => true,
            PlantFailure::Script => true,
            _ => false,
        }
    }
}

/// The status of the program after a device has failed.
fn device_status(failure: DeviceFailure) -> u8
    ensures { result ≡ device_status failure }
{
    match failure {
        DeviceFailure::Socket(_, SocketCause::NoAddress) => 4,
        DeviceFailure::Socket(_, _) => 5,
        DeviceFailure::Record => 6,
        DeviceFailure::RecordEnd => 6,
        DeviceFailure::Early(_) => 1,
        DeviceFailure::Profile => 3,
        DeviceFailure::OutOfMemory => 7,
    }
}

impl From<ReportFault> for PlantFailure {
    ghost use Rattle.plant_command.specs.Statuses.{report_failure};

    ghost from_gives = { λ fault given. given ≡ report_failure fault };

    fn from(fault: ReportFault) -> PlantFailure {
        match fault {
            ReportFault::OutOfMemory => PlantFailure::OutOfMemory,
            other => PlantFailure::Report(other),
        }
    }
}

impl From<OutOfMemory> for PlantFailure {
    ghost use Rattle.plant_command.specs.declared.failure.PlantFailure.TheVariants as failure;

    ghost from_gives = { λ _ given. given ≡ failure.OutOfMemory };

    fn from(_refused: OutOfMemory) -> PlantFailure {
        PlantFailure::OutOfMemory
    }
}

impl From<AllocError> for PlantFailure {
    ghost use Rattle.plant_command.specs.declared.failure.PlantFailure.TheVariants as failure;

    ghost from_gives = { λ _ given. given ≡ failure.OutOfMemory };

    fn from(_refused: AllocError) -> PlantFailure {
        PlantFailure::OutOfMemory
    }
}

impl<T: Drop> From<AllocFailed<T>> for PlantFailure {
    ghost use Rattle.plant_command.specs.declared.failure.PlantFailure.TheVariants as failure;

    ghost from_gives = { λ _ given. given ≡ failure.OutOfMemory };

    fn from(_refused: AllocFailed<T>) -> PlantFailure {
        PlantFailure::OutOfMemory
    }
}
