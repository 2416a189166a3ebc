//! Why a story is not played to its end.

ghost use Rattle.std.specs.Prelude.{◌≡◌};
ghost use Rattle.world_command.specs.Failures.{status_of, unread_profile, unread_story};

use crate::story::StoryLineFault;
use cip_types::OutOfMemory;
use segment_world::WorldFault;
use std::alloc::{AllocError, AllocFailed};
use thiserror::Error;
use trace_files::FileFault;
use trace_text::TraceFault;

/// Why a story is not played to its end. Lines are numbered from 1.
#[derive(Clone, Copy, Debug, PartialEq, Eq, Error)]
pub enum WorldFailure {
    /// The file of the story is not read, for this reason.
    #[error("{0}")]
    Unread(FileFault),
    /// The line of this number is bad.
    #[error("line {0}: {1}")]
    Line(u64, StoryLineFault),
    /// The line of this number is a device, and an act is before it.
    #[error("line {0}: a device is behind an act")]
    LateDevice(u64),
    /// The file of the profile in this line is not read.
    #[error("line {0}: its profile: {1}")]
    UnreadProfile(u64, FileFault),
    /// The file of the profile in this line holds none.
    #[error("line {0}: its profile: {1}")]
    Profile(u64, TraceFault),
    /// The profile in this line has events behind its lines.
    #[error("line {0}: its profile: has events behind it")]
    Events(u64),
    /// With the device of this line there is no such network.
    #[error("line {0}: {1}")]
    World(u64, WorldFault),
    /// The output cannot be written.
    #[error("standard output cannot be written")]
    Write,
    /// An allocation was refused.
    #[error("no memory")]
    OutOfMemory,
}

impl WorldFailure {
    /// The status of the program.
    pub fn status(self) -> u8
        ensures { result ≡ status_of self }
    {
        match self {
            WorldFailure::Unread(_) => 3,
            WorldFailure::Line(_, _) => 3,
            WorldFailure::LateDevice(_) => 3,
            WorldFailure::UnreadProfile(_, _) => 3,
            WorldFailure::Profile(_, _) => 3,
            WorldFailure::Events(_) => 3,
            WorldFailure::World(_, _) => 3,
            WorldFailure::Write => 1,
            WorldFailure::OutOfMemory => 7,
        }
    }
}

/// Why the file of a story is not read.
pub(crate) fn unread_story(fault: FileFault) -> WorldFailure
    ensures { result ≡ unread_story fault }
{
    match fault {
        FileFault::OutOfMemory => WorldFailure::OutOfMemory,
        other => WorldFailure::Unread(other),
    }
}

/// Why the file of the profile in a line is not read.
pub(crate) fn unread_profile(number: u64, fault: FileFault) -> WorldFailure
    ensures { result ≡ unread_profile number fault }
{
    match fault {
        FileFault::OutOfMemory => WorldFailure::OutOfMemory,
        other => WorldFailure::UnreadProfile(number, other),
    }
}

impl From<OutOfMemory> for WorldFailure {
    fn from(_refused: OutOfMemory) -> WorldFailure {
        WorldFailure::OutOfMemory
    }
}

impl From<AllocError> for WorldFailure {
    fn from(_refused: AllocError) -> WorldFailure {
        WorldFailure::OutOfMemory
    }
}

impl<T: Drop> From<AllocFailed<T>> for WorldFailure {
    fn from(_refused: AllocFailed<T>) -> WorldFailure {
        WorldFailure::OutOfMemory
    }
}
