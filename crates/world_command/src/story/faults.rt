//! Why a line is none of a story.

ghost use Rattle.std.specs.Prelude.{◌≡◌};

use cip_types::OutOfMemory;
use thiserror::Error;

/// What is wrong with a line.
#[derive(Clone, Copy, Debug, PartialEq, Eq, Error)]
pub enum StoryLineFault {
    /// A byte of it is no ASCII character, and it is no comment.
    #[error("a byte of it is no ASCII character")]
    NotAscii,
    /// The name of a device is missing, or it is the word of another line.
    #[error("the name of a device is a word other than device")]
    BadName,
    /// The path of the profile is missing.
    #[error("the path of the device's profile is missing")]
    NoProfile,
    /// An earlier device has the name.
    #[error("an earlier device has this name")]
    SameName,
    /// No device before it has the name at its front.
    #[error("no device before it has the name that it begins with")]
    UnknownDevice,
    /// What follows the name of the device is no act.
    #[error("an act is opens NAME, forth STREAM, back STREAM, takes INDEX, cuts STREAM, restarts INCARNATION, or a call of an application, tick or inquiry of a trace")]
    NoAct,
}

/// Why a line is not read.
#[derive(Clone, Copy, Debug, PartialEq, Eq)]
pub enum StoryReadFault {
    /// The line is bad.
    Line(StoryLineFault),
    /// An allocation was refused.
    OutOfMemory,
}

impl From<OutOfMemory> for StoryReadFault {
    ghost use Rattle.world_command.specs.declared.story.faults.StoryReadFault.TheVariants as fault;

    ghost from_gives = { λ _ f. f ≡ fault.OutOfMemory };

    fn from(_error: OutOfMemory) -> StoryReadFault {
        StoryReadFault::OutOfMemory
    }
}

impl From<StoryLineFault> for StoryReadFault {
    ghost use Rattle.world_command.specs.declared.story.faults.StoryReadFault.TheVariants as fault;

    ghost from_gives = { λ line f. f ≡ fault.Line line };

    fn from(line: StoryLineFault) -> StoryReadFault {
        StoryReadFault::Line(line)
    }
}
