//! The numbers that C reads for the outcome of a call.

ghost use Rattle.std.specs.Prelude.{◌≡◌};
ghost use Rattle.eip_c.specs.declared.status.CallStatus.TheVariants.{Fault};
ghost use Rattle.eip_c.specs.Statuses.{status_of};

use cip_events::StepFault;

/// The outcome of a call. `status_of` gives each its number. The number 9 is no status, and is given to none.
#[derive(Clone, Copy)]
pub enum CallStatus {
    /// The call was performed, and its bytes are written.
    Done,
    /// The event is refused.
    Fault(StepFault),
    /// The call was performed. Its bytes need more room, and are counted.
    NoRoom,
    /// No answer is kept.
    NoAnswer,
    /// A line of the profile is bad.
    BadLine,
    /// The profile has a fault.
    BadProfile,
    /// The message is no inquiry.
    NoInquiry,
    /// The name has more than 32 bytes.
    LongName,
    /// No call answers this: the status of every other number.
    Unknown,
}

/// `Done`.
pub const DONE: u32 = 0;

/// `Fault(OutOfMemory)`.
pub const OUT_OF_MEMORY: u32 = 1;

/// The fault `NoSuchSlot`.
pub const NO_SUCH_SLOT: u32 = 6;

/// `NoRoom`.
pub const NO_ROOM: u32 = 8;

/// `NoAnswer`.
pub const NO_ANSWER: u32 = 10;

/// `BadLine`.
pub const BAD_LINE: u32 = 11;

/// `BadProfile`.
pub const BAD_PROFILE: u32 = 12;

/// `NoInquiry`.
pub const NO_INQUIRY: u32 = 13;

/// `LongName`.
pub const LONG_NAME: u32 = 14;

/// There is no such connection.
pub const NO_CONNECTION: u32 = 15;

/// The number of a fault.
pub fn fault_number(fault: StepFault) -> u32
    ensures { status_of result ≡ Fault fault }
{
    match fault {
        StepFault::OutOfMemory => 1,
        StepFault::TickTooLong => 2,
        StepFault::ClockEnd => 3,
        StepFault::NoSuchPoint => 4,
        StepFault::WrongLength => 5,
        StepFault::NoSuchSlot => 6,
        StepFault::NotAllowedNow => 7,
    }
}
