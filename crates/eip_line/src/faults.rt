//! Why a run of the program fails, and the line that reports it.

ghost use Rattle.std.specs.Prelude.{◌≡◌};
ghost use Rattle.trace_stepper.specs.Written.{BeginsToWrite, IsTaken};
ghost use Rattle.eip_line.specs.Faults.{fault_line};

use crate::output::write_numbered;
use crate::socket_loop::LoopFault;
use line_threads::LineFault;
use settling::Unsettled;
use std::io::Write;
use trace_stepper::{NotTaken, StepperFault, write_text};
use trace_text::TraceFault;

/// The status of a run that failed.
pub(crate) const FAILED: u8 = 1;

/// Why a run ended with status 1, with the line that reports it on standard error.
#[derive(Clone, Copy, Debug, PartialEq, Eq)]
pub enum ProgramFault {
    /// The trace has more than `LONGEST_TRACE` bytes: `too long`.
    TooLong,
    /// The line of this number is not allowed there: `bad line N`.
    BadLine(u64),
    /// The profile has the fault of this number: `bad profile N`.
    BadProfile(u8),
    /// An allocation was refused: `no memory`.
    OutOfMemory,
    /// The input could not be read: `fault Read`.
    Read,
    /// The output could not be written: `fault Write`.
    Write,
    /// The devices of a loop or their ports failed: `fault Port`, `fault New`, `fault Step` or `no memory`.
    Loop(LoopFault),
    /// The devices of a line or their threads failed: `no memory`, or `fault` and the name of the fault.
    Line(LineFault),
    /// What the devices of a line did does not settle: `no memory`, or `fault` and the name of the fault.
    Unsettled(Unsettled),
}

impl From<NotTaken> for ProgramFault {
    ghost use Rattle.eip_line.specs.declared.faults.ProgramFault.TheVariants as program;

    ghost from_gives = { λ _ fault. fault ≡ program.Write };

    fn from(_error: NotTaken) -> ProgramFault {
        ProgramFault::Write
    }
}

impl From<TraceFault> for ProgramFault {
    ghost use Rattle.eip_line.specs.Faults.{program_fault_of_trace};

    ghost from_gives = { λ error fault. fault ≡ program_fault_of_trace error };

    fn from(fault: TraceFault) -> ProgramFault {
        match fault {
            TraceFault::BadLine(number) => ProgramFault::BadLine(number),
            TraceFault::BadProfile(number) => ProgramFault::BadProfile(number),
            TraceFault::OutOfMemory => ProgramFault::OutOfMemory,
        }
    }
}

impl From<StepperFault> for ProgramFault {
    ghost use Rattle.eip_line.specs.Faults.{program_fault_of_step};

    ghost from_gives = { λ error fault. fault ≡ program_fault_of_step error };

    fn from(fault: StepperFault) -> ProgramFault {
        match fault {
            StepperFault::Write => ProgramFault::Write,
            StepperFault::Profile | StepperFault::OutOfMemory | StepperFault::WrongKind => {
                ProgramFault::OutOfMemory
            }
        }
    }
}

/// Reports a fault, as far as the stream takes the line, and answers the status for that.
pub(crate) fn failed<E: Write>(err: &mut E, fault: ProgramFault) -> u8
    ensures status { result ≡ 1 }
    ensures reported { BeginsToWrite (E.contents err.old) (fault_line fault) (E.contents err.new) }
{
    // (a stream that does not take the line changes nothing more)
    let _ = write_fault(err, fault);
    FAILED
}

/// Writes the line of a fault.
fn write_fault<E: Write>(err: &mut E, fault: ProgramFault) -> Result<(), NotTaken>
    ensures { IsTaken (E.contents err.old) (fault_line fault) result (E.contents err.new) }
{
    match fault {
        ProgramFault::TooLong => write_text(err, b"too long\n"),
        ProgramFault::BadLine(number) => write_numbered(err, b"bad line ", number),
        ProgramFault::BadProfile(number) => {
            write_numbered(err, b"bad profile ", u64::from(number))
        }
        ProgramFault::OutOfMemory
        | ProgramFault::Loop(LoopFault::OutOfMemory)
        | ProgramFault::Line(LineFault::OutOfMemory)
        | ProgramFault::Unsettled(Unsettled::OutOfMemory) => write_text(err, b"no memory\n"),
        ProgramFault::Read => write_text(err, b"fault Read\n"),
        ProgramFault::Write => write_text(err, b"fault Write\n"),
        ProgramFault::Loop(LoopFault::Port) => write_text(err, b"fault Port\n"),
        ProgramFault::Loop(LoopFault::New) => write_text(err, b"fault New\n"),
        ProgramFault::Loop(LoopFault::Step) | ProgramFault::Line(LineFault::Step(_)) => {
            write_text(err, b"fault Step\n")
        }
        ProgramFault::Line(LineFault::TraceFull) => write_text(err, b"fault TraceFull\n"),
        ProgramFault::Line(LineFault::Gate) => write_text(err, b"fault Gate\n"),
        ProgramFault::Line(LineFault::World) => write_text(err, b"fault World\n"),
        ProgramFault::Line(LineFault::StreamFull) => write_text(err, b"fault StreamFull\n"),
        ProgramFault::Unsettled(Unsettled::Foreign(_, _)) => write_text(err, b"fault Foreign\n"),
        ProgramFault::Unsettled(Unsettled::Missing(_, _)) => write_text(err, b"fault Missing\n"),
        ProgramFault::Unsettled(Unsettled::Uncaused(_, _)) => write_text(err, b"fault Uncaused\n"),
    }
}
