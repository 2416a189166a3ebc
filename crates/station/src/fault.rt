//! Why a station ends before its time.

ghost use Rattle.std.specs.Prelude.{◌≡◌};
ghost use Rattle.station.specs.Faults.{counted, end_after, failures_after_call, failures_after_turn};

use cip_events::StepFault;
use cip_types::OutOfMemory;
use thiserror::Error;
use udp_runner::{PortFault, RunFault};

/// A station goes on after so many turns in a row that failed at the port, and ends at the next one.
const MOST_FAILURES: u32 = 1_000;

/// Why a station ends before its time.
#[derive(Clone, Copy, Debug, PartialEq, Eq, Error)]
pub enum EarlyEnd {
    /// The port failed again and again.
    #[error("the network port failed")]
    Port,
    /// An allocation was refused.
    #[error("no memory")]
    OutOfMemory,
    /// The device's clock has come to its end.
    #[error("the clock of the device has ended")]
    Clock,
}

impl From<OutOfMemory> for EarlyEnd {
    fn from(_refused: OutOfMemory) -> EarlyEnd {
        EarlyEnd::OutOfMemory
    }
}

/// What a fault of a turn means for a station: None if it goes on, as after a datagram that could not be sent.
pub fn end_after(fault: RunFault) -> Option<EarlyEnd>
    ensures { result ≡ end_after fault }
{
    match fault {
        RunFault::Port(PortFault::Memory) => Some(EarlyEnd::OutOfMemory),
        RunFault::Port(PortFault::Receive) => None,
        RunFault::Port(PortFault::Send) => None,
        RunFault::Step(StepFault::OutOfMemory) => Some(EarlyEnd::OutOfMemory),
        RunFault::Step(_) => Some(EarlyEnd::Clock),
    }
}

/// The failures of the port in a row after a turn, with so many before it. The fault: the station ends with the turn.
pub(crate) fn failures_after_turn(
    failures: u32,
    made: Result<u64, RunFault>,
) -> Result<u32, EarlyEnd>
    ensures { result ≡ failures_after_turn failures made }
{
    match made {
        Ok(_) => Ok(0),
        Err(fault) => match end_after(fault) {
            Some(end) => Err(end),
            None => counted(failures),
        },
    }
}

/// The failures of the port in a row after a call, with so many before it. The fault: the station ends with the call. A call
/// that the device refuses ends no station.
pub(crate) fn failures_after_call(
    failures: u32,
    made: Result<(), RunFault>,
) -> Result<u32, EarlyEnd>
    ensures { result ≡ failures_after_call failures made }
{
    match made {
        Ok(()) => Ok(failures),
        Err(RunFault::Port(_)) => counted(failures),
        Err(RunFault::Step(StepFault::OutOfMemory)) => Err(EarlyEnd::OutOfMemory),
        Err(RunFault::Step(_)) => Ok(failures),
    }
}

/// One failure more. The fault: `Port` at the one that follows 1,000.
fn counted(failures: u32) -> Result<u32, EarlyEnd>
    ensures { result ≡ counted failures }
{
    if failures >= MOST_FAILURES {
        return Err(EarlyEnd::Port);
    }
    Ok(failures + 1)
}
