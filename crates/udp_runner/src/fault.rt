//! The faults of a port, and those that end a run.

use cip_events::StepFault;
use thiserror::Error;

/// Why a call of a port failed.
#[derive(Clone, Copy, Debug, PartialEq, Eq, Error)]
pub enum PortFault {
    /// Nothing can be received.
    #[error("nothing can be received")]
    Receive,
    /// An output could not be sent.
    #[error("an output could not be sent")]
    Send,
    /// An allocation was refused.
    #[error("no memory")]
    Memory,
}

/// Why a run ended before its last turn.
#[derive(Clone, Copy, Debug, PartialEq, Eq, Error)]
pub enum RunFault {
    /// The port failed.
    #[error("the port failed: {0}")]
    Port(PortFault),
    /// The device refused an event.
    #[error("the device refused an event: {0}")]
    Step(StepFault),
}

impl From<PortFault> for RunFault {
    ghost use Rattle.std.specs.Prelude.{◌≡◌};
    ghost use Rattle.udp_runner.specs.declared.fault.RunFault.TheVariants as run;

    ghost from_gives = { λ fault given. given ≡ run.Port fault };

    fn from(fault: PortFault) -> RunFault {
        RunFault::Port(fault)
    }
}

impl From<StepFault> for RunFault {
    ghost use Rattle.std.specs.Prelude.{◌≡◌};
    ghost use Rattle.udp_runner.specs.declared.fault.RunFault.TheVariants as run;

    ghost from_gives = { λ fault given. given ≡ run.Step fault };

    fn from(fault: StepFault) -> RunFault {
        RunFault::Step(fault)
    }
}
