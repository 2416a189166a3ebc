//! Why a line over sockets ends early.

use cip_tables::{NewFault, StepFault};
use cip_types::OutOfMemory;
use socket_port::OpenFault;
use thiserror::Error;
use udp_runner::{PortFault, RunFault};

/// Why a line over sockets ends early.
#[derive(Clone, Copy, Debug, PartialEq, Eq, Error)]
pub enum LoopFault {
    /// A port could not be opened, or failed.
    #[error("fault Port")]
    Port,
    /// A device refused its configuration.
    #[error("fault New")]
    New,
    /// A device refused an event.
    #[error("fault Step")]
    Step,
    /// An allocation was refused.
    #[error("no memory")]
    OutOfMemory,
}

impl From<OutOfMemory> for LoopFault {
    ghost use Rattle.std.specs.Prelude.{◌≡◌};
    ghost use Rattle.eip_line.specs.declared.socket_loop.fault.LoopFault.TheVariants as loop;

    ghost from_gives = { λ refused given. given ≡ loop.OutOfMemory };

    fn from(_refused: OutOfMemory) -> LoopFault {
        LoopFault::OutOfMemory
    }
}

impl From<OpenFault> for LoopFault {
    ghost use Rattle.std.specs.Prelude.{◌≡◌};
    ghost use Rattle.eip_line.specs.SocketLoop.Faults.{of_open};

    ghost from_gives = { λ fault given. given ≡ of_open fault };

    fn from(fault: OpenFault) -> LoopFault {
        match fault {
            OpenFault::Socket => LoopFault::Port,
            OpenFault::OutOfMemory => LoopFault::OutOfMemory,
        }
    }
}

impl From<NewFault> for LoopFault {
    ghost use Rattle.std.specs.Prelude.{◌≡◌};
    ghost use Rattle.eip_line.specs.SocketLoop.Faults.{of_new};

    ghost from_gives = { λ fault given. given ≡ of_new fault };

    fn from(fault: NewFault) -> LoopFault {
        match fault {
            NewFault::OutOfMemory => LoopFault::OutOfMemory,
            NewFault::Profile(_) | NewFault::WrongKind => LoopFault::New,
        }
    }
}

impl From<StepFault> for LoopFault {
    ghost use Rattle.std.specs.Prelude.{◌≡◌};
    ghost use Rattle.eip_line.specs.SocketLoop.Faults.{of_step};

    ghost from_gives = { λ fault given. given ≡ of_step fault };

    fn from(fault: StepFault) -> LoopFault {
        match fault {
            StepFault::OutOfMemory => LoopFault::OutOfMemory,
            _ => LoopFault::Step,
        }
    }
}

impl From<RunFault> for LoopFault {
    ghost use Rattle.std.specs.Prelude.{◌≡◌};
    ghost use Rattle.eip_line.specs.SocketLoop.Faults.{of_run};

    ghost from_gives = { λ fault given. given ≡ of_run fault };

    fn from(fault: RunFault) -> LoopFault {
        match fault {
            RunFault::Port(PortFault::Memory) => LoopFault::OutOfMemory,
            RunFault::Port(_) => LoopFault::Port,
            RunFault::Step(fault) => LoopFault::from(fault),
        }
    }
}
