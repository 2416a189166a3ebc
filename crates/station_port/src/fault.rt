//! Why a station's port cannot be opened.

ghost use Rattle.std.specs.Prelude.{◌≡◌};
ghost use Rattle.station_port.specs.Causes.{cause_of};

use cip_types::OutOfMemory;
use std::alloc::AllocError;
use std::io::ErrorKind;
use thiserror::Error;

/// A socket of a station.
#[derive(Clone, Copy, Debug, PartialEq, Eq, Error)]
pub enum StationSocket {
    /// The listener of encapsulation messages.
    #[error("TCP port")]
    Tcp,
    /// The socket of class 1 datagrams.
    #[error("UDP port")]
    Udp,
    /// The socket of ListIdentity requests.
    #[error("UDP port of ListIdentity")]
    Identity,
    /// The listener of the page.
    #[error("TCP port of the page")]
    Page,
    /// What waits for all sockets.
    #[error("wait for sockets")]
    Wait,
}

/// Why a socket cannot be made.
#[derive(Clone, Copy, Debug, PartialEq, Eq, Error)]
pub enum SocketCause {
    /// Another program has the port.
    #[error("is in use")]
    InUse,
    /// This host does not have the address.
    #[error("has an address that is not of this host")]
    NoAddress,
    /// The user may not have the port.
    #[error("is not allowed")]
    NotAllowed,
    /// The system gave another reason.
    #[error("cannot be made")]
    Other,
}

/// Why a station's port cannot be opened.
#[derive(Clone, Copy, Debug, PartialEq, Eq, Error)]
pub enum StationFault {
    /// A socket cannot be made.
    #[error("the {0} {1}")]
    Socket(StationSocket, SocketCause),
    /// An allocation was refused.
    #[error("no memory")]
    OutOfMemory,
}

/// The cause of an error at a socket.
pub(crate) fn cause_of(kind: ErrorKind) -> SocketCause
    ensures { result ≡ cause_of kind }
{
    match kind {
        ErrorKind::AddrInUse => SocketCause::InUse,
        ErrorKind::AddrNotAvailable => SocketCause::NoAddress,
        ErrorKind::PermissionDenied => SocketCause::NotAllowed,
        _ => SocketCause::Other,
    }
}

impl From<OutOfMemory> for StationFault {
    fn from(_refused: OutOfMemory) -> StationFault {
        StationFault::OutOfMemory
    }
}

impl From<AllocError> for StationFault {
    fn from(_refused: AllocError) -> StationFault {
        StationFault::OutOfMemory
    }
}
