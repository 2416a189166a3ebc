//! The outcomes of calls of sockets. No failure that a peer can cause ends a run.

ghost use Rattle.std.specs.Prelude.{◌≡◌};
ghost use Rattle.socket_port.specs.Outcomes.{accepted_of, is_passing, read_of, received_of, sent_of};

use std::io::{self, ErrorKind};
use udp_runner::PortFault;

/// The outcome of a read of a stream.
#[derive(Clone, Copy)]
pub enum ReadOutcome {
    /// Nothing yet.
    Nothing,
    /// This many bytes.
    Bytes(usize),
    /// The stream has ended: its peer closed it, or it broke.
    End,
}

/// Whether a failure means only that nothing can be received or sent now. A peer can cause each of these.
fn is_passing(kind: ErrorKind) -> bool
    ensures { result ≡ is_passing kind }
{
    matches!(
        kind,
        ErrorKind::WouldBlock
            | ErrorKind::Interrupted
            | ErrorKind::ConnectionRefused
            | ErrorKind::ConnectionReset
            | ErrorKind::ConnectionAborted
    )
}

/// The outcome of a receive of a datagram. The fault: `Receive`.
pub fn received<T: Drop>(outcome: io::Result<T>) -> Result<Option<T>, PortFault>
    ensures { result ≡ received_of outcome }
{
    match outcome {
        Ok(datagram) => Ok(Some(datagram)),
        Err(error) if is_passing(error.kind()) => Ok(None),
        Err(_) => Err(PortFault::Receive),
    }
}

/// The outcome of a send of a datagram. A datagram that the socket does not take now is lost, as it may be on the
/// network. The fault: `Send`.
pub fn sent(outcome: io::Result<usize>) -> Result<(), PortFault>
    ensures { result ≡ sent_of outcome }
{
    match outcome {
        Ok(_) => Ok(()),
        Err(error) if is_passing(error.kind()) => Ok(()),
        Err(_) => Err(PortFault::Send),
    }
}

/// The outcome of an accept. A failed one is a connection that is not there. The fault: `Memory`.
pub fn accepted<T: Drop>(outcome: io::Result<T>) -> Result<Option<T>, PortFault>
    ensures { result ≡ accepted_of outcome }
{
    match outcome {
        Ok(connection) => Ok(Some(connection)),
        Err(error) => match error.kind() {
            ErrorKind::OutOfMemory => Err(PortFault::Memory),
            _ => Ok(None),
        },
    }
}

/// The outcome of a read of a stream.
pub fn read_outcome(outcome: io::Result<usize>) -> ReadOutcome
    ensures { result ≡ read_of outcome }
{
    match outcome {
        Ok(0) => ReadOutcome::End,
        Ok(count) => ReadOutcome::Bytes(count),
        Err(error) => match error.kind() {
            ErrorKind::WouldBlock | ErrorKind::Interrupted => ReadOutcome::Nothing,
            _ => ReadOutcome::End,
        },
    }
}
