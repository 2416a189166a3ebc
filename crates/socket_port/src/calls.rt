//! Calls of sockets. None of them waits, once the sockets are prepared.

ghost use Rattle.std.specs.Prelude.{◌≤◌, length, IfOk, IfSome};
ghost use Rattle.socket_port.specs.Outcomes.{Fits};

use crate::outcomes::{ReadOutcome, accepted, read_outcome, received, sent};
use std::io::{self, Read};
use std::net::{SocketAddr, TcpListener, TcpStream, UdpSocket};
use udp_runner::PortFault;

/// Makes the calls of a connection return at once, and its writes be sent at once.
pub fn prepare(socket: &TcpStream) -> io::Result<()> {
    socket.set_nonblocking(true)?;
    socket.set_nodelay(true)
}

/// The next connection, if one waits. A connection that its peer has closed again does not count. The fault: `Memory`.
pub fn accept(listener: &TcpListener) -> Result<Option<(TcpStream, SocketAddr)>, PortFault> {
    accepted(listener.accept())
}

/// Reads the bytes that a connection has received.
pub fn read(mut socket: &TcpStream, buffer: &mut [u8]) -> ReadOutcome
    ensures { Fits result (length buffer.new) }
{
    read_outcome(socket.read(buffer))
}

/// The next datagram, if one waits: the number of its bytes, and its sender. The fault: `Receive`.
pub fn receive(
    socket: &UdpSocket,
    buffer: &mut [u8],
) -> Result<Option<(usize, SocketAddr)>, PortFault>
    ensures { IfOk result (λ came. IfSome came (λ some. some.0 ≤ length buffer.new)) }
{
    received(socket.recv_from(buffer))
}

/// Sends a datagram. The fault: `Send`.
pub fn send(socket: &UdpSocket, bytes: &[u8], to: SocketAddr) -> Result<(), PortFault> {
    sent(socket.send_to(bytes, to))
}

/// Sends a datagram over a socket that is connected. The fault: `Send`.
pub fn send_joined(socket: &UdpSocket, bytes: &[u8]) -> Result<(), PortFault> {
    sent(socket.send(bytes))
}
