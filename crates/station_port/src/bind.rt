//! Sockets that are bound to a station's address, whose calls do not wait; and the listener of its page, on which threads of
//! their own wait.

ghost use Rattle.std.specs.Prelude.{◌≡◌};
ghost use Rattle.station_port.specs.Reaching.{group_hops};

use crate::fault::{StationFault, StationSocket, cause_of};
use crate::streams::make_room;
use cip_types::Node;
use mio::net::{TcpListener, UdpSocket};
use std::io;
use std::net::{self, IpAddr, Ipv4Addr, Net, SocketAddr};

/// The outcome of a call that makes a socket.
pub(crate) fn made<T: Drop>(
    socket: StationSocket,
    outcome: io::Result<T>,
) -> Result<T, StationFault> {
    match outcome {
        Ok(value) => Ok(value),
        Err(error) => Err(StationFault::Socket(socket, cause_of(error.kind()))),
    }
}

/// Listens for encapsulation messages.
pub(crate) fn listen<R: Net>(rt: &R, at: SocketAddr) -> Result<TcpListener, StationFault> {
    made(StationSocket::Tcp, TcpListener::bind(rt, at))
}

/// Listens for browsers, at this address and port.
pub fn page_listener<R: Net>(
    rt: &R,
    address: Node,
    port: u16,
) -> Result<R::Listener, StationFault> {
    let at = SocketAddr::new(IpAddr::V4(Ipv4Addr::from_bits(address.0)), port);
    made(StationSocket::Page, net::TcpListener::bind(rt, at))
}

/// Receives class 1 datagrams. What is sent to a group leaves no network.
pub(crate) fn datagrams<R: Net>(rt: &R, at: SocketAddr) -> Result<UdpSocket, StationFault> {
    let udp = made(StationSocket::Udp, UdpSocket::bind(rt, at))?;
    made(StationSocket::Udp, udp.set_multicast_ttl_v4(group_hops()))?;
    make_room(&udp);
    Ok(udp)
}

/// A datagram to a group passes so many networks: only the station's own.
fn group_hops() -> u32
    ensures { result ≡ group_hops }
{
    1
}
