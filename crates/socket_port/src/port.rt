//! A port over sockets.

ghost use Rattle.std.specs.Prelude.{◌≡◌, IfOk};

use crate::addresses::{LOOPBACK, loopback, node_of};
use crate::calls;
use crate::sockets::PortSockets;
use crate::streams::{DatagramRoutes, Destination};
use cip_events::Arrival;
use cip_types::{Items, OutOfMemory};
use std::alloc::Global;
use std::io::ErrorKind;
use std::net::{Net, TcpListener, TcpStream, UdpSocket};
use std::rt::Clock as System;
use std::time::Duration;
use std::{io, thread};
use thiserror::Error;
use udp_runner::{Output, Port, PortFault};

/// Why a port cannot be opened.
#[derive(Clone, Copy, Debug, PartialEq, Eq, Error)]
pub enum OpenFault {
    /// A socket could not be bound, connected or prepared.
    #[error("a socket could not be prepared")]
    Socket,
    /// An allocation was refused.
    #[error("no memory")]
    OutOfMemory,
}

impl From<io::Error> for OpenFault {
    fn from(error: io::Error) -> OpenFault {
        match error.kind() {
            ErrorKind::OutOfMemory => OpenFault::OutOfMemory,
            _ => OpenFault::Socket,
        }
    }
}

impl From<OutOfMemory> for OpenFault {
    fn from(_refused: OutOfMemory) -> OpenFault {
        OpenFault::OutOfMemory
    }
}

/// A port over a UDP socket and the streams of a TCP listener, or over one stream.
#[derive(Drop)]
pub struct SocketPort<R: System + Drop> {
    rt: R,
    sockets: PortSockets,
    failures: u64,
}

impl<R: System + Drop> SocketPort<R> {
    /// An adapter's port, whose streams peers open at this listener.
    pub fn listening(
        alloc: Global,
        rt: R,
        listener: TcpListener,
        udp: UdpSocket,
        routes: DatagramRoutes,
    ) -> Result<Self, OpenFault>
        ensures { IfOk result (λ port. port.failures ≡ 0) }
    {
        listener.set_nonblocking(true)?;
        udp.set_nonblocking(true)?;
        let sockets = PortSockets::new(alloc, Some(listener), udp, routes)?;
        Ok(SocketPort {
            rt,
            sockets,
            failures: 0,
        })
    }

    /// A scanner's port, whose stream 0 is this connection. Its opening is the first arrival.
    pub fn connected(
        alloc: Global,
        rt: R,
        stream: TcpStream,
        udp: UdpSocket,
        routes: DatagramRoutes,
    ) -> Result<Self, OpenFault>
        ensures { IfOk result (λ port. port.failures ≡ 0) }
    {
        let peer = node_of(stream.peer_addr()?).ok_or(OpenFault::Socket)?;
        calls::prepare(&stream)?;
        udp.set_nonblocking(true)?;
        let mut sockets = PortSockets::new(alloc, None, udp, routes)?;
        sockets.welcome(peer, stream);
        Ok(SocketPort {
            rt,
            sockets,
            failures: 0,
        })
    }

    /// If all datagrams have one destination, connects the UDP socket to it: from then on only datagrams from there are
    /// received, and the system does not look up the route of each datagram again. The fault: `Socket`.
    pub fn join(&mut self) -> Result<(), OpenFault>
        ensures { self.new.failures ≡ self.old.failures }
    {
        self.sockets.join()?;
        Ok(())
    }

    /// The arrival that was received within a millisecond.
    fn next_arrival(&mut self) -> Result<Option<Arrival>, PortFault>
        ensures { self.new.failures ≡ self.old.failures }
    {
        if let Some(arrival) = self.sockets.poll_again()? {
            return Ok(Some(arrival));
        }
        thread::sleep(&self.rt, Duration::from_millis(1));
        self.sockets.poll()
    }
}

impl<R: System + Net<Listener = TcpListener, Stream = TcpStream> + Drop> SocketPort<R> {
    /// An adapter's port on 127.0.0.1, at these ports of TCP and UDP. It sends all datagrams to the UDP port of its
    /// peer on this host.
    pub fn adapter(alloc: Global, rt: R, tcp: u16, udp: u16, peer: u16) -> Result<Self, OpenFault>
        ensures { IfOk result (λ port. port.failures ≡ 0) }
    {
        let listener = TcpListener::bind(&rt, loopback(tcp))?;
        let socket = UdpSocket::bind(&rt, loopback(udp))?;
        SocketPort::listening(alloc, rt, listener, socket, to_loopback(peer))
    }

    /// A scanner's port on 127.0.0.1, at this port of UDP, connected to an adapter's port of TCP. It sends all
    /// datagrams to the UDP port of its peer on this host.
    pub fn scanner(alloc: Global, rt: R, tcp: u16, udp: u16, peer: u16) -> Result<Self, OpenFault>
        ensures { IfOk result (λ port. port.failures ≡ 0) }
    {
        let socket = UdpSocket::bind(&rt, loopback(udp))?;
        let stream = TcpStream::connect(&rt, loopback(tcp))?;
        SocketPort::connected(alloc, rt, stream, socket, to_loopback(peer))
    }
}

/// Sends all datagrams to this port of this host.
fn to_loopback(port: u16) -> DatagramRoutes {
    DatagramRoutes::One(Destination {
        node: LOOPBACK,
        port,
    })
}

impl<R: System + Drop> Port for SocketPort<R> {
    ghost use Rattle.std.specs.Prelude.{false, []};

    ghost is_scripted = { false };

    ghost tape = { λ port. record { coming = []; sent = [] } };

    ghost failed = { λ port. port.failures };

    fn failures(&self) -> u64 {
        self.failures
    }

    fn receive(&mut self) -> Result<Option<Arrival>, PortFault> {
        let came = self.next_arrival();
        if came.is_err() {
            self.failures += 1;
        }
        came
    }

    fn recycle(&mut self, bytes: Items<u8>) {
        self.sockets.recycle(bytes);
    }

    fn send(&mut self, output: &Output<'_>) -> Result<(), PortFault> {
        let sent = self.sockets.send(output);
        if sent.is_err() {
            self.failures += 1;
        }
        sent
    }
}
