//! The sockets of a port, over which it receives and sends.

ghost use Rattle.std.specs.Prelude.{◌≤◌, length};
ghost use Rattle.socket_port.specs.Outcomes.{Fits};

use crate::addresses::{address_of, node_of};
use crate::calls;
use crate::outcomes::ReadOutcome;
use crate::sending::{send_along, way_of};
use crate::streams::{DatagramRoutes, PollOrder, PortStreams, SpareBytes};
use cip_events::Arrival;
use cip_types::limits::MOST_STREAMS;
use cip_types::{Items, Node, OutOfMemory};
use std::alloc::Global;
use std::io;
use std::net::{TcpListener, TcpStream, UdpSocket};
use udp_runner::{Output, PortFault};

/// The numbers of streams are below this one.
const STREAM_NUMBERS: u16 = MOST_STREAMS as u16;

/// A UDP datagram has fewer bytes. A read of a stream takes at most as many.
const BUFFER_BYTES: usize = 65_536;

/// The sockets of a port.
#[derive(Drop)]
pub struct PortSockets {
    alloc: Global,
    listener: Option<TcpListener>,
    udp: UdpSocket,
    streams: PortStreams<TcpStream>,
    routes: DatagramRoutes,
    /// Whether the UDP socket is connected to the one destination of all datagrams.
    joined: bool,
    buffer: Vec<u8>,
    spare: SpareBytes,
    order: PollOrder,
}

impl PortSockets {
    /// The sockets of a port that has no stream yet.
    pub fn new(
        alloc: Global,
        listener: Option<TcpListener>,
        udp: UdpSocket,
        routes: DatagramRoutes,
    ) -> Result<PortSockets, OutOfMemory> {
        Ok(PortSockets {
            alloc,
            listener,
            udp,
            streams: PortStreams::new(alloc)?,
            routes,
            joined: false,
            buffer: vec![in alloc; 0; BUFFER_BYTES]?,
            spare: SpareBytes::none(),
            order: PollOrder::begin(),
        })
    }

    /// Adds a stream over a connection. An extra connection is closed without reading it.
    pub fn welcome(&mut self, peer: Node, socket: TcpStream) {
        if calls::prepare(&socket).is_err() {
            return;
        }
        // (the socket of an extra connection is returned, and closed as it is dropped)
        let _ = self.streams.accept(peer, socket);
    }

    /// Connects the UDP socket to the one destination of all datagrams, if there is one.
    pub fn join(&mut self) -> io::Result<()> {
        if let DatagramRoutes::One(to) = &self.routes {
            self.udp.connect(address_of(*to))?;
            self.joined = true;
        }
        Ok(())
    }

    /// The arrival that is there before the port waits. If the last poll found nothing, that was a moment ago, and no
    /// socket is read again: a port without arrivals polls once a millisecond, and a port with many does not wait.
    pub fn poll_again(&mut self) -> Result<Option<Arrival>, PortFault> {
        if self.order.is_idle() {
            return Ok(None);
        }
        self.poll()
    }

    /// The arrival that is there now.
    pub fn poll(&mut self) -> Result<Option<Arrival>, PortFault> {
        if self.order.asks_listener() {
            self.accept()?;
        }
        let arrival = self.poll_all()?;
        self.order.end_poll(arrival.is_some());
        Ok(arrival)
    }

    /// The datagram or stream arrival that is there now. In most polls the datagrams are asked first, and in some the
    /// streams, so that neither delays the other for long.
    fn poll_all(&mut self) -> Result<Option<Arrival>, PortFault> {
        if self.order.asks_streams_first() {
            if let Some(arrival) = self.poll_streams()? {
                return Ok(Some(arrival));
            }
            return self.poll_datagrams();
        }
        if let Some(arrival) = self.poll_datagrams()? {
            return Ok(Some(arrival));
        }
        self.poll_streams()
    }

    /// The datagram that is there now.
    fn poll_datagrams(&mut self) -> Result<Option<Arrival>, PortFault> {
        let Some((count, from)) = calls::receive(&self.udp, &mut self.buffer)? else {
            return Ok(None);
        };
        let Some(peer) = node_of(from) else {
            return Ok(None);
        };
        match self.spare.copy(self.alloc, &self.buffer[..count]) {
            Ok(bytes) => Ok(Some(Arrival::Datagram { peer, bytes })),
            Err(OutOfMemory) => Err(PortFault::Memory),
        }
    }

    /// Takes back the bytes of a datagram.
    pub fn recycle(&mut self, bytes: Items<u8>) {
        self.spare.keep(bytes);
    }

    /// The arrival of a stream that is there now. The streams take turns.
    fn poll_streams(&mut self) -> Result<Option<Arrival>, PortFault> {
        for place in 0..STREAM_NUMBERS {
            let number = self.order.stream_at(place);
            if let Some(arrival) = self.poll_stream(number)? {
                self.order.begin_behind(number);
                return Ok(Some(arrival));
            }
        }
        Ok(None)
    }

    /// Accepts the connection that waits.
    fn accept(&mut self) -> Result<(), PortFault> {
        let Some(listener) = &self.listener else {
            return Ok(());
        };
        let Some((socket, from)) = calls::accept(listener)? else {
            return Ok(());
        };
        if let Some(peer) = node_of(from) {
            self.welcome(peer, socket);
        }
        Ok(())
    }

    /// The arrival of one stream that is there now.
    fn poll_stream(&mut self, number: u16) -> Result<Option<Arrival>, PortFault> {
        match read(&self.streams, number, &mut self.buffer) {
            ReadOutcome::Nothing => {}
            ReadOutcome::End => self.streams.end(number),
            ReadOutcome::Bytes(count) => self.receive(number, count)?,
        }
        Ok(self.streams.next(number))
    }

    /// Takes the bytes of a stream out of the buffer. If there is no memory for them, the stream ends.
    fn receive(&mut self, number: u16, count: usize) -> Result<(), PortFault>
        requires { count ≤ length self.old.buffer.items }
    {
        match self.streams.receive(number, &self.buffer[..count]) {
            Ok(()) => Ok(()),
            Err(OutOfMemory) => Err(PortFault::Memory),
        }
    }

    /// Sends an output.
    pub fn send(&mut self, output: &Output<'_>) -> Result<(), PortFault> {
        match output {
            Output::Frame { stream, bytes } => {
                self.streams.send(*stream, bytes);
                Ok(())
            }
            Output::Datagram { node, bytes } => self.send_datagram(*node, bytes),
            Output::Close { stream } => {
                self.streams.close(*stream);
                Ok(())
            }
            // (it hands out no inquiry, and so has none to reply to)
            Output::Reply { peer: _, bytes: _ } => Ok(()),
        }
    }

    /// Sends a datagram to a node. A datagram for a node without a destination is dropped. The fault: `Send`.
    fn send_datagram(&mut self, node: Node, bytes: &[u8]) -> Result<(), PortFault> {
        let way = way_of(self.joined, self.routes.destination_of(node));
        send_along(&mut self.udp, way, bytes)
    }
}

/// Reads the bytes that a stream has received, if it is to be read.
fn read(streams: &PortStreams<TcpStream>, number: u16, buffer: &mut [u8]) -> ReadOutcome
    ensures { Fits result (length buffer.new) }
{
    match streams.to_read(number) {
        Some(socket) => calls::read(socket, buffer),
        None => ReadOutcome::Nothing,
    }
}
