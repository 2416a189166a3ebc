//! The sockets of inquiries, by which the field's tools find a station. The device answers them: those to the station's own
//! address at once, those that came by broadcast after a drawn delay.

ghost use Rattle.std.specs.Prelude.{◌≡◌};
ghost use Rattle.station_port.specs.Inquiries.Holds.{inquiry_wait};

use crate::bind::made;
use crate::fault::{StationFault, StationSocket};
use crate::inquiries::{Asker, InquiryGate, InquirySocket, has_length};
use crate::place::StationPlace;
use crate::streams::{FINDER, address_of, shared_socket};
use cip_types::{Items, Node, OutOfMemory};
use mio::net::UdpSocket;
use mio::{Interest, Registry};
use socket_port::{node_of, received};
use std::alloc::Global;
use std::net::{Net, SocketAddr};
use udp_runner::PortFault;

/// The address of all hosts of the networks of a host.
const EVERYBODY: Node = Node(0xFFFF_FFFF);

/// So many datagrams of one socket are read in a turn, so that no flood of them holds the device up.
const MOST_IN_A_TURN: usize = 8;

/// What the sockets of inquiries have now.
#[derive(Drop)]
pub(crate) enum NextInquiry {
    /// An inquiry of this peer.
    Inquiry(Node, Items<u8>),
    /// None now, but more datagrams may wait.
    Later,
    /// Nothing.
    Nothing,
}

/// The sockets on which a station is found.
#[derive(Drop)]
pub(crate) struct Finder {
    own: UdpSocket,
    /// Inquiries to 255.255.255.255, unless another program has it alone.
    everybody: Option<UdpSocket>,
    /// The same to the broadcast address of the station's network.
    network: Option<UdpSocket>,
    gate: InquiryGate,
}

impl Finder {
    /// Sockets at a station's address and its TCP port's number. One at 0.0.0.0 receives broadcasts too, and is bound alone.
    /// The address draws the delays, until a seed does.
    pub(crate) fn new<R: Net>(
        alloc: Global,
        rt: &R,
        place: &StationPlace,
    ) -> Result<Finder, StationFault> {
        let at = address_of(place.address, place.tcp);
        let own = made(StationSocket::Identity, UdpSocket::bind(rt, at))?;
        let network = Node(place.address.0 | !place.mask);
        Ok(Finder {
            own,
            everybody: shared_socket(rt, EVERYBODY, place.tcp),
            network: if network.0 == EVERYBODY.0 {
                None
            } else {
                shared_socket(rt, network, place.tcp)
            },
            gate: InquiryGate::new(alloc, u64::from(place.address.0)),
        })
    }

    /// Has a wait report its sockets.
    pub(crate) fn register(&mut self, registry: &Registry) -> Result<(), StationFault> {
        watch(registry, &mut self.own)?;
        if let Some(everybody) = &mut self.everybody {
            watch(registry, everybody)?;
        }
        if let Some(network) = &mut self.network {
            watch(registry, network)?;
        }
        Ok(())
    }

    /// From now on this seed draws the delays.
    pub(crate) fn draw_by(&mut self, seed: u64) {
        self.gate.draw_by(seed);
    }

    /// The milliseconds until an inquiry that waits is due, at most so many.
    pub(crate) fn wait(&self, now_ms: u64, most_ms: u64) -> u64
        ensures { result ≡ inquiry_wait now_ms most_ms self.now.gate.hold.waiting }
    {
        self.gate.wait_ms(now_ms, most_ms)
    }

    /// The next inquiry that the device may be given at this time: one that waited and is due, or one that arrives.
    pub(crate) fn next(
        &mut self,
        buffer: &mut [u8],
        now_ms: u64,
    ) -> Result<NextInquiry, PortFault> {
        if let Some(due) = self.gate.next_due(now_ms) {
            return Ok(match due {
                Some(held) => NextInquiry::Inquiry(held.asker.node, held.bytes),
                None => NextInquiry::Later,
            });
        }
        let mut next = NextInquiry::Nothing;
        for socket in [
            InquirySocket::Own,
            InquirySocket::Everybody,
            InquirySocket::Network,
        ] {
            match self.next_of_one(socket, buffer, now_ms)? {
                NextInquiry::Nothing => {}
                NextInquiry::Later => next = NextInquiry::Later,
                inquiry => return Ok(inquiry),
            }
        }
        Ok(next)
    }

    /// The next inquiry of one socket: a bounded number of datagrams is read.
    fn next_of_one(
        &mut self,
        socket: InquirySocket,
        buffer: &mut [u8],
        now_ms: u64,
    ) -> Result<NextInquiry, PortFault> {
        for _ in 0..MOST_IN_A_TURN {
            let Some((count, from)) = self.next_datagram(socket, buffer)? else {
                return Ok(NextInquiry::Nothing);
            };
            let Some(request) = buffer.get(..count) else {
                return Ok(NextInquiry::Later);
            };
            if let Some(inquiry) = self.take(socket, request, from, now_ms)? {
                return Ok(inquiry);
            }
        }
        Ok(NextInquiry::Later)
    }

    /// The datagram that waits at a socket, if that is bound.
    fn next_datagram(
        &self,
        socket: InquirySocket,
        buffer: &mut [u8],
    ) -> Result<Option<(usize, SocketAddr)>, PortFault> {
        let bound = match socket {
            InquirySocket::Own => Some(&self.own),
            InquirySocket::Everybody => self.everybody.as_ref(),
            InquirySocket::Network => self.network.as_ref(),
        };
        match bound {
            Some(bound) => received(bound.recv_from(buffer)),
            None => Ok(None),
        }
    }

    /// Takes a datagram that may be an inquiry. One that came by broadcast waits.
    fn take(
        &mut self,
        socket: InquirySocket,
        request: &[u8],
        from: SocketAddr,
        now_ms: u64,
    ) -> Result<Option<NextInquiry>, PortFault> {
        let Some(node) = node_of(from) else {
            return Ok(None);
        };
        if !has_length(request.len()) {
            return Ok(None);
        }
        match self
            .gate
            .take(now_ms, socket, Asker { node, at: from }, request)
        {
            Ok(Some(bytes)) => Ok(Some(NextInquiry::Inquiry(node, bytes))),
            Ok(None) => Ok(None),
            Err(OutOfMemory) => Err(PortFault::Memory),
        }
    }

    /// Sends the device's reply to where the last inquiry of this peer came from. One that the socket does not take is lost.
    pub(crate) fn reply(&mut self, peer: Node, bytes: &[u8]) {
        if let Some(asker) = self.gate.answered(peer) {
            let _ = self.own.send_to(bytes, asker.at);
        }
    }
}

/// Has a wait report a socket.
fn watch(registry: &Registry, socket: &mut UdpSocket) -> Result<(), StationFault> {
    made(
        StationSocket::Wait,
        registry.register(socket, FINDER, Interest::READABLE),
    )
}
