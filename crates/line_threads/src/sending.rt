//! The answers of a device of a line.

use crate::fault::LineFault;
use crate::inbox::Inbox;
use crate::line_stream::LineStream;
use crate::openings::place_of;
use cip_events::{Arrival, OutgoingDatagram, Outlet};
use cip_types::{Items, Node};
use std::alloc::Global;
use std::sync::Wait;

/// The simulated network of a line: the address of each device, the streams by their numbers, and the datagrams that wait
/// for each device.
#[derive(Clone, Copy)]
pub struct Network<'a> {
    pub nodes: &'a [Node],
    pub streams: &'a [LineStream],
    pub inboxes: &'a [Inbox],
}

/// Sends the outputs of the answers of one device, which is named by its place. May wait; holds one lock at a time.
///
/// The errors: `OutOfMemory`, and `StreamFull` if the other end of a stream has not taken 1,024 arrivals. Contracts say
/// that the network keeps its devices and streams, and nothing of what waits in it.
#[derive_where(Clone, Copy)]
pub struct LineOutlet<'a, R> {
    pub rt: &'a R,
    pub alloc: Global,
    pub place: usize,
}

impl<'n, R: Wait> Outlet<Network<'n>> for LineOutlet<'_, R> {
    ghost use Rattle.std.specs.Prelude.{◌≡◌};

    type Fault = LineFault;

    ghost is_ready = { λ network. Unit {0} };

    ghost sends = { λ outlet old output new. new ≡ old };

    ghost fails = { λ outlet old output new. new ≡ old };

    fn message(
        &self,
        network: &mut Network<'n>,
        stream: u16,
        bytes: &[u8],
    ) -> Result<(), LineFault> {
        let bytes = Items::copy_of(self.alloc, bytes)?;
        self.send_over(network, stream, Arrival::Frame { stream, bytes })
    }

    /// Sends a copy of the datagram, in the name of its sender, to each of its nodes that is a device of the line. What a
    /// full inbox loses is a datagram that is not delivered.
    fn datagram(
        &self,
        network: &mut Network<'n>,
        datagram: &OutgoingDatagram,
    ) -> Result<(), LineFault> {
        let Some(peer) = network.nodes.get(self.place) else {
            return Ok(());
        };
        for node in datagram.nodes.as_slice() {
            let Some(place) = place_of(network.nodes, *node) else {
                continue;
            };
            if let Some(inbox) = network.inboxes.get(place) {
                let bytes = Items::copy_of(self.alloc, datagram.bytes.as_slice())?;
                let _lost = inbox.put(self.rt, Arrival::Datagram { peer: *peer, bytes });
            }
        }
        Ok(())
    }

    fn close(&self, network: &mut Network<'n>, stream: u16) -> Result<(), LineFault> {
        self.send_over(network, stream, Arrival::Cut { stream })?;
        if let Some(stream) = network.streams.get(usize::from(stream)) {
            stream.close(self.place);
        }
        Ok(())
    }
}

impl<R: Wait> LineOutlet<'_, R> {
    /// Sends what arrives at the other end of a stream. `StreamFull` is the only error.
    fn send_over(
        &self,
        network: &Network<'_>,
        stream: u16,
        arrival: Arrival,
    ) -> Result<(), LineFault> {
        let Some(stream) = network.streams.get(usize::from(stream)) else {
            return Ok(());
        };
        match stream.send(self.rt, self.place, arrival) {
            None => Ok(()),
            Some(_) => Err(LineFault::StreamFull),
        }
    }
}
