//! The way of a datagram, and its sending.

ghost use Rattle.std.specs.Prelude.{◌≡◌, List, Option, None, Some, Ok};
ghost use Rattle.socket_port.specs.Ways.{Makes, SendCall, call_along, way_of};

use crate::addresses::address_of;
use crate::calls;
use crate::streams::Destination;
use std::net::UdpSocket;
use udp_runner::PortFault;

/// The way of a datagram.
#[derive(Clone, Copy, PartialEq, Eq)]
pub(crate) enum DatagramWay {
    /// Over the connection of the socket to its one destination.
    Joined,
    /// To this destination.
    To(Destination),
    /// Nowhere: its node has no destination.
    Nowhere,
}

/// The way of a datagram over a socket that is connected or not, if its node has this destination.
pub(crate) fn way_of(joined: bool, to: Option<Destination>) -> DatagramWay
    ensures { result ≡ way_of joined to }
{
    if joined {
        return DatagramWay::Joined;
    }
    match to {
        Some(to) => DatagramWay::To(to),
        None => DatagramWay::Nowhere,
    }
}

/// Sends datagrams, each by one call.
pub(crate) trait DatagramSender {
    /// The calls that were made, where they are known.
    ghost calls: { Self → Option (List SendCall) } = { λ _. None };

    /// Sends a datagram to the destination to which the socket is connected. The fault: `Send`.
    fn send_joined(&mut self, bytes: &[u8]) -> Result<(), PortFault>
        ensures { Makes (calls self.old) (calls self.new) (Some (SendCall.Joined bytes.now)) };

    /// Sends a datagram to a destination. The fault: `Send`.
    fn send_routed(&mut self, bytes: &[u8], to: Destination) -> Result<(), PortFault>
        ensures { Makes (calls self.old) (calls self.new) (Some (SendCall.Routed to bytes.now)) };
}

impl DatagramSender for UdpSocket {
    fn send_joined(&mut self, bytes: &[u8]) -> Result<(), PortFault> {
        calls::send_joined(self, bytes)
    }

    fn send_routed(&mut self, bytes: &[u8], to: Destination) -> Result<(), PortFault> {
        calls::send(self, bytes, address_of(to))
    }
}

/// Sends a datagram along its way, by one call. One that has no way is dropped, and nothing is called. The fault: `Send`.
#[tactic(auto, using(crate::proofs::Unsent::makes_nothing))]
pub(crate) fn send_along<S: DatagramSender>(
    sender: &mut S,
    way: DatagramWay,
    bytes: &[u8],
) -> Result<(), PortFault>
    ensures made { Makes (S.calls sender.old) (S.calls sender.new) (call_along way bytes.now) }
    ensures dropped { way ≡ DatagramWay.Nowhere → result ≡ Ok tt }
{
    match way {
        DatagramWay::Joined => sender.send_joined(bytes),
        DatagramWay::To(to) => sender.send_routed(bytes, to),
        DatagramWay::Nowhere => Ok(()),
    }
}
