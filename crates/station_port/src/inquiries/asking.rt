//! Who inquires, by which socket, and where the reply goes.

ghost use Rattle.std.specs.Prelude.{◌≡◌};
ghost use Rattle.station_port.specs.Inquiries.Asking.{asker_of, has_length, is_broadcast};

use cip_types::Node;
use std::net::SocketAddr;

/// An inquiry is an encapsulation header alone.
///
/// Volume 2, chapter 2, encapsulation header.
const INQUIRY_BYTES: usize = 24;

/// A socket that receives inquiries, by the address to which it is bound.
#[derive(Clone, Copy, PartialEq, Eq)]
pub enum InquirySocket {
    /// The station's own address.
    Own,
    /// 255.255.255.255, all hosts of the networks of a host.
    Everybody,
    /// The broadcast address of the station's network.
    Network,
}

/// Where an inquiry came from.
#[derive(Clone, Copy)]
pub struct Asker {
    pub node: Node,
    pub at: SocketAddr,
}

/// Whether what a socket receives was sent to a broadcast address.
pub fn is_broadcast(socket: InquirySocket) -> bool
    ensures { result ≡ is_broadcast socket }
{
    match socket {
        InquirySocket::Own => false,
        InquirySocket::Everybody | InquirySocket::Network => true,
    }
}

/// Whether a datagram of so many bytes can be an inquiry.
pub fn has_length(count: usize) -> bool
    ensures { result ≡ has_length count }
{
    count == INQUIRY_BYTES
}

/// Where the reply to a peer goes: to the last asker, if that is this peer.
pub fn asker_of(last: Option<Asker>, peer: Node) -> Option<Asker>
    ensures { result ≡ asker_of last peer }
{
    match last {
        Some(asker) if asker.node.0 == peer.0 => Some(asker),
        _ => None,
    }
}
