//! Addresses of sockets, and the nodes that they belong to.

use crate::streams::Destination;
use cip_types::Node;
use std::net::{IpAddr, Ipv4Addr, SocketAddr};

/// This host's own node, 127.0.0.1.
pub const LOOPBACK: Node = Node(0x7F00_0001);

/// This host's own address, at a port.
pub fn loopback(port: u16) -> SocketAddr {
    address_of(Destination {
        node: LOOPBACK,
        port,
    })
}

/// The address of a destination.
pub(crate) fn address_of(to: Destination) -> SocketAddr {
    SocketAddr::new(IpAddr::V4(Ipv4Addr::from_bits(to.node.0)), to.port)
}

/// The node of an address, if it is one of IPv4.
pub fn node_of(address: SocketAddr) -> Option<Node> {
    match address.ip() {
        IpAddr::V4(ip) => Some(Node(ip.to_bits())),
        IpAddr::V6(_) => None,
    }
}
