//! Addresses of sockets.

use cip_types::Node;
use std::net::{IpAddr, Ipv4Addr, SocketAddr};

/// The address of a node's port.
pub fn address_of(node: Node, port: u16) -> SocketAddr {
    SocketAddr::new(IpAddr::V4(Ipv4Addr::from_bits(node.0)), port)
}
