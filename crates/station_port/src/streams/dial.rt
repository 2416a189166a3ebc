//! Opening a stream from a station's own address, without waiting.

use crate::streams::address::address_of;
use cip_types::Node;
use libc::net as c;
use mio::net::TcpStream;
use os::FromRawFd;
use socket_port::Destination;
use std::net::Net;
use std::os::fd::OwnedFd;

/// Each address of the host.
const ANY: Node = Node(0);

/// The bytes of C's `sockaddr_in`.
const ADDRESS_BYTES: u32 = 16;

/// Begins to open a stream to a destination, from this address or, if it is 0.0.0.0, from the one that the system
/// chooses. A peer sends its datagrams to the address from which a stream comes, and takes no datagrams of another.
pub fn dial<R: Net>(net: &R, from: Node, to: Destination) -> Option<TcpStream> {
    if from == ANY {
        return TcpStream::connect(net, address_of(to.node, to.port)).ok();
    }
    let kind = c::SOCK_STREAM | c::SOCK_NONBLOCK | c::SOCK_CLOEXEC;
    let fd = unsafe { c::socket(c::AF_INET, kind, 0) };
    if fd < 0 {
        return None;
    }
    // The socket is closed as it is dropped, in each case below too.
    let socket = unsafe { OwnedFd::from_raw_fd(fd) };
    if unsafe { c::bind(fd, &raw_address(from, 0), ADDRESS_BYTES) } < 0 {
        return None;
    }
    let begun = unsafe { c::connect(fd, &raw_address(to.node, to.port), ADDRESS_BYTES) };
    if begun < 0 && os::errno() != libc::EINPROGRESS {
        return None;
    }
    Some(TcpStream::from(socket))
}

/// C's `sockaddr_in` of an address and a port: the family in the machine's order, the others with the most significant
/// byte first.
fn raw_address(node: Node, port: u16) -> [u8; c::_SS_SIZE] {
    let mut raw = [0u8; c::_SS_SIZE];
    raw[..2].copy_from_slice(&(c::AF_INET as u16).to_ne_bytes());
    raw[2..4].copy_from_slice(&port.to_be_bytes());
    raw[4..8].copy_from_slice(&node.0.to_be_bytes());
    raw
}
