//! Sockets of addresses of several hosts, broadcast addresses and those of groups, which the stations of a host share.

use crate::streams::stream_options::{ADDRESS_BYTES, INT_BYTES, int};
use cip_types::Node;
use libc::net as c;
use mio::net::UdpSocket;
use os::FromRawFd;
use std::net::Net;

/// The number of a family of addresses in C's `sockaddr_in`: those of IPv4.
const IN_FAMILY: u16 = 2;

/// A socket that receives what is sent to a broadcast address or to a group that the host has joined, and does not wait. Others of
/// the host may share the address: the system hands each datagram to each of them. None if the system does not bind it, as where
/// another program does not share.
pub fn shared_socket<R: Net>(_rt: &R, address: Node, port: u16) -> Option<UdpSocket> {
    let kind = c::SOCK_DGRAM | c::SOCK_NONBLOCK | c::SOCK_CLOEXEC;
    let fd = unsafe { c::socket(c::AF_INET, kind, 0) };
    if fd < 0 {
        return None;
    }
    let socket = unsafe { UdpSocket::from_raw_fd(fd) };
    let shares = unsafe { c::setsockopt(fd, c::SOL_SOCKET, c::SO_REUSEADDR, &int(1), INT_BYTES) };
    let binds = unsafe { c::bind(fd, &raw_address(address, port), ADDRESS_BYTES) };
    if shares == 0 && binds == 0 {
        Some(socket)
    } else {
        None
    }
}

/// C's `sockaddr_in` of a node's port.
fn raw_address(node: Node, port: u16) -> [u8; c::_SS_SIZE] {
    let mut raw = [0u8; c::_SS_SIZE];
    raw[..2].copy_from_slice(&IN_FAMILY.to_ne_bytes());
    raw[2..4].copy_from_slice(&port.to_be_bytes());
    raw[4..8].copy_from_slice(&node.0.to_be_bytes());
    raw
}
