//! What the system does for the sockets of a station. Each of these is done as far as the system has it.

use libc::net as c;
use mio::net::{TcpStream, UdpSocket};
use std::os::fd::AsRawFd;

/// A silent peer is probed after so many seconds, and then again after each so many.
const PROBE_AFTER_S: u32 = 10;

const PROBE_AGAIN_S: u32 = 3;

/// A peer that answers none of so many probes is gone.
const MOST_PROBES: u32 = 3;

/// A stream whose bytes its peer does not take for so many milliseconds is cut.
const UNTAKEN_MS: u32 = 10_000;

/// The datagrams that wait at a socket may take so many bytes. The system doubles the number for what it needs itself, and caps it.
const WAITING_BYTES: u32 = 4_194_304;

/// The bytes of C's `int`, and those of its `sockaddr_in`.
pub(crate) const INT_BYTES: u32 = 4;

pub(crate) const ADDRESS_BYTES: u32 = 16;

/// Has the system cut the stream of a peer that is gone: one that takes no bytes, or does not answer at all.
pub fn watch_peer(socket: &TcpStream) {
    let fd = socket.as_raw_fd();
    let _ = unsafe { c::setsockopt(fd, c::SOL_SOCKET, c::SO_KEEPALIVE, &int(1), INT_BYTES) };
    let _ = unsafe {
        c::setsockopt(
            fd,
            c::IPPROTO_TCP,
            c::TCP_KEEPIDLE,
            &int(PROBE_AFTER_S),
            INT_BYTES,
        )
    };
    let _ = unsafe {
        c::setsockopt(
            fd,
            c::IPPROTO_TCP,
            c::TCP_KEEPINTVL,
            &int(PROBE_AGAIN_S),
            INT_BYTES,
        )
    };
    let _ = unsafe {
        c::setsockopt(
            fd,
            c::IPPROTO_TCP,
            c::TCP_KEEPCNT,
            &int(MOST_PROBES),
            INT_BYTES,
        )
    };
    let _ = unsafe {
        c::setsockopt(
            fd,
            c::IPPROTO_TCP,
            c::TCP_USER_TIMEOUT,
            &int(UNTAKEN_MS),
            INT_BYTES,
        )
    };
}

/// Has the system keep more datagrams that wait at a socket, as many as the host allows: a burst that comes faster than a device
/// takes it is not dropped as long as there is room.
pub fn make_room(socket: &UdpSocket) {
    let _ = unsafe {
        c::setsockopt(
            socket.as_raw_fd(),
            c::SOL_SOCKET,
            c::SO_RCVBUF,
            &int(WAITING_BYTES),
            INT_BYTES,
        )
    };
}

/// Breaks a stream at once: what waits in it is never delivered, and its peer is told so. To the system, it is a
/// connection to no address.
pub fn abort(socket: &TcpStream) {
    let _ = unsafe { c::connect(socket.as_raw_fd(), &[0u8; c::_SS_SIZE], ADDRESS_BYTES) };
}

/// C's `int` of a number, in the machine's order.
pub(crate) fn int(number: u32) -> [u8; 16] {
    let mut raw = [0u8; 16];
    raw[..4].copy_from_slice(&number.to_ne_bytes());
    raw
}
