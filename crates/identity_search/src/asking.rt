//! The request and the time in which devices answer it.

use crate::fault::SearchFault;
use crate::line::identity_line;
use crate::reading::{identity_request, read_identity_reply};
use cip_types::Node;
use cip_types::limits::TCP_PORT;
use std::alloc::Global;
use std::io::Write;
use std::net::{IpAddr, Ipv4Addr, Net, SocketAddr, UdpSocket};
use std::rt::Clock;
use std::time::{Duration, Instant};

/// The sender context of a request. Its first two bytes are the longest delay of an answer to a broadcast, in milliseconds: with
/// 0 a device may answer after two seconds, which is behind the usual end of a search.
///
/// Volume 2, chapter 2, ListIdentity.
const CONTEXT: u64 = 500;

/// An answer has at most so many bytes: more are cut off, and the message is then none.
const LONGEST_ANSWER: usize = 512;

/// The longest time for which the search waits at once.
const MOST_WAIT_MS: u64 = 100;

/// Sends a ListIdentity request to this address, which may be that of all hosts of a network, and writes a line for each
/// answer that arrives within this time. What is no answer is not shown. A device answers a broadcast late, as it draws.
///
/// The faults, in order: `Socket`, `OutOfMemory`, `Output`; `NoAnswer` after the time.
pub fn search<R, O>(rt: &R, host: Node, seconds: u32, out: &mut O) -> Result<(), SearchFault>
where
    R: AllocGlobal + Clock + Net,
    O: Write,
{
    let alloc = rt.alloc();
    let socket = requested(rt, alloc, host)?;
    let Ok(begin) = Instant::now(rt) else {
        return Err(SearchFault::Socket);
    };
    let most = Duration::from_secs(u64::from(seconds));
    let mut answered = false;
    for _ in 0..u64::MAX {
        match Instant::now(rt) {
            Ok(now) if now.duration_since(begin) < most => {}
            _ => break,
        }
        if take_answer(alloc, &socket, out)? {
            answered = true;
        }
    }
    if answered {
        Ok(())
    } else {
        Err(SearchFault::NoAnswer)
    }
}

/// A socket that has sent the request, and waits for a bounded time.
fn requested<R: Net>(rt: &R, alloc: Global, host: Node) -> Result<UdpSocket, SearchFault> {
    let request = identity_request(alloc, CONTEXT)?;
    let Ok(socket) = UdpSocket::bind(rt, at(Node(0), 0)) else {
        return Err(SearchFault::Socket);
    };
    let wait = Some(Duration::from_millis(MOST_WAIT_MS));
    if socket.set_broadcast(true).is_err()
        || socket.set_read_timeout(wait).is_err()
        || socket
            .send_to(request.as_slice(), at(host, TCP_PORT))
            .is_err()
    {
        return Err(SearchFault::Socket);
    }
    Ok(socket)
}

/// Waits for an answer, and writes its line. Answers whether one came.
fn take_answer<O: Write>(
    alloc: Global,
    socket: &UdpSocket,
    out: &mut O,
) -> Result<bool, SearchFault> {
    let mut room = [0; LONGEST_ANSWER];
    let Ok((count, peer)) = socket.recv_from(&mut room) else {
        return Ok(false);
    };
    let Some(bytes) = room.get(..count) else {
        return Ok(false);
    };
    let Ok(found) = read_identity_reply(CONTEXT, bytes) else {
        return Ok(false);
    };
    let line = identity_line(alloc, node_of(peer), &found)?;
    match out.write_all(line.as_slice()) {
        Ok(()) => Ok(true),
        Err(_) => Err(SearchFault::Output),
    }
}

/// The address and port of a host.
fn at(node: Node, port: u16) -> SocketAddr {
    SocketAddr::new(IpAddr::V4(Ipv4Addr::from_bits(node.0)), port)
}

/// The IPv4 address of a peer.
fn node_of(peer: SocketAddr) -> Node {
    match peer.ip() {
        IpAddr::V4(address) => Node(address.to_bits()),
        IpAddr::V6(_) => Node(0),
    }
}
