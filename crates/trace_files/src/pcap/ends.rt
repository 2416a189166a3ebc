//! The ends of packets: the traced device and its peers.

ghost use Rattle.std.specs.Prelude.{◌≡◌};
ghost use Rattle.trace_files.specs.Pcap.Ends.{side_of, device_ends, reversed, ends_of, datagram_ends, inquiry_ends, is_multicast, stream_port};

use cip_tables::Config;
use cip_types::{Node, Numbered};

/// The TCP port of explicit messages at an adapter, and the UDP port of inquiries.
pub const ENCAPSULATION_PORT: u16 = 44818;

/// The UDP port of class 1 datagrams.
pub const DATAGRAM_PORT: u16 = 2222;

/// The traced device: its address, and whether it opens the streams itself, as a scanner does.
#[derive(Clone, Copy)]
pub struct Side {
    pub node: Node,
    pub opens: bool,
}

/// The end that sends a segment of a stream: the peer of the stream, or the traced device.
#[derive(Clone, Copy)]
pub enum Sender {
    Peer,
    Device,
}

/// The source and the destination of a packet, each an address and a port.
#[derive(Clone, Copy)]
pub struct Ends {
    pub source: Node,
    pub source_port: u16,
    pub destination: Node,
    pub destination_port: u16,
}

/// An open stream: its number, its peer, the port of the end that opened it, and the next sequence number of the peer
/// and of the device.
#[derive(Clone, Copy)]
pub struct CapturedStream {
    pub number: u16,
    pub peer: Node,
    pub port: u16,
    pub received: u32,
    pub sent: u32,
}

impl Numbered for CapturedStream {
    ghost number = { λ stream. stream.number };

    fn number(&self) -> u16 {
        self.number
    }
}

/// The side of a device of this configuration.
pub fn side_of(config: &Config) -> Side
    ensures { result ≡ side_of config.now }
{
    match config {
        Config::Adapter(profile) => Side {
            node: profile.node,
            opens: false,
        },
        Config::Scanner(profile) => Side {
            node: profile.node,
            opens: true,
        },
    }
}

/// The ends of a segment of this sender.
pub fn ends_of(sender: Sender, side: Side, stream: &CapturedStream) -> Ends
    ensures { result ≡ ends_of sender side stream.now }
{
    let ends = device_ends(side, stream);
    match sender {
        Sender::Device => ends,
        Sender::Peer => reversed(ends),
    }
}

/// The ends of a packet that is sent back.
pub fn reversed(ends: Ends) -> Ends
    ensures { result ≡ reversed ends }
{
    Ends {
        source: ends.destination,
        source_port: ends.destination_port,
        destination: ends.source,
        destination_port: ends.source_port,
    }
}

/// The ends of a segment from the device.
fn device_ends(side: Side, stream: &CapturedStream) -> Ends
    ensures { result ≡ device_ends side stream.now }
{
    let (source_port, destination_port) = if side.opens {
        (stream.port, ENCAPSULATION_PORT)
    } else {
        (ENCAPSULATION_PORT, stream.port)
    };
    Ends {
        source: side.node,
        source_port,
        destination: stream.peer,
        destination_port,
    }
}

/// The ends of a class 1 datagram.
pub fn datagram_ends(source: Node, destination: Node) -> Ends
    ensures { result ≡ datagram_ends source destination }
{
    Ends {
        source,
        source_port: DATAGRAM_PORT,
        destination,
        destination_port: DATAGRAM_PORT,
    }
}

/// The ends of an inquiry at the event of this number. The trace does not have the port of the peer; a dynamic one stands
/// for it.
pub fn inquiry_ends(number: u64, peer: Node, device: Node) -> Ends
    ensures { result ≡ inquiry_ends number peer device }
{
    Ends {
        source: peer,
        source_port: stream_port(number),
        destination: device,
        destination_port: ENCAPSULATION_PORT,
    }
}

/// Whether an address is one of a group of hosts.
///
/// RFC 1112, section 4.
pub fn is_multicast(node: Node) -> bool
    ensures { result ≡ is_multicast node }
{
    node.0 / 0x1000_0000 == 14
}

/// The port of the end that opens a stream at the event of this number.
#[tactic(auto, unfolding(crate::specs::Pcap::Ends::stream_port))]
pub fn stream_port(number: u64) -> u16
    ensures { result ≡ stream_port number }
{
    (49152 + number % 16384) as u16
}
