//! The headers of packets.

ghost use Rattle.std.specs.Prelude.{◌≡◌, ◌+◌, ◌≤◌};
ghost use Rattle.trace_files.specs.Pcap.Headers.{ipv4_header, udp_header, tcp_header, pseudo_header, time_to_live};

use crate::pcap::ends::{Ends, is_multicast};

/// The protocol number of TCP.
pub const TCP: u8 = 6;

/// The protocol number of UDP.
pub const UDP: u8 = 17;

/// The numbers of a TCP segment, and its control bits.
#[derive(Clone, Copy)]
pub struct Control {
    pub sequence: u32,
    pub acknowledgement: u32,
    pub bits: u8,
}

/// The number of routers that may pass on a packet to this destination: none for a group of hosts.
fn time_to_live(ends: &Ends) -> u8
    ensures { result ≡ time_to_live ends.now }
{
    if is_multicast(ends.destination) {
        1
    } else {
        64
    }
}

/// The header of an IPv4 packet with this number of bytes behind it, and with this checksum.
///
/// RFC 791, section 3.1.
#[tactic(auto, unfolding(crate::specs::Pcap::Headers::ipv4_header))]
pub fn ipv4_header(ends: &Ends, protocol: u8, len: u16, checksum: u16) -> [u8; 20]
    requires { len + 20 ≤ 65535 }
    ensures { result ≡ ipv4_header ends.now protocol len checksum }
{
    let [a, b] = (len + 20).to_be_bytes();
    let [c, d] = checksum.to_be_bytes();
    let [e, f, g, h] = ends.source.0.to_be_bytes();
    let [i, j, k, l] = ends.destination.0.to_be_bytes();
    let ttl = time_to_live(ends);
    [
        0x45, 0, a, b, 0, 0, 0x40, 0, ttl, protocol, c, d, e, f, g, h, i, j, k, l,
    ]
}

/// What the checksum of UDP and TCP counts beside header and data.
///
/// RFC 768; RFC 9293, section 3.1.
#[tactic(auto, unfolding(crate::specs::Pcap::Headers::pseudo_header))]
pub fn pseudo_header(ends: &Ends, protocol: u8, len: u16) -> [u8; 12]
    ensures { result ≡ pseudo_header ends.now protocol len }
{
    let [a, b, c, d] = ends.source.0.to_be_bytes();
    let [e, f, g, h] = ends.destination.0.to_be_bytes();
    let [i, j] = len.to_be_bytes();
    [a, b, c, d, e, f, g, h, 0, protocol, i, j]
}

/// The header of a UDP datagram of this length, the header included, and with this checksum.
///
/// RFC 768.
#[tactic(auto, unfolding(crate::specs::Pcap::Headers::udp_header))]
pub fn udp_header(ends: &Ends, len: u16, checksum: u16) -> [u8; 8]
    ensures { result ≡ udp_header ends.now len checksum }
{
    let [a, b] = ends.source_port.to_be_bytes();
    let [c, d] = ends.destination_port.to_be_bytes();
    let [e, f] = len.to_be_bytes();
    let [g, h] = checksum.to_be_bytes();
    [a, b, c, d, e, f, g, h]
}

/// The header of a TCP segment with this checksum: no options, a window of 65,535 bytes, no urgent data.
///
/// RFC 9293, section 3.1.
#[tactic(auto, unfolding(crate::specs::Pcap::Headers::tcp_header))]
pub fn tcp_header(ends: &Ends, control: Control, checksum: u16) -> [u8; 20]
    ensures { result ≡ tcp_header ends.now control checksum }
{
    let [a, b] = ends.source_port.to_be_bytes();
    let [c, d] = ends.destination_port.to_be_bytes();
    let [e, f, g, h] = control.sequence.to_be_bytes();
    let [i, j, k, l] = control.acknowledgement.to_be_bytes();
    let [m, n] = checksum.to_be_bytes();
    let bits = control.bits;
    [
        a, b, c, d, e, f, g, h, i, j, k, l, 0x50, bits, 255, 255, m, n, 0, 0,
    ]
}
