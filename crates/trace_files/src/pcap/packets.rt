//! Packets as records of a capture file.

ghost use Rattle.std.specs.Prelude.{◌≡◌, ◌+◌, ◌≤◌, ◌++◌, length, OnOk};
ghost use Rattle.trace_files.specs.Pcap.Packets.{shown, file_header, record_header, ipv4_checksum, transport_checksum, packet_record, udp_checksum, udp_record, tcp_record};

use crate::pcap::checksum::{checksum_of, word_sum};
use crate::pcap::ends::Ends;
use crate::pcap::headers::{Control, TCP, UDP, ipv4_header, pseudo_header, tcp_header, udp_header};
use cip_types::OutOfMemory;
use cip_types::fields::{put_bytes, put_u16, put_u32};

/// The most data of a TCP segment, in bytes.
pub const MOST_TCP: usize = 65495;

/// The most data of a UDP datagram, in bytes.
pub const MOST_UDP: usize = 65507;

/// The bytes, or the first ones if there are more than the most.
pub fn shown(most: usize, bytes: &[u8]) -> &[u8]
    ensures value { result.now ≡ shown most bytes.now }
    ensures short { length result.now ≤ most }
{
    if bytes.len() > most {
        &bytes[..most]
    } else {
        bytes
    }
}

/// Appends the header of a capture file of raw IPv4 packets.
pub fn push_file_header(out: &mut Vec<u8>) -> Result<(), OutOfMemory>
    ensures { OnOk result (out.new.items ≡ out.old.items ++ file_header) }
{
    put_u32(out, 0xA1B2_C3D4)?;
    put_u16(out, 2)?;
    put_u16(out, 4)?;
    put_u32(out, 0)?;
    put_u32(out, 0)?;
    put_u32(out, 65535)?;
    put_u32(out, 101)?;
    Ok(())
}

/// Appends the header of a packet of this length, at this time in milliseconds.
#[tactic(auto, unfolding(crate::specs::Pcap::Packets::record_header))]
fn push_record_header(out: &mut Vec<u8>, time: u64, len: u32) -> Result<(), OutOfMemory>
    ensures { OnOk result (out.new.items ≡ out.old.items ++ record_header time len) }
{
    put_u32(out, (time / 1000 % 0x1_0000_0000) as u32)?;
    put_u32(out, (time % 1000 * 1000) as u32)?;
    put_u32(out, len)?;
    put_u32(out, len)?;
    Ok(())
}

/// The checksum of an IPv4 header.
#[tactic(auto, unfolding(crate::specs::Pcap::Packets::ipv4_checksum))]
fn ipv4_checksum(ends: &Ends, protocol: u8, len: u16) -> u16
    requires { len + 20 ≤ 65535 }
    ensures { result ≡ ipv4_checksum ends.now protocol len }
{
    checksum_of(word_sum(&ipv4_header(ends, protocol, len, 0)))
}

/// Appends a packet: its header in the file, its IPv4 header, the header of its protocol, and its data.
#[tactic(auto, unfolding(crate::specs::Pcap::Packets::packet_record))]
fn push_packet(
    out: &mut Vec<u8>,
    time: u64,
    ends: &Ends,
    protocol: u8,
    header: &[u8],
    payload: &[u8],
) -> Result<(), OutOfMemory>
    requires { length header.now + length payload.now ≤ 65515 }
    ensures { OnOk result
        (out.new.items ≡ out.old.items ++ packet_record time ends.now protocol header.now payload.now) }
{
    let len = (header.len() + payload.len()) as u16;
    let checksum = ipv4_checksum(ends, protocol, len);
    push_record_header(out, time, u32::from(len) + 20)?;
    put_bytes(out, &ipv4_header(ends, protocol, len, checksum))?;
    put_bytes(out, header)?;
    put_bytes(out, payload)?;
    Ok(())
}

/// The checksum of a header with its own checksum zero, of the data, and of what the protocol counts beside them.
#[tactic(auto, unfolding(crate::specs::Pcap::Packets::transport_checksum))]
fn transport_checksum(ends: &Ends, protocol: u8, header: &[u8], payload: &[u8]) -> u16
    requires { length header.now + length payload.now ≤ 65515 }
    ensures { result ≡ transport_checksum ends.now protocol header.now payload.now }
{
    let len = (header.len() + payload.len()) as u16;
    let pseudo = pseudo_header(ends, protocol, len);
    checksum_of(word_sum(&pseudo) + word_sum(header) + word_sum(payload))
}

/// The checksum of a UDP datagram. It is never 0, which says that there is none.
#[tactic(auto, unfolding(crate::specs::Pcap::Packets::udp_checksum))]
fn udp_checksum(ends: &Ends, len: u16, payload: &[u8]) -> u16
    requires { length payload.now ≤ 65507 }
    ensures { result ≡ udp_checksum ends.now len payload.now }
{
    let header = udp_header(ends, len, 0);
    match transport_checksum(ends, UDP, &header, payload) {
        0 => 65535,
        checksum => checksum,
    }
}

/// Appends a UDP datagram with these data, or as many of them as fit.
#[tactic(auto, unfolding(crate::specs::Pcap::Packets::udp_record))]
pub fn push_udp(out: &mut Vec<u8>, time: u64, ends: &Ends, bytes: &[u8]) -> Result<(), OutOfMemory>
    ensures { OnOk result (out.new.items ≡ out.old.items ++ udp_record time ends.now bytes.now) }
{
    let payload = shown(MOST_UDP, bytes);
    let len = payload.len() as u16 + 8;
    let checksum = udp_checksum(ends, len, payload);
    let header = udp_header(ends, len, checksum);
    push_packet(out, time, ends, UDP, &header, payload)
}

/// Appends a TCP segment with these data, or as many of them as fit.
#[tactic(auto, unfolding(crate::specs::Pcap::Packets::tcp_record))]
pub fn push_tcp(
    out: &mut Vec<u8>,
    time: u64,
    ends: &Ends,
    control: Control,
    bytes: &[u8],
) -> Result<(), OutOfMemory>
    ensures { OnOk result (out.new.items ≡ out.old.items ++ tcp_record time ends.now control bytes.now) }
{
    let payload = shown(MOST_TCP, bytes);
    let checksum = transport_checksum(ends, TCP, &tcp_header(ends, control, 0), payload);
    let header = tcp_header(ends, control, checksum);
    push_packet(out, time, ends, TCP, &header, payload)
}
