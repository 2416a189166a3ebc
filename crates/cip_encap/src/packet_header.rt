//! The numbers before the data of items.

ghost use Rattle.std.specs.Prelude.{◌≡◌};
ghost use Rattle.cip_types.specs.Fields.{Finds, fields_at};

use crate::item::{NULL_ADDRESS, UNCONNECTED_DATA};
use cip_types::fields::{u16_in, u32_in};

/// The numbers before the data, not yet judged.
#[derive(Clone, Copy)]
pub struct PacketHeader {
    pub interface: u32,
    pub timeout: u16,
    pub count: u16,
    pub address: u16,
    pub address_len: u16,
    pub kind: u16,
    pub len: u16,
}

impl PacketHeader {
    ghost use Rattle.cip_encap.specs.Packet.{packet_widths};
    ghost use Rattle.cip_encap.specs.PacketReading.{are_heads};
    ghost use Rattle.cip_encap.specs.PacketHeader.{packet_header_numbers};

    /// The numbers at the front, and the bytes after them.
    pub fn at(bytes: &[u8]) -> Option<(PacketHeader, &[u8])>
        ensures { Finds (λ x. (packet_header_numbers x.0, x.1.now)) result (fields_at packet_widths bytes.now) }
    {
        if bytes.len() < 16 {
            return None;
        }
        let packet_header = PacketHeader {
            interface: u32_in(bytes, 0),
            timeout: u16_in(bytes, 4),
            count: u16_in(bytes, 6),
            address: u16_in(bytes, 8),
            address_len: u16_in(bytes, 10),
            kind: u16_in(bytes, 12),
            len: u16_in(bytes, 14),
        };
        Some((packet_header, &bytes[16..]))
    }

    /// Whether a null address item and an unconnected data item with data begin the items.
    pub fn is_right(&self) -> bool
        ensures { result ≡ are_heads self.now.interface self.now.count self.now.address
            self.now.address_len self.now.kind self.now.len }
    {
        self.interface == 0
            && self.count >= 2
            && self.address == NULL_ADDRESS
            && self.address_len == 0
            && self.kind == UNCONNECTED_DATA
            && self.len >= 1
    }
}
