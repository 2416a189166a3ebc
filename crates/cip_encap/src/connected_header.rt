//! The numbers before a connected message.

ghost use Rattle.std.specs.Prelude.{◌≡◌};
ghost use Rattle.cip_types.specs.Fields.{Finds, fields_at};

use crate::item::{CONNECTED_ADDRESS, CONNECTED_TRANSPORT};
use cip_types::fields::{u16_in, u32_in};

/// The numbers before the message, not yet judged.
#[derive(Clone, Copy)]
pub struct ConnectedHeader {
    pub interface: u32,
    pub timeout: u16,
    pub items: u16,
    pub address: u16,
    pub address_len: u16,
    pub connection: u32,
    pub kind: u16,
    pub len: u16,
    pub count: u16,
}

impl ConnectedHeader {
    ghost use Rattle.cip_encap.specs.Connected.{connected_widths};
    ghost use Rattle.cip_encap.specs.ConnectedReading.{are_connected_heads};
    ghost use Rattle.cip_encap.specs.ConnectedHeader.{connected_header_numbers};

    /// The numbers at the front, and the bytes after them.
    pub fn at(bytes: &[u8]) -> Option<(ConnectedHeader, &[u8])>
        ensures { Finds (λ x. (connected_header_numbers x.0, x.1.now)) result (fields_at connected_widths bytes.now) }
    {
        if bytes.len() < 22 {
            return None;
        }
        let header = ConnectedHeader {
            interface: u32_in(bytes, 0),
            timeout: u16_in(bytes, 4),
            items: u16_in(bytes, 6),
            address: u16_in(bytes, 8),
            address_len: u16_in(bytes, 10),
            connection: u32_in(bytes, 12),
            kind: u16_in(bytes, 16),
            len: u16_in(bytes, 18),
            count: u16_in(bytes, 20),
        };
        Some((header, &bytes[22..]))
    }

    /// Whether a connected address item and a connected data item with a sequence count begin the items.
    pub fn is_right(&self) -> bool
        ensures { result ≡ are_connected_heads self.now.interface self.now.items self.now.address
            self.now.address_len self.now.kind self.now.len }
    {
        self.interface == 0
            && self.items >= 2
            && self.address == CONNECTED_ADDRESS
            && self.address_len == 4
            && self.kind == CONNECTED_TRANSPORT
            && self.len >= 2
    }
}
