//! The fixed part of a datagram.

ghost use Rattle.std.specs.Prelude.{◌≡◌};
ghost use Rattle.cip_types.specs.Fields.{Finds, fields_at};

use crate::item::{CONNECTED_DATA, SEQUENCED_ADDRESS};
use cip_types::fields::{u16_in, u32_in};

/// The numbers before the data, not yet judged.
#[derive(Clone, Copy)]
pub struct DatagramFront {
    pub items: u16,
    pub address: u16,
    pub address_len: u16,
    pub connection: u32,
    pub sequence: u32,
    pub connected: u16,
    pub len: u16,
    pub count: u16,
}

impl DatagramFront {
    ghost use Rattle.cip_datagram.specs.Datagram.{datagram_widths};
    ghost use Rattle.cip_datagram.specs.Reading.{are_items};
    ghost use Rattle.cip_datagram.specs.DatagramFront.{numbers_of};

    /// The fixed part at the front, and the bytes after it. None where there are fewer than 20 bytes.
    pub fn at(bytes: &[u8]) -> Option<(DatagramFront, &[u8])>
        ensures { Finds (λ x. (numbers_of x.0, x.1.now)) result (fields_at datagram_widths bytes.now) }
    {
        if bytes.len() < 20 {
            return None;
        }
        let fixed = DatagramFront {
            items: u16_in(bytes, 0),
            address: u16_in(bytes, 2),
            address_len: u16_in(bytes, 4),
            connection: u32_in(bytes, 6),
            sequence: u32_in(bytes, 10),
            connected: u16_in(bytes, 14),
            len: u16_in(bytes, 16),
            count: u16_in(bytes, 18),
        };
        Some((fixed, &bytes[20..]))
    }

    /// Whether the items are those of a datagram.
    pub fn has_items(&self) -> bool
        ensures { result ≡ are_items self.now.items self.now.address self.now.address_len
            self.now.connected self.now.len }
    {
        self.items == 2
            && self.address == SEQUENCED_ADDRESS
            && self.address_len == 8
            && self.connected == CONNECTED_DATA
            && self.len >= 2
    }
}
