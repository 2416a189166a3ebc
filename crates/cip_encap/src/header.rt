//! The header of a message.

ghost use Rattle.std.specs.Prelude.{◌≡◌, ◌+◌, ◌≤◌, length, Option};
ghost use Rattle.std.specs.Option.{option_map};
ghost use Rattle.std.specs.Int.{w64};
ghost use Rattle.cip_types.specs.Fields.{Finds, fields_at};
ghost use Rattle.cip_types.specs.Parts.{number_in};
ghost use Rattle.cip_types.specs.Texts.{Tailed};
ghost use Rattle.cip_encap.specs.Message.{header_widths, headed, IsHeaderReading};

use cip_types::fields::{u16_in, u32_in};

/// The number of eight bytes at a position.
fn u64_in(bytes: &[u8], at: usize) -> u64
    requires { at + 8 ≤ length bytes.now }
    ensures { result ≡ number_in w64 bytes.now at }
{
    let f = &bytes[at..at + 8];
    u64::from_le_bytes([f[0], f[1], f[2], f[3], f[4], f[5], f[6], f[7]])
}

/// The numbers of a header, not judged.
///
/// Volume 2, chapter 2, encapsulation messages.
#[derive(Clone, Copy, PartialEq, Eq)]
pub struct MessageHeader {
    pub command: u16,
    /// The length of the data that the header states.
    pub len: u16,
    /// The session handle.
    pub session: u32,
    pub status: u32,
    /// The sender context: eight bytes, the first the least significant.
    pub context: u64,
    pub options: u32,
}

/// The header at the front, and the bytes after it.
pub fn header_at(bytes: &[u8]) -> Option<(MessageHeader, &[u8])>
    ensures { Finds (λ x. headed x.0 x.1.now) result (fields_at header_widths bytes.now) }
{
    if bytes.len() < 24 {
        return None;
    }
    let header = MessageHeader {
        command: u16_in(bytes, 0),
        len: u16_in(bytes, 2),
        session: u32_in(bytes, 4),
        status: u32_in(bytes, 8),
        context: u64_in(bytes, 12),
        options: u32_in(bytes, 20),
    };
    Some((header, &bytes[24..]))
}

/// Reads the header at the front, and answers it with all bytes after it. None where there are fewer than
/// the 24 bytes of a header.
///
/// Volume 2, chapter 2, encapsulation messages.
pub fn read_message_header(bytes: &[u8]) -> Option<(MessageHeader, &[u8])>
    // The result is a reading of the bytes.
    ensures reading { IsHeaderReading bytes.now (option_map (λ x. headed x.0 x.1.now) result) }
    // The bytes have no other reading.
    ensures only { (other : Option Tailed) → IsHeaderReading bytes.now other
        → option_map (λ x. headed x.0 x.1.now) result ≡ other }
    // The same as a function of the bytes.
    ensures value { Finds (λ x. headed x.0 x.1.now) result (fields_at header_widths bytes.now) }
{
    header_at(bytes)
}
