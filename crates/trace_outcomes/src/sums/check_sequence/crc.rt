//! The CRC of bytes, byte by byte.
//!
//! IEEE 802.3, 3.2.9.

ghost use Rattle.std.specs.Prelude.{◌≡◌, ◌%◌, ◌/◌};
ghost use Rattle.trace_outcomes.specs.Sums.Crc32.Crc.{crc32, crc_step};

use crate::sums::check_sequence::table::REMAINDERS;

/// The CRC-32 of bytes. Takes no memory.
pub fn crc32(bytes: &[u8]) -> u32
    ensures { result ≡ crc32 bytes.now }
{
    let mut crc = 0xffff_ffff;
    let mut rest = bytes;
    while let [first, after @ ..] = rest {
        crc = crc_step(crc, *first);
        rest = after;
    }
    crc ^ 0xffff_ffff
}

/// The remainder with one byte more.
fn crc_step(crc: u32, byte: u8) -> u32
    ensures { result ≡ crc_step crc byte }
{
    REMAINDERS[usize::from(low_byte(crc) ^ byte)] ^ (crc / 256)
}

/// The last eight bits.
fn low_byte(crc: u32) -> u8
    ensures { result ≡ crc % 256 }
{
    (crc % 256) as u8
}
