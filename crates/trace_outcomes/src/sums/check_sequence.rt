//! The CRC-32 of bytes: the frame check sequence of IEEE 802.3.

mod crc;
mod table;

pub use crc::crc32;
