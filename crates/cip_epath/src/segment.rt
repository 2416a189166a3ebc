//! The segments of paths, and the bytes that begin them.

use crate::key::ElectronicKey;

/// The first byte of a logical segment, without its type and format.
pub const LOGICAL: u8 = 0x20;

/// The first byte of an electronic key segment.
pub const ELECTRONIC_KEY: u8 = 0x34;

/// The format of an electronic key: vendor, device type, product code, revision.
pub const KEY_FORMAT: u8 = 4;

/// The format of an electronic key with a serial number behind these.
pub const SERIAL_KEY_FORMAT: u8 = 5;

/// The bytes of an electronic key segment.
pub const KEY_LEN: usize = 10;

/// The first byte of a production inhibit time segment.
pub const PRODUCTION_INHIBIT: u8 = 0x43;

/// The bytes of a production inhibit time segment.
pub const INHIBIT_LEN: usize = 2;

/// The first byte of a simple data segment.
pub const SIMPLE_DATA: u8 = 0x80;

/// The type of a logical segment: what its value identifies.
#[derive(Clone, Copy)]
pub enum LogicalType {
    Class,
    Instance,
    Member,
    ConnectionPoint,
    Attribute,
}

/// One segment of a path.
#[derive(Clone, Copy)]
pub enum Segment<'a> {
    Logical(LogicalType, u32),
    ElectronicKey(ElectronicKey),
    Data(&'a [u8]),
    /// A production inhibit time, in milliseconds.
    Inhibit(u8),
}
