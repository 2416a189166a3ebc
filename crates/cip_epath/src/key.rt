//! The electronic key of a path.

ghost use Rattle.std.specs.Prelude.{◌<◌};

use thiserror::Error;

/// An electronic key: the identity that the originator of a connection requires of the device. A field of 0
/// matches any device.
///
/// Volume 1, appendix C, electronic key segment.
#[derive(Clone, Copy, PartialEq, Eq)]
pub struct ElectronicKey {
    pub vendor: u16,
    pub device_type: u16,
    pub product: u16,
    /// Whether a compatible revision is accepted in place of an equal one.
    pub compatible: bool,
    /// The major revision, at most 127.
    pub major: u8,
    pub minor: u8,
    ghost seven_bits: { major < 128 },
}

/// The first difference between a key and a device.
#[derive(Clone, Copy, Debug, PartialEq, Eq, Error)]
pub enum KeyFault {
    /// The vendor or the product code differs.
    #[error("another vendor or product code than the key's")]
    VendorOrProduct,
    /// The device type differs.
    #[error("another device type than the key's")]
    DeviceType,
    /// The revision differs, or is not compatible.
    #[error("a revision that the key does not accept")]
    Revision,
}
