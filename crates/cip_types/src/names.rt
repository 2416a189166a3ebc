//! Names of connections and devices, and the statuses of refusals.

use thiserror::Error;

/// The three numbers that name a connection: its originator's serial number for it, and the vendor
/// number and serial number of that originator.
///
/// Volume 1, chapter 3, connection triad.
#[derive(Clone, Copy, PartialEq, Eq)]
pub struct Triad {
    pub serial: u16,
    pub vendor: u16,
    pub originator: u32,
}

/// An IPv4 address, its first byte the most significant.
#[derive(Clone, Copy, PartialEq, Eq, PartialOrd, Ord)]
pub struct Node(pub u32);

/// The connection id that the datagrams of one direction carry.
#[derive(Clone, Copy, PartialEq, Eq)]
pub struct ConnId(pub u32);

/// Milliseconds.
#[derive(Clone, Copy, PartialEq, Eq, PartialOrd, Ord)]
pub struct Ms(pub u64);

/// The general status of a refusal, with its extended status where there is one.
///
/// Volume 1, appendix B and chapter 3, connection manager error codes.
#[derive(Clone, Copy, Debug, PartialEq, Eq, Error)]
#[error("general status {general:#04x}, extended status {extended:?}")]
pub struct Fault {
    pub general: u8,
    pub extended: Option<u16>,
}

/// Why a reply does not open the requested connection.
#[derive(Clone, Copy, Debug, PartialEq, Eq, Error)]
pub enum Mismatch {
    /// The reply names another connection.
    #[error("a reply for another connection")]
    Triad,
    /// The T->O id is not the requested one, or is in use.
    #[error("another T->O id than the requested one, or one in use")]
    Id,
    /// An actual packet interval lies outside the range of requested ones.
    #[error("an actual packet interval out of range")]
    Api,
    /// The target refused the request.
    #[error("refused by the target: {0}")]
    Refused(Fault),
}

/// Who a device is: the fields of its Identity object that an electronic key names.
///
/// Volume 1, chapter 5, Identity object.
#[derive(Clone, Copy, PartialEq, Eq)]
pub struct Identity {
    pub vendor: u16,
    pub device_type: u16,
    pub product: u16,
    pub major: u8,
    pub minor: u8,
}
