//! The contents of paths.

use crate::key::ElectronicKey;

/// The path of a connection. The fields have the order in which `write_path` writes the segments.
///
/// Volume 1, chapter 3, connection path.
#[derive(Clone, Copy)]
pub struct ConnPath<'a> {
    /// The identity that the originator requires of the device.
    pub key: Option<ElectronicKey>,
    /// The production inhibit time, in milliseconds.
    pub inhibit: Option<u8>,
    pub class: u32,
    /// The configuration point.
    pub config: Option<u32>,
    /// The point that the target consumes, O->T.
    pub consumed: u32,
    /// The point that the target produces, T->O.
    pub produced: u32,
    /// The contents of the data segment. An empty data segment differs from none.
    pub segment: Option<&'a [u8]>,
}

/// The target of an explicit request.
///
/// Volume 1, chapter 2, request path.
#[derive(Clone, Copy, PartialEq, Eq)]
pub struct Target {
    pub class: u32,
    pub instance: u32,
    pub attribute: Option<u32>,
}
