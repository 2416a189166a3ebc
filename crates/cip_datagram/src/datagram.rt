//! The contents of datagrams, and the faults of other bytes.

use cip_types::ConnId;
use thiserror::Error;

/// The fault of bytes that are no datagram, in this order: fewer bytes than the fixed part are `Truncated`,
/// then `Items`, then too little data is `Truncated`, then `Trailing`.
#[derive(Clone, Copy, Debug, PartialEq, Eq, Error)]
pub enum DatagramFault {
    /// The bytes end within the fixed part or within the data.
    #[error("the datagram ends too early")]
    Truncated,
    /// The items are not a sequenced address and connected data.
    #[error("the datagram has other items than a sequenced address and connected data")]
    Items,
    /// Bytes follow the data.
    #[error("bytes follow the datagram")]
    Trailing,
}

/// One datagram of a class 1 connection.
///
/// Volume 2, chapter 2, common packet format.
#[derive(Clone, Copy)]
pub struct Datagram<'a> {
    pub connection: ConnId,
    /// The number of the datagram on its connection.
    pub sequence: u32,
    /// The sequence count of the data. It rises with new data of the producer.
    pub count: u16,
    /// The bytes after the count, a run/idle header included.
    pub data: &'a [u8],
}
