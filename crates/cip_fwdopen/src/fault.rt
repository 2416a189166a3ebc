//! The faults of bytes that are no request or reply.

use cip_epath::PathFault;
use thiserror::Error;

/// The fault of bytes that are no request or reply.
#[derive(Clone, Copy, Debug, PartialEq, Eq, Error)]
pub enum ReadFault {
    /// Bytes are missing at the end.
    #[error("not enough data")]
    NotEnough,
    /// Bytes follow the last field.
    #[error("too much data")]
    TooMuch,
    /// The path of a request is unreadable.
    #[error("unreadable path: {0}")]
    Path(PathFault),
}
