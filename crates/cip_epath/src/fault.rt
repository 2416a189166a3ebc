//! The faults of bytes that are no path.

use thiserror::Error;

/// The fault of bytes that are no path. `Shape` needs every segment to be readable, so the others precede it.
#[derive(Clone, Copy, Debug, PartialEq, Eq, Error)]
pub enum PathFault {
    /// The bytes end within a segment.
    #[error("the path ends within a segment")]
    Truncated,
    /// The first byte of a segment is that of no segment.
    #[error("a byte of the path begins no segment")]
    Segment,
    /// An electronic key has another format than 4.
    #[error("the electronic key of the path has an unknown format")]
    KeyFormat,
    /// Every segment is readable, but their arrangement is none of a path's.
    #[error("the segments of the path are arranged wrongly")]
    Shape,
}
