//! The directions of a stream.

/// A direction of a stream. `Forth` is the direction of requests, `Back` that of replies.
#[derive(Clone, Copy, PartialEq, Eq)]
pub enum Direction {
    /// To the device that accepted the stream.
    Forth,
    /// To the device that opened the stream.
    Back,
}
