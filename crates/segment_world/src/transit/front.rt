//! The front of a queue.

/// The next item that an end of a stream receives.
#[derive(Clone, Copy)]
pub enum QueueFront<'a> {
    /// The mark that the stream has opened.
    Opening,
    /// The bytes of a frame.
    Frame(&'a [u8]),
    /// The mark that the stream was cut, or that the other end closed it.
    Ending,
}
