//! The kinds of connections.

/// The kind of a connection, by its use of the application's points.
///
/// Volume 1, chapter 3, application connection types.
#[derive(Clone, Copy, PartialEq, Eq)]
pub enum Kind {
    /// It drives an output, and no other connection does.
    ExclusiveOwner,
    /// It consumes an input, and its O->T direction has no data.
    InputOnly,
    /// It consumes an input together with another multicast connection, which supports it.
    ListenOnly,
}
