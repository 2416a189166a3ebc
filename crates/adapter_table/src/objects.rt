//! What the connections of a device tell of it, and the class of an object that its data sheet has too.

/// The class of the QoS object.
///
/// Volume 2, chapter 5, QoS object.
pub const QOS_CLASS: u32 = 0x48;

/// What the status word of the Identity object says of the connections: an output has an established exclusive owner, a
/// connection is established and its newest data are in run mode, one is established, one has timed out.
///
/// Volume 1, chapter 5, Identity object, attribute 5.
#[derive(Clone, Copy, Debug, PartialEq, Eq)]
pub struct IoState {
    pub owned: bool,
    pub running: bool,
    pub established: bool,
    pub timed_out: bool,
}
