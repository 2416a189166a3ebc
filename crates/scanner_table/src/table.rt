//! The table of a scanner.

use crate::explicit::PendingExplicit;
use crate::profile::ScannerProfile;
use crate::slot::Slot;
use cip_types::{IdBlock, Items, Ms, Node, Numbered};

/// The state of the session on a stream.
///
/// Volume 2, chapter 2, RegisterSession.
#[derive(Clone, Copy, PartialEq, Eq)]
pub enum Stage {
    /// The scanner has sent RegisterSession and waits for the reply.
    Waiting,
    /// The session is registered, and has this handle.
    Up(u32),
    /// The registration failed. No request goes over the stream.
    Unused,
}

/// An open stream to a target.
#[derive(Clone, Copy, PartialEq, Eq)]
pub struct TargetStream {
    /// The number of the stream.
    pub number: u16,
    /// The target.
    pub peer: Node,
    /// The state of the session on the stream.
    pub stage: Stage,
}

impl Numbered for TargetStream {
    ghost number = { λ stream. stream.number };

    fn number(&self) -> u16 {
        self.number
    }
}

/// A registered session.
///
/// Volume 2, chapter 2, RegisterSession.
#[derive(Clone, Copy, PartialEq, Eq)]
pub struct Session {
    /// The number of the stream that the session belongs to.
    pub stream: u16,
    /// The session handle.
    pub handle: u32,
}

/// The whole state of a scanner.
#[derive(PartialEq, Drop)]
pub struct ScannerTable {
    /// The profile, which no event changes.
    pub profile: ScannerProfile,
    /// The slots, in the order of the profile.
    pub slots: Items<Slot>,
    /// Whether the application runs (true) or is idle (false).
    pub run: bool,
    /// The time since the scanner was made.
    pub clock: Ms,
    /// The blocks of connection ids.
    pub ids: Items<IdBlock>,
    /// The number of the next connection id, through the blocks laid one behind the other.
    pub next_id: u32,
    /// The connection serial number of the next Forward_Open; never 0.
    pub next_serial: u16,
    /// The number of the next request, from 1 on.
    pub next_request: u64,
    /// The open streams, in the order in which they were opened.
    pub streams: Items<TargetStream>,
    /// The explicit requests without a reply yet, in the order in which they were sent.
    pub explicit: Items<PendingExplicit>,
}
