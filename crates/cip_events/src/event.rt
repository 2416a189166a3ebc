//! The events of a device, and its answers.

ghost use Rattle.std.specs.Prelude.{◌≡◌};

use crate::consumers::Consumers;
use crate::profile_fault::ProfileFault;
use crate::small_bytes::SmallBytes;
use cip_types::{ConnId, Fault, IdBlock, Items, Mismatch, Node, OutOfMemory, Triad};
use thiserror::Error;

/// An event of a device.
#[derive(PartialEq, Drop)]
pub enum Event {
    /// A peer sends a request to the message router.
    Request {
        peer: Node,
        bytes: Items<u8>,
    },
    /// A peer opens a stream. The event gives it this number.
    StreamOpened {
        stream: u16,
        peer: Node,
    },
    /// A stream brings the bytes of one encapsulation message.
    Frame {
        stream: u16,
        bytes: Items<u8>,
    },
    /// A stream breaks, or its peer closes it.
    StreamCut {
        stream: u16,
    },
    /// A peer sends a class 1 datagram.
    Datagram {
        peer: Node,
        bytes: Items<u8>,
    },
    /// A peer sends an encapsulation message over no stream, to inquire which device this is.
    Inquiry {
        peer: Node,
        bytes: Items<u8>,
    },
    /// The application sets the value of an input.
    Write {
        point: u32,
        bytes: Items<u8>,
    },
    /// The application reads the value of a point.
    Read {
        point: u32,
    },
    /// Milliseconds pass, at most 60,000.
    Tick {
        ms: u32,
    },
    /// The application of a scanner starts to run or becomes idle.
    Mode {
        run: bool,
    },
    /// The application has a scanner open the connection of a slot, and keep it open.
    Start {
        slot: u32,
    },
    /// The application has a scanner close the connection of a slot.
    Stop {
        slot: u32,
    },
    /// The application has a scanner send a request to the message router of a target. The request gets this number.
    Explicit {
        target: Node,
        number: u32,
        bytes: Items<u8>,
    },
    /// The application answers the request that the device gave it with this number: general status, and data.
    Respond {
        number: u64,
        status: u8,
        bytes: Items<u8>,
    },
    /// The host says what it has counted of the interface of a described adapter: 44 bytes of the interface, and 48 of its medium.
    ///
    /// Volume 2, chapter 5, Ethernet Link object, attributes 4 and 5.
    Counters {
        bytes: Items<u8>,
    },
    /// The device gets a further block of connection ids.
    Ids {
        block: IdBlock,
    },
}

/// The recipient of a frame.
#[derive(Clone, Copy, PartialEq, Eq)]
pub enum Recipient {
    /// The other end of a stream.
    Stream(u16),
    /// The peer of the answered request or inquiry.
    Peer(Node),
}

/// Bytes for one recipient.
#[derive(PartialEq, Drop)]
pub struct Frame {
    pub to: Recipient,
    pub bytes: Items<u8>,
}

/// An outgoing datagram: its destination address, the nodes that consume it, and its bytes.
#[derive(PartialEq, Drop)]
pub struct OutgoingDatagram {
    pub address: Node,
    pub nodes: Consumers,
    pub bytes: SmallBytes,
}

/// The result of a received datagram, tested in this order: `Malformed`, `UnknownId`, `WrongSize`, `Old`;
/// otherwise it is accepted. `UnknownId`, `WrongSize` and `Duplicate`, tested in this order, are also the results of a
/// connected message that is not executed.
///
/// Volume 1, chapter 3, class 1 transport, class 3 transport and run/idle; Volume 2, chapter 2, sequenced address item.
#[derive(Clone, Copy, Debug, PartialEq, Eq)]
pub enum Delivery {
    /// Accepted: its run-mode data is applied to the output.
    Applied,
    /// Accepted: it is in idle mode, and the output takes its idle action.
    Idle,
    /// Accepted: its connection has no O->T data.
    Heartbeat,
    /// Accepted: its sequence count repeats that of the last accepted datagram, so its data is not new. A connected
    /// message repeats the count of the last executed one of its connection, so it gets the same reply again.
    Duplicate,
    /// Its sequence number is not newer than the last accepted one.
    Old,
    /// No established connection of the peer has its connection id. For a connected message: no class 3 connection of
    /// its stream has it.
    UnknownId,
    /// Its size is not the connection's. A connected message is longer than its connection's size.
    WrongSize,
    /// Its bytes are no datagram.
    Malformed,
}

/// The result of an event.
#[derive(PartialEq, Drop)]
pub enum Verdict {
    /// The device processed it.
    Done,
    /// It has too few bytes to be answered, or it is a message without a reply whose length field is wrong.
    BadFrame,
    /// It is a message that the scanner does not expect.
    Ignored,
    /// The value of a point.
    Value(Items<u8>),
    /// The result of a datagram.
    Delivered(Delivery),
    /// The reply of a target's message router to the explicit request of this number: its general status, the bytes
    /// of its additional status, and its data.
    ///
    /// Volume 1, chapter 2, message router response.
    Replied {
        number: u32,
        status: u8,
        additional: Items<u8>,
        data: Items<u8>,
    },
    /// A request to an object of the maker's own: the application is to answer the request of this number
    /// (`Event::Respond`). Service code, class, instance and attribute are those of the request, and the data is what
    /// follows them.
    ///
    /// Volume 1, chapter 2, message router request.
    Asked {
        number: u64,
        service: u8,
        class: u32,
        instance: u32,
        attribute: Option<u32>,
        data: Items<u8>,
    },
}

/// Why a reply does not open the connection of a scanner's slot: the first that holds.
#[derive(Clone, Copy, Debug, PartialEq, Eq, Error)]
pub enum Reason {
    /// The encapsulation message has this status, which is not 0.
    #[error("encapsulation status {0}")]
    Encap(u32),
    /// The message has another command, or holds no readable reply to the request.
    #[error("no readable reply")]
    Unreadable,
    /// The target refused the request.
    #[error("refused by the target: {0}")]
    Cip(Fault),
    /// The reply does not fit the request.
    #[error("{0}")]
    Mismatch(Mismatch),
}

/// Why an explicit request has no reply, and will have none.
#[derive(Clone, Copy, Debug, PartialEq, Eq, Error)]
pub enum Unanswered {
    /// No reply arrived within the open time-out.
    #[error("timed out")]
    TimedOut,
    /// Its stream ended before the reply.
    #[error("its stream ended")]
    Lost,
    /// The encapsulation message has this status, which is not 0.
    #[error("encapsulation status {0}")]
    Encap(u32),
    /// The message has another command, or holds no readable reply to the request.
    #[error("no readable reply")]
    Unreadable,
}

/// A change of a connection, a stream, a slot or an explicit request.
#[derive(Clone, Copy, PartialEq, Eq)]
pub enum Notice {
    /// A connection was opened, with this O->T id.
    Opened(Triad, ConnId),
    /// A connection was closed by its originator, or by another peer.
    Closed(Triad),
    /// A connection expired: no datagram, or no connected message, of its originator arrived before its deadline.
    Expired(Triad),
    /// A listen-only connection was dropped, because no other connection supports it any more; or a class 3 connection
    /// ended with its stream.
    Dropped(Triad),
    /// A timed-out connection was removed to free its place for a new one.
    Replaced(Triad),
    /// The stream of this number was closed with its session.
    StreamClosed(u16),
    /// The slot of this number changed to the state of this number (`SlotPhase::of`).
    Slot(u32, u8),
    /// A reply did not open the connection of this slot.
    Refused(u32, Reason),
    /// This slot needs a connection id or a request number, and none is left.
    NoIds(u32),
    /// A peer requests a reset of this type: 0 is as a power cycle, 1 also restores the settings of the factory.
    Reset(u8),
    /// The explicit request of this number has no reply, and will have none.
    Unanswered(u32, Unanswered),
}

/// The answer of a device to an event: frames, datagrams and notices, each in order, and the verdict.
#[derive(PartialEq, Drop)]
pub struct Answer {
    pub frames: Items<Frame>,
    pub datagrams: Items<OutgoingDatagram>,
    pub verdict: Verdict,
    pub notices: Items<Notice>,
}

/// The fault of a refused event. The device is unchanged.
#[derive(Clone, Copy, Debug, PartialEq, Eq, Error)]
pub enum StepFault {
    /// An allocation was refused.
    #[error("no memory")]
    OutOfMemory,
    /// A tick of more than 60,000 ms.
    #[error("a tick of more than 60000 ms")]
    TickTooLong,
    /// The clock would pass its end, 2^48 ms.
    #[error("the clock is at its end")]
    ClockEnd,
    /// No point of this number can be read or written.
    #[error("no such point")]
    NoSuchPoint,
    /// The number of bytes is not the point's.
    #[error("not the point's length")]
    WrongLength,
    /// No slot has this number.
    #[error("no such slot")]
    NoSuchSlot,
    /// The event does not fit this kind of device, or its present state.
    #[error("not allowed now")]
    NotAllowedNow,
}

impl From<OutOfMemory> for StepFault {
    ghost use Rattle.cip_events.specs.declared.event.StepFault.TheVariants as fault;

    ghost from_gives = { λ _ f. f ≡ fault.OutOfMemory };

    fn from(_error: OutOfMemory) -> StepFault {
        StepFault::OutOfMemory
    }
}

/// The outcome of an event: an answer or a fault.
pub type Outcome = Result<Answer, StepFault>;

/// The fault of a device that was not created.
#[derive(Clone, Copy, Debug, PartialEq, Eq, Error)]
pub enum NewFault {
    /// The profile is wrong. This is its first fault.
    #[error("bad profile: {0}")]
    Profile(ProfileFault),
    /// The configuration is for a device of another kind.
    #[error("wrong kind of device")]
    WrongKind,
    /// An allocation was refused.
    #[error("no memory")]
    OutOfMemory,
}

impl From<OutOfMemory> for NewFault {
    ghost use Rattle.cip_events.specs.declared.event.NewFault.TheVariants as fault;

    ghost from_gives = { λ _ f. f ≡ fault.OutOfMemory };

    fn from(_error: OutOfMemory) -> NewFault {
        NewFault::OutOfMemory
    }
}

impl From<ProfileFault> for NewFault {
    ghost use Rattle.cip_events.specs.declared.event.NewFault.TheVariants as fault;

    ghost from_gives = { λ first f. f ≡ fault.Profile first };

    fn from(first: ProfileFault) -> NewFault {
        NewFault::Profile(first)
    }
}
