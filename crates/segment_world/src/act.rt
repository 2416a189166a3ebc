//! Acts in a world, and their faults.

ghost use Rattle.std.specs.Prelude.{◌≡◌, IfNone, IfOk, IfSome, false};
ghost use Rattle.cip_events.specs.Arrivals.{is_own};
ghost use Rattle.cip_events.specs.declared.event.Event.TheVariants as event;
ghost use Rattle.cip_events.specs.Outcomes.{Follows};
ghost use Rattle.cip_tables.specs.Step.{step};
ghost use Rattle.segment_world.specs.World.{event_of_call, event_of_ready};

use crate::transit::Direction;
use cip_events::{Event, Outcome, StepFault};
use cip_tables::Device;
use cip_types::{IdBlock, Items, Node, OutOfMemory};
use std::alloc::Global;
use thiserror::Error;

/// A call of the application at its device, a tick of the device's clock, or an inquiry from outside the network.
#[derive(Drop)]
pub enum Call {
    /// The application writes an input of an adapter, or the output of a scanner's slot.
    Write {
        point: u32,
        bytes: Items<u8>,
    },
    /// The application reads a point of an adapter, or the image of a scanner's slot.
    Read {
        point: u32,
    },
    /// The application of a scanner changes to run (true) or to idle (false).
    Mode {
        run: bool,
    },
    /// The application of a scanner starts a slot, which keeps its connection open from now on.
    Start {
        slot: u32,
    },
    /// The application of a scanner stops a slot, which closes its connection.
    Stop {
        slot: u32,
    },
    /// The application of a scanner sends a request to the message router of a target. The request gets this number.
    Explicit {
        target: Node,
        number: u32,
        bytes: Items<u8>,
    },
    /// The application of an adapter answers the request that the device gave it with this number: general status, and data.
    Respond {
        number: u64,
        status: u8,
        bytes: Items<u8>,
    },
    /// The host says what it has counted of the interface of an adapter.
    Counters {
        bytes: Items<u8>,
    },
    /// The device gets a further block of connection ids.
    Ids {
        block: IdBlock,
    },
    /// A number of milliseconds passes, at most 60,000.
    Tick {
        ms: u32,
    },
    /// A peer sends an encapsulation message over no stream. The reply goes to the peer, and over no stream of the network.
    Inquiry {
        peer: Node,
        bytes: Items<u8>,
    },
}

/// A call that a device can perform: the write of these bytes to a point, or another event.
pub enum ReadyCall<'a> {
    Write(u32, &'a [u8]),
    Event(Event),
}

/// The call that says what a host has counted, with a copy of the bytes.
fn counters_call(alloc: Global, bytes: &[u8]) -> Result<Call, OutOfMemory>
    ensures { IfOk result (λ call. event_of_call call ≡ event.Counters bytes.now) }
{
    Ok(Call::Counters {
        bytes: Items::copy_of(alloc, bytes)?,
    })
}

/// The call that brings an inquiry, with a copy of the bytes.
fn inquiry_call(alloc: Global, peer: Node, bytes: &[u8]) -> Result<Call, OutOfMemory>
    ensures { IfOk result (λ call. event_of_call call ≡ event.Inquiry peer bytes.now) }
{
    Ok(Call::Inquiry {
        peer,
        bytes: Items::copy_of(alloc, bytes)?,
    })
}

impl Call {
    /// Makes the call ready, with a copy of the bytes of an explicit request, of an answer to one, of counters, or of an inquiry.
    /// `OutOfMemory` is the only error.
    pub fn ready(&self, alloc: Global) -> Result<ReadyCall<'_>, OutOfMemory>
        ensures { IfOk result (λ ready. event_of_ready ready ≡ event_of_call self.now) }
    {
        Ok(match self {
            Call::Write { point, bytes } => ReadyCall::Write(*point, bytes.as_slice()),
            Call::Read { point } => ReadyCall::Event(Event::Read { point: *point }),
            Call::Mode { run } => ReadyCall::Event(Event::Mode { run: *run }),
            Call::Start { slot } => ReadyCall::Event(Event::Start { slot: *slot }),
            Call::Stop { slot } => ReadyCall::Event(Event::Stop { slot: *slot }),
            Call::Explicit {
                target,
                number,
                bytes,
            } => ReadyCall::Event(Event::Explicit {
                target: *target,
                number: *number,
                bytes: Items::copy_of(alloc, bytes.as_slice())?,
            }),
            Call::Respond {
                number,
                status,
                bytes,
            } => ReadyCall::Event(Event::Respond {
                number: *number,
                status: *status,
                bytes: Items::copy_of(alloc, bytes.as_slice())?,
            }),
            Call::Counters { bytes } => ReadyCall::Event(Event::Counters {
                bytes: Items::copy_of(alloc, bytes.as_slice())?,
            }),
            Call::Ids { block } => ReadyCall::Event(Event::Ids { block: *block }),
            Call::Tick { ms } => ReadyCall::Event(Event::Tick { ms: *ms }),
            Call::Inquiry { peer, bytes } => ReadyCall::Event(Event::Inquiry {
                peer: *peer,
                bytes: Items::copy_of(alloc, bytes.as_slice())?,
            }),
        })
    }

    /// Answers the call that makes the event, with a copy of its bytes, or none for an event that no call makes.
    /// `OutOfMemory` is the only error.
    pub fn of_event(alloc: Global, event: &Event) -> Result<Option<Call>, OutOfMemory>
        ensures none { IfOk result (λ o. IfNone o (is_own event.now ≡ false)) }
        ensures some { IfOk result (λ o. IfSome o (λ call. event_of_call call ≡ event.now)) }
    {
        Ok(Some(match event {
            Event::Request { .. }
            | Event::StreamOpened { .. }
            | Event::Frame { .. }
            | Event::StreamCut { .. }
            | Event::Datagram { .. } => return Ok(None),
            Event::Write { point, bytes } => Call::Write {
                point: *point,
                bytes: Items::copy_of(alloc, bytes.as_slice())?,
            },
            Event::Read { point } => Call::Read { point: *point },
            Event::Tick { ms } => Call::Tick { ms: *ms },
            Event::Mode { run } => Call::Mode { run: *run },
            Event::Start { slot } => Call::Start { slot: *slot },
            Event::Stop { slot } => Call::Stop { slot: *slot },
            Event::Explicit {
                target,
                number,
                bytes,
            } => Call::Explicit {
                target: *target,
                number: *number,
                bytes: Items::copy_of(alloc, bytes.as_slice())?,
            },
            Event::Respond {
                number,
                status,
                bytes,
            } => Call::Respond {
                number: *number,
                status: *status,
                bytes: Items::copy_of(alloc, bytes.as_slice())?,
            },
            Event::Ids { block } => Call::Ids { block: *block },
            Event::Inquiry { peer, bytes } => inquiry_call(alloc, *peer, bytes.as_slice())?,
            Event::Counters { bytes } => counters_call(alloc, bytes.as_slice())?,
        }))
    }
}

impl ReadyCall<'_> {
    /// Performs the call at a device.
    pub fn perform<D: Device>(self, device: &mut D) -> Outcome
        ensures { Follows (step (D.table device.old) (event_of_ready self.entry))
            (D.table device.old) result (D.table device.new) }
    {
        match self {
            ReadyCall::Write(point, bytes) => device.write_point(point, bytes),
            ReadyCall::Event(event) => device.step(&event),
        }
    }
}

/// One act. A device is given by its index among the configurations of the world, a stream by its number: streams
/// are numbered from 0 in the order in which they were opened.
#[derive(Drop)]
pub enum Act {
    /// The application of a device makes a call, time passes at the device, or it receives an inquiry.
    Local { device: u32, call: Call },
    /// A device receives a datagram, given by its index among all that were ever sent. The device need not be one that
    /// the datagram was sent to, and the same datagram may be delivered again.
    Deliver { index: usize, device: u32 },
    /// The end of a direction of a stream receives the front of its queue.
    NextFrame { stream: u16, direction: Direction },
    /// A device opens a stream to another device.
    OpenStream { from: u32, to: u32 },
    /// A stream is cut. Its frames are lost, and each end that has received the mark that the stream has opened will
    /// receive the mark that it was cut.
    CutStream { stream: u16 },
}

/// Why an act did not happen. The world is unchanged then. `World::act` gives the order of the faults.
#[derive(Clone, Copy, Debug, PartialEq, Eq, Error)]
pub enum ActFault {
    /// The world has no device of this index, or a stream was to go from a device to itself.
    #[error("no such device")]
    NoSuchDevice,
    /// No datagram of this index was sent.
    #[error("never sent")]
    NeverSent,
    /// Nothing waits in this direction of the stream.
    #[error("nothing waits")]
    StreamEmpty,
    /// No stream has this number, a cut stream has ended already, or all stream numbers are in use.
    #[error("no such stream")]
    NoSuchStream,
    /// The device refused the event.
    #[error("fault of a step: {0}")]
    Step(StepFault),
    /// The world found no memory for the act or its answer.
    #[error("no memory")]
    OutOfMemory,
}

impl From<OutOfMemory> for ActFault {
    ghost use Rattle.std.specs.Prelude.{◌≡◌};
    ghost use Rattle.segment_world.specs.declared.act.ActFault.TheVariants as fault;

    ghost from_gives = { λ _ f. f ≡ fault.OutOfMemory };

    fn from(_error: OutOfMemory) -> ActFault {
        ActFault::OutOfMemory
    }
}
