//! What the devices of a world sent.

ghost use Rattle.std.specs.Prelude.{◌≡◌, ◌++◌, map, OnOk};
ghost use Rattle.answer_sizes.specs.Sizes.{IsSmall};
ghost use Rattle.segment_world.specs.Transit.Streams.{answered};
ghost use Rattle.segment_world.specs.AnswerSpace.{HasSpace};
ghost use Rattle.segment_world.specs.World.{sent_by};

use crate::transit::{SentLog, Streams};
use cip_events::{Answer, OutgoingDatagram, Outlet, send_answer};
use cip_types::limits::LONGEST_MESSAGE;
use cip_types::{Node, OutOfMemory};

/// The most datagrams of an answer.
const MOST_DATAGRAMS: usize = 64;

/// The most bytes of all datagrams of an answer together.
const MOST_BYTES: usize = MOST_DATAGRAMS * LONGEST_MESSAGE;

/// The log of all datagrams that devices ever sent, and the streams between them.
#[derive(Drop)]
pub struct Traffic {
    pub log: SentLog,
    pub streams: Streams,
}

impl Traffic {
    /// Reserves memory for any answer of a device. `OutOfMemory` is the only error. The log and the streams stay, also
    /// after an error.
    pub fn reserve_answer(&mut self) -> Result<(), OutOfMemory>
        ensures sent { self.new.log.sent ≡ self.old.log.sent }
        ensures streams { self.new.streams.streams ≡ self.old.streams.streams }
        ensures space { OnOk result (HasSpace self.new.log self.new.streams) }
    {
        self.log.reserve(MOST_DATAGRAMS, MOST_BYTES)?;
        self.streams.reserve_answer()
    }

    /// Sends the datagrams and frames of a device's answer, and closes the streams that its notices report closed. Takes
    /// no memory: the memory for them is reserved.
    pub fn fan_out(&mut self, device: u32, node: Node, answer: &Answer)
        requires space { HasSpace self.old.log self.old.streams }
        requires small { IsSmall answer.now }
        ensures sent { self.new.log.sent ≡ self.old.log.sent ++ map (sent_by node) answer.now.datagrams }
        ensures streams { self.new.streams.streams ≡ answered device answer.now self.old.streams.streams }
    {
        // There is room for each output, so none fails.
        let Ok(()) = send_answer(&DeviceOutlet { device, node }, self, answer) else {
            unreachable!()
        };
    }
}

/// Sends the outputs of the answers of one device, which is given by its index and its address: a datagram joins the log,
/// a message the queue of its stream. `OutOfMemory` is the only error. It comes only where no memory is reserved.
#[derive(Clone, Copy)]
struct DeviceOutlet {
    device: u32,
    node: Node,
}

impl Outlet<Traffic> for DeviceOutlet {
    ghost use Rattle.segment_world.specs.DeviceOutputs.{HasRoom, IsSent};

    type Fault = OutOfMemory;

    ghost is_ready = { λ traffic. Unit {0} };

    ghost sends = { λ outlet old output new. IsSent outlet.device outlet.node old output new };

    ghost fails = { λ outlet old output new. HasRoom old output → ⊥ };

    fn message(&self, traffic: &mut Traffic, stream: u16, bytes: &[u8]) -> Result<(), OutOfMemory> {
        traffic.streams.send_over(self.device, stream, bytes)
    }

    fn datagram(
        &self,
        traffic: &mut Traffic,
        datagram: &OutgoingDatagram,
    ) -> Result<(), OutOfMemory> {
        traffic.log.push(self.node, datagram.bytes.as_slice())
    }

    fn close(&self, traffic: &mut Traffic, stream: u16) -> Result<(), OutOfMemory> {
        traffic.streams.close_by(self.device, stream);
        Ok(())
    }
}
