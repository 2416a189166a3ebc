//! A world: the simulated network, and one act in it.

ghost use Rattle.std.specs.Prelude.{◌≡◌, true, Err, None, Some, IfOk, IfErr, IfSome, IfNone, OnOk, OnErr, length, slice_get, nat_lt};
ghost use Rattle.cip_tables.specs.Step.{AcceptsAll, config_fault};
ghost use Rattle.segment_world.specs.World.{World as Segment, event_at_device, event_of_call, delivered, taken_at, happens, are_two, opened_if, cut_at, most_stream_numbers};
ghost use Rattle.segment_world.specs.Follows.{ActFollows, takes_no_memory, NeverOutOfMemory};
ghost use Rattle.std.specs.Option.{option_map};
ghost use Rattle.segment_world.specs.Transit.Fronts.{endpoints_of, view_front, front_of, has_taken};
ghost use Rattle.segment_world.specs.Receptions.{IsReception};
ghost use Rattle.segment_world.specs.Configs.{opening_world, with_device, world_fault, IsRefused};

use crate::act::{Act, ActFault, Call};
use crate::configs::{device_of, devices_of, node_of as node_of_config, nodes_of, world_fault};
use crate::devices::{call_at, deliver_at, step_at};
use crate::fault::WorldFault;
use crate::reception::{
    Reception, arrival_of_front, node_of, node_or_zero, receiver_of, sender_of,
};
use crate::traffic::Traffic;
use crate::transit::{Direction, Endpoints, QueueFront, SentLog, Streams};
use cip_events::{Answer, Verdict};
use cip_tables::{Config, Device, TableCopy};
use cip_types::{Node, OutOfMemory};
use std::alloc::Global;
use std::marker::Model;

/// The most streams that a world ever opens, since a stream's number has 16 bits.
pub const MOST_STREAM_NUMBERS: usize = 65_536;

/// Devices on a simulated network, the log of all datagrams that they ever sent, and the streams between them.
///
/// It keeps the allocator that it was made with.
#[derive(Drop)]
pub struct World<D: Device> {
    alloc: Global,
    devices: Vec<D>,
    nodes: Vec<Node>,
    traffic: Traffic,
}

impl<D: Device> Model for World<D> {
    ghost use Rattle.std.specs.Prelude.{◌≡◌, length, map};
    ghost use Rattle.segment_world.specs.World.{World as Segment};

    ghost Value = { Segment };

    ghost view = { λ w. record {
      nodes = w.nodes.items;
      tables = map D.table w.devices.items;
      sent = w.traffic.log.sent;
      streams = w.traffic.streams.streams;
    } };

    ghost invariant = { λ w. length w.nodes.items ≡ length w.devices.items };
}

impl<D: Device + Drop> World<D> {
    /// Makes a world of fresh devices, in the order of their configurations, with an empty log and no stream. An error
    /// drops the configurations.
    ///
    /// The errors, in order, over the whole list: `SameIncarnation`; `SameNode`; `Profile` with the first fault of the
    /// first device that has one; `OutOfMemory`.
    pub fn new(alloc: Global, configs: Vec<Config>) -> Result<World<D>, WorldFault>
        requires accepts { AcceptsAll D.accepts }
        ensures opening { IfOk result (λ world. world ≡ opening_world configs.items) }
        ensures good { IfOk result (λ _. world_fault configs.items ≡ None) }
        ensures fault { IfErr result (IsRefused (world_fault configs.items)) }
    {
        if let Some(fault) = world_fault(&configs) {
            return Err(fault);
        }
        let Ok(nodes) = nodes_of(alloc, &configs) else {
            return Err(WorldFault::OutOfMemory);
        };
        let Ok(devices) = devices_of(alloc, configs) else {
            return Err(WorldFault::OutOfMemory);
        };
        Ok(World {
            alloc,
            devices,
            nodes,
            traffic: Traffic {
                log: SentLog::new(alloc),
                streams: Streams::new(alloc),
            },
        })
    }
}

impl<D: Device + Drop> World<D> {
    /// Adds a fresh device of a configuration without a fault, behind all other devices. `OutOfMemory` is the only error,
    /// and leaves the world unchanged.
    ///
    /// The addresses and the incarnations of a world with such a device may be equal.
    pub fn add(&mut self, config: Config) -> Result<(), OutOfMemory>
        requires accepts { D.accepts config ≡ true }
        requires good { config_fault config ≡ None }
        ensures added { OnOk result (self.new ≡ with_device config self.old) }
        ensures kept { OnErr result (self.new ≡ self.old) }
    {
        let node = node_of_config(&config);
        let device = device_of(self.alloc, config)?;
        self.nodes.reserve(1)?;
        self.devices.push(device)?;
        self.nodes.push_reserved(node);
        Ok(())
    }
}

impl<D: Device> World<D> {
    /// Performs one act, and returns the answer of the device whose event it is, if it is an event. An act that fails
    /// leaves the world unchanged.
    ///
    /// The errors of each act, in order:
    ///
    /// - `Local`: `NoSuchDevice`, `OutOfMemory`, `Step` with the fault of the device.
    /// - `Deliver`: `NoSuchDevice`, `NeverSent`. Takes no memory.
    /// - `NextFrame`: `NoSuchStream`, `StreamEmpty`, `OutOfMemory`, `Step` with the fault of the device.
    /// - `OpenStream`: `NoSuchDevice`, `NoSuchStream` after 65,536 streams, `OutOfMemory`.
    /// - `CutStream`: `NoSuchStream`. Takes no memory.
    ///
    /// The world reserves memory for the largest answer before the device performs the event. So `OutOfMemory` may also
    /// come at an event that the device would refuse.
    pub fn act(&mut self, act: &Act) -> Result<Option<Answer>, ActFault>
        ensures follows { ActFollows (happens self.old act.now) self.old result self.new }
        ensures no_memory { takes_no_memory act.now ≡ true → NeverOutOfMemory result }
    {
        match act {
            Act::Local { device, call } => self.local(*device, call),
            Act::Deliver { index, device } => self.deliver(*index, *device),
            Act::NextFrame { stream, direction } => self.next_frame(*stream, *direction),
            Act::OpenStream { from, to } => self.open_stream(*from, *to),
            Act::CutStream { stream } => self.cut_stream(*stream),
        }
    }

    /// Performs a call at a device, as the act `Local` does.
    ///
    /// The errors, in order: `NoSuchDevice`, `OutOfMemory`, `Step` with the fault of the device.
    pub fn local(&mut self, device: u32, call: &Call) -> Result<Option<Answer>, ActFault>
        ensures { ActFollows (event_at_device device (event_of_call call.now) self.old) self.old result self.new }
    {
        let Some(node) = node_of(&self.nodes, device) else {
            return Err(ActFault::NoSuchDevice);
        };
        let Ok(()) = self.traffic.reserve_answer() else {
            return Err(ActFault::OutOfMemory);
        };
        let Ok(ready) = call.ready(self.alloc) else {
            return Err(ActFault::OutOfMemory);
        };
        match call_at(&mut self.devices, device as usize, ready) {
            Ok(answer) => {
                self.traffic.fan_out(device, node, &answer);
                Ok(Some(answer))
            }
            Err(fault) => Err(ActFault::Step(fault)),
        }
    }

    fn deliver(&mut self, index: usize, device: u32) -> Result<Option<Answer>, ActFault>
        ensures follows { ActFollows
            (delivered device self.old (slice_get self.old.tables device) (slice_get self.old.sent index))
            self.old result self.new }
        ensures no_memory { NeverOutOfMemory result }
    {
        if device as usize >= self.devices.len() {
            return Err(ActFault::NoSuchDevice);
        }
        let Some((from, bytes)) = self.traffic.log.get(index) else {
            return Err(ActFault::NeverSent);
        };
        let delivery = deliver_at(&mut self.devices, device as usize, from, bytes);
        Ok(Some(Answer::plain(self.alloc, Verdict::Delivered(delivery))))
    }

    /// Returns the event that the front of a direction of a stream makes, and the device that receives it.
    fn reception(&self, stream: u16, direction: Direction) -> Result<Reception, ActFault>
        ensures reception { IfOk result (IsReception self.now stream direction) }
        ensures fault { IfErr result (λ fault. ActFollows
            (taken_at stream direction self.now (slice_get self.now.streams stream))
            self.now (Err fault) self.now) }
    {
        let Some(endpoints) = self.traffic.streams.endpoints(stream) else {
            return Err(ActFault::NoSuchStream);
        };
        let Some(front) = self.traffic.streams.front(stream, direction) else {
            return Err(ActFault::StreamEmpty);
        };
        let device = receiver_of(endpoints, direction);
        let Some(node) = node_of(&self.nodes, device) else {
            return Err(ActFault::NoSuchDevice);
        };
        let peer = node_or_zero(&self.nodes, sender_of(endpoints, direction));
        match arrival_of_front(self.alloc, stream, peer, front) {
            Ok(arrival) => Ok(Reception {
                device,
                node,
                event: arrival.into_event(),
            }),
            Err(_) => Err(ActFault::OutOfMemory),
        }
    }

    fn next_frame(&mut self, stream: u16, direction: Direction) -> Result<Option<Answer>, ActFault>
        ensures { ActFollows
            (taken_at stream direction self.old (slice_get self.old.streams stream))
            self.old result self.new }
    {
        let reception = match self.reception(stream, direction) {
            Ok(reception) => reception,
            Err(fault) => return Err(fault),
        };
        let Ok(()) = self.traffic.reserve_answer() else {
            return Err(ActFault::OutOfMemory);
        };
        let device = reception.device;
        match step_at(&mut self.devices, device as usize, &reception.event) {
            Ok(answer) => {
                self.traffic.streams.take_front(stream, direction);
                self.traffic.fan_out(device, reception.node, &answer);
                Ok(Some(answer))
            }
            Err(fault) => Err(ActFault::Step(fault)),
        }
    }

    fn open_stream(&mut self, from: u32, to: u32) -> Result<Option<Answer>, ActFault>
        ensures { ActFollows
            (opened_if from to self.old (are_two from to self.old)
            (nat_lt (length self.old.streams) most_stream_numbers))
            self.old result self.new }
    {
        let count = self.devices.len();
        if from as usize >= count || to as usize >= count || from == to {
            return Err(ActFault::NoSuchDevice);
        }
        if self.traffic.streams.len() >= MOST_STREAM_NUMBERS {
            return Err(ActFault::NoSuchStream);
        }
        match self.traffic.streams.open(from, to) {
            Ok(()) => Ok(None),
            Err(_) => Err(ActFault::OutOfMemory),
        }
    }

    fn cut_stream(&mut self, stream: u16) -> Result<Option<Answer>, ActFault>
        ensures follows { ActFollows
            (cut_at stream self.old (slice_get self.old.streams stream)) self.old result self.new }
        ensures no_memory { NeverOutOfMemory result }
    {
        if self.traffic.streams.cut(stream) {
            return Ok(None);
        }
        Err(ActFault::NoSuchStream)
    }
}

// LOOK-UPS

impl<D: Device> World<D> {
    /// Returns the number of devices.
    pub fn len(&self) -> usize
        ensures { result ≡ length self.now.tables }
    {
        self.devices.len()
    }

    /// Returns the address of a device, if there is the device.
    pub fn node(&self, device: u32) -> Option<Node>
        ensures { result ≡ slice_get self.now.nodes device }
    {
        node_of(&self.nodes, device)
    }

    /// Copies the present table of a device, if there is the device. `OutOfMemory` is the only error.
    pub fn table(&self, device: u32) -> Option<Result<TableCopy, OutOfMemory>>
        ensures none { IfNone result (slice_get self.now.tables device ≡ None) }
        ensures table { IfSome result (λ copied. IfOk copied (λ copy. slice_get self.now.tables device ≡ Some copy)) }
    {
        let Some(found) = self.devices.get(device as usize) else {
            return None;
        };
        Some(found.copy())
    }

    /// Returns how many datagrams were ever sent.
    pub fn sent_count(&self) -> usize
        ensures { result ≡ length self.now.sent }
    {
        self.traffic.log.len()
    }

    /// Returns a datagram by its index among all that were ever sent, with its sender's address.
    pub fn sent(&self, index: usize) -> Option<(Node, &[u8])>
        ensures { option_map (λ found. record { from = found.0; bytes = found.1.now }) result
            ≡ slice_get self.now.sent index }
    {
        self.traffic.log.get(index)
    }

    /// Returns how many streams were ever opened.
    pub fn stream_count(&self) -> usize
        ensures { result ≡ length self.now.streams }
    {
        self.traffic.streams.len()
    }

    /// Returns the ends of a stream, if there is the stream.
    pub fn endpoints(&self, stream: u16) -> Option<Endpoints>
        ensures { result ≡ option_map endpoints_of (slice_get self.now.streams stream) }
    {
        self.traffic.streams.endpoints(stream)
    }

    /// Returns whether the device that takes from a direction of a stream has taken the mark that the stream opens. False
    /// where no stream has the number. Takes no memory.
    pub fn has_taken(&self, stream: u16, direction: Direction) -> bool
        ensures { result ≡ has_taken direction (slice_get self.now.streams stream) }
    {
        self.traffic.streams.has_taken(stream, direction)
    }

    /// Returns the front of a direction of a stream, if anything waits there.
    pub fn front(&self, stream: u16, direction: Direction) -> Option<QueueFront<'_>>
        ensures { option_map view_front result ≡ front_of direction (slice_get self.now.streams stream) }
    {
        self.traffic.streams.front(stream, direction)
    }
}
