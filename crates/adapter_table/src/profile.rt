//! The profile of an adapter: its identity, its address and its connection points.

ghost use Rattle.std.specs.Prelude.{◌≡◌, ◌+◌, ◌*◌, ◌^◌, find};
ghost use Rattle.adapter_table.specs.Own.{is_own_class};
ghost use Rattle.adapter_table.specs.Profiles.{first_ids, first_request, is_at, is_output_at};

use crate::maker_limits::MakerLimits;
use cip_types::{IdBlock, Identity, Items, Node, first_block};

/// The action at an output when its owner goes idle or is lost.
///
/// Volume 1, chapter 3, connection timeouts.
#[derive(Clone, Copy, PartialEq, Eq)]
pub enum Action {
    /// The output keeps its last run-mode data.
    Hold,
    /// The output becomes zeros.
    Zero,
}

/// A connection point that consumes: its instance, its length in bytes, and its actions when its owner goes
/// idle and when its owner is lost.
#[derive(Clone, Copy, PartialEq, Eq)]
pub struct OutputPoint {
    pub instance: u32,
    pub len: u64,
    pub idle: Action,
    pub fault: Action,
}

/// A connection point that is produced, or a configuration: its instance and its length in bytes.
#[derive(Clone, Copy, PartialEq, Eq)]
pub struct InputPoint {
    pub instance: u32,
    pub len: u64,
}

/// What a device says of itself to tools, beside its identity: its serial number, its name of at most 32 bytes, the TCP
/// port of its encapsulation, its link (speed in Mbit/s, flags, physical address of six bytes), and after how many seconds
/// it ends a silent stream (0: never).
///
/// Volume 1, chapter 5, Identity object; Volume 2, chapter 5, TCP/IP Interface and Ethernet Link objects.
#[derive(PartialEq, Drop)]
pub struct Description {
    pub serial: u32,
    pub name: Items<u8>,
    pub port: u16,
    pub speed: u32,
    pub flags: u32,
    pub mac: Items<u8>,
    pub inactivity: u16,
}

/// An adapter: the byte that begins its connection ids (its incarnation), its address and network mask, its
/// identity, its points, the two points without data that input-only and listen-only connections consume, its
/// description, the limits that its maker states, the classes of the maker's own objects, whose requests its
/// application answers, and the block of its first connection ids, if that is not its incarnation's. A device without a
/// description is found by no inquiry, and has no objects but its Connection Manager, its assemblies and the maker's own.
#[derive(PartialEq, Drop)]
pub struct Profile {
    pub incarnation: u8,
    pub node: Node,
    pub mask: u32,
    pub identity: Identity,
    pub outputs: Items<OutputPoint>,
    pub inputs: Items<InputPoint>,
    pub config: Option<InputPoint>,
    pub input_only: u32,
    pub listen_only: u32,
    pub description: Option<Description>,
    pub limits: MakerLimits,
    pub objects: Items<u32>,
    pub ids: Option<IdBlock>,
}

/// The number of the first request to the application of a device whose ids begin here.
fn request_behind(first: u32) -> u64
    ensures { result ≡ first * 2 ^ 32 + 1 }
{
    u64::from(first) * (1 << 32) + 1
}

impl Profile {
    /// The block of connection ids that the device begins with. Takes no memory.
    ///
    /// Volume 1, chapter 3, network connection ids.
    pub fn first_ids(&self) -> IdBlock
        ensures { result ≡ first_ids self.now }
    {
        first_block(self.incarnation, self.ids)
    }

    /// The number of the first request to the application. Takes no memory.
    pub fn first_request(&self) -> u64
        ensures { result ≡ first_request self.now.ids }
    {
        match self.ids {
            Some(block) => request_behind(block.first),
            None => 1,
        }
    }

    /// Whether the class is one of the maker's own. Takes no memory.
    ///
    /// Volume 1, chapter 5, object library.
    pub fn is_own_class(&self, class: u32) -> bool
        ensures { result ≡ is_own_class self.now.objects class }
    {
        self.objects.as_slice().iter().any(|own| *own == class)
    }

    /// The output of an instance. Takes no memory.
    ///
    /// Volume 1, chapter 3, connection points.
    pub fn output(&self, point: u32) -> Option<OutputPoint>
        ensures { result ≡ find (is_output_at point) self.now.outputs }
    {
        self.outputs
            .as_slice()
            .iter()
            .copied()
            .find(|output| output.instance == point)
    }

    /// The input of an instance. Takes no memory.
    ///
    /// Volume 1, chapter 3, connection points.
    pub fn input(&self, point: u32) -> Option<InputPoint>
        ensures { result ≡ find (is_at point) self.now.inputs }
    {
        self.inputs
            .as_slice()
            .iter()
            .copied()
            .find(|input| input.instance == point)
    }
}
