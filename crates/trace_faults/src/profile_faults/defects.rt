//! Why a profile is bad: its first fault, where that is in the profile's lines, and what is wrong there.

ghost use Rattle.std.specs.Prelude.{◌≡◌};
ghost use Rattle.trace_faults.specs.ProfileFaults.Defects.{defect_fault, reason_at};

use cip_events::ProfileFault;
use cip_productions::Kind;
use cip_types::Node;
use trace_lines::{LimitName, StatedNumber};

/// A line of a profile, by its first word.
#[derive(Clone, Copy, PartialEq, Eq)]
pub enum LineName {
    Adapter,
    Output,
    Input,
    Config,
    Describe,
    /// The line of a limit.
    Limit(LimitName),
    Object,
    Heartbeat,
    Scanner,
    Tidy,
    Openings,
    Serials,
    Ids,
    Slot,
}

/// A word of a profile: its line, by its name and its number among the lines of that name from 0, and its number in the
/// line from 1.
#[derive(Clone, Copy, PartialEq, Eq)]
pub struct WordPlace {
    pub line: LineName,
    pub index: usize,
    pub word: usize,
}

/// The direction of a connection's packets.
#[derive(Clone, Copy, PartialEq, Eq)]
pub enum PacketDirection {
    /// From originator to target.
    OriginatorToTarget,
    /// From target to originator.
    TargetToOriginator,
}

/// A waiting time of a scanner.
#[derive(Clone, Copy, PartialEq, Eq)]
pub enum WaitingTime {
    OpenTimeout,
    Retry,
}

/// What is wrong at a word of a profile, with the values that are wrong. Slots are numbered from 0.
#[derive(Clone, Copy, PartialEq, Eq)]
pub enum Defect {
    /// The incarnation is 0.
    Incarnation,
    /// The first connection id is 0.
    NoFirstId,
    /// So many connection ids from this one on end behind 2^32 - 1.
    LateIds(u32, u32),
    /// The mask is not ones and then zeros.
    Mask(Node),
    /// The address is that of the network itself, under this mask.
    NetworkAddress(Node, Node),
    /// An adapter without inputs.
    NoInput,
    /// An output of this instance behind the last that is allowed.
    ExtraOutput(u32),
    /// An input of this instance behind the last that is allowed.
    ExtraInput(u32),
    /// A scanner without slots.
    NoSlot,
    /// This slot is behind the last that is allowed.
    ExtraSlot(usize),
    /// This slot is listen-only and not multicast.
    Listener(usize),
    /// This instance is at another place too, before this one.
    SameInstance(u32, WordPlace),
    /// This slot is multicast from a target's point, as an earlier slot is.
    SameGroup {
        slot: usize,
        other: usize,
        target: Node,
        point: u32,
    },
    /// The bytes of an output of this instance.
    OutputLen(u32, u64),
    /// The bytes of an input of this instance.
    InputLen(u32, u64),
    /// The bytes of a configuration of this instance.
    ConfigLen(u32, u64),
    /// The bytes of a slot's output that is to have some.
    SlotOutput(usize, u64),
    /// The bytes of an output of a slot of this kind, which has none.
    SlotHeartbeat(usize, Kind, u64),
    /// The bytes of a slot's input.
    SlotInput(usize, u64),
    /// The bytes of the configuration that a slot sends.
    SlotConfiguration(usize, usize),
    /// The bytes of a configuration of a slot that names no instance for them.
    SlotNoConfiguration(usize, usize),
    /// A slot's packet interval in microseconds.
    Interval(usize, PacketDirection, u32),
    /// A slot's time-out multiplier.
    Multiplier(usize, u8),
    /// The inhibit time of a slot whose target produces cyclically.
    CyclicInhibit(usize, u8),
    /// The inhibit time of a slot, and its packet interval, in milliseconds.
    Inhibit(usize, u8, u32),
    /// The inhibit time of a slot whose target's numbers are limited, and which is never held back: 0.
    NoPace(usize),
    /// The most openings of a scanner that wait at one time.
    Openings(u8),
    /// The first serial number of a scanner is 0.
    NoSerial,
    /// A waiting time in milliseconds.
    Waiting(WaitingTime, u64),
    /// The major revision.
    Major(u8),
    /// The minor revision.
    Minor(u8),
    /// A point of the instance 0, by which tools ask the class of Assembly, at a device that is described.
    ClassInstance,
    /// The bytes of the name of a description.
    NameLen(usize),
    /// The bytes of the physical address of a description.
    AddressLen(usize),
    /// The inactivity time-out of a description, in seconds.
    Inactivity(u16),
    /// A number of a limit that is out of its range.
    Limit(StatedNumber),
    /// A class of the maker's own that is one too many.
    ExtraClass(u32),
    /// A class that no object of the maker's own can have.
    OtherClass(u32),
    /// A class of the maker's own that a later line names too.
    SameClass(u32),
}

/// Why a profile is bad.
#[derive(Clone, Copy, PartialEq, Eq)]
pub struct ProfileReason {
    pub place: WordPlace,
    pub defect: Defect,
}

impl ProfileReason {
    /// What is wrong at a word of a line.
    pub(crate) fn at(line: LineName, index: usize, word: usize, defect: Defect) -> Self
        ensures { result ≡ reason_at line index word defect }
    {
        ProfileReason {
            place: WordPlace { line, index, word },
            defect,
        }
    }
}

impl Defect {
    /// The fault of a profile with this defect.
    pub fn fault(self) -> ProfileFault
        ensures { result ≡ defect_fault self }
    {
        match self {
            Defect::Incarnation | Defect::NoFirstId | Defect::LateIds(_, _) => {
                ProfileFault::Incarnation
            }
            Defect::Mask(_) | Defect::NetworkAddress(_, _) => ProfileFault::Address,
            Defect::NoInput
            | Defect::ExtraOutput(_)
            | Defect::ExtraInput(_)
            | Defect::NoSlot
            | Defect::ExtraSlot(_)
            | Defect::Listener(_) => ProfileFault::Points,
            Defect::SameInstance(_, _) | Defect::SameGroup { .. } => ProfileFault::SameInstance,
            Defect::OutputLen(_, _)
            | Defect::InputLen(_, _)
            | Defect::ConfigLen(_, _)
            | Defect::SlotOutput(_, _)
            | Defect::SlotHeartbeat(_, _, _)
            | Defect::SlotInput(_, _)
            | Defect::SlotConfiguration(_, _)
            | Defect::SlotNoConfiguration(_, _) => ProfileFault::Length,
            Defect::Interval(_, _, _)
            | Defect::Multiplier(_, _)
            | Defect::CyclicInhibit(_, _)
            | Defect::Inhibit(_, _, _)
            | Defect::Waiting(_, _) => ProfileFault::Timing,
            Defect::Major(_) | Defect::Minor(_) => ProfileFault::Identity,
            Defect::ClassInstance
            | Defect::NameLen(_)
            | Defect::AddressLen(_)
            | Defect::Inactivity(_) => ProfileFault::Description,
            Defect::Limit(_) | Defect::NoPace(_) | Defect::Openings(_) | Defect::NoSerial => {
                ProfileFault::Limits
            }
            Defect::ExtraClass(_) | Defect::OtherClass(_) | Defect::SameClass(_) => {
                ProfileFault::Objects
            }
        }
    }
}
