//! The profile of a scanner: its identity, and the connections that it keeps open.

ghost use Rattle.std.specs.Prelude.{◌≡◌};
ghost use Rattle.scanner_table.specs.Profiles.{first_ids};

use cip_epath::ElectronicKey;
use cip_netparams::Trigger;
use cip_productions::Kind;
use cip_types::{IdBlock, Items, Node, first_block};

/// One connection that a scanner keeps open.
///
/// Volume 1, chapter 3, Forward_Open service and connection path.
#[derive(PartialEq, Drop)]
pub struct SlotConfig {
    /// The adapter that the scanner connects to.
    pub target: Node,
    /// The application connection type.
    pub kind: Kind,
    /// The assembly instance of the target's configuration, if the path names one.
    pub config: Option<u32>,
    /// The assembly instance that the target consumes into: its output point.
    pub consumed: u32,
    /// The assembly instance that the target produces from: its input point.
    pub produced: u32,
    /// Bytes of the output that an exclusive owner sends; 0 for the other kinds.
    pub out_len: u64,
    /// Bytes of the input that the target sends.
    pub in_len: u64,
    /// The requested packet interval from scanner to target, in microseconds.
    pub o_t_rpi: u32,
    /// The requested packet interval from target to scanner, in microseconds.
    pub t_o_rpi: u32,
    /// The connection timeout multiplier, 0 to 7: the timeout is 4 · 2^mult actual packet intervals.
    pub mult: u8,
    /// Whether the target sends its input to a multicast group.
    pub multicast: bool,
    /// The identity that the target must have, if the path names one.
    pub key: Option<ElectronicKey>,
    /// The configuration data that the path carries.
    pub config_data: Items<u8>,
    /// When the target produces, and a tidy scanner too: cyclically, or also at a change of the data.
    pub trigger: Trigger,
    /// The least number of milliseconds between two productions at a change; 0 for a cyclic slot.
    pub inhibit: u8,
}

/// A scanner: its identity, its times, how far ahead accepted numbers can be, and its slots.
///
/// Volume 1, chapter 3, Forward_Open service, and class 1 transport.
#[derive(PartialEq, Drop)]
pub struct ScannerProfile {
    /// The byte that begins the connection ids that the scanner chooses, unless the profile states others; never 0.
    pub incarnation: u8,
    /// The address of the scanner.
    pub node: Node,
    /// The originator vendor id in connection triads.
    pub vendor: u16,
    /// The originator serial number in connection triads.
    pub serial: u32,
    /// How long a target has to answer a request, in milliseconds.
    pub open_timeout: u64,
    /// How long a slot waits after a failure before it opens again, in milliseconds.
    pub retry: u64,
    /// A slot accepts sequence numbers that are ahead of its newest by less than this, and by two more for each interval
    /// of its target since then: 2 to 2^31. An absent one limits nothing.
    pub newer: Option<u32>,
    /// Whether the scanner closes each connection that its targets may have and no slot has, and sends a change at once where a slot
    /// has that trigger.
    pub tidy: bool,
    /// The most openings that wait for replies of one target at one time: 1 to 48. An absent one limits nothing.
    pub openings: Option<u8>,
    /// The connection serial number of the first opening: never 0. Without one it is 1.
    pub serials: Option<u16>,
    /// The block of the first connection ids. Without one they are those of the incarnation.
    pub ids: Option<IdBlock>,
    /// The connections; a slot's number is its index here.
    pub slots: Items<SlotConfig>,
}

impl ScannerProfile {
    /// The block of connection ids that the scanner begins with. Takes no memory.
    ///
    /// Volume 1, chapter 3, network connection ids.
    pub fn first_ids(&self) -> IdBlock
        ensures { result ≡ first_ids self.now }
    {
        first_block(self.incarnation, self.ids)
    }
}
