//! The profiles that the examples and the tests share: an adapter with one output and one input, and a scanner with a
//! slot for them; and the bytes by which a controller opens a connection to that adapter.
#![tactic(auto)]

ghost use Rattle.std.specs.Prelude.{◌≡◌, IfOk};
ghost use Rattle.example_profiles.specs.Profiles.{adapter_profile, scanner_profile, slot_config};

use cip_netparams::Trigger;
use cip_tables::{
    Action, InputPoint, Kind, MakerLimits, OutputPoint, Profile, ScannerProfile, SlotConfig,
};
use cip_types::{Identity, Items, Node, OutOfMemory};
use std::alloc::Global;

/// The connection point of the output, which has 4 bytes.
pub const OUTPUT: u32 = 150;

/// The connection point of the input, which has 4 bytes.
pub const INPUT: u32 = 100;

/// The connection point of the configuration, which has no bytes.
const CONFIG: u32 = 151;

/// The address of the adapter, 192.168.1.10, where it is not on this host.
pub const ADAPTER: Node = Node(0xC0A8_010A);

/// The mask of the network of the adapter and the controller, 255.255.255.0.
pub const MASK: u32 = 0xFFFF_FF00;

/// Forward_Open of an exclusive owner of the output that consumes the input, each every 10 ms, point to point.
///
/// Volume 1, chapter 3, Forward_Open service.
pub const FORWARD_OPEN: [u8; 50] = [
    0x54, 0x02, 0x20, 0x06, 0x24, 0x01, 0x0A, 0x0E, 0x00, 0x00, 0x00, 0x00, 0x01, 0x00, 0x00, 0x20,
    0x01, 0x00, 0x34, 0x12, 0x78, 0x56, 0x34, 0x12, 0x02, 0x00, 0x00, 0x00, 0x10, 0x27, 0x00, 0x00,
    0x0A, 0x48, 0x10, 0x27, 0x00, 0x00, 0x06, 0x48, 0x01, 0x04, 0x20, 0x04, 0x24, 0x97, 0x2C, 0x96,
    0x2C, 0x64,
];

/// The address of the controller, 192.168.1.20.
pub const CONTROLLER: Node = Node(0xC0A8_0114);

/// A class 1 datagram of the controller over the first connection of an adapter of incarnation 16: O->T id 0x10000001,
/// sequence number 1, count 1, run mode, data 11 22 33 44.
///
/// Volume 2, chapter 2, sequenced address item and connected data item.
pub const RUN_DATA: [u8; 28] = [
    0x02, 0x00, 0x02, 0x80, 0x08, 0x00, 0x01, 0x00, 0x00, 0x10, 0x01, 0x00, 0x00, 0x00, 0xB1, 0x00,
    0x0A, 0x00, 0x01, 0x00, 0x01, 0x00, 0x00, 0x00, 0x11, 0x22, 0x33, 0x44,
];

const fn point(instance: u32, len: u64) -> InputPoint
    ensures { result ≡ record { instance = instance; len = len } }
{
    InputPoint { instance, len }
}

/// An adapter whose output is set to zeros in idle mode and when its owner is lost.
pub fn adapter(
    alloc: Global,
    incarnation: u8,
    node: Node,
    mask: u32,
) -> Result<Profile, OutOfMemory>
    ensures { IfOk result (λ profile. profile ≡ adapter_profile incarnation node mask) }
{
    let output = OutputPoint {
        instance: OUTPUT,
        len: 4,
        idle: Action::Zero,
        fault: Action::Zero,
    };
    Ok(Profile {
        incarnation,
        node,
        mask,
        identity: Identity {
            vendor: 1,
            device_type: 12,
            product: 7,
            major: 2,
            minor: 3,
        },
        outputs: Items::one(alloc, output)?,
        inputs: Items::one(alloc, point(INPUT, 4))?,
        config: Some(point(CONFIG, 0)),
        input_only: 152,
        listen_only: 153,
        description: None,
        limits: MakerLimits::NONE,
        objects: Items::new(alloc),
        ids: None,
    })
}

/// A slot that owns the output of its target and consumes its input.
pub fn slot(alloc: Global, target: Node) -> SlotConfig
    ensures { result ≡ slot_config target }
{
    SlotConfig {
        target,
        kind: Kind::ExclusiveOwner,
        config: Some(CONFIG),
        consumed: OUTPUT,
        produced: INPUT,
        out_len: 4,
        in_len: 4,
        o_t_rpi: 10_000,
        t_o_rpi: 10_000,
        mult: 2,
        multicast: false,
        key: None,
        config_data: Items::new(alloc),
        trigger: Trigger::Cyclic,
        inhibit: 0,
    }
}

/// A scanner that waits 2,000 ms for a reply and 3,000 ms before it tries again.
pub fn scanner(
    alloc: Global,
    incarnation: u8,
    node: Node,
    target: Node,
) -> Result<ScannerProfile, OutOfMemory>
    ensures { IfOk result (λ profile. profile ≡ scanner_profile incarnation node target) }
{
    Ok(ScannerProfile {
        incarnation,
        node,
        vendor: 0x1234,
        serial: 0x1234_5678,
        open_timeout: 2_000,
        retry: 3_000,
        newer: None,
        tidy: false,
        openings: None,
        serials: None,
        ids: None,
        slots: Items::one(alloc, slot(alloc, target))?,
    })
}
