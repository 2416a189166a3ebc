//! The values of the lines of a profile.

ghost use Rattle.std.specs.Prelude.{◌≡◌};
ghost use Rattle.trace_lines.specs.Profiles.{profile_with};
ghost use Rattle.trace_lines.specs.Slots.{scanner_with};

use adapter_table::{Description, InputPoint, MakerLimits, OutputPoint, Profile};
use cip_netparams::Trigger;
use cip_types::{IdBlock, Identity, Items, Node};
use scanner_table::{ScannerProfile, SlotConfig};

/// The values of the first line of an adapter's profile.
#[derive(Clone, Copy)]
pub struct AdapterLine {
    pub incarnation: u8,
    pub node: Node,
    pub mask: u32,
    pub identity: Identity,
}

/// The points that a profile names without data.
#[derive(Clone, Copy)]
pub struct HeartbeatLine {
    pub input_only: u32,
    pub listen_only: u32,
}

/// The values of the first line of a scanner's profile.
#[derive(Clone, Copy)]
pub struct ScannerLine {
    pub incarnation: u8,
    pub node: Node,
    pub vendor: u16,
    pub serial: u32,
    pub open_timeout: u64,
    pub retry: u64,
}

/// What the lines of a scanner's profile say of its openings and of its connection ids.
#[derive(Clone, Copy)]
pub struct ScannerTerms {
    /// Whether the scanner closes each connection that its targets may have and no slot has.
    pub tidy: bool,
    /// The most openings that wait for replies of one target at one time, if it is stated.
    pub openings: Option<u8>,
    /// The connection serial number of the first opening, if it is stated.
    pub serials: Option<u16>,
    /// The block of the first connection ids, if it is stated.
    pub ids: Option<IdBlock>,
}

/// One of these lines.
#[derive(Clone, Copy)]
pub enum TermLine {
    Tidy,
    Openings(u8),
    Serials(u16),
}

/// The trigger of a target's productions, and the least number of milliseconds between two of them at a change.
#[derive(Clone, Copy)]
pub struct Rate {
    pub trigger: Trigger,
    pub inhibit: u8,
}

/// The profile of an adapter with the values of its lines.
pub fn profile_with(
    adapter: AdapterLine,
    outputs: Items<OutputPoint>,
    inputs: Items<InputPoint>,
    config: Option<InputPoint>,
    description: Option<Description>,
    limits: MakerLimits,
    objects: Items<u32>,
    ids: Option<IdBlock>,
    heartbeat: HeartbeatLine,
) -> Profile
    ensures { result ≡ profile_with adapter outputs inputs config description limits objects ids heartbeat }
{
    Profile {
        incarnation: adapter.incarnation,
        node: adapter.node,
        mask: adapter.mask,
        identity: adapter.identity,
        outputs,
        inputs,
        config,
        input_only: heartbeat.input_only,
        listen_only: heartbeat.listen_only,
        description,
        limits,
        objects,
        ids,
    }
}

/// The profile of a scanner with the values of its lines.
pub fn scanner_with(
    scanner: ScannerLine,
    newer: Option<u32>,
    terms: ScannerTerms,
    slots: Items<SlotConfig>,
) -> ScannerProfile
    ensures { result ≡ scanner_with scanner newer terms slots }
{
    ScannerProfile {
        incarnation: scanner.incarnation,
        node: scanner.node,
        vendor: scanner.vendor,
        serial: scanner.serial,
        open_timeout: scanner.open_timeout,
        retry: scanner.retry,
        newer,
        tidy: terms.tidy,
        openings: terms.openings,
        serials: terms.serials,
        ids: terms.ids,
        slots,
    }
}
