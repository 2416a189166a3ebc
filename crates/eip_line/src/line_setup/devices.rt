//! The configurations of the line.

ghost use Rattle.std.specs.Prelude.{◌≡◌, ◌+◌, [], ◌∷◌, ◌++◌, true, false, None, IfOk, OnOk, length};
ghost use Rattle.cip_tables.specs.Step.{config_fault, makes_adapter};
ghost use Rattle.segment_world.specs.Configs.{world_fault};
ghost use Rattle.eip_line.specs.LineSetup.Devices.{input_slot, line_adapter, line_configs, line_scanner, node_of_scanner, scanner_of};

use cip_netparams::Trigger;
use cip_tables::{Config, Kind, ScannerProfile, SlotConfig};
use cip_types::{Items, Node, OutOfMemory};
pub use example_profiles::ADAPTER;
use example_profiles::{INPUT, MASK, adapter, scanner};
use segment_world::{WorldFault, world_fault};
use std::alloc::Global;

/// The incarnation byte of the adapter.
const ADAPTER_BYTE: u8 = 0x10;

/// The incarnation byte of scanner 0. The others have the next ones.
const SCANNER_BYTE: u8 = 0x20;

/// The address of scanner 0, 192.168.1.20. The others have the next ones.
const SCANNER_NODE: u32 = 0xC0A8_0114;

/// The adapter's heartbeat point of connections that only consume its input.
const INPUT_ONLY: u32 = 152;

/// The address of a scanner.
pub fn scanner_node(number: u8) -> Node
    ensures { result ≡ node_of_scanner number }
{
    Node(SCANNER_NODE + u32::from(number))
}

/// The adapter: its output 150 and its input 100 have four bytes each.
///
/// The errors: `Profile`, which this profile never has, and `OutOfMemory`.
pub fn adapter_config(alloc: Global) -> Result<Config, WorldFault>
    ensures config { IfOk result (λ config. config ≡ line_adapter) }
    ensures valid { IfOk result (λ config. config_fault config ≡ None) }
    ensures kind { IfOk result (λ config. makes_adapter config ≡ true) }
{
    let profile = adapter(alloc, ADAPTER_BYTE, ADAPTER, MASK)?;
    match profile.check() {
        Ok(()) => Ok(Config::Adapter(profile)),
        Err(first) => Err(WorldFault::Profile(first)),
    }
}

/// The scanner of a number. Scanner 0 owns the adapter's output and consumes its input, point to point. The others
/// consume the input alone, which the adapter sends to all of them at once.
///
/// The errors: `Profile`, which these profiles never have, and `OutOfMemory`.
pub fn scanner_config(alloc: Global, number: u8) -> Result<Config, WorldFault>
    ensures config { IfOk result (λ config. config ≡ line_scanner number) }
    ensures valid { IfOk result (λ config. config_fault config ≡ None) }
    ensures kind { IfOk result (λ config. makes_adapter config ≡ false) }
{
    let profile = scanner_profile(alloc, number)?;
    match profile.check() {
        Ok(()) => Ok(Config::Scanner(profile)),
        Err(first) => Err(WorldFault::Profile(first)),
    }
}

fn scanner_profile(alloc: Global, number: u8) -> Result<ScannerProfile, OutOfMemory>
    ensures { IfOk result (λ profile. profile ≡ scanner_of number) }
{
    let byte = SCANNER_BYTE.wrapping_add(number);
    let owner = scanner(alloc, byte, scanner_node(number), ADAPTER)?;
    if number == 0 {
        return Ok(owner);
    }
    Ok(ScannerProfile {
        serial: owner.serial.wrapping_add(u32::from(number)),
        slots: Items::one(alloc, input_slot(alloc))?,
        ..owner
    })
}

/// A slot that only consumes the input, with all others that do so.
fn input_slot(alloc: Global) -> SlotConfig
    ensures { result ≡ input_slot }
{
    SlotConfig {
        target: ADAPTER,
        kind: Kind::InputOnly,
        config: None,
        consumed: INPUT_ONLY,
        produced: INPUT,
        out_len: 0,
        in_len: 4,
        o_t_rpi: 10_000,
        t_o_rpi: 10_000,
        mult: 2,
        multicast: true,
        key: None,
        config_data: Items::new(alloc),
        trigger: Trigger::Cyclic,
        inhibit: 0,
    }
}

/// The adapter, and so many scanners behind it. A world can be made of them.
///
/// The errors, in order: `OutOfMemory`, and the others of a world, which these configurations have for no number of
/// scanners up to eight.
pub fn configs(alloc: Global, scanners: u8) -> Result<Vec<Config>, WorldFault>
    ensures configs { IfOk result (λ configs. configs.items ≡ line_configs scanners) }
    ensures valid { IfOk result (λ configs. world_fault configs.items ≡ None) }
    ensures count { IfOk result (λ configs. length configs.items ≡ scanners + 1) }
{
    let configs = all_configs(alloc, scanners)?;
    match world_fault(&configs) {
        None => Ok(configs),
        Some(fault) => Err(fault),
    }
}

fn all_configs(alloc: Global, scanners: u8) -> Result<Vec<Config>, WorldFault>
    ensures configs { IfOk result (λ configs. configs.items ≡ line_configs scanners) }
    ensures count { IfOk result (λ configs. length configs.items ≡ scanners + 1) }
{
    let mut configs = Vec::new(alloc);
    add(&mut configs, adapter_config(alloc)?)?;
    for number in 0..scanners {
        add(&mut configs, scanner_config(alloc, number)?)?;
    }
    Ok(configs)
}

fn add(configs: &mut Vec<Config>, config: Config) -> Result<(), OutOfMemory>
    ensures { OnOk result (configs.new.items ≡ configs.old.items ++ config ∷ []) }
{
    configs.push(config)?;
    Ok(())
}
