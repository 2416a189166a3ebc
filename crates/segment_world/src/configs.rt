//! The configurations of a world: their check, and the devices made from them.

ghost use Rattle.std.specs.Prelude.{◌≡◌, ◌<◌, ◌+◌, ◌==◌, true, false, None, Some, IfOk, drop, length, map};
ghost use Rattle.std.specs.List.{list_any};
ghost use Rattle.cip_tables.specs.Step.{AcceptsAll, opening_table, config_fault};
ghost use Rattle.segment_world.specs.Configs.{key_in, any_twice, first_fault, world_fault, node_of_config};

use crate::fault::WorldFault;
use cip_events::{NewFault, ProfileFault};
use cip_tables::{Config, Device};
use cip_types::{Node, OutOfMemory};
use std::alloc::Global;

/// A number that no two devices of a world share.
#[derive(Clone, Copy)]
pub enum DeviceKey {
    /// The byte that begins the device's connection ids.
    Incarnation,
    /// The device's address.
    Address,
}

/// Returns the address of the device of a configuration.
pub fn node_of(config: &Config) -> Node
    ensures { result ≡ node_of_config config.now }
{
    match config {
        Config::Adapter(profile) => profile.node,
        Config::Scanner(profile) => profile.node,
    }
}

fn key_of(key: DeviceKey, config: &Config) -> u32
    ensures { result ≡ key_in key config.now }
{
    match key {
        DeviceKey::Incarnation => match config {
            Config::Adapter(profile) => u32::from(profile.incarnation),
            Config::Scanner(profile) => u32::from(profile.incarnation),
        },
        DeviceKey::Address => node_of(config).0,
    }
}

/// Returns whether a configuration has this value of a key. Takes no memory.
pub fn has_key(key: DeviceKey, configs: &[Config], value: u32) -> bool
    ensures { result ≡ list_any (λ config. key_in key config == value) configs.now }
{
    configs.iter().any(|config| key_of(key, config) == value)
}

/// Returns the configurations after an index.
fn later(configs: &[Config], index: usize) -> &[Config]
    requires { index < length configs.now }
    ensures { result.now ≡ drop (index + 1) configs.now }
{
    &configs[index + 1..]
}

/// Returns whether two configurations have the same key.
fn any_twice(key: DeviceKey, configs: &[Config]) -> bool
    ensures { result ≡ any_twice key configs.now }
{
    for (index, config) in configs.iter().enumerate() {
        if has_key(key, later(configs, index), key_of(key, config)) {
            return true;
        }
    }
    false
}

fn config_fault(config: &Config) -> Option<ProfileFault>
    ensures { result ≡ config_fault config.now }
{
    match config {
        Config::Adapter(profile) => profile.check().err(),
        Config::Scanner(profile) => profile.check().err(),
    }
}

/// Returns the fault of the first configuration that has one.
fn first_fault(configs: &[Config]) -> Option<ProfileFault>
    ensures { result ≡ first_fault configs.now }
{
    for config in configs {
        if let Some(fault) = config_fault(config) {
            return Some(fault);
        }
    }
    None
}

/// Returns the first fault of the configurations of a world. Takes no memory.
pub fn world_fault(configs: &[Config]) -> Option<WorldFault>
    ensures { result ≡ world_fault configs.now }
{
    if any_twice(DeviceKey::Incarnation, configs) {
        return Some(WorldFault::SameIncarnation);
    }
    if any_twice(DeviceKey::Address, configs) {
        return Some(WorldFault::SameNode);
    }
    match first_fault(configs) {
        Some(fault) => Some(WorldFault::Profile(fault)),
        None => None,
    }
}

/// Returns the addresses of the devices, in order. `OutOfMemory` is the only error.
pub fn nodes_of(alloc: Global, configs: &[Config]) -> Result<Vec<Node>, OutOfMemory>
    ensures { IfOk result (λ nodes. nodes.items ≡ map node_of_config configs.now) }
{
    let mut nodes = Vec::new(alloc);
    for config in configs {
        nodes.push(node_of(config))?;
    }
    Ok(nodes)
}

/// Makes fresh devices of configurations without a fault, in order. `OutOfMemory` is the only error.
pub fn devices_of<D: Device + Drop>(
    alloc: Global,
    configs: Vec<Config>,
) -> Result<Vec<D>, OutOfMemory>
    requires accepts { AcceptsAll D.accepts }
    requires good { first_fault configs.items ≡ None }
    ensures { IfOk result (λ devices. map D.table devices.items ≡ map opening_table configs.items) }
{
    let mut devices = Vec::new(alloc);
    for config in configs {
        devices.push(device_of(alloc, config)?)?;
    }
    Ok(devices)
}

/// Makes the fresh device of a configuration without a fault. `OutOfMemory` is the only error.
pub fn device_of<D: Device>(alloc: Global, config: Config) -> Result<D, OutOfMemory>
    requires accepts { D.accepts config ≡ true }
    requires good { config_fault config ≡ None }
    ensures { IfOk result (λ device. D.table device ≡ opening_table config) }
{
    match D::new(alloc, config) {
        Ok(device) => Ok(device),
        Err(NewFault::OutOfMemory) => Err(OutOfMemory),
        // (a valid configuration that is accepted is refused for lack of memory alone)
        Err(_) => unreachable!(),
    }
}
