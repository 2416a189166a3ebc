//! The status word and the configuration consistency value of the Identity object.

ghost use Rattle.std.specs.Prelude.{◌≡◌, ◌≤◌};
ghost use Rattle.std.specs.List.{list_any};
ghost use Rattle.std.specs.Option.{option_map};
ghost use Rattle.adapter_table.specs.Checks.{config_bytes};
ghost use Rattle.adapter_table.specs.Objects.{bit, connection_status, consistency, consistency_value, status_of, holds_bytes, is_set};
ghost use Rattle.adapter_replies.specs.Objects.Said.{status_in};

use adapter_table::IoState;
use assembly_set::AssemblySet;

/// The bytes of the configuration.
fn config_bytes(assemblies: &AssemblySet) -> Option<&[u8]>
    ensures { option_map (λ lent. lent.now) result ≡ config_bytes assemblies.now.values assemblies.now.profile.config }
{
    match assemblies.profile().config {
        Some(config) => assemblies.read(config.instance).ok(),
        None => None,
    }
}

fn is_set(byte: u8) -> bool
    ensures { result ≡ is_set byte }
{
    byte != 0
}

fn is_any_set(bytes: &[u8]) -> bool
    ensures { result ≡ list_any is_set bytes.now }
{
    bytes.iter().any(|byte| is_set(*byte))
}

/// Whether there are bytes, and one of them is not 0.
fn holds_bytes(bytes: Option<&[u8]>) -> bool
    ensures { result ≡ holds_bytes (option_map (λ lent. lent.now) bytes.entry) }
{
    match bytes {
        Some(bytes) => is_any_set(bytes),
        None => false,
    }
}

/// A bit of a word.
fn bit(holds: bool, value: u16) -> u16
    ensures value { result ≡ bit holds value }
    ensures bound { result ≤ value }
{
    if holds { value } else { 0 }
}

/// Bits 4 to 7 of the status word.
fn connection_status(io: IoState) -> u16
    ensures value { result ≡ connection_status io }
    ensures bound { result ≤ 7 }
{
    if io.running {
        return 6;
    }
    if io.established {
        return 7;
    }
    if io.timed_out {
        return 2;
    }
    3
}

/// The status word of a device.
fn status_of(configured: bool, io: IoState) -> u16
    ensures { result ≡ status_of configured io }
{
    bit(io.owned, 1) + (bit(configured, 4) + 16 * connection_status(io))
}

/// The status word of a device with these points, whose connections tell this.
///
/// Volume 1, chapter 5, Identity object, attribute 5.
pub(crate) fn status_word(assemblies: &AssemblySet, io: IoState) -> u16
    ensures { result ≡ status_in assemblies.now io }
{
    status_of(holds_bytes(config_bytes(assemblies)), io)
}

/// The value of some bytes of a configuration: each byte counts for its place.
fn consistency(bytes: &[u8]) -> u16
    ensures { result ≡ consistency bytes.now }
{
    match bytes {
        [] => 0,
        [byte, rest @ ..] => {
            ((u32::from(*byte) + 31 * u32::from(consistency(rest))) % 65536) as u16
        }
    }
}

/// The configuration consistency value of a device with these points: 0 without a configuration.
///
/// Volume 1, chapter 5, Identity object, attribute 9.
pub(crate) fn consistency_value(assemblies: &AssemblySet) -> u16
    ensures { result ≡ consistency_value (config_bytes assemblies.now.values assemblies.now.profile.config) }
{
    match config_bytes(assemblies) {
        Some(bytes) => consistency(bytes),
        None => 0,
    }
}
