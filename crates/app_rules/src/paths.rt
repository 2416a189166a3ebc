//! The path of a request, as the device reads it.

ghost use Rattle.std.specs.Prelude.{◌≡◌};
ghost use Rattle.std.specs.Option.{option_map};
ghost use Rattle.cip_epath.specs.ElectronicKey.{view_key};
ghost use Rattle.cip_epath.specs.Path.{view_path};
ghost use Rattle.cip_epath.specs.Reading.{seen};
ghost use Rattle.adapter_table.specs.Checks.{Gives, key_of, key_check};
ghost use Rattle.adapter_table.specs.Paths.{opening_path, opening_message_path, names_another};
ghost use Rattle.app_rules.specs.Stages.{IsPassed, readable};

use adapter_table::{Description, Profile};
use cip_epath::{
    ConnPath, ElectronicKey, KeyFault, PathFault, check_key, is_other_serial, key_serial,
    read_any_message_path, read_any_path, read_message_path, read_path,
};
use cip_router::Refusal;

/// The path of a request: a described device reads it in any form.
pub fn opening_path<'a>(
    description: &Option<Description>,
    bytes: &'a [u8],
) -> Result<ConnPath<'a>, PathFault>
    ensures { seen view_path result ≡ opening_path description.now bytes.now }
{
    match description {
        Some(_) => read_any_path(bytes),
        None => read_path(bytes),
    }
}

/// The key of the path of a class 3 connection.
pub fn opening_message_path(
    description: &Option<Description>,
    bytes: &[u8],
) -> Result<Option<ElectronicKey>, PathFault>
    ensures { seen (option_map view_key) result ≡ opening_message_path description.now bytes.now }
{
    match description {
        Some(_) => read_any_message_path(bytes),
        None => read_message_path(bytes),
    }
}

/// The path of a request, if its segments read. Segments in a wrong order give no path.
pub fn readable<'a>(
    description: &Option<Description>,
    bytes: &'a [u8],
) -> Result<Option<ConnPath<'a>>, Refusal>
    ensures { Gives (option_map view_path) result (readable (opening_path description.now bytes.now)) }
{
    match opening_path(description, bytes) {
        Ok(path) => Ok(Some(path)),
        Err(PathFault::Shape) => Ok(None),
        Err(_) => Err(Refusal::Segment),
    }
}

/// The key of a path, if there is one.
pub fn key_of(path: &Option<ConnPath<'_>>) -> Option<ElectronicKey>
    ensures { option_map view_key result ≡ key_of (option_map view_path path.now) }
{
    match path {
        Some(path) => path.key,
        None => None,
    }
}

/// Whether the key of a path names the serial number of another device than this one, which is described.
fn names_another(description: &Option<Description>, bytes: &[u8]) -> bool
    ensures { result ≡ names_another description.now bytes.now }
{
    match description {
        Some(description) => is_other_serial(description.serial, key_serial(bytes)),
        None => false,
    }
}

/// The refusal of a path with a key that is not that of this device.
fn check_device(profile: &Profile, bytes: &[u8], key: &ElectronicKey) -> Result<(), Refusal>
    ensures { IsPassed (key_check profile.now bytes.now (Some (view_key key.now))) result }
{
    match check_key(key, &profile.identity) {
        Ok(()) if names_another(&profile.description, bytes) => Err(Refusal::VendorOrProduct),
        Ok(()) => Ok(()),
        Err(KeyFault::VendorOrProduct) => Err(Refusal::VendorOrProduct),
        Err(KeyFault::DeviceType) => Err(Refusal::DeviceType),
        Err(KeyFault::Revision) => Err(Refusal::Revision),
    }
}

/// The refusal of a path whose key is not that of this device. A path that does not read has none.
pub fn key_check(profile: &Profile, bytes: &[u8], key: Option<ElectronicKey>) -> Result<(), Refusal>
    ensures { IsPassed (key_check profile.now bytes.now (option_map view_key key)) result }
{
    match &key {
        Some(key) => check_device(profile, bytes, key),
        None => Ok(()),
    }
}
