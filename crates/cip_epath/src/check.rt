//! The check of an electronic key against a device.

ghost use Rattle.std.specs.Prelude.{◌≡◌, ◌↔◌, IsOk, IfErr, Some, None};
ghost use Rattle.cip_epath.specs.ElectronicKey.{view_key, is_match, is_revision_match, key_fault};

use crate::key::{ElectronicKey, KeyFault};
use cip_types::Identity;

/// Whether a field of a key matches the device's value. A field of 0 matches any value.
fn matches(field: u16, own: u16) -> bool
    ensures { result ≡ is_match field own }
{
    field == 0 || field == own
}

/// Whether the revision of a key matches the device's.
fn matches_revision(key: &ElectronicKey, device: &Identity) -> bool
    ensures { result ≡ is_revision_match (view_key key.now) device.now }
{
    if !matches(u16::from(key.major), u16::from(device.major)) {
        return false;
    }
    if key.compatible {
        key.minor <= device.minor
    } else {
        matches(u16::from(key.minor), u16::from(device.minor))
    }
}

/// Checks that the device matches the key. The error is the first difference, in this order: the vendor or
/// product code, the device type, the revision.
///
/// Volume 1, appendix C, electronic key segment.
pub fn check_key(key: &ElectronicKey, device: &Identity) -> Result<(), KeyFault>
    ensures met { IsOk result ↔ (key_fault (view_key key.now) device.now ≡ None) }
    ensures fault { IfErr result (λ f. key_fault (view_key key.now) device.now ≡ Some f) }
{
    if !matches(key.vendor, device.vendor) || !matches(key.product, device.product) {
        return Err(KeyFault::VendorOrProduct);
    }
    if !matches(key.device_type, device.device_type) {
        return Err(KeyFault::DeviceType);
    }
    if !matches_revision(key, device) {
        return Err(KeyFault::Revision);
    }
    Ok(())
}
