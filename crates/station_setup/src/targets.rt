//! The targets of a scanner.

ghost use Rattle.std.specs.Prelude.{◌≡◌, IfOk, OnOk};
ghost use Rattle.station_setup.specs.Settings.{is_among, targets_of, with_target};

use cip_tables::ScannerProfile;
use cip_types::{Node, OutOfMemory};
use socket_port::Destination;
use std::alloc::Global;

/// The targets of a scanner's slots, each once, at this TCP port. The only fault is a refused allocation.
pub fn targets_of(
    alloc: Global,
    profile: &ScannerProfile,
    port: u16,
) -> Result<Vec<Destination>, OutOfMemory>
    ensures { IfOk result (λ targets. targets.items ≡ targets_of port profile.now.slots) }
{
    let mut targets: Vec<Destination> = Vec::new(alloc);
    for slot in profile.slots.as_slice() {
        add_target(&mut targets, slot.target, port)?;
    }
    Ok(targets)
}

/// Adds a target, if it is not among them.
fn add_target(targets: &mut Vec<Destination>, node: Node, port: u16) -> Result<(), OutOfMemory>
    ensures { OnOk result (targets.new.items ≡ with_target port targets.old.items node) }
{
    if is_among(node, targets.as_slice()) {
        return Ok(());
    }
    targets.push(Destination { node, port })?;
    Ok(())
}

/// Whether a target of this address is among them.
fn is_among(node: Node, targets: &[Destination]) -> bool
    ensures { result ≡ is_among node targets.now }
{
    targets.iter().any(|target| target.node.0 == node.0)
}
