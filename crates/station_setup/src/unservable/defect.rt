//! The first thing in a profile that no station can serve.

ghost use Rattle.std.specs.Prelude.{◌≡◌};
ghost use Rattle.station_setup.specs.Unservable.Defects.{adapter_defect, own_node, shared_defect, slots_defect, station_defect};

use crate::unservable::slots::{own_target, shared_output};
use adapter_table::Description;
use cip_tables::Config;
use cip_types::Node;
use scanner_table::SlotConfig;

/// What no station can serve. Slots are numbered from 0.
#[derive(Clone, Copy, PartialEq, Eq)]
pub enum StationDefect {
    /// The TCP port of the description is 0.
    NoPort,
    /// The target of this slot is the scanner itself.
    OwnTarget { slot: usize },
    /// This slot owns an output of its target that an earlier one owns.
    SharedOutput { slot: usize, other: usize },
}

/// The first thing in a profile that no station can serve, which is at this address or, without one, at that of its profile.
pub fn station_defect(config: &Config, address: Option<Node>) -> Option<StationDefect>
    ensures { result ≡ station_defect config.now address }
{
    match config {
        Config::Adapter(profile) => adapter_defect(&profile.description),
        Config::Scanner(profile) => {
            let node = own_node(address, profile.node);
            slots_defect(profile.slots.as_slice(), node)
        }
    }
}

/// A description whose TCP port is 0.
fn adapter_defect(description: &Option<Description>) -> Option<StationDefect>
    ensures { result ≡ adapter_defect description.now }
{
    match description {
        Some(description) if description.port == 0 => Some(StationDefect::NoPort),
        _ => None,
    }
}

/// The address of a station: that of its options, unless that is each address of the host, or that of its profile.
fn own_node(address: Option<Node>, node: Node) -> Node
    ensures { result ≡ own_node address node }
{
    match address {
        Some(address) if address.0 != 0 => address,
        _ => node,
    }
}

/// The first of these slots whose target is the scanner at this address, or else the first that owns an output as an earlier
/// one does.
fn slots_defect(slots: &[SlotConfig], node: Node) -> Option<StationDefect>
    ensures { result ≡ slots_defect slots.now node }
{
    match own_target(slots, node) {
        Some(slot) => Some(StationDefect::OwnTarget { slot }),
        None => shared_defect(slots),
    }
}

fn shared_defect(slots: &[SlotConfig]) -> Option<StationDefect>
    ensures { result ≡ shared_defect slots.now }
{
    match shared_output(slots) {
        Some((other, slot)) => Some(StationDefect::SharedOutput { slot, other }),
        None => None,
    }
}
