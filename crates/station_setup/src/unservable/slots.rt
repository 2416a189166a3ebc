//! Slots of a scanner that no station can serve.

ghost use Rattle.std.specs.Prelude.{◌≡◌, ◌<◌, IfSome, length, position};
ghost use Rattle.station_setup.specs.Unservable.Defects.{is_owner, is_target, owns_same, shared_output};

use cip_productions::Kind;
use cip_types::Node;
use scanner_table::SlotConfig;

/// The first slot whose target is this address.
pub(crate) fn own_target(slots: &[SlotConfig], node: Node) -> Option<usize>
    ensures { result ≡ position (is_target node) slots.now }
{
    slots.iter().position(|slot| is_target(node, slot))
}

/// Whether the target of a slot is this address.
fn is_target(node: Node, slot: &SlotConfig) -> bool
    ensures { result ≡ is_target node slot.now }
{
    slot.target.0 == node.0
}

/// The first slot that owns an output of its target which a later one owns too, and the first of these.
pub(crate) fn shared_output(slots: &[SlotConfig]) -> Option<(usize, usize)>
    ensures { result ≡ shared_output 0 slots.now }
{
    let mut rest = slots;
    let mut index = 0;
    while let Some((slot, after)) = rest.split_first() {
        if let Some(behind) = owner_in(after, slot) {
            return Some((index, index + 1 + behind));
        }
        rest = after;
        index += 1;
    }
    None
}

/// The first of these slots that owns the output of this one.
fn owner_in(slots: &[SlotConfig], slot: &SlotConfig) -> Option<usize>
    ensures first { result ≡ position (owns_same slot.now) slots.now }
    ensures inside { IfSome result (λ place. place < length slots.now) }
{
    slots.iter().position(|other| owns_same(slot, other))
}

/// Whether two slots own one output of one target.
fn owns_same(slot: &SlotConfig, other: &SlotConfig) -> bool
    ensures { result ≡ owns_same slot.now other.now }
{
    is_owner(slot.kind)
        && is_owner(other.kind)
        && slot.target.0 == other.target.0
        && slot.consumed == other.consumed
}

/// Whether a connection of this kind owns an output.
fn is_owner(kind: Kind) -> bool
    ensures { result ≡ is_owner kind }
{
    matches!(kind, Kind::ExclusiveOwner)
}
