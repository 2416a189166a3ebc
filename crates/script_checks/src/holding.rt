//! Whether a condition holds of a device.

ghost use Rattle.std.specs.Prelude.{◌≡◌};
ghost use Rattle.cip_tables.specs.Step.{bytes_in};
ghost use Rattle.script_checks.specs.Holding.{code_of, has_bytes, has_lost, has_mode, has_point, has_state, holds, image_holds, is_lost_owner, is_of, output_holds, owned_so, owner_holds, state_of};

use crate::condition::{Condition, ExpectedState, OwnerState};
use cip_productions::Kind;
use cip_tables::{ConnectionReport, Device, Mode, SlotReport};
use cip_types::Node;
use cip_types::limits::MOST_CONNECTIONS;

/// Whether a condition holds of a device. Of a point, an output or a slot that the device does not have none does.
pub fn holds<D: Device>(device: &D, condition: &Condition) -> bool
    ensures { result ≡ holds (D.table device.now) condition.now }
{
    match condition {
        Condition::Output { point, bytes } => output_holds(device, *point, bytes.as_slice()),
        Condition::Image { slot, bytes } => image_holds(device, *slot, bytes.as_slice()),
        Condition::Slot { slot, state } => has_state(device.slot(*slot), *state),
        Condition::Owner { point, owner } => owner_holds(device, *point, *owner),
    }
}

/// Whether a point of an adapter holds these bytes.
fn output_holds<D: Device>(device: &D, point: u32, bytes: &[u8]) -> bool
    ensures { result ≡ output_holds (D.table device.now) point bytes.now }
{
    device.slot(point).is_none() && has_bytes(device, point, bytes)
}

/// Whether the image of a scanner's slot holds these bytes.
fn image_holds<D: Device>(device: &D, slot: u32, bytes: &[u8]) -> bool
    ensures { result ≡ image_holds (D.table device.now) slot bytes.now }
{
    device.slot(slot).is_some() && has_bytes(device, slot, bytes)
}

/// Whether a point or an image holds these bytes.
fn has_bytes<D: Device>(device: &D, point: u32, bytes: &[u8]) -> bool
    ensures { result ≡ has_bytes bytes.now (bytes_in (D.table device.now) point) }
{
    match device.read_point(point) {
        Ok(held) => held == bytes,
        Err(_) => false,
    }
}

/// Whether a device has a point or an image of this number.
pub(crate) fn has_point<D: Device>(device: &D, point: u32) -> bool
    ensures { result ≡ has_point (bytes_in (D.table device.now) point) }
{
    device.read_point(point).is_ok()
}

/// The state that a report of a slot says.
pub(crate) fn state_of(report: SlotReport) -> ExpectedState
    ensures { result ≡ state_of report }
{
    match report {
        SlotReport::Idle => ExpectedState::Idle,
        SlotReport::Opening => ExpectedState::Opening,
        SlotReport::Established(_) => ExpectedState::Established,
        SlotReport::TimedOut => ExpectedState::TimedOut,
        SlotReport::Closing => ExpectedState::Closing,
    }
}

/// A number for each state.
fn code_of(state: ExpectedState) -> u8
    ensures { result ≡ code_of state }
{
    match state {
        ExpectedState::Idle => 0,
        ExpectedState::Opening => 1,
        ExpectedState::Established => 2,
        ExpectedState::TimedOut => 3,
        ExpectedState::Closing => 4,
    }
}

/// Whether a slot is there and has this state.
fn has_state(report: Option<SlotReport>, state: ExpectedState) -> bool
    ensures { result ≡ has_state report state }
{
    match report {
        Some(report) => code_of(state_of(report)) == code_of(state),
        None => false,
    }
}

/// Whether an output is there and is owned so.
fn owner_holds<D: Device>(device: &D, point: u32, owner: OwnerState) -> bool
    ensures { result ≡ owner_holds (D.table device.now) point owner }
{
    has_point(device, point) && owned_so(device, point, owner)
}

/// Whether an output is owned so.
fn owned_so<D: Device>(device: &D, point: u32, owner: OwnerState) -> bool
    ensures { result ≡ owned_so (D.table device.now) point owner }
{
    match owner {
        OwnerState::Unowned => device.owner(point).is_none(),
        OwnerState::Lost => device.owner(point).is_none() && is_lost(device, point),
        OwnerState::Running => has_mode(device.owner(point), true),
        OwnerState::Idle => has_mode(device.owner(point), false),
        OwnerState::Of(node) => is_of(device.owner(point), node),
    }
}

/// Whether a connection that owned an output has timed out.
pub(crate) fn is_lost<D: Device>(device: &D, point: u32) -> bool
    ensures { result ≡ has_lost (D.table device.now) point }
{
    let mut lost = false;
    for place in 0..MOST_CONNECTIONS as u32 {
        lost = lost || is_lost_owner(point, device.connection(place));
    }
    lost
}

/// Whether a connection is an owner of this output that has timed out.
fn is_lost_owner(point: u32, report: Option<ConnectionReport>) -> bool
    ensures { result ≡ is_lost_owner point report }
{
    match report {
        Some(report) => {
            !report.established && report.kind == Kind::ExclusiveOwner && report.consumed == point
        }
        None => false,
    }
}

/// Whether an owner is there, and its newest data has the mode run, or idle.
fn has_mode(owner: Option<ConnectionReport>, run: bool) -> bool
    ensures { result ≡ has_mode owner run }
{
    match owner {
        Some(report) => match report.mode {
            Some(Mode::Run) => run,
            Some(Mode::Idle) => !run,
            None => false,
        },
        None => false,
    }
}

/// Whether an owner is there, and this is its originator.
fn is_of(owner: Option<ConnectionReport>, node: Node) -> bool
    ensures { result ≡ is_of owner node }
{
    match owner {
        Some(report) => report.peer.0 == node.0,
        None => false,
    }
}
