//! What a device has where a condition says something else, in words.

ghost use Rattle.std.specs.Prelude.{◌≡◌, ◌++◌, OnOk, string_bytes};
ghost use Rattle.cip_tables.specs.States.{owner_in};
ghost use Rattle.cip_tables.specs.Step.{bytes_in};
ghost use Rattle.script_checks.specs.Holding.{has_lost, has_point};
ghost use Rattle.script_checks.specs.Texts.{mode_text, seen_bytes, seen_owner, seen_owner_of, seen_state, seen_text};

use crate::condition::Condition;
use crate::holding::{has_point, is_lost, state_of};
use crate::words::state_word;
use cip_tables::{ConnectionReport, Device, Mode, SlotReport};
use cip_types::OutOfMemory;
use trace_words::{push_bytes, push_node, push_text};

/// What is said of a point that a device does not have.
const NO_POINT: &str = "no such point";

/// What is said of a slot that a device does not have.
const NO_SLOT: &str = "no such slot";

/// Appends what a device has where a condition says something else.
pub fn push_seen<D: Device>(
    out: &mut String,
    device: &D,
    condition: &Condition,
) -> Result<(), OutOfMemory>
    ensures { OnOk result
        (string_bytes out.new ≡ string_bytes out.old ++ seen_text (D.table device.now) condition.now) }
{
    match condition {
        Condition::Output { point, bytes: _ } => push_held(out, device, *point),
        Condition::Image { slot, bytes: _ } => push_held(out, device, *slot),
        Condition::Slot { slot, state: _ } => push_text(out, seen_state(device.slot(*slot))),
        Condition::Owner { point, owner: _ } => push_owner(out, device, *point),
    }
}

/// Appends what a point or an image holds.
fn push_held<D: Device>(out: &mut String, device: &D, point: u32) -> Result<(), OutOfMemory>
    ensures { OnOk result
        (string_bytes out.new ≡ string_bytes out.old ++ seen_bytes (bytes_in (D.table device.now) point)) }
{
    match device.read_point(point) {
        Ok(held) => push_bytes(out, held),
        Err(_) => push_text(out, NO_POINT),
    }
}

/// The word of a slot's state.
fn seen_state(report: Option<SlotReport>) -> &'static str
    ensures { result.now ≡ seen_state report }
{
    match report {
        Some(report) => state_word(state_of(report)),
        None => NO_SLOT,
    }
}

/// Appends who owns an output.
fn push_owner<D: Device>(out: &mut String, device: &D, point: u32) -> Result<(), OutOfMemory>
    ensures { OnOk result (string_bytes out.new ≡ string_bytes out.old
        ++ seen_owner_of (has_point (bytes_in (D.table device.now) point)) (owner_in (D.table device.now) point)
        (has_lost (D.table device.now) point)) }
{
    if has_point(device, point) {
        push_owner_of(out, device.owner(point), is_lost(device, point))
    } else {
        push_text(out, NO_POINT)
    }
}

/// Appends an owner; if there is none, whether one was lost.
fn push_owner_of(
    out: &mut String,
    owner: Option<ConnectionReport>,
    lost: bool,
) -> Result<(), OutOfMemory>
    ensures { OnOk result (string_bytes out.new ≡ string_bytes out.old ++ seen_owner owner lost) }
{
    match owner {
        Some(report) => {
            push_text(out, "of ")?;
            push_node(out, report.peer)?;
            push_text(out, mode_text(report.mode))
        }
        None if lost => push_text(out, "lost"),
        None => push_text(out, "none"),
    }
}

/// The words of a mode.
fn mode_text(mode: Option<Mode>) -> &'static str
    ensures { result.now ≡ mode_text mode }
{
    match mode {
        Some(Mode::Run) => " run",
        Some(Mode::Idle) => " idle",
        None => " without data",
    }
}
