//! Searches among slots.

ghost use Rattle.std.specs.Prelude.{◌≡◌, ◌<◌, ◌≤◌, ◌^◌, find, filter, map, length, IfOk, IfSome};
ghost use Rattle.std.specs.Option.{option_map};
ghost use Rattle.std.specs.List.{list_any};
ghost use Rattle.scanner_table.specs.Slots.{is_with, indexed_from};
ghost use Rattle.scanner_table.specs.Datagrams.{is_for};
ghost use Rattle.scanner_table.specs.Encapsulation.{is_awaiting};
ghost use Rattle.scanner_table.specs.Replies.{uses_id};
ghost use Rattle.scanner_slots.specs.Views.{view_slot, passes};

use crate::indexed_slots::SlotView;
use crate::states::{consumes, has_expired, is_due, is_overdue, is_ready, waits_for};
use cip_types::{ConnId, Ms, Node, OutOfMemory};
use scanner_table::{Slot, SlotConfig};
use std::alloc::Global;

/// A test of a slot.
#[derive(Clone, Copy)]
pub enum SlotTest {
    /// The slot is established with this peer, and has this T->O id.
    For(Node, ConnId),
    /// The slot's connection is desired, is not open, and its retry time has come.
    Ready(Ms),
    /// The slot is of this target, and is ready to open at this time.
    ReadyWith(Node, Ms),
    /// The slot is of this target.
    With(Node),
    /// The slot is established, and its deadline has come.
    Expired(Ms),
    /// The deadline of the slot's request has come.
    Overdue(Ms),
    /// The slot is established, and its producer is due.
    Due(Ms),
}

/// Whether a slot is of this target.
pub(crate) fn is_with(indexed: SlotView<'_>, target: Node) -> bool
    ensures { result ≡ is_with target (view_slot indexed.entry) }
{
    indexed.config.target.0 == target.0
}

/// Returns whether the slot is established with this peer, and has this T->O id. Takes no memory.
///
/// Volume 2, chapter 2, sequenced address item.
pub fn is_for(indexed: SlotView<'_>, peer: Node, id: ConnId) -> bool
    ensures { result ≡ is_for peer id.0 (view_slot indexed.entry) }
{
    is_with(indexed, peer) && consumes(&indexed.slot.state, id)
}

fn is_awaiting(indexed: SlotView<'_>, target: Node, number: u64) -> bool
    ensures { result ≡ is_awaiting target number (view_slot indexed.entry) }
{
    is_with(indexed, target) && waits_for(&indexed.slot.state, number)
}

fn uses_id(indexed: SlotView<'_>, number: u32, target: Node, id: ConnId) -> bool
    ensures { result ≡ uses_id number target id (view_slot indexed.entry) }
{
    indexed.number != number && is_with(indexed, target) && consumes(&indexed.slot.state, id)
}

impl SlotTest {
    /// Returns whether a slot passes the test. Takes no memory.
    pub fn passes(self, indexed: SlotView<'_>) -> bool
        ensures { result ≡ passes self (view_slot indexed.entry) }
    {
        let state = &indexed.slot.state;
        match self {
            SlotTest::For(peer, id) => is_for(indexed, peer, id),
            SlotTest::Ready(clock) => is_ready(indexed.slot, clock),
            SlotTest::ReadyWith(target, clock) => {
                is_ready(indexed.slot, clock) && is_with(indexed, target)
            }
            SlotTest::With(target) => is_with(indexed, target),
            SlotTest::Expired(clock) => has_expired(state, clock),
            SlotTest::Overdue(clock) => is_overdue(state, clock),
            SlotTest::Due(clock) => is_due(state, clock),
        }
    }
}

/// Returns the first slot that passes the test, if any. Takes no memory.
pub fn find_slot<'a>(
    configs: &'a [SlotConfig],
    slots: &'a [Slot],
    test: SlotTest,
) -> Option<SlotView<'a>>
    requires { length configs.now ≤ 2 ^ 32 }
    ensures found { option_map view_slot result ≡ find (passes test) (indexed_from 0 configs.now slots.now) }
    ensures within { IfSome result
        (λ indexed. (indexed.number < length configs.now) × (indexed.number < length slots.now)) }
{
    for index in 0..configs.len().min(slots.len()) {
        let indexed = SlotView {
            number: index as u32,
            config: &configs[index],
            slot: &slots[index],
        };
        if test.passes(indexed) {
            return Some(indexed);
        }
    }
    None
}

/// Returns the slots that pass the test, in order. `OutOfMemory` is the only error.
pub fn slots_that<'a>(
    alloc: Global,
    configs: &'a [SlotConfig],
    slots: &'a [Slot],
    test: SlotTest,
) -> Result<Vec<SlotView<'a>>, OutOfMemory>
    requires { length configs.now ≤ 2 ^ 32 }
    ensures { IfOk result
        (λ found. map view_slot found.items ≡ filter (passes test) (indexed_from 0 configs.now slots.now)) }
{
    let mut found = Vec::new(alloc);
    for index in 0..configs.len().min(slots.len()) {
        let indexed = SlotView {
            number: index as u32,
            config: &configs[index],
            slot: &slots[index],
        };
        if test.passes(indexed) {
            found.push(indexed)?;
        }
    }
    Ok(found)
}

/// Returns the first slot that waits for the reply of this target to the request of this number, if any. Takes no memory.
///
/// Volume 2, chapter 2, sender context.
pub fn find_awaiting<'a>(
    configs: &'a [SlotConfig],
    slots: &'a [Slot],
    target: Node,
    request: u64,
) -> Option<SlotView<'a>>
    requires { length configs.now ≤ 2 ^ 32 }
    ensures found { option_map view_slot result
        ≡ find (is_awaiting target request) (indexed_from 0 configs.now slots.now) }
    ensures within { IfSome result
        (λ indexed. (indexed.number < length configs.now) × (indexed.number < length slots.now)) }
{
    for index in 0..configs.len().min(slots.len()) {
        let indexed = SlotView {
            number: index as u32,
            config: &configs[index],
            slot: &slots[index],
        };
        if is_awaiting(indexed, target, request) {
            return Some(indexed);
        }
    }
    None
}

/// Returns whether a slot of another number is established with this target and this T->O id. Takes no memory.
pub fn is_id_used(
    configs: &[SlotConfig],
    slots: &[Slot],
    number: u32,
    target: Node,
    id: ConnId,
) -> bool
    requires { length configs.now ≤ 2 ^ 32 }
    ensures { result ≡ list_any (uses_id number target id) (indexed_from 0 configs.now slots.now) }
{
    for index in 0..configs.len().min(slots.len()) {
        let indexed = SlotView {
            number: index as u32,
            config: &configs[index],
            slot: &slots[index],
        };
        if uses_id(indexed, number, target, id) {
            return true;
        }
    }
    false
}
