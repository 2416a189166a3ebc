//! The slots whose connection's deadline has come, in the order of their deadlines.

ghost use Rattle.std.specs.Prelude.{◌≡◌, ◌≤◌, ◌^◌, IfOk, filter, length, map};
ghost use Rattle.cip_types.specs.Order.{in_order};
ghost use Rattle.scanner_table.specs.Slots.{indexed_from};
ghost use Rattle.scanner_table.specs.Ticks.{by_deadline, deadline_of, has_expired};
ghost use Rattle.scanner_slots.specs.Views.{slot_number, view_slot};

use crate::indexed_slots::SlotView;
use crate::search::{SlotTest, slots_that};
use cip_types::{Ms, Order, OutOfMemory, sorted};
use scanner_table::{Slot, SlotConfig, SlotState};
use std::alloc::Global;

/// Returns the deadline of a state, and 0 for a state without one.
fn deadline_of(state: &SlotState) -> u64
    ensures { result ≡ deadline_of state.now }
{
    match state {
        SlotState::Opening(opening) => opening.deadline.0,
        SlotState::Established(connection) => connection.deadline.0,
        SlotState::Closing(closing) => closing.deadline.0,
        SlotState::Idle | SlotState::TimedOut(_) => 0,
    }
}

/// The order by deadlines, and then by the numbers of slots.
struct BySlotDeadline;

impl<'a> Order<SlotView<'a>> for BySlotDeadline {
    ghost before = { λ _ indexed other. by_deadline (view_slot indexed) (view_slot other) };

    fn is_before(&self, item: &SlotView<'a>, other: &SlotView<'a>) -> bool {
        let deadline = deadline_of(&item.slot.state);
        let later = deadline_of(&other.slot.state);
        deadline < later || (deadline == later && item.number < other.number)
    }
}

fn numbers_of(alloc: Global, indexed_slots: &[SlotView<'_>]) -> Result<Vec<u32>, OutOfMemory>
    ensures { IfOk result (λ numbers. numbers.items ≡ map slot_number (map view_slot indexed_slots.now)) }
{
    let mut numbers = Vec::new(alloc);
    for indexed in indexed_slots {
        numbers.push(indexed.number)?;
    }
    Ok(numbers)
}

/// Returns the numbers of the slots whose connection's deadline has come at a time, in the order of the deadlines.
/// `OutOfMemory` is the only error.
///
/// Volume 1, chapter 3, connection timeouts.
pub fn expired_numbers(
    alloc: Global,
    configs: &[SlotConfig],
    slots: &[Slot],
    clock: Ms,
) -> Result<Vec<u32>, OutOfMemory>
    requires { length configs.now ≤ 2 ^ 32 }
    ensures { IfOk result
        (λ numbers. numbers.items
        ≡ map slot_number (in_order by_deadline (filter (has_expired clock) (indexed_from 0 configs.now slots.now)))) }
{
    let found = slots_that(alloc, configs, slots, SlotTest::Expired(clock))?;
    let ordered = sorted(alloc, &found, &BySlotDeadline)?;
    numbers_of(alloc, &ordered)
}
