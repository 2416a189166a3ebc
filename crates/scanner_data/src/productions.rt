//! The datagrams that slots send.

ghost use Rattle.std.specs.Prelude.{◌≡◌, ◌≤◌, All, ◌^◌, ◌+◌, ◌++◌, ◌∷◌, [], OnOk, map, filter, length, IfOk};
ghost use Rattle.std.specs.List.{filter_map};
ghost use Rattle.cip_types.specs.Order.{in_order};
ghost use Rattle.cip_productions.specs.Productions.{sent};
ghost use Rattle.scanner_table.specs.declared.profile.ScannerProfile.{ScannerProfile};
ghost use Rattle.scanner_table.specs.declared.slot.Slot.{Slot};
ghost use Rattle.scanner_table.specs.Slots.{indexed_from};
ghost use Rattle.scanner_table.specs.Productions.{connection_production, slot_production, is_due, due_of, by_due, due_productions, produced_connection, produced_slot, produced_table};
ghost use Rattle.scanner_table.specs.WellFormed.{IsWellFormed};
ghost use Rattle.scanner_slots.specs.declared.indexed_slots.SlotView.{SlotView};
ghost use Rattle.scanner_slots.specs.Views.{view_slot, table_of};
ghost use Rattle.scanner_slots.specs.Bounding.{at_time};
ghost use Rattle.scanner_data.specs.Turns.{due_in_turn, datagrams_in_turn};

use crate::written::written;
use cip_events::{Consumers, OutgoingDatagram};
use cip_productions::{is_production_due, produced};
use cip_types::{Ms, Order, OutOfMemory, sorted};
use scanner_slots::{ScannerState, SlotTest, SlotView, is_due, slots_go_on, slots_that};
use scanner_table::{ScannerProfile, Slot, SlotConfig, SlotConnection, SlotState};
use std::alloc::Global;

fn due_of(state: &SlotState) -> u64
    ensures { result ≡ due_of state.now }
{
    match state {
        SlotState::Established(connection) => connection.production.due.0,
        SlotState::Idle | SlotState::Opening(_) | SlotState::TimedOut(_) | SlotState::Closing(_) =>
            0,
    }
}

/// The order by due times, and then by the numbers of slots.
struct ByDue;

impl<'a> Order<SlotView<'a>> for ByDue {
    ghost before = { λ _ indexed other. by_due (view_slot indexed) (view_slot other) };

    fn is_before(&self, item: &SlotView<'a>, other: &SlotView<'a>) -> bool {
        let (due, later) = (due_of(&item.slot.state), due_of(&other.slot.state));
        due < later || (due == later && item.number < other.number)
    }
}

/// Makes the next datagram of a slot's connection, for its target alone.
fn outgoing(
    alloc: Global,
    run: bool,
    indexed: SlotView<'_>,
    connection: &SlotConnection,
) -> Result<OutgoingDatagram, OutOfMemory>
    requires { length indexed.slot.now.output ≤ 65529 }
    ensures { IfOk result
        (λ outgoing. outgoing ≡ sent (connection_production run (view_slot indexed.entry) connection.now)) }
{
    let bytes = written(alloc, run, indexed, connection)?;
    Ok(OutgoingDatagram {
        address: connection.production.address,
        nodes: Consumers::one(indexed.config.target),
        bytes,
    })
}

/// Returns the due slots, in the order of their due times and then of their numbers.
fn due_slots<'a>(
    alloc: Global,
    configs: &'a [SlotConfig],
    slots: &'a [Slot],
    clock: Ms,
) -> Result<Vec<SlotView<'a>>, OutOfMemory>
    requires { length configs.now ≤ 2 ^ 32 }
    ensures { IfOk result
        (λ due. map view_slot due.items
        ≡ in_order by_due (filter (is_due clock) (indexed_from 0 configs.now slots.now))) }
{
    let due = slots_that(alloc, configs, slots, SlotTest::Due(clock))?;
    sorted(alloc, &due, &ByDue)
}

/// Adds the next datagram of a slot's connection, if it is established.
fn push_outgoing(
    alloc: Global,
    run: bool,
    indexed: SlotView<'_>,
    due_datagrams: &mut Vec<OutgoingDatagram>,
) -> Result<(), OutOfMemory>
    requires { length indexed.slot.now.output ≤ 65529 }
    ensures { OnOk result
        (due_datagrams.new.items ≡ due_datagrams.old.items
        ++ map sent (filter_map (slot_production run) (view_slot indexed.entry ∷ []))) }
{
    let SlotState::Established(connection) = &indexed.slot.state else {
        return Ok(());
    };
    due_datagrams.push(outgoing(alloc, run, indexed, connection)?)?;
    Ok(())
}

/// Returns the number of the due slots, if their due times are in the order of their numbers. Takes no memory.
fn due_in_turn(slots: &[Slot], clock: Ms) -> Option<usize>
    ensures { result ≡ due_in_turn clock 0 0 slots.now }
{
    let mut count = 0;
    let mut last = 0;
    for slot in slots {
        if !is_due(&slot.state, clock) {
            continue;
        }
        let due = due_of(&slot.state);
        if due < last {
            return None;
        }
        count += 1;
        last = due;
    }
    Some(count)
}

/// Adds the next datagram of a slot's connection, if it is due.
fn push_due(
    alloc: Global,
    run: bool,
    indexed: SlotView<'_>,
    clock: Ms,
    due_datagrams: &mut Vec<OutgoingDatagram>,
) -> Result<(), OutOfMemory>
    requires { length indexed.slot.now.output ≤ 65529 }
    ensures { OnOk result
        (due_datagrams.new.items ≡ due_datagrams.old.items
        ++ datagrams_in_turn run clock (view_slot indexed.entry ∷ [])) }
{
    if is_due(&indexed.slot.state, clock) {
        push_outgoing(alloc, run, indexed, due_datagrams)?;
    }
    Ok(())
}

/// Makes the next datagrams of the due slots, of this number, in the order of the numbers of slots.
fn datagrams_in_turn(
    alloc: Global,
    run: bool,
    configs: &[SlotConfig],
    slots: &[Slot],
    clock: Ms,
    count: usize,
) -> Result<Vec<OutgoingDatagram>, OutOfMemory>
    requires few { length configs.now ≤ 2 ^ 32 }
    requires short { All (λ (slot : Slot). length slot.output ≤ 65529) slots.now }
    ensures { IfOk result
        (λ due_datagrams. due_datagrams.items ≡ datagrams_in_turn run clock (indexed_from 0 configs.now slots.now)) }
{
    // The slots from a number on begin with the slot of that number.
    slots_go_on();
    let mut due_datagrams = Vec::with_capacity(alloc, count)?;
    for index in 0..configs.len().min(slots.len()) {
        let indexed = SlotView {
            number: index as u32,
            config: &configs[index],
            slot: &slots[index],
        };
        push_due(alloc, run, indexed, clock, &mut due_datagrams)?;
    }
    Ok(due_datagrams)
}

/// Makes the next datagrams of these slots' connections.
fn datagrams_of(
    alloc: Global,
    run: bool,
    indexed_slots: &[SlotView<'_>],
) -> Result<Vec<OutgoingDatagram>, OutOfMemory>
    requires { All (λ (indexed : SlotView). length indexed.slot.now.output ≤ 65529) indexed_slots.now }
    ensures { IfOk result
        (λ due_datagrams. due_datagrams.items
        ≡ map sent (filter_map (slot_production run) (map view_slot indexed_slots.now))) }
{
    let mut due_datagrams = Vec::with_capacity(alloc, indexed_slots.len())?;
    for indexed in indexed_slots {
        push_outgoing(alloc, run, *indexed, &mut due_datagrams)?;
    }
    Ok(due_datagrams)
}

/// Makes the datagrams of the slots that are due at a time: one each, to its target. `OutOfMemory` is the only error.
///
/// Volume 1, chapter 3, class 1 transport and real time formats; Volume 2, chapter 2, sequenced address item.
pub fn due_datagrams(
    alloc: Global,
    profile: &ScannerProfile,
    scanner: &ScannerState,
    clock: Ms,
) -> Result<Vec<OutgoingDatagram>, OutOfMemory>
    requires whole { IsWellFormed (table_of profile.now scanner.now) }
    ensures { IfOk result
        (λ due_datagrams. due_datagrams.items
        ≡ map sent (due_productions (at_time (table_of profile.now scanner.now) clock))) }
{
    let configs = profile.slots.as_slice();
    if let Some(count) = due_in_turn(&scanner.slots, clock) {
        return datagrams_in_turn(alloc, scanner.run, configs, &scanner.slots, clock, count);
    }
    let due = due_slots(alloc, configs, &scanner.slots, clock)?;
    datagrams_of(alloc, scanner.run, &due)
}

/// Records the production of a connection.
fn produce_connection(connection: &mut SlotConnection, clock: Ms)
    requires time { clock.0 ≤ 2 ^ 48 }
    requires due { connection.old.production.due.0 ≤ 2 ^ 48 + 10000 }
    ensures { connection.new ≡ produced_connection clock connection.old }
{
    connection.production = produced(connection.production, clock, connection.o_t_api_ms);
}

/// Records the production of a slot, if it was due.
fn produce_slot(slot: &mut Slot, clock: Ms)
    requires { clock.0 ≤ 2 ^ 48 }
    ensures { slot.new ≡ produced_slot clock slot.old }
{
    if let SlotState::Established(connection) = &mut slot.state {
        if is_production_due(&connection.production, clock) {
            produce_connection(connection, clock);
        }
    }
}

fn produce_slots(slots: &mut [Slot], clock: Ms)
    requires { clock.0 ≤ 2 ^ 48 }
    ensures { slots.new ≡ map (produced_slot clock) slots.old }
{
    for slot in slots.iter_mut() {
        produce_slot(slot, clock);
    }
}

fn produce_all(slots: &mut Vec<Slot>, clock: Ms)
    requires { clock.0 ≤ 2 ^ 48 }
    ensures { slots.new.items ≡ map (produced_slot clock) slots.old.items }
{
    produce_slots(slots, clock);
}

/// Moves the clock to a time, and records the productions of the due slots. Takes no memory.
///
/// Volume 1, chapter 3, class 1 transport.
#[tactic(auto, unfolding(scanner_table::specs::Productions::produced_table))]
pub fn produce(scanner: &mut ScannerState, clock: Ms)
    requires { clock.0 ≤ 2 ^ 48 }
    ensures { (profile : ScannerProfile)
        → table_of profile scanner.new ≡ produced_table (at_time (table_of profile scanner.old) clock) }
{
    scanner.clock = clock;
    produce_all(&mut scanner.slots, clock);
}
