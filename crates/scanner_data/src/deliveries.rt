//! Datagrams that slots receive.

ghost use Rattle.std.specs.Prelude.{◌≡◌, ◌≤◌, ◌^◌, length, find, Some, IfOk, IfSome, if◌then◌else◌};
ghost use Rattle.std.specs.Option.{option_map};
ghost use Rattle.cip_datagram.specs.Datagram.{view_datagram};
ghost use Rattle.cip_events.specs.Answers.{plain_answer};
ghost use Rattle.cip_events.specs.declared.event.Verdict.TheVariants.{Delivered};
ghost use Rattle.cip_events.specs.declared.event.Delivery.TheVariants as delivery;
ghost use Rattle.cip_productions.specs.Acceptance.{is_duplicate};
ghost use Rattle.scanner_table.specs.declared.slot.SlotState.TheVariants as state;
ghost use Rattle.scanner_table.specs.Slots.{indexed_slots};
ghost use Rattle.scanner_table.specs.Datagrams.{is_for, accepts_at, state_received, received_at, received};
ghost use Rattle.scanner_table.specs.WellFormed.{IsWellFormed};
ghost use Rattle.scanner_slots.specs.Views.{view_slot, table_of};
ghost use Rattle.scanner_table.specs.Opening.{later};
ghost use Rattle.scanner_data.specs.Results.{judged, recorded_state, view_judgement};
ghost use Rattle.scanner_slots.specs.Bounding.{IsHinted};

use cip_datagram::{Datagram, read_datagram};
use cip_events::Delivery;
use cip_productions::{Accepted, accepts_number, is_duplicate, pace_of, since_accepted};
use cip_types::{ConnId, Ms, Node};
use scanner_slots::{
    Hints, ScannerState, SlotTest, SlotView, accepted_datagrams_keep_bounds,
    bounds_are_kept_by_earlier_ones, find_slot, found_consumers_are_first, is_for, slot_at,
};
use scanner_table::{ScannerProfile, Slot, SlotConnection, SlotState};

/// Returns the deadline of a connection that accepts a datagram at a time.
///
/// Volume 1, chapter 3, inactivity watchdog.
fn deadline_after(clock: Ms, watchdog: Ms) -> Ms
    requires waits { watchdog.0 ≤ 5120000 }
    requires time { clock.0 ≤ 2 ^ 48 }
    ensures { result ≡ later clock watchdog.0 }
{
    Ms(clock.0 + watchdog.0)
}

/// Whether a slot's connection accepts a number at this time: it is newer than the last accepted one, and near it.
fn accepts_at(
    profile: &ScannerProfile,
    scanner: &ScannerState,
    indexed: SlotView<'_>,
    connection: &SlotConnection,
    number: u32,
) -> bool
    ensures { result
        ≡ accepts_at (table_of profile.now scanner.now) (view_slot indexed.entry) connection.now number }
{
    let config = indexed.config;
    let pace = pace_of(config.trigger, connection.t_o_api_ms, config.inhibit);
    let since = since_accepted(scanner.clock, connection.watchdog, connection.deadline);
    accepts_number(profile.newer, since, pace, connection.last, number)
}

/// Returns the connection of a slot if it accepts a datagram at this time: the datagram has the size of the input, and its
/// sequence number is newer than the last accepted one, and not farther ahead of it than the profile allows. The error is
/// the delivery of a datagram that is not accepted.
fn accepting<'a>(
    profile: &ScannerProfile,
    scanner: &ScannerState,
    indexed: SlotView<'a>,
    datagram: &Datagram<'_>,
) -> Result<&'a SlotConnection, Delivery>
    ensures judged { state_received (table_of profile.now scanner.now) (view_slot indexed.entry)
        (view_datagram datagram.now) indexed.entry.slot.now.state
        ≡ judged (table_of profile.now scanner.now) (view_slot indexed.entry) (view_datagram datagram.now)
        (view_judgement result) }
    ensures established { IfOk result
        (λ connection. indexed.entry.slot.now.state ≡ state.Established connection.now) }
    ensures size { IfOk result (λ _. length datagram.now.«data».now ≡ indexed.entry.config.now.in_len) }
{
    let SlotState::Established(connection) = &indexed.slot.state else {
        return Err(Delivery::UnknownId);
    };
    if datagram.data.len() as u64 != indexed.config.in_len {
        return Err(Delivery::WrongSize);
    }
    if !accepts_at(profile, scanner, indexed, connection, datagram.sequence) {
        return Err(Delivery::Old);
    }
    Ok(connection)
}

/// Records the sequence number and the count of a datagram that an established connection accepts, and its new deadline.
fn record_accepted(state: &mut SlotState, deadline: Ms, datagram: &Datagram<'_>)
    ensures { state.new ≡ recorded_state deadline (view_datagram datagram.now) state.old }
{
    if let SlotState::Established(connection) = state {
        connection.last = Some(Accepted {
            number: datagram.sequence,
            count: datagram.count,
        });
        connection.deadline = deadline;
    }
}

/// Records a datagram that a slot's connection accepts, with its new deadline, and copies its data to the image if they are
/// new.
fn gather(
    slot: &mut Slot,
    last: Option<Accepted>,
    deadline: Ms,
    datagram: &Datagram<'_>,
) -> Delivery
    requires size { length slot.old.image ≡ length (view_datagram datagram.now).payload }
    ensures delivery { result
        ≡ (if is_duplicate last datagram.now.count then delivery.Duplicate else delivery.Applied) }
    ensures slot { slot.new
        ≡ record slot.old { state = recorded_state deadline (view_datagram datagram.now) slot.old.state; image = if is_duplicate last datagram.now.count then slot.old.image else (view_datagram datagram.now).payload } }
{
    record_accepted(&mut slot.state, deadline, datagram);
    if is_duplicate(last, datagram.count) {
        return Delivery::Duplicate;
    }
    slot.image.overwrite(datagram.data);
    Delivery::Applied
}

/// Returns the remembered slot if a datagram of a peer with this id is for it.
#[inline(always)]
fn remembered<'a>(
    profile: &'a ScannerProfile,
    scanner: &'a ScannerState,
    number: u32,
    peer: Node,
    id: ConnId,
) -> Option<SlotView<'a>>
    requires whole { IsWellFormed (table_of profile.now scanner.now) }
    ensures { IfSome result
        (λ indexed. find (is_for peer id.0) (indexed_slots (table_of profile.now scanner.now))
        ≡ Some (view_slot indexed)) }
{
    // No other slot is for it either.
    found_consumers_are_first();
    let Some(indexed) = slot_at(profile.slots.as_slice(), &scanner.slots, number) else {
        return None;
    };
    if is_for(indexed, peer, id) {
        return Some(indexed);
    }
    None
}

/// Searches all slots for the one that a datagram of a peer with this id is for, and remembers it.
fn search<'a, H: Hints>(
    profile: &'a ScannerProfile,
    scanner: &'a ScannerState,
    hints: &mut H,
    peer: Node,
    id: ConnId,
) -> Option<SlotView<'a>>
    requires whole { IsWellFormed (table_of profile.now scanner.now) }
    ensures found { option_map view_slot result
        ≡ find (is_for peer id.0) (indexed_slots (table_of profile.now scanner.now)) }
    ensures hints { H.bounds hints.new ≡ H.bounds hints.old }
{
    let test = SlotTest::For(peer, id);
    let Some(indexed) = find_slot(profile.slots.as_slice(), &scanner.slots, test) else {
        return None;
    };
    hints.remember_consumer(id, indexed.number);
    Some(indexed)
}

/// Returns the slot that a datagram of a peer with this id is for: the remembered one if it is, or the one that a search
/// finds.
fn consumer<'a, H: Hints>(
    profile: &'a ScannerProfile,
    scanner: &'a ScannerState,
    hints: &mut H,
    peer: Node,
    id: ConnId,
) -> Option<SlotView<'a>>
    requires whole { IsWellFormed (table_of profile.now scanner.now) }
    ensures found { option_map view_slot result
        ≡ find (is_for peer id.0) (indexed_slots (table_of profile.now scanner.now)) }
    ensures hints { H.bounds hints.new ≡ H.bounds hints.old }
{
    if let Some(number) = hints.consumer(id) {
        if let Some(indexed) = remembered(profile, scanner, number, peer, id) {
            return Some(indexed);
        }
    }
    search(profile, scanner, hints, peer, id)
}

/// Delivers a datagram to the slot that it is for, if there is one.
fn receive_read<H: Hints>(
    profile: &ScannerProfile,
    scanner: &mut ScannerState,
    hints: &mut H,
    peer: Node,
    datagram: &Datagram<'_>,
) -> Delivery
    requires whole { IsWellFormed (table_of profile.now scanner.old) }
    ensures step { (plain_answer (Delivered result), table_of profile.now scanner.new)
        ≡ received_at (table_of profile.now scanner.old) (view_datagram datagram.now)
        (find (is_for peer datagram.now.connection.0) (indexed_slots (table_of profile.now scanner.old))) }
    ensures hints { IsHinted (H.bounds hints.old) (table_of profile.now scanner.old)
        → IsHinted (H.bounds hints.new) (table_of profile.now scanner.new) }
{
    // The bounds stay true of the slot with its new deadline.
    accepted_datagrams_keep_bounds();
    bounds_are_kept_by_earlier_ones();
    let Some(indexed) = consumer(profile, scanner, hints, peer, datagram.connection) else {
        return Delivery::UnknownId;
    };
    let number = indexed.number as usize;
    match accepting(profile, scanner, indexed, datagram) {
        Err(delivery) => delivery,
        Ok(connection) => {
            let last = connection.last;
            let deadline = deadline_after(scanner.clock, connection.watchdog);
            hints.await_deadline(deadline);
            gather(&mut scanner.slots[number], last, deadline, datagram)
        }
    }
}

/// Delivers a datagram of a peer. It is for the established slot of the peer with the datagram's connection id. The slot
/// accepts it if it has the size of the slot's input and a newer sequence number than the last accepted one, which is not
/// farther ahead of that than the profile allows. The slot then starts its watchdog anew, and its image becomes the data,
/// unless the count is that of the last accepted datagram. Takes no memory.
///
/// Volume 1, chapter 3, class 1 transport and connection timeouts; Volume 2, chapter 2, sequenced address item.
#[tactic(auto, unfolding(scanner_table::specs::Datagrams::received))]
pub fn receive<H: Hints>(
    profile: &ScannerProfile,
    scanner: &mut ScannerState,
    hints: &mut H,
    peer: Node,
    bytes: &[u8],
) -> Delivery
    requires whole { IsWellFormed (table_of profile.now scanner.old) }
    ensures step { (plain_answer (Delivered result), table_of profile.now scanner.new)
        ≡ received (table_of profile.now scanner.old) peer bytes.now }
    ensures hints { IsHinted (H.bounds hints.old) (table_of profile.now scanner.old)
        → IsHinted (H.bounds hints.new) (table_of profile.now scanner.new) }
{
    match read_datagram(bytes) {
        Err(_) => Delivery::Malformed,
        Ok(datagram) => receive_read(profile, scanner, hints, peer, &datagram),
    }
}
