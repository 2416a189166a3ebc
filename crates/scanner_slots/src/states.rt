//! How far the connection of a slot is.

ghost use Rattle.std.specs.Prelude.{◌≡◌};
ghost use Rattle.scanner_table.specs.Slots.{number_of, is_closed, is_opening, is_timed_out, needs_request, is_ready};
ghost use Rattle.scanner_table.specs.Ticks.{state_has_expired, state_is_overdue};
ghost use Rattle.scanner_table.specs.Productions.{state_is_due};
ghost use Rattle.scanner_table.specs.Replies.{state_consumes};
ghost use Rattle.scanner_table.specs.Encapsulation.{waits_for};

use cip_productions::is_production_due;
use cip_types::{ConnId, Ms};
use scanner_table::{Slot, SlotState};

/// The standard's number of a state.
///
/// Volume 1, chapter 3, connection object state.
pub fn number_of(state: &SlotState) -> u8
    ensures { result ≡ number_of state.now }
{
    match state {
        SlotState::Idle => 0,
        SlotState::Opening(_) => 2,
        SlotState::Established(_) => 3,
        SlotState::TimedOut(_) => 4,
        SlotState::Closing(_) => 6,
    }
}

fn is_closed(state: &SlotState) -> bool
    ensures { result ≡ is_closed state.now }
{
    match state {
        SlotState::Idle | SlotState::TimedOut(_) => true,
        SlotState::Opening(_) | SlotState::Established(_) | SlotState::Closing(_) => false,
    }
}

/// Whether a slot waits for the reply to its Forward_Open.
pub(crate) fn is_opening(state: &SlotState) -> bool
    ensures { result ≡ is_opening state.now }
{
    match state {
        SlotState::Opening(_) => true,
        SlotState::Idle
        | SlotState::Established(_)
        | SlotState::TimedOut(_)
        | SlotState::Closing(_) => false,
    }
}

fn is_timed_out(state: &SlotState) -> bool
    ensures { result ≡ is_timed_out state.now }
{
    match state {
        SlotState::TimedOut(_) => true,
        SlotState::Idle
        | SlotState::Opening(_)
        | SlotState::Established(_)
        | SlotState::Closing(_) => false,
    }
}

/// Whether the connection of a slot is desired, or has timed out and is not closed yet.
pub(crate) fn needs_request(slot: &Slot) -> bool
    ensures { result ≡ needs_request slot.now }
{
    slot.desired_up || is_timed_out(&slot.state)
}

/// Whether a slot needs a request, its connection is not open, and it may be tried now.
pub fn is_ready(slot: &Slot, clock: Ms) -> bool
    ensures { result ≡ is_ready clock slot.now }
{
    needs_request(slot) && is_closed(&slot.state) && slot.retry_at.0 <= clock.0
}

/// Whether a slot's connection is established, and its deadline has come.
///
/// Volume 1, chapter 3, connection timeouts.
pub fn has_expired(state: &SlotState, clock: Ms) -> bool
    ensures { result ≡ state_has_expired clock state.now }
{
    match state {
        SlotState::Established(connection) => connection.deadline.0 <= clock.0,
        SlotState::Idle | SlotState::Opening(_) | SlotState::TimedOut(_) | SlotState::Closing(_) =>
            false,
    }
}

/// Whether a slot has waited for an answer long enough.
pub fn is_overdue(state: &SlotState, clock: Ms) -> bool
    ensures { result ≡ state_is_overdue clock state.now }
{
    match state {
        SlotState::Opening(opening) => opening.deadline.0 <= clock.0,
        SlotState::Closing(closing) => closing.deadline.0 <= clock.0,
        SlotState::Idle | SlotState::Established(_) | SlotState::TimedOut(_) => false,
    }
}

/// Whether a slot's connection is established, and its producer is due.
///
/// Volume 1, chapter 3, class 1 transport.
pub fn is_due(state: &SlotState, clock: Ms) -> bool
    ensures { result ≡ state_is_due clock state.now }
{
    match state {
        SlotState::Established(connection) => is_production_due(&connection.production, clock),
        SlotState::Idle | SlotState::Opening(_) | SlotState::TimedOut(_) | SlotState::Closing(_) =>
            false,
    }
}

/// Whether a slot's connection is established, and has this T->O id.
///
/// Volume 2, chapter 2, sequenced address item.
pub fn consumes(state: &SlotState, id: ConnId) -> bool
    ensures { result ≡ state_consumes id state.now }
{
    match state {
        SlotState::Established(connection) => connection.link.t_o_id.0 == id.0,
        SlotState::Idle | SlotState::Opening(_) | SlotState::TimedOut(_) | SlotState::Closing(_) =>
            false,
    }
}

/// Whether a slot waits for the reply to the request of this number.
pub fn waits_for(state: &SlotState, number: u64) -> bool
    ensures { result ≡ waits_for number state.now }
{
    match state {
        SlotState::Opening(opening) => opening.request == number,
        SlotState::Closing(closing) => closing.request == number,
        SlotState::Idle | SlotState::Established(_) | SlotState::TimedOut(_) => false,
    }
}
