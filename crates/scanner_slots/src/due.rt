//! When slots are due, if only time passes.

ghost use Rattle.std.specs.Prelude.{◌≡◌, ◌<◌, ◌≤◌, ◌+◌, ◌^◌, if◌then◌else◌, length, filter, None};
ghost use Rattle.cip_tables.specs.Wakes.{has_session, can_ask, retry_due, slot_due, slots_due};
ghost use Rattle.scanner_table.specs.Opening.{opens_at, has_place, open_session, asking_in};
ghost use Rattle.cip_types.specs.declared.names.Node.{Node};
ghost use Rattle.scanner_table.specs.declared.table.ScannerTable.{ScannerTable};
ghost use Rattle.scanner_table.specs.Profiles.{profile_fault};
ghost use Rattle.scanner_table.specs.Sessions.{session_with};
ghost use Rattle.scanner_table.specs.Slots.{indexed_from, indexed_slots};
ghost use Rattle.scanner_slots.specs.Views.{view_slot, table_of};
ghost use Rattle.scanner_slots.specs.Bounding.{IsTimed, all_bounds};

use crate::search::is_with;
use crate::states::{is_opening, needs_request};
use crate::{ScannerState, SlotView, session_with};
use cip_types::{Ms, Node};
use scanner_table::{ScannerProfile, Session, Slot, SlotConfig, SlotState, TargetStream};

/// Whether a session with the target is registered on one of the streams.
pub(crate) fn has_session(streams: &[TargetStream], target: Node) -> bool
    ensures { result ≡ has_session streams.now target }
{
    session_with(streams, target).is_some()
}

/// Whether a slot has sent a Forward_Open to a target, and waits for the reply.
fn opens_at(indexed: SlotView<'_>, target: Node) -> bool
    ensures { result ≡ opens_at target (view_slot indexed.entry) }
{
    is_with(indexed, target) && is_opening(&indexed.slot.state)
}

/// One more, if it is so.
fn counted(count: u32, more: bool) -> u32
    requires { count < 4294967295 }
    ensures { result ≡ (if more then count + 1 else count) }
{
    if more { count + 1 } else { count }
}

/// How many slots wait for the reply of a target to their Forward_Open.
fn openings_at(configs: &[SlotConfig], slots: &[Slot], target: Node) -> u32
    requires { length configs.now ≤ 64 }
    ensures { result ≡ length (filter (opens_at target) (indexed_from 0 configs.now slots.now)) }
{
    let mut count = 0;
    for index in 0..configs.len().min(slots.len()) {
        let indexed = SlotView {
            number: index as u32,
            config: &configs[index],
            slot: &slots[index],
        };
        count = counted(count, opens_at(indexed, target));
    }
    count
}

/// Whether fewer openings wait for replies of a target than the profile allows at one time.
fn has_place(profile: &ScannerProfile, scanner: &ScannerState, target: Node) -> bool
    requires { profile_fault profile.now ≡ None }
    ensures { result ≡ has_place (table_of profile.now scanner.now) target }
{
    match profile.openings {
        Some(most) => openings_at(profile.slots.as_slice(), &scanner.slots, target)
            < u32::from(most),
        None => true,
    }
}

/// The session in which a slot of a target opens: none if none is registered, or the slot waits for its turn. Takes no memory.
///
/// Volume 2, chapter 2, encapsulation sessions over TCP.
pub fn open_session(
    profile: &ScannerProfile,
    scanner: &ScannerState,
    target: Node,
) -> Option<Session>
    requires { profile_fault profile.now ≡ None }
    ensures { result ≡ open_session (table_of profile.now scanner.now) target }
{
    if has_place(profile, scanner, target) {
        return session_with(&scanner.streams, target);
    }
    None
}

/// Whether a slot in this state opens only in its turn. A tidy one that timed out closes its connection at once.
fn takes_turn(profile: &ScannerProfile, state: &SlotState) -> bool
    ensures { (t : ScannerTable) (target : Node) → t.profile ≡ profile.now
        → asking_in t target state.now ≡ (if result then open_session t target else session_with t target) }
{
    match state {
        SlotState::TimedOut(_) => !profile.tidy,
        SlotState::Idle
        | SlotState::Opening(_)
        | SlotState::Established(_)
        | SlotState::Closing(_) => true,
    }
}

/// Whether a slot can open, or close a connection that timed out.
fn can_ask(profile: &ScannerProfile, scanner: &ScannerState, indexed: SlotView<'_>) -> bool
    requires { profile_fault profile.now ≡ None }
    ensures { result ≡ can_ask (table_of profile.now scanner.now) (view_slot indexed.entry) }
{
    let target = indexed.config.target;
    if takes_turn(profile, &indexed.slot.state) {
        return open_session(profile, scanner, target).is_some();
    }
    has_session(&scanner.streams, target)
}

/// When a slot opens, or closes a connection that timed out; `u64::MAX` if it does not, or cannot ask its target.
fn retry_due(profile: &ScannerProfile, scanner: &ScannerState, indexed: SlotView<'_>) -> u64
    requires { profile_fault profile.now ≡ None }
    ensures { result ≡ retry_due (can_ask (table_of profile.now scanner.now)) (view_slot indexed.entry) }
{
    if needs_request(indexed.slot) && can_ask(profile, scanner, indexed) {
        return indexed.slot.retry_at.0;
    }
    u64::MAX
}

/// When a slot is due: its request is given up, its connection times out or produces, or it opens.
fn slot_due(profile: &ScannerProfile, scanner: &ScannerState, indexed: SlotView<'_>) -> u64
    requires { profile_fault profile.now ≡ None }
    ensures { result ≡ slot_due (can_ask (table_of profile.now scanner.now)) (view_slot indexed.entry) }
{
    match &indexed.slot.state {
        SlotState::Opening(opening) => opening.deadline.0,
        SlotState::Established(connection) => {
            connection.deadline.0.min(connection.production.due.0)
        }
        SlotState::Closing(closing) => closing.deadline.0,
        SlotState::Idle | SlotState::TimedOut(_) => retry_due(profile, scanner, indexed),
    }
}

fn first_among(
    profile: &ScannerProfile,
    scanner: &ScannerState,
    configs: &[SlotConfig],
    slots: &[Slot],
) -> u64
    requires faultless { profile_fault profile.now ≡ None }
    requires few { length configs.now ≤ 2 ^ 32 }
    ensures { result ≡ slots_due (can_ask (table_of profile.now scanner.now)) (indexed_from 0 configs.now slots.now) }
{
    let mut first = u64::MAX;
    for index in 0..configs.len().min(slots.len()) {
        let indexed = SlotView {
            number: index as u32,
            config: &configs[index],
            slot: &slots[index],
        };
        first = first.min(slot_due(profile, scanner, indexed));
    }
    first
}

/// When the first of the slots is due; `u64::MAX` if none is. Takes no memory.
///
/// Volume 1, chapter 3, connection timeouts and class 1 transport.
pub fn first_due(profile: &ScannerProfile, scanner: &ScannerState) -> Ms
    requires { profile_fault profile.now ≡ None }
    ensures due { let t = table_of profile.now scanner.now in result.0 ≡ slots_due (can_ask t) (indexed_slots t) }
    // No time of a slot that can ask its target comes before.
    ensures timed { IsTimed (all_bounds result) (table_of profile.now scanner.now) }
{
    Ms(first_among(profile, scanner, profile.slots.as_slice(), &scanner.slots))
}
