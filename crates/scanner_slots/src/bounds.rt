//! Bounds on the times of slots.

ghost use Rattle.std.specs.Prelude.{◌≡◌, ◌<◌, ◌≤◌, ◌^◌, ◌&&◌, ◌||◌, nat_le, nat_lt, true, false, length, None};
ghost use Rattle.scanner_table.specs.Profiles.{profile_fault};
ghost use Rattle.scanner_table.specs.Slots.{indexed_from, is_closed};
ghost use Rattle.scanner_slots.specs.Views.{view_slot, table_of};
ghost use Rattle.scanner_slots.specs.Bounding.{can_retry, has_target, IsBounded, IsBoundedAt, AreBounded, IsHinted, IsNoLater};

use crate::due::has_session;
use crate::states::needs_request;
use crate::{ScannerState, SlotView, slot_at};
use cip_types::Ms;
use scanner_table::{ScannerProfile, Slot, SlotConfig, SlotState, TargetStream};

/// The end of time, which no clock reaches.
const NEVER: Ms = Ms(u64::MAX);

/// Times that no time of a slot comes before.
#[derive(Clone, Copy, PartialEq, Eq)]
pub struct Bounds {
    /// No connection times out, and no request is given up, before this time.
    pub deadlines: Ms,
    /// No slot whose target has a session opens before this time.
    pub retries: Ms,
    /// No producer is due before this time.
    pub dues: Ms,
}

/// The bounds where nothing happens.
const UNBOUNDED: Bounds = Bounds {
    deadlines: NEVER,
    retries: NEVER,
    dues: NEVER,
};

/// The retry time of a closed slot, if it opens at it.
fn retry_of(streams: &[TargetStream], indexed: SlotView<'_>) -> Ms
    requires { is_closed indexed.slot.now.state ≡ true }
    ensures { can_retry (has_target streams.now (view_slot indexed.entry)) (view_slot indexed.entry) ≡ true
        → result.0 ≤ indexed.entry.slot.now.retry_at.0 }
{
    if needs_request(indexed.slot) && has_session(streams, indexed.config.target) {
        return indexed.slot.retry_at;
    }
    NEVER
}

/// The times of one slot.
fn times_of(streams: &[TargetStream], indexed: SlotView<'_>) -> Bounds
    ensures { IsBounded result (has_target streams.now (view_slot indexed.entry)) (view_slot indexed.entry) }
{
    match &indexed.slot.state {
        SlotState::Opening(opening) => Bounds {
            deadlines: opening.deadline,
            ..UNBOUNDED
        },
        SlotState::Established(connection) => Bounds {
            deadlines: connection.deadline,
            dues: connection.production.due,
            ..UNBOUNDED
        },
        SlotState::Closing(closing) => Bounds {
            deadlines: closing.deadline,
            ..UNBOUNDED
        },
        SlotState::Idle | SlotState::TimedOut(_) => Bounds {
            retries: retry_of(streams, indexed),
            ..UNBOUNDED
        },
    }
}

fn earlier(time: Ms, other: Ms) -> Ms
    ensures first { result.0 ≤ time.0 }
    ensures second { result.0 ≤ other.0 }
{
    Ms(time.0.min(other.0))
}

impl Bounds {
    /// The earlier one of each two bounds.
    fn with(self, other: Bounds) -> Bounds
        ensures first { IsNoLater result self }
        ensures second { IsNoLater result other }
    {
        Bounds {
            deadlines: earlier(self.deadlines, other.deadlines),
            retries: earlier(self.retries, other.retries),
            dues: earlier(self.dues, other.dues),
        }
    }

    /// Whether a connection may change by this time: it may time out, be given up, or open.
    #[inline(always)]
    pub fn allow_changes(self, clock: Ms) -> bool
        ensures value { result ≡ (nat_le self.deadlines.0 clock.0 || nat_le self.retries.0 clock.0) }
        ensures none { result ≡ false → (clock.0 < self.deadlines.0) × (clock.0 < self.retries.0) }
    {
        self.deadlines.0 <= clock.0 || self.retries.0 <= clock.0
    }

    /// Whether nothing happens by this time: no connection may change, and no producer is due.
    #[inline(always)]
    pub fn are_after(self, clock: Ms) -> bool
        ensures value { result
            ≡ (nat_lt clock.0 self.deadlines.0 && (nat_lt clock.0 self.retries.0 && nat_lt clock.0 self.dues.0)) }
        ensures all { result ≡ true → (clock.0 < self.deadlines.0) × (clock.0 < self.retries.0)
            × (clock.0 < self.dues.0) }
    {
        clock.0 < self.deadlines.0 && clock.0 < self.retries.0 && clock.0 < self.dues.0
    }
}

/// The bounds after the slot of a number has changed: none is later than the slot's own times. Takes no memory.
///
/// Volume 1, chapter 3, connection timeouts and class 1 transport.
pub fn narrowed_at(
    bounds: Bounds,
    profile: &ScannerProfile,
    scanner: &ScannerState,
    number: u32,
) -> Bounds
    ensures earlier { IsNoLater result bounds }
    ensures slot { IsBoundedAt result (table_of profile.now scanner.now) number }
{
    match slot_at(profile.slots.as_slice(), &scanner.slots, number) {
        Some(indexed) => bounds.with(times_of(&scanner.streams, indexed)),
        None => bounds,
    }
}

fn bounds_among(streams: &[TargetStream], configs: &[SlotConfig], slots: &[Slot]) -> Bounds
    requires { length configs.now ≤ 2 ^ 32 }
    ensures { AreBounded result (has_target streams.now) (indexed_from 0 configs.now slots.now) }
{
    let mut bounds = UNBOUNDED;
    for index in 0..configs.len().min(slots.len()) {
        let indexed = SlotView {
            number: index as u32,
            config: &configs[index],
            slot: &slots[index],
        };
        bounds = bounds.with(times_of(streams, indexed));
    }
    bounds
}

/// The first deadline, the first retry that opens, and the first due time of the slots. Takes no memory.
///
/// Volume 1, chapter 3, connection timeouts and class 1 transport.
pub fn bounds_of(profile: &ScannerProfile, scanner: &ScannerState) -> Bounds
    requires { profile_fault profile.now ≡ None }
    ensures { IsHinted result (table_of profile.now scanner.now) }
{
    bounds_among(&scanner.streams, profile.slots.as_slice(), &scanner.slots)
}
