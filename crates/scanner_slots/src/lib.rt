//! The slots of a scanner beside its profile: searches among them, bounds on their times, where datagrams were found last,
//! and the streams to their targets.
//!
//! Volume 1, chapter 3, connection object state and connection timeouts; Volume 2, chapter 2, encapsulation sessions over
//! TCP.
#![tactic(auto)]

mod bound_laws;
mod bounds;
mod due;
mod expired;
mod hints;
mod indexed_slots;
mod laws;
mod scanner;
mod search;
mod states;

pub use bound_laws::{
    accepted_datagrams_keep_bounds, bounds_are_kept_by_earlier_ones, bounds_hold_slot_by_slot,
    connections_rest_before_bounds, found_consumers_are_first, hints_are_times,
    producers_rest_before_bounds, writes_narrow_bounds,
};
pub use bounds::{Bounds, bounds_of, narrowed_at};
pub use due::{first_due, open_session};
pub use expired::expired_numbers;
pub use hints::{Hints, NoHints, SlotHints};
pub use indexed_slots::{SlotView, slot_at};
pub use laws::{found_slots_match, slots_go_on};
pub use scanner::{ScannerState, session_with, stage_streams};
pub use search::{SlotTest, find_awaiting, find_slot, is_for, is_id_used, slots_that};
pub use states::{is_due, number_of};
