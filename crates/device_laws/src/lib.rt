//! Laws of one device, adapter or scanner: the owners of an output, the origin of connection ids, what
//! requests and replies say of them, what a device produces and in which order, that what is due happens, and what the limits of
//! an adapter's maker keep from its connections. A law call does nothing; its contract states the law.
//!
//! The laws of a scanner at the root speak of its table: in each step, and over every list of events. `scanner_runs` has the
//! laws of every run of a device that is a scanner. The laws by which a table stays whole are those of `scanner_table`, on which
//! devices stand; no device stands on the laws here.
#![tactic(auto)]

mod asking;
mod due_ticks;
mod id_provenance;
mod made_productions;
mod owners;
mod plain_frames;
mod reply_ids;
mod scanner_bytes;
mod scanner_deliveries;
mod scanner_openings;
pub mod scanner_runs;
mod scanner_ticks;
mod sending;
mod stated_limits;
mod states;
mod windows;

pub use asking::{new_connections_are_requested, scanners_ask_once};
pub use due_ticks::due_ticks_act;
pub use id_provenance::{
    class3_ids_are_carried, ids_are_carried, ids_are_drawn_with_openings,
    replies_establish_their_own_slot,
};
pub use made_productions::{
    answers_send_what_is_made, inputs_hold_what_is_written, openings_differ, runs_produce_in_order,
    slots_produce_their_outputs,
};
pub use owners::owners_follow_one_another;
pub use plain_frames::plain_devices_stay_plain;
pub use reply_ids::{
    a_scanners_streams_come_with_events, connections_keep_their_ids, replies_carry_opened_ids,
    scanners_ask_for_their_own_ids, scanners_send_no_success, slots_have_the_ids_of_their_success,
};
pub use scanner_bytes::bytes_are_from_scratch;
pub use scanner_deliveries::{
    accepted_numbers_are_newer, applied_data_are_new, openings_are_numbered,
    the_last_datagram_is_not_applied_again,
};
pub use scanner_openings::{
    ids_are_given_once, openings_draw_the_next_numbers, request_numbers_rise,
};
pub use scanner_table::{
    answers_are_waited_for_in_time, counters_never_fall, fresh_tables_are_whole,
    later_counters_keep_tables_whole, numbers_are_below_the_next, openings_take_turns,
    slots_produce_as_themselves, steps_keep_tables_whole,
};
pub use scanner_ticks::{
    cut_closes_are_kept, ticks_leave_none_late, timed_out_slots_wait_for_sessions,
};
pub use sending::devices_send_over_their_streams;
pub use stated_limits::{another_node_closes_nothing, numbers_far_ahead_change_nothing};
pub use states::{outputs_hold_newest_data, owners_are_said};
pub use windows::{
    near_numbers_are_accepted, near_numbers_are_accepted_by_slots, numbers_far_ahead_change_no_slot,
};
