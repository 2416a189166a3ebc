//! The table of a scanner: its profile and the check of the profile, its slots, and its streams. The definitions
//! in `specs` say what each event does to the table; `specs/Step` joins them to the step of a scanner. `specs/Whole` says
//! when a table is whole, with all that is true of it at every time, and the laws here say that a fresh table is whole and
//! that each step keeps it so. A law call does nothing; its contract states the law.
#![tactic(auto)]

mod copy;
mod counters;
mod explicit;
mod laws;
mod profile;
mod profile_check;
mod report;
mod slot;
mod slots;
mod table;
mod whole;

pub use copy::copy_of_slots;
pub use counters::{blocks_stay, counters_never_fall, numbers_are_below_the_next};
pub use explicit::{
    LONGEST_EXPLICIT, MOST_EXPLICIT, PendingExplicit, SHORTEST_EXPLICIT,
    explicit_requests_are_pending, replies_are_to_pending_requests,
};
pub use laws::{
    advancing_keeps_tables_well_formed, fresh_tables_are_well_formed, steps_keep_tables_well_formed,
};
pub use profile::{ScannerProfile, SlotConfig};
pub use profile_check::MOST_WAITING_OPENINGS;
pub use report::{SlotReport, TargetReport};
pub use slot::{PendingClose, PendingOpen, Slot, SlotConnection, SlotState};
pub use slots::{answers_are_waited_for_in_time, openings_take_turns, slots_produce_as_themselves};
pub use table::{ScannerTable, Session, Stage, TargetStream};
pub use whole::{
    fresh_tables_are_whole, later_counters_keep_tables_whole, steps_keep_tables_whole,
};
