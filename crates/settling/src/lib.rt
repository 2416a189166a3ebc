//! The account of receipts: each event of the histories has one, which fits, and a schedule has them all.
//!
//! `search` finds the schedule: it has histories alone, and names no receipt.
#![tactic(auto)]

mod marks;
mod receipts;
mod search;
mod settled;
mod shared_ids;

pub use search::{Unplaced, byte_at, byte_of, check_configs, find_schedule, lower_of};
pub use settled::{Settled, Unsettled, settle};
pub use shared_ids::find_shared_ids;
