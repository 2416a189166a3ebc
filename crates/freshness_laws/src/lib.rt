//! Laws of the age of what a device holds: no output of an adapter and no image of a scanner is older than its watchdog. A law call
//! does nothing; its contract states the law.
//!
//! Time is that of the device's own ticks. The laws hold after every run of a fresh device whose profile has no fault, over the
//! events that found memory.
#![tactic(auto)]

mod images;
mod outputs;

pub use images::{images_hold_newest_data, slots_accept_in_time};
pub use outputs::{connections_accept_in_time, outputs_are_no_older_than_their_watchdog};
