//! Laws of the age of outputs and images in every schedule of many devices. A law call does nothing; its contract states the law.
//!
//! Time is that of each device's own ticks. The laws are those of `freshness_laws`, of each device of a schedule.
#![tactic(auto)]

mod ages;

pub use ages::{images_are_no_older_than_their_watchdog, outputs_are_no_older_than_their_watchdog};
