//! The lines of the outcomes of a trace's events, as they are read and as they are written.
//!
//! `sums` are the sums of outcomes: one line for all the lines of one, with the CRC-32 of them.
#![tactic(auto)]

mod memory;
mod notice_lines;
mod part;
mod part_lines;
mod sums;
mod written_outcomes;

pub use memory::is_out_of_memory;
pub use part::Part;
pub use part_lines::read_part;
pub use sums::{OutcomeSum, PlacedSum, PlainVerdict, crc32, has_sum, push_sum, read_sum, sum_over};
pub use written_outcomes::{push_outcome, push_verdict, write_outcome};
